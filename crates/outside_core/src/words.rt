use std::alloc::Global;
use std::env;
use std::io::ErrorKind;
use std::rt::Env;

/// Why the words of a command line were not read.
#[derive(Clone, Copy, Debug, Eq, PartialEq)]
pub enum WordsFault {
    /// A word is no UTF-8.
    NotText,
    /// No memory was left.
    NoMemory,
}

/// The words of the command line behind the program's name.
///
/// `NoMemory` where no room was found for them, and `NotText` where one of them is no UTF-8. What a
/// shell has handed over is outside of all contracts.
pub fn command_words<R: Env>(alloc: Global, env: &R) -> Result<Vec<String>, WordsFault> {
    let all = match env::args(&(env, alloc)) {
        Ok(all) => all,
        Err(error) if error.kind() == ErrorKind::OutOfMemory => return Err(WordsFault::NoMemory),
        Err(_) => return Err(WordsFault::NotText),
    };
    let mut words = Vec::new(alloc);
    for word in all.skip(1) {
        if words.push(word).is_err() {
            return Err(WordsFault::NoMemory);
        }
    }
    Ok(words)
}
