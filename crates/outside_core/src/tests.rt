use crate::{CallNumbers, FaultCount, WordsFault, command_words};
use base_types::{Failed, List};
use std::env::FillError;
use std::rt::Env;
use std::test::Fail;

#[test]
fn calls_fail_by_their_numbers(rt: HostRuntime) -> Result<(), Fail> {
    let alloc = rt.alloc();
    let mut failing = List::new(alloc);
    failing.push(1)?;
    failing.push(3)?;
    let mut calls = CallNumbers::new(failing);
    for works in [true, false, true, false, true] {
        assert_eq!(rt; calls.begin(), works);
    }
    let mut faults = FaultCount::new();
    assert_eq!(rt; faults.failed(), Failed);
    Ok(())
}

// A command line.
#[derive(Drop)]
struct Shell<'a> {
    words: &'a [&'a [u8]],
}

impl<'a> Env for Shell<'a> {
    fn arg(&self, i: usize, buf: &mut [u8]) -> Result<usize, FillError> {
        let Some(word) = self.words.get(i) else {
            return Err(FillError::NotPresent);
        };
        if word.len() > buf.len() {
            return Err(FillError::TooLong);
        }
        buf[..word.len()].copy_from_slice(word);
        Ok(word.len())
    }

    fn var(&self, _name: &str, _buf: &mut [u8]) -> Result<usize, FillError> {
        Err(FillError::NotPresent)
    }

    fn var_at(&self, _i: usize, _buf: &mut [u8]) -> Result<usize, FillError> {
        Err(FillError::NotPresent)
    }
}

#[test]
fn words_stand_behind_the_name(rt: HostRuntime) -> Result<(), Fail> {
    let words: [&[u8]; 3] = [b"agent", b"run", "überall".as_bytes()];
    let found = command_words(rt.alloc(), &Shell { words: &words }).unwrap_or(Vec::new(rt.alloc()));
    let shown: [&str; 2] = ["run", "überall"];
    assert_eq!(rt; found.len(), shown.len());
    for (word, want) in found.iter().zip(shown) {
        assert_eq!(rt; word.as_str(), want);
    }
    let torn: [&[u8]; 2] = [b"agent", b"\xff"];
    let found = command_words(rt.alloc(), &Shell { words: &torn });
    assert!(rt; matches!(found, Err(WordsFault::NotText)));
    Ok(())
}
