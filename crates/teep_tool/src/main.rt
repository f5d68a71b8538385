//! A tool for the product's files: it shows what they hold.
//!
//! `teep_tool show FILE` prints the diagnostic text of the CBOR item that a file spells. The exit status
//! is the number of the run's status.
#![tactic(auto)]

mod file_host;
mod host;
mod memory_host;
mod run;
mod show;
mod status;
#[cfg(test)]
mod tests;
mod words;

pub use file_host::FileHost;
pub use host::{Host, HostFault};
pub use memory_host::{MemoryHost, Named};
use outside_core::{WordsFault, command_words};
pub use run::run_tool;
pub use status::Status;
use std::process::ExitCode;

fn main(rt: HostRuntime) -> ExitCode {
    let words = match command_words(rt.alloc(), &rt) {
        Ok(words) => words,
        Err(WordsFault::NotText) => return ExitCode::from(Status::Usage.number()),
        Err(WordsFault::NoMemory) => return ExitCode::from(Status::NoMemory.number()),
    };
    let mut host = FileHost::new(&rt, rt.alloc());
    ExitCode::from(run_tool(&rt, rt.alloc(), &words, &mut host))
}
