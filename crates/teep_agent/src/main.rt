//! The agent of a device, over standard input, standard output and the image file `agent.img`.
//!
//! Its one command is `run`. The exit status is the number of the run's status.
#![tactic(auto)]

use agent_run::{Status, run_agent};
use board_core::FileBoard;
use outside_core::{WordsFault, command_words};
use std::process::ExitCode;

fn main(rt: HostRuntime) -> ExitCode {
    let words = match command_words(rt.alloc(), &rt) {
        Ok(words) => words,
        Err(WordsFault::NotText) => return ExitCode::from(Status::Usage.number()),
        Err(WordsFault::NoMemory) => return ExitCode::from(Status::NoMemory.number()),
    };
    let mut board = FileBoard::new(&rt, "agent.img");
    let status = run_agent(&rt, &words, &mut board);
    ExitCode::from(status.number())
}
