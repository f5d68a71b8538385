//! What a board over files takes, gives and keeps, as its stored run sees it from outside.
//!
//! The input goes to the output. Then parts of the file `probe.img`, of 32 bytes, go there: as they were,
//! behind a put and a sync, and as another board finds them behind two of each.
#![tactic(auto)]

use base_types::Failed;
use board_core::{Board, FileBoard};
use outside_core::Source;
use std::process::ExitCode;

const IMAGE: &str = "probe.img";

const SIZE: u64 = 32;

// Sends what is read, three bytes at a time.
fn copy_input<B: Board>(board: &mut B) -> Result<(), Failed> {
    for _ in 0..u64::MAX {
        let mut piece = [0; 3];
        let count = board.read(&mut piece)?;
        if count == 0 {
            return Ok(());
        }
        board.send(&piece[..count])?;
    }
    Ok(())
}

// Sends eight bytes of the image as a line.
fn show<B: Board>(board: &mut B, at: u64) -> Result<(), Failed> {
    if board.size() != SIZE || at > SIZE - 8 {
        return Err(Failed);
    }
    let mut bytes = [0; 8];
    board.load(at, &mut bytes)?;
    board.send(&bytes)?;
    board.send(b"\n")
}

// Puts a word into the image, and makes it durable.
fn put_word<B: Board>(board: &mut B, at: u64, word: [u8; 4]) -> Result<(), Failed> {
    if board.size() != SIZE || at > SIZE - 4 {
        return Err(Failed);
    }
    board.put(at, &word)?;
    board.sync()
}

fn change<B: Board>(board: &mut B) -> Result<(), Failed> {
    copy_input(board)?;
    show(board, 8)?;
    show(board, 0)?;
    put_word(board, 20, *b"LATE")?;
    show(board, 16)?;
    put_word(board, 4, *b"SOON")
}

fn show_all<B: Board>(board: &mut B) -> Result<(), Failed> {
    for at in [24, 16, 8, 0] {
        show(board, at)?;
    }
    Ok(())
}

fn main(rt: HostRuntime) -> ExitCode {
    if change(&mut FileBoard::new(&rt, IMAGE)).is_err() {
        return ExitCode::from(1);
    }
    match show_all(&mut FileBoard::new(&rt, IMAGE)) {
        Ok(()) => ExitCode::from(0),
        Err(_) => ExitCode::from(2),
    }
}
