ghost use Rattle.std.specs.Prelude.{◌≡◌, ◌≢◌, ◌+◌, ◌≤◌, List as ListOf, ℕ, Some, None, length, slice_index};
ghost use Rattle.board_core.specs.Contents.{NothingPending};
ghost use Rattle.board_core.specs.Moments.{OldOrNew};
ghost use Rattle.board_core.specs.Gates.{shown};

use crate::{Board, FileBoard, MemoryBoard, write_gated};
use base_types::{Failed, List, Octets, OrMemory};
use outside_core::Source;
use std::alloc::Global;
use std::fs;
use std::test::Fail;

// Images of eight bytes stand here as numbers, the first byte highest, and so do shorter bytes.
fn number_of(bytes: &[u8]) -> u64 {
    let mut number: u64 = 0;
    for byte in bytes {
        number = number.wrapping_mul(256).wrapping_add(u64::from(*byte));
    }
    number
}

// A board with four bytes of input, read three at a time, of which one call is to fail.
fn board_of(alloc: Global, input: u32, image: u64, failing: u64) -> OrMemory<MemoryBoard> {
    let input = Octets::from_slice(alloc, &input.to_be_bytes())?;
    let image = Octets::from_slice(alloc, &image.to_be_bytes())?;
    let mut numbers = List::new(alloc);
    numbers.push(failing)?;
    MemoryBoard::new(alloc, input, image, 3, numbers)
}

fn read_piece<B: Board>(board: &mut B) -> Result<u64, Failed> {
    let mut piece = [0; 4];
    let count = board.read(&mut piece)?;
    Ok(number_of(&piece[..count]))
}

fn load_all<B: Board>(board: &mut B) -> Result<u64, Failed> {
    if board.size() != 8 {
        return Err(Failed);
    }
    let mut image = [0; 8];
    board.load(0, &mut image)?;
    Ok(number_of(&image))
}

// Puts the lower three bytes of a number.
fn put_three<B: Board>(board: &mut B, at: u64, number: u32) -> Result<u64, Failed> {
    if board.size() != 8 || at > 5 {
        return Err(Failed);
    }
    board.put(at, &number.to_be_bytes()[1..])?;
    Ok(0)
}

fn send_three<B: Board>(board: &mut B, number: u32) -> Result<u64, Failed> {
    board.send(&number.to_be_bytes()[1..])?;
    Ok(0)
}

fn sync<B: Board>(board: &mut B) -> Result<u64, Failed> {
    board.sync()?;
    Ok(0)
}

// Makes the call of this number, and gives what it gave.
fn make<B: Board>(board: &mut B, number: u64) -> Result<u64, Failed> {
    match number {
        1 => put_three(board, 1, 0x11_1213),
        2 => send_three(board, 0x21_2223),
        3 => sync(board),
        4 => put_three(board, 3, 0x31_3233),
        5 => load_all(board),
        _ => read_piece(board),
    }
}

// Makes eight calls: the number of the one that failed, or 8; and what the calls 0, 5 and 6 gave.
fn run<B: Board>(board: &mut B) -> [u64; 4] {
    let mut seen = [8, 0, 0, 0];
    for number in 0..8 {
        let place = match number {
            0 => 1,
            5 => 2,
            _ => 3,
        };
        match make(board, number) {
            Ok(0) => {}
            Ok(given) => seen[place] = given,
            Err(_) => seen[0] = number,
        }
    }
    seen
}

// What a stop leaves: the bytes sent, and the image.
fn left(board: &MemoryBoard, call: u64, mode: usize) -> Result<[u64; 2], Fail> {
    if mode > 3 {
        return Ok([0, 0]);
    }
    let (sent, image) = board.crash(call, mode as u8)?;
    Ok([number_of(sent.as_slice()), number_of(image.as_slice())])
}

const INPUT: u32 = 0x0a0b_0c0d;

const FIRST: u64 = 0x0102_0304_0506_0708;

// By the call that fails: what the load gives; what is sent, and what the image is in the end.
fn failures() -> [[u64; 4]; 7] {
    [
        [8, 0x0111_1231_3233_0708, 0x21_2223, 0x0111_1231_3233_0708],
        [0, 0x0111_1231_3233_0708, 0x21_2223, 0x0111_1231_3233_0708],
        [1, 0x0111_0331_3233_0708, 0x21_2223, 0x0111_0331_3233_0708],
        [2, 0x0111_1231_3233_0708, 0x21, 0x0111_1231_3233_0708],
        [3, 0x0111_1231_3233_0708, 0x21_2223, 0x0111_1231_3233_0708],
        [4, 0x0111_1231_0506_0708, 0x21_2223, 0x0111_1231_0506_0708],
        [5, 0, 0x21_2223, 0x0111_1231_3233_0708],
    ]
}

#[test]
fn a_call_that_fails_does_half_or_nothing(rt: HostRuntime) -> Result<(), Fail> {
    for [failing, loaded, sent, image] in failures() {
        let mut board = board_of(rt.alloc(), INPUT, FIRST, failing)?;
        let [failed, read, seen, more] = run(&mut board);
        assert_eq!(rt; [failed, seen], [failing, loaded]);
        assert_eq!(rt;
            [read, more],
            if failing == 0 {
                [0, 0x0d]
            } else {
                [0x0a_0b0c, 0x0d]
            }
        );
        assert_eq!(rt;
            left(&board, board.calls(), 2)?,
            [sent, image],
            "failing {failing}"
        );
    }
    Ok(())
}

// By the call that fails and the one that is stopped: what is sent in even and in odd modes, and what is left in each.
fn stops() -> [[u64; 8]; 9] {
    [
        [8, 0, 0, 0, FIRST, FIRST, FIRST, FIRST],
        [
            8,
            2,
            0,
            0x2122,
            FIRST,
            0x0111_1213_0506_0708,
            0x01a5_a5a5_0506_0708,
            0x015a_5a5a_0506_0708,
        ],
        [
            8,
            4,
            0x21_2223,
            0x21_2223,
            0x0111_1213_0506_0708,
            0x0111_1231_3233_0708,
            0x0111_12a5_a5a5_0708,
            0x0111_125a_5a5a_0708,
        ],
        [
            8,
            7,
            0x21_2223,
            0x21_2223,
            0x0111_1213_0506_0708,
            0x0111_1231_3233_0708,
            0x0111_12a5_a5a5_0708,
            0x0111_125a_5a5a_0708,
        ],
        [
            8,
            8,
            0x21_2223,
            0x21_2223,
            0x0111_1231_3233_0708,
            0x0111_1231_3233_0708,
            0x0111_1231_3233_0708,
            0x0111_1231_3233_0708,
        ],
        [
            1,
            1,
            0,
            0,
            FIRST,
            0x0111_0304_0506_0708,
            0x01a5_a5a5_0506_0708,
            0x015a_5a5a_0506_0708,
        ],
        [
            2,
            3,
            0x21,
            0x21,
            FIRST,
            0x0111_1213_0506_0708,
            0x01a5_a5a5_0506_0708,
            0x015a_5a5a_0506_0708,
        ],
        [
            3,
            4,
            0x21_2223,
            0x21_2223,
            FIRST,
            0x0111_1231_3233_0708,
            0x01a5_a5a5_a5a5_0708,
            0x015a_5a5a_5a5a_0708,
        ],
        [
            4,
            4,
            0x21_2223,
            0x21_2223,
            0x0111_1213_0506_0708,
            0x0111_1231_0506_0708,
            0x0111_12a5_a5a5_0708,
            0x0111_125a_5a5a_0708,
        ],
    ]
}

#[test]
fn a_stop_keeps_what_is_synced_and_plays_with_the_rest(rt: HostRuntime) -> Result<(), Fail> {
    for row in stops() {
        let mut board = board_of(rt.alloc(), INPUT, FIRST, row[0])?;
        let _ = run(&mut board);
        for mode in 0..4 {
            let want = [row[2 + mode % 2], row[4 + mode]];
            assert_eq!(rt; left(&board, row[1], mode)?, want, "mode {mode}");
        }
    }
    Ok(())
}

// Puts twice, loads between, and syncs.
fn put_twice<B: Board>(board: &mut B) -> Result<u64, Failed> {
    put_three(board, 5, 0x43_4445)?;
    put_three(board, 1, 0x41_4243)?;
    let between = load_three(board, 3)?;
    board.sync()?;
    Ok(between)
}

fn load_three<B: Board>(board: &mut B, at: u64) -> Result<u64, Failed> {
    if at > 5 || board.size() != 8 {
        return Err(Failed);
    }
    let mut bytes = [0; 3];
    board.load(at, &mut bytes)?;
    Ok(number_of(&bytes))
}

// What three loads of the file give behind two puts.
fn kept(rt: &HostRuntime, name: &str) -> Result<[u64; 3], Failed> {
    let between = put_twice(&mut FileBoard::new(rt, name))?;
    let mut fresh = FileBoard::new(rt, name);
    let late = load_three(&mut fresh, 5)?;
    let soon = load_three(&mut fresh, 1)?;
    Ok([between, late, soon])
}

#[test]
fn a_file_keeps_what_was_put(rt: HostRuntime) -> Result<(), Fail> {
    fs::write(&rt, "kept.image", &FIRST.to_be_bytes())?;
    let kept = kept(&rt, "kept.image");
    fs::remove_file(&rt, "kept.image")?;
    assert_eq!(rt; kept, Ok([0x43_0543, 0x43_4445, 0x41_4243]));
    Ok(())
}

// Whether a second board and a board of no file can sync, and then the first.
fn two_boards(rt: &HostRuntime, name: &str) -> [bool; 3] {
    let mut first = FileBoard::new(rt, name);
    let second = FileBoard::new(rt, name).sync().is_ok();
    let third = FileBoard::new(rt, "no such file").sync().is_ok();
    [second, third, first.sync().is_ok()]
}

#[test]
fn one_board_has_a_file(rt: HostRuntime) -> Result<(), Fail> {
    fs::write(&rt, "locked.image", &FIRST.to_be_bytes())?;
    let synced = two_boards(&rt, "locked.image");
    fs::remove_file(&rt, "locked.image")?;
    assert_eq!(rt; synced, [false, false, true]);
    Ok(())
}

// Whether a load of nothing works, a sync, and the load behind it.
fn lost(rt: &HostRuntime, name: &str) -> [bool; 3] {
    let mut board = FileBoard::new(rt, name);
    let before = board.load(0, &mut []).is_ok();
    let synced = board.sync().is_ok();
    [before, synced, board.load(0, &mut []).is_ok()]
}

// The system has this file for each process, for reading and writing, and refuses to sync it.
#[test]
fn nothing_is_done_behind_a_sync_that_failed(rt: HostRuntime) {
    assert_eq!(rt; lost(&rt, "/proc/self/comm"), [true, false, false]);
}

// Behind a gate that is shut, a crash at any moment leaves nothing of the bytes or all of them.
fn write_behind_gate<B: Board>(board: &mut B, bytes: &[u8]) -> Result<(), Failed>
    requires { 3 + length bytes.now ≤ (B.view board.old).extent }
    ensures { B.told → NothingPending (B.view board.old) → slice_index (B.view board.old).now.disk.bytes 1 ≢ 0xa5 →
        (sent image : ListOf ℕ) → (B.view board.new).left (B.view board.old).now.clock sent image →
        OldOrNew (λ l value. shown 1 0xa5 3 (length bytes.now) l ≡ value) None (Some bytes.now) (B.view board.old) sent image }
{
    write_gated(board, 3, bytes, 1, 0xa5)
}

fn write_two<B: Board>(board: &mut B, number: u16) -> Result<(), Failed> {
    if board.size() != 8 {
        return Err(Failed);
    }
    write_behind_gate(board, &number.to_be_bytes())
}

#[test]
fn a_gate_opens_behind_its_bytes(rt: HostRuntime) -> Result<(), Fail> {
    let mut board = board_of(rt.alloc(), INPUT, FIRST, 8)?;
    assert_eq!(rt; write_two(&mut board, 0x5152), Ok(()));
    // Put, sync, put, sync: what is durable inside the first sync, inside the second, and behind it.
    for [call, image] in [
        [1, FIRST],
        [3, 0x0102_0351_5206_0708],
        [4, 0x01a5_0351_5206_0708],
    ] {
        assert_eq!(rt; left(&board, call, 0)?, [0, image], "at {call}");
    }
    Ok(())
}
