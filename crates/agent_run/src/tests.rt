mod vectors;

use crate::{Status, run_agent};
use base_types::{FRAME_IN_LIMIT, List, Octets};
use board_core::MemoryBoard;
use component_store::{AnyStore, Config, Store, image_of, mount};
use std::alloc::Global;
use std::test::Fail;
use std::thread::Threads;
use vectors::{CONFIG, QUESTION, REPLY};

// A frame with a question that the manager signed.
fn question(alloc: Global) -> Result<Octets, Fail> {
    let mut frame = Octets::from_slice(alloc, &[0x01, 0, 0, 0x05, 0x36])?;
    frame.extend(&QUESTION)?;
    Ok(frame)
}

// The image of the device.
fn image(alloc: Global) -> Result<Octets, Fail> {
    Ok(image_of(alloc, &Config::read(alloc, &CONFIG)?)?)
}

// Runs the agent over a board whose reads give so many bytes at most, and whose calls of these
// numbers fail: the status, and the board.
fn ran<R: Threads + Sync + AllocGlobal>(
    rt: &R,
    words: &[&str],
    image: Octets,
    piece: usize,
    failing: &[u64],
    input: &[u8],
) -> Result<(Status, MemoryBoard), Fail> {
    let alloc = rt.alloc();
    let mut line = Vec::new(alloc);
    for word in words {
        line.push(String::from_str(alloc, word)?)?;
    }
    let input = Octets::from_slice(alloc, input)?;
    let failing = List::from_vec(Vec::from_slice(alloc, failing)?);
    let mut board = MemoryBoard::new(alloc, input, image, piece.max(1), failing)?;
    let status = run_agent(rt, &line, &mut board);
    Ok((status, board))
}

// The same: the status, and what was sent.
fn run<R: Threads + Sync + AllocGlobal>(
    rt: &R,
    words: &[&str],
    image: Octets,
    piece: usize,
    failing: &[u64],
    input: &[u8],
) -> Result<(Status, Octets), Fail> {
    let (status, board) = ran(rt, words, image, piece, failing, input)?;
    let (sent, _) = board.crash(board.calls(), 0)?;
    Ok((status, sent))
}

#[test]
fn inputs_have_their_output_and_status(rt: HostRuntime) -> Result<(), Fail> {
    let alloc = rt.alloc();
    let question = question(alloc)?;
    let question = question.as_slice();
    let mut two = Octets::from_slice(alloc, &[9, 0, 0, 0, 1, 7])?;
    two.extend(question)?;
    let mut replies = Octets::from_slice(alloc, &[0x82, 0, 0, 0, 1, 1])?;
    replies.extend(&REPLY)?;
    let table: [(&[u8], &[u8], u8); 6] = [
        (question, &REPLY, 0),
        (&[], &[], 0),
        (question.get(..12).unwrap_or(&[]), &[], 7),
        (&[1, 0x01, 0x00, 0x00, 0x01], &[], 8),
        (&[3, 0, 0, 0, 0, 9], &[0x82, 0, 0, 0, 1, 1], 7),
        (two.as_slice(), replies.as_slice(), 0),
    ];
    for (at, (input, want, number)) in table.iter().enumerate() {
        for piece in [1, 4096] {
            let (status, sent) = run(&rt, &["run"], image(alloc)?, piece, &[], input)?;
            assert_eq!(rt; status.number(), *number, "input {at}, piece {piece}");
            assert_eq!(rt; sent.as_slice(), *want, "input {at}, piece {piece}");
        }
    }
    Ok(())
}

#[test]
fn a_body_of_the_limit_is_read(rt: HostRuntime) -> Result<(), Fail> {
    let alloc = rt.alloc();
    let table: [([u8; 5], usize); 2] = [
        ([1, 0x00, 0x20, 0x00, 0x01], 2_097_153),
        ([1, 0x01, 0x00, 0x00, 0x00], FRAME_IN_LIMIT),
    ];
    for (head, length) in table {
        let mut input = Octets::from_slice(alloc, &head)?;
        input.extend(&vec![in alloc; 0u8; length]?)?;
        let (status, sent) = run(&rt, &["run"], image(alloc)?, 4096, &[], input.as_slice())?;
        assert_eq!(rt; status, Status::Done, "{length} bytes");
        assert_eq!(rt;
            sent.as_slice(),
            [0x82, 0, 0, 0, 1, 2].as_slice(),
            "{length} bytes"
        );
    }
    Ok(())
}

#[test]
fn words_and_faults_have_their_status(rt: HostRuntime) -> Result<(), Fail> {
    let alloc = rt.alloc();
    let question = question(alloc)?;
    // a sync and three loads mount the image, the head and the body are read by 4 and 5, the leaf is used by two puts with
    // a sync each, and 10 is the send
    let table: [(&[&str], &[u64], u8, &[u8]); 11] = [
        (&["run"], &[], 0, &REPLY),
        (&["run", "run"], &[], 2, &[]),
        (&[], &[], 2, &[]),
        (&["runs"], &[], 2, &[]),
        (&["run"], &[0], 6, &[]),
        (&["run"], &[3], 6, &[]),
        (&["run"], &[4], 4, &[]),
        (&["run"], &[5], 4, &[]),
        (&["run"], &[6], 6, &[]),
        (&["run"], &[9], 6, &[]),
        (
            &["run"],
            &[10],
            5,
            REPLY.get(..REPLY.len() / 2).unwrap_or(&[]),
        ),
    ];
    for (at, (words, failing, number, want)) in table.iter().enumerate() {
        let (status, sent) = run(
            &rt,
            words,
            image(alloc)?,
            4096,
            failing,
            question.as_slice(),
        )?;
        assert_eq!(rt; status.number(), *number, "row {at}");
        assert_eq!(rt; sent.as_slice(), *want, "row {at}");
    }
    Ok(())
}

#[test]
fn another_image_is_bad(rt: HostRuntime) -> Result<(), Fail> {
    let alloc = rt.alloc();
    let question = question(alloc)?;
    let mut bytes = Vec::from_slice(alloc, image(alloc)?.as_slice())?;
    if let Some(first) = bytes.get_mut(0) {
        *first ^= 1;
    }
    for image in [Octets::from_vec(bytes), Octets::new(alloc)] {
        let (status, sent) = run(&rt, &["run"], image, 4096, &[], question.as_slice())?;
        assert_eq!(rt; status.number(), 3);
        assert!(rt; sent.is_empty());
    }
    Ok(())
}

fn leaf(store: AnyStore) -> u64 {
    store.leaf()
}

// How many leaves are used in an image.
fn leaf_of(alloc: Global, image: Octets) -> Result<u64, Fail> {
    let mut board = MemoryBoard::new(alloc, Octets::new(alloc), image, 1, List::new(alloc))?;
    Ok(leaf(mount(alloc, &mut board)?))
}

// Whether a stop in this call leaves as many leaves used as replies have begun, or one more.
fn is_kept(alloc: Global, board: &MemoryBoard, call: u64, mode: u8) -> Result<bool, Fail> {
    let (sent, image) = board.crash(call, mode.min(3))?;
    let begun = (sent.len() / REPLY.len() + usize::from(sent.len() % REPLY.len() > 0)) as u64;
    let leaf = leaf_of(alloc, image)?;
    Ok(leaf == begun || leaf == begun.saturating_add(1))
}

// In how many modes of stops in all calls of a run that is so.
fn count_kept(alloc: Global, board: &MemoryBoard) -> Result<u64, Fail> {
    let mut good: u64 = 0;
    for call in 0..board.calls() {
        for mode in 0..4 {
            if is_kept(alloc, board, call, mode)? {
                good = good.saturating_add(1);
            }
        }
    }
    Ok(good)
}

#[test]
fn a_run_is_stopped_anywhere(rt: HostRuntime) -> Result<(), Fail> {
    let alloc = rt.alloc();
    let mut input = question(alloc)?;
    input.extend(question(alloc)?.as_slice())?;
    let (status, board) = ran(&rt, &["run"], image(alloc)?, 4096, &[], input.as_slice())?;
    assert_eq!(rt; status, Status::Done);
    // four calls mount, each question is read by two, committed by four and answered by one, and one read finds the end
    assert_eq!(rt; board.calls(), 19);
    assert_eq!(rt; count_kept(alloc, &board)?, 76);
    let (sent, image) = board.crash(board.calls(), 0)?;
    assert_eq!(rt; sent.len(), 2 * REPLY.len());
    assert_eq!(rt; leaf_of(alloc, image)?, 2);
    Ok(())
}
