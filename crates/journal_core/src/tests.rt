ghost use Rattle.std.specs.Prelude.{◌≡◌, ◌+◌, ◌≤◌, ◌↔◌, IsTrue, IfOk, [], ◌∷◌, length};
ghost use Rattle.journal_core.specs.Kept.{IsWithin};

use crate::{
    AppendFault, Framed, Journal, JournalFault, Region, kept_elsewhere, one_list, zeros_are_empty,
};
use base_types::{List, Octets, OrMemory, zeros};
use board_core::{Board, MemoryBoard};
use std::alloc::Global;
use std::test::Fail;

// A region at the beginning of an image of 48 bytes.
const REGION: Region = Region { at: 0, half: 16 };

// What stands for no list.
const NONE: u64 = u64::MAX;

// Bytes as one number, the first highest.
fn number_of(bytes: &[u8]) -> u64 {
    let mut number: u64 = 0;
    for byte in bytes {
        number = number.wrapping_mul(256).wrapping_add(u64::from(*byte));
    }
    number
}

// A list of one body, which has one byte.
fn one(alloc: Global, body: u8) -> OrMemory<Framed>
    ensures { IfOk result (λ framed. framed ≡ (body ∷ []) ∷ []) }
{
    let mut bodies = List::new(alloc);
    bodies.push(Octets::from_slice(alloc, &[body])?)?;
    Framed::of(alloc, &bodies)
}

fn two(alloc: Global, first: u8, second: u8) -> OrMemory<Framed>
    ensures { IfOk result (λ framed. framed ≡ (first ∷ []) ∷ (second ∷ []) ∷ []) }
{
    let mut bodies = List::new(alloc);
    bodies.push(Octets::from_slice(alloc, &[first])?)?;
    bodies.push(Octets::from_slice(alloc, &[second])?)?;
    Framed::of(alloc, &bodies)
}

// An image with this selector and these halves.
fn image_of(alloc: Global, selector: u64, first: [u64; 2], second: [u64; 2]) -> OrMemory<Octets> {
    let mut image = Octets::new(alloc);
    for number in [selector, 0, first[0], first[1], second[0], second[1]] {
        image.extend(&number.to_be_bytes())?;
    }
    Ok(image)
}

fn board_of(alloc: Global, image: Octets, failing: List<u64>) -> OrMemory<MemoryBoard> {
    MemoryBoard::new(alloc, Octets::new(alloc), image, 1, failing)
}

// Whether the region lies within the board's image.
fn is_within<B: Board>(journal: &Journal, board: &B) -> bool
    ensures { IsTrue result ↔ IsWithin journal.now.region (B.view board.now).extent }
{
    journal.region.at + 16 + 2 * journal.region.half <= board.size()
}

// How many places are reserved.
fn spare(journal: &Journal) -> usize
    ensures { result ≡ journal.now.spare }
{
    journal.places.capacity() - journal.places.len()
}

fn mounted<B: Board>(alloc: Global, board: &mut B) -> Result<Journal, JournalFault> {
    if board.size() < REGION.size() {
        return Err(JournalFault::NoJournal);
    }
    let mut journal = Journal::mount(alloc, board, REGION)?;
    journal.reserve(3)?;
    Ok(journal)
}

fn append<B: Board>(
    board: &mut B,
    journal: &mut Journal,
    framed: &Framed,
) -> Result<(), AppendFault>
    requires { length framed.now ≡ 1 }
{
    if is_within(journal, board) && spare(journal) > 0 {
        journal.append(board, framed)
    } else {
        Err(AppendFault::Full)
    }
}

fn replace<B: Board>(
    board: &mut B,
    journal: &mut Journal,
    framed: &Framed,
) -> Result<(), AppendFault> {
    if is_within(journal, board) && framed.lengths().len() <= spare(journal) {
        journal.replace(board, framed)
    } else {
        Err(AppendFault::Full)
    }
}

// Appends the second body, or, where there is a first one, makes both the list.
fn change<B: Board>(
    alloc: Global,
    board: &mut B,
    journal: &mut Journal,
    first: Option<u8>,
    second: u8,
) -> OrMemory<Result<(), AppendFault>> {
    match first {
        Some(first) => Ok(replace(board, journal, &two(alloc, first, second)?)),
        None => Ok(append(board, journal, &one(alloc, second)?)),
    }
}

fn push_body<B: Board>(
    alloc: Global,
    board: &mut B,
    place: (u64, u64),
    bytes: &mut Octets,
) -> Result<(), Fail> {
    let (at, length) = place;
    if at < 48 && length < 16 && at + length <= board.size() {
        let mut body = zeros(alloc, length as usize)?;
        board.load(at, &mut body)?;
        bytes.extend(&body)?;
    }
    Ok(())
}

// The bodies of the list, one behind the other.
fn listed<B: Board>(alloc: Global, board: &mut B, journal: &Journal) -> Result<u64, Fail> {
    let mut bytes = Octets::new(alloc);
    for index in 0..journal.count() {
        let place = journal.place(index);
        push_body(alloc, board, place, &mut bytes)?;
    }
    Ok(number_of(bytes.as_slice()))
}

// The list of an image, or none.
fn list_of(alloc: Global, image: Octets) -> Result<u64, Fail> {
    let mut board = board_of(alloc, image, List::new(alloc))?;
    match mounted(alloc, &mut board) {
        Ok(journal) => listed(alloc, &mut board, &journal),
        Err(JournalFault::NoJournal) => Ok(NONE),
        Err(fault) => Err(fault.into()),
    }
}

#[test]
fn a_half_fills_up(rt: HostRuntime) -> Result<(), Fail> {
    one_list();
    kept_elsewhere();
    zeros_are_empty();
    let alloc = rt.alloc();
    let image = image_of(alloc, 0, [0, 0], [0, 0])?;
    let mut board = board_of(alloc, image, List::new(alloc))?;
    let mut journal = mounted(alloc, &mut board)?;
    for (first, second, done, list) in [
        (None, 0x0a, Ok(()), 0x0a),
        (None, 0x0b, Ok(()), 0x0a0b),
        (None, 0x0c, Err(AppendFault::Full), 0x0a0b),
        (Some(7), 8, Ok(()), 0x0708),
    ] {
        assert_eq!(rt;
            change(alloc, &mut board, &mut journal, first, second)?,
            done
        );
        assert_eq!(rt; listed(alloc, &mut board, &journal)?, list);
    }
    assert_eq!(rt; [journal.count(), journal.used()], [2, 12]);
    Ok(())
}

// A half with a body of this length, whose last byte of ten is 0a, and this byte behind it.
fn half_of(length: u64, gate: u64) -> [u64; 2] {
    [0xa500_0000_0000_0000 | length << 24, 0x0a00 | gate]
}

#[test]
fn an_image_is_a_list_or_none(rt: HostRuntime) -> Result<(), Fail> {
    // A body of ten bytes leaves room for one gate, which may be any byte but a5; one of eleven leaves none.
    for [selector, length, gate, list] in [
        [0x00, 10, 0x00, 0x0a],
        [0xfe, 10, 0x01, 0x0a],
        [0xfe, 10, 0xa5, NONE],
        [0x00, 11, 0x00, NONE],
        [0x01, 11, 0x00, 0x07],
        [0xff, 10, 0x00, 0x07],
    ] {
        let second = [0xa500_0000_0107_0000, 0];
        let image = image_of(rt.alloc(), selector << 56, half_of(length, gate), second)?;
        assert_eq!(rt;
            list_of(rt.alloc(), image)?,
            list,
            "selector {selector}, length {length}, gate {gate}"
        );
    }
    Ok(())
}

// What a change of the list 0a in the second half leaves behind it: the board.
fn changed(alloc: Global, first: Option<u8>, second: u8) -> Result<MemoryBoard, Fail> {
    let image = image_of(alloc, 1 << 56, [0, 0], [0xa500_0000_010a_0000, 0])?;
    let mut board = board_of(alloc, image, List::new(alloc))?;
    let mut journal = mounted(alloc, &mut board)?;
    change(alloc, &mut board, &mut journal, first, second)??;
    Ok(board)
}

// The list that a stop leaves.
fn list_left(alloc: Global, board: &MemoryBoard, call: u64, mode: u8) -> Result<u64, Fail> {
    if mode > 3 {
        return Ok(NONE);
    }
    let (_, image) = board.crash(call, mode)?;
    list_of(alloc, image)
}

// Of the four modes of a stop inside this call, how many leave this list.
fn stops_with(alloc: Global, board: &MemoryBoard, call: u64, list: u64) -> Result<u64, Fail> {
    let mut count: u64 = 0;
    for mode in 0..4 {
        if list_left(alloc, board, call, mode)? == list {
            count = count.saturating_add(1);
        }
    }
    Ok(count)
}

#[test]
fn a_change_is_stopped_anywhere(rt: HostRuntime) -> Result<(), Fail> {
    // Three loads, the bytes put, a sync, the gate or the selector put, a sync. Of the four modes two have the gate open, or the
    // other half selected, inside its put and inside the sync behind it.
    for (first, new) in [(None, 0x0a08), (Some(7), 0x0708)] {
        let board = changed(rt.alloc(), first, 8)?;
        for call in 0..7 {
            let late = if call < 5 { 0 } else { 2 };
            assert_eq!(rt;
                stops_with(rt.alloc(), &board, call, 0x0a)?,
                4 - late,
                "old at {call}"
            );
            assert_eq!(rt;
                stops_with(rt.alloc(), &board, call, new)?,
                late,
                "new at {call}"
            );
        }
        assert_eq!(rt; stops_with(rt.alloc(), &board, 7, new)?, 4);
    }
    Ok(())
}

// How an append ends where the mount's loads have the numbers 0 and 1, and the put 2.
fn failing(alloc: Global, number: u64) -> Result<(bool, bool), Fail> {
    let mut numbers = List::new(alloc);
    numbers.push(number)?;
    let mut board = board_of(alloc, image_of(alloc, 0, [0, 0], [0, 0])?, numbers)?;
    match mounted(alloc, &mut board) {
        Ok(mut journal) => {
            let appended = append(&mut board, &mut journal, &one(alloc, 7)?);
            Ok((true, appended == Err(AppendFault::DiskFault)))
        }
        Err(fault) => Ok((false, fault == JournalFault::DiskFault)),
    }
}

#[test]
fn a_failing_disk_is_told(rt: HostRuntime) -> Result<(), Fail> {
    for (number, mounts) in [
        (0, false),
        (1, false),
        (2, true),
        (3, true),
        (4, true),
        (5, true),
    ] {
        assert_eq!(rt;
            failing(rt.alloc(), number)?,
            (mounts, true),
            "failing {number}"
        );
    }
    Ok(())
}
