ghost use Rattle.std.specs.Prelude.{◌≡◌, ◌≤◌, ◌∷◌, [], IfOk, length};
ghost use Rattle.wave_core.specs.Book.{steps_of};

use crate::{Note, Step, Wave, WaveBook, any_notes, open_stays};
use base_types::{List, Octets, OrMemory};
use std::alloc::Global;
use std::test::Fail;

// A step of one device, which is needed.
fn step(alloc: Global, device: u8) -> OrMemory<Step>
    ensures { IfOk result (λ step. step ≡ record { devices = (device ∷ []) ∷ []; needed = 1 }) }
{
    let mut devices = List::new(alloc);
    devices.push(Octets::from_slice(alloc, &[device])?)?;
    Ok(Step { devices, needed: 1 })
}

// The wave of manifest 814101, number 7, for class bb: first device 64, and then 65.
fn wave(alloc: Global) -> OrMemory<Wave>
    ensures { IfOk result (λ wave. wave.steps ≡ record { devices = (100 ∷ []) ∷ []; needed = 1 } ∷ record { devices = (101 ∷ []) ∷ []; needed = 1 } ∷ []) }
{
    let mut steps = List::new(alloc);
    steps.push(step(alloc, 0x64)?)?;
    steps.push(step(alloc, 0x65)?)?;
    Ok(Wave {
        class: Octets::from_slice(alloc, &[0xbb])?,
        id: Octets::from_slice(alloc, &[0x81, 0x41, 0x01])?,
        sequence: 7,
        steps,
    })
}

// The book of this wave alone.
fn new_book(alloc: Global) -> OrMemory<WaveBook>
    ensures { IfOk result (λ book. 2 ≤ length (steps_of book.waves 0)) }
{
    let mut waves = List::new(alloc);
    waves.push(wave(alloc)?)?;
    WaveBook::new(alloc, waves)
}

// To which of the devices 64, 65 and 66 the manifest is open, and what is recorded of the two steps.
fn seen(book: &WaveBook, class: u8, id: &[u8]) -> ([bool; 3], [u64; 2])
    requires { 2 ≤ length (steps_of book.now.waves 0) }
{
    let open = |device: u8| book.open(&[class], id, &[device]);
    (
        [open(0x64), open(0x65), open(0x66)],
        [book.recorded(0, 0), book.recorded(0, 1)],
    )
}

const WAVE: [u8; 3] = [0x81, 0x41, 0x01];

// A note, and what is seen behind it.
struct Row {
    device: u8,
    id: [u8; 3],
    before: Option<u64>,
    after: u64,
    open: [bool; 3],
    recorded: [u64; 2],
}

const ROWS: [Row; 6] = [
    // another manifest
    Row {
        device: 0x64,
        id: [0x81, 0x41, 0x02],
        before: None,
        after: 9,
        open: [true, false, false],
        recorded: [0, 0],
    },
    // an older number
    Row {
        device: 0x64,
        id: WAVE,
        before: None,
        after: 6,
        open: [true, false, false],
        recorded: [0, 0],
    },
    // a device of the second step before its turn
    Row {
        device: 0x65,
        id: WAVE,
        before: None,
        after: 7,
        open: [true, false, false],
        recorded: [0, 1],
    },
    // the wave's own number
    Row {
        device: 0x64,
        id: WAVE,
        before: Some(6),
        after: 7,
        open: [true, true, true],
        recorded: [1, 1],
    },
    // a second rise of one device
    Row {
        device: 0x64,
        id: WAVE,
        before: Some(7),
        after: 8,
        open: [true, true, true],
        recorded: [1, 1],
    },
    // a device of no step
    Row {
        device: 0x66,
        id: WAVE,
        before: None,
        after: 7,
        open: [true, true, true],
        recorded: [1, 1],
    },
];

#[test]
fn steps_open_as_devices_confirm(rt: HostRuntime) -> Result<(), Fail> {
    let mut book = new_book(rt.alloc())?;
    assert_eq!(rt; seen(&book, 0xbb, &WAVE), ([true, false, false], [0, 0]));
    for row in &ROWS {
        book.note(&[row.device], &row.id, row.before, row.after);
        assert_eq!(rt; seen(&book, 0xbb, &WAVE), (row.open, row.recorded));
    }
    Ok(())
}

#[test]
fn other_manifests_and_classes_are_open(rt: HostRuntime) -> Result<(), Fail> {
    let book = new_book(rt.alloc())?;
    assert_eq!(rt; seen(&book, 0xcc, &WAVE), ([true, true, true], [0, 0]));
    assert_eq!(rt;
        seen(&book, 0xbb, &[0x81, 0x41, 0x02]),
        ([true, true, true], [0, 0])
    );
    assert_eq!(rt; book.waves().len(), 1);
    open_stays();
    Ok(())
}

fn note(alloc: Global, device: u8, before: Option<u64>, after: u64) -> OrMemory<Note> {
    Ok(Note {
        device: Octets::from_slice(alloc, &[device])?,
        id: Octets::from_slice(alloc, &WAVE)?,
        before,
        after,
    })
}

#[test]
fn notes_in_a_row(rt: HostRuntime) -> Result<(), Fail> {
    let alloc = rt.alloc();
    let mut book = new_book(alloc)?;
    let mut notes = List::new(alloc);
    notes.push(note(alloc, 0x64, None, 3)?)?;
    notes.push(note(alloc, 0x64, Some(3), 7)?)?;
    notes.push(note(alloc, 0x65, None, 9)?)?;
    any_notes(&mut book, &notes);
    assert_eq!(rt; seen(&book, 0xbb, &WAVE), ([true, true, true], [1, 1]));
    Ok(())
}
