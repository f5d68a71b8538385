mod vectors;

use crate::{Held, load, more_leads, new_images_stand, one_state};
use base_types::{List, Octets};
use board_core::MemoryBoard;
use device_config::{Config, ConfigFault, MountFault, image_of};
use device_state::ManifestRow;
use std::alloc::Global;
use std::test::Fail;
use vectors::CONFIG;

// Where the first half of the journal begins: behind the head, and the selector and its free bytes.
const HALF_AT: usize = 65_552;

// [1, 1, [[h'814101', 7, true, [[h'814102', 'hello']]]]]
const FIRST: [u8; 23] = [
    0x83, 1, 1, 0x81, 0x84, 0x43, 0x81, 0x41, 1, 7, 0xf5, 0x81, 0x82, 0x43, 0x81, 0x41, 2, 0x45,
    0x68, 0x65, 0x6c, 0x6c, 0x6f,
];

// [2, 2, [[h'814101', 8, true, [[h'814102', null, 'bye']]]], null]
const SECOND: [u8; 23] = [
    0x84, 2, 2, 0x81, 0x84, 0x43, 0x81, 0x41, 1, 8, 0xf5, 0x81, 0x83, 0x43, 0x81, 0x41, 2, 0xf6,
    0x43, 0x62, 0x79, 0x65, 0xf6,
];

// [2, 2, [], [[], []]]
const NO_ANCHORS: [u8; 7] = [0x84, 2, 2, 0x80, 0x82, 0x80, 0x80];

// An image with other bytes from this place on.
fn with_bytes(alloc: Global, image: &[u8], at: usize, bytes: &[u8]) -> Result<Octets, MountFault> {
    let (front, rest) = image.split_at(at.min(image.len()));
    let mut whole = Octets::from_slice(alloc, front)?;
    whole.extend(bytes)?;
    whole.extend(rest.get(bytes.len()..).unwrap_or(&[]))?;
    Ok(whole)
}

// The image of a new device.
fn new_image(alloc: Global) -> Result<Octets, Fail> {
    let config = Config::read(alloc, &CONFIG)?;
    Ok(image_of(alloc, &config)?)
}

// Bodies of less than 256 bytes, each behind an open gate and its length.
fn framed(alloc: Global, bodies: &[&[u8]]) -> Result<Octets, MountFault> {
    let mut frames = Octets::new(alloc);
    for body in bodies {
        let size = u8::try_from(body.len()).unwrap_or(0);
        frames.extend(&[0xa5, 0, 0, 0, size])?;
        frames.extend(body)?;
    }
    Ok(frames)
}

// What is held of an image with these bytes in its journal.
fn held_of(alloc: Global, image: &[u8], frames: &[u8]) -> Result<Held, MountFault> {
    let image = with_bytes(alloc, image, HALF_AT, frames)?;
    let mut board = MemoryBoard::new(alloc, Octets::new(alloc), image, 1, List::new(alloc))?;
    load(alloc, &mut board)
}

// The leaf that is held, and how many manifests.
fn counts(alloc: Global, image: &[u8], frames: &[u8]) -> Result<(u64, usize), MountFault> {
    match held_of(alloc, image, frames) {
        Ok(held) => Ok((held.leaf, held.rows.len())),
        Err(fault) => Err(fault),
    }
}

// The leaf that is held, the bodies, the manifests, and the manager's keys now and at first, where those changed.
fn seen(held: &Held) -> (u64, u64, usize, usize, Option<usize>) {
    let first = match &held.first_anchors {
        Some(anchors) => Some(anchors.manager.len()),
        None => None,
    };
    let managers = held.config.anchors.manager.len();
    (
        held.leaf,
        held.journal.count(),
        held.rows.len(),
        managers,
        first,
    )
}

// The sequence number of the one manifest, and how many bytes its one component has.
fn one_row(rows: &[ManifestRow]) -> Option<(u64, usize)> {
    match rows {
        [row] => match row.components.as_slice() {
            [component] => Some((row.sequence, component.bytes.len())),
            _ => None,
        },
        _ => None,
    }
}

// Whether it is the configuration of the image.
fn is_first_config(alloc: Global, config: &Config) -> Result<bool, ConfigFault> {
    Ok(Config::read(alloc, &CONFIG)? == *config)
}

#[test]
fn a_new_image_is_loaded_as_a_new_device(rt: HostRuntime) -> Result<(), Fail> {
    one_state();
    new_images_stand();
    more_leads();
    let alloc = rt.alloc();
    let held = held_of(alloc, new_image(alloc)?.as_slice(), &[])?;
    assert_eq!(rt; seen(&held), (0, 0, 0, 1, None));
    assert!(rt; is_first_config(alloc, &held.config) == Ok(true));
    Ok(())
}

#[test]
fn both_versions_are_read_one_behind_the_other(rt: HostRuntime) -> Result<(), Fail> {
    let alloc = rt.alloc();
    let frames = framed(alloc, &[&FIRST, &SECOND, &NO_ANCHORS])?;
    let held = held_of(alloc, new_image(alloc)?.as_slice(), frames.as_slice())?;
    assert_eq!(rt; seen(&held), (2, 3, 1, 0, Some(1)));
    assert_eq!(rt; one_row(held.rows.as_slice()), Some((8, 3)));
    Ok(())
}

#[test]
fn bodies_lead_to_a_state_or_to_none(rt: HostRuntime) -> Result<(), Fail> {
    let alloc = rt.alloc();
    let image = new_image(alloc)?;
    // the bodies, and the leaf and the manifests to which they lead, if any
    let table: [(&[&[u8]], Option<(u64, usize)>); 16] = [
        (&[&FIRST], Some((1, 1))),
        // the same leaf again, and one below
        (&[&[0x83, 1, 2, 0x80], &[0x83, 1, 2, 0x80]], Some((2, 0))),
        (&[&[0x83, 1, 2, 0x80], &[0x83, 1, 1, 0x80]], None),
        // a key of one level and height 5 has 32 leaves
        (&[&[0x83, 1, 0x18, 32, 0x80]], Some((32, 0))),
        (&[&[0x83, 1, 0x18, 33, 0x80]], None),
        // a second owner of h'814102', also where the first one goes
        (
            &[
                &FIRST,
                &[
                    0x83, 1, 1, 0x81, 0x84, 0x43, 0x81, 0x41, 3, 1, 0xf5, 0x81, 0x82, 0x43, 0x81,
                    0x41, 2, 0x40,
                ],
            ],
            None,
        ),
        (
            &[
                &FIRST,
                &[
                    0x83, 1, 1, 0x82, 0x84, 0x43, 0x81, 0x41, 3, 1, 0xf5, 0x81, 0x82, 0x43, 0x81,
                    0x41, 2, 0x40, 0x84, 0x43, 0x81, 0x41, 1, 8, 0xf4, 0x80,
                ],
            ],
            Some((1, 2)),
        ),
        // no component of a manifest that is present, and one of a manifest that is not
        (
            &[&[0x83, 1, 1, 0x81, 0x84, 0x43, 0x81, 0x41, 1, 7, 0xf5, 0x80]],
            None,
        ),
        (
            &[&[0x83, 1, 1, 0x81, 0x84, 0x43, 0x81, 0x41, 1, 7, 0xf4, 0x80]],
            Some((1, 1)),
        ),
        (
            &[&[
                0x83, 1, 1, 0x81, 0x84, 0x43, 0x81, 0x41, 1, 7, 0xf4, 0x81, 0x82, 0x43, 0x81, 0x41,
                2, 0x40,
            ]],
            None,
        ),
        // an identifier that is the number 1
        (&[&[0x83, 1, 1, 0x81, 0x84, 0x41, 1, 7, 0xf4, 0x80]], None),
        // bodies of no byte, of another form, with a byte behind it, and behind a change
        (&[&[]], None),
        (&[&[0x83, 3, 0, 0x80]], None),
        (&[&[0x83, 1, 0, 0x80, 0]], None),
        (&[&FIRST, &[0xf6]], None),
        // a version that is told and then another
        (&[&FIRST, &SECOND], Some((2, 1))),
    ];
    for (at, (bodies, want)) in table.iter().enumerate() {
        let frames = framed(alloc, bodies)?;
        let found = counts(alloc, image.as_slice(), frames.as_slice());
        assert!(rt; found == want.ok_or(MountFault::BadImage), "row {at}");
    }
    Ok(())
}

// A body with so many components of a manifest, at most 23, behind its gate.
fn wide(alloc: Global, count: u8) -> Result<Octets, MountFault> {
    let mut body = Octets::from_slice(
        alloc,
        &[
            0x83,
            1,
            1,
            0x81,
            0x84,
            0x43,
            0x81,
            0x41,
            1,
            7,
            0xf5,
            0x80 | count,
        ],
    )?;
    for id in 0..count {
        body.extend(&[0x82, 0x43, 0x81, 0x41, id, 0x40])?;
    }
    framed(alloc, &[body.as_slice()])
}

// A body with one component of so many zeros, behind its gate.
fn heavy(alloc: Global, size: u16) -> Result<Octets, MountFault> {
    let [high, low] = size.to_be_bytes();
    let [all_high, all_low] = size.saturating_add(20).to_be_bytes();
    let mut frame = Octets::from_slice(
        alloc,
        &[
            0xa5, 0, 0, all_high, all_low, 0x83, 1, 1, 0x81, 0x84, 0x43, 0x81, 0x41, 1, 7, 0xf5,
            0x81, 0x82, 0x43, 0x81, 0x41, 2, 0x59, high, low,
        ],
    )?;
    for _ in 0..size {
        frame.extend(&[0])?;
    }
    Ok(frame)
}

// What is held of so many components of one manifest, or of one with so many bytes.
fn with_many(
    alloc: Global,
    image: &[u8],
    components: u8,
    bytes: u16,
) -> Result<(u64, usize), MountFault> {
    let frames = if components > 0 {
        wide(alloc, components)?
    } else {
        heavy(alloc, bytes)?
    };
    counts(alloc, image, frames.as_slice())
}

#[test]
fn a_state_has_its_limits(rt: HostRuntime) -> Result<(), Fail> {
    let alloc = rt.alloc();
    let image = new_image(alloc)?;
    // 16 components of a manifest; 16,384 bytes of weight, of which 518 are two elements and their identifiers
    let table = [
        (16, 0, true),
        (17, 0, false),
        (0, 15_866, true),
        (0, 15_867, false),
    ];
    for (at, (components, bytes, good)) in table.iter().enumerate() {
        let found = with_many(alloc, image.as_slice(), *components, *bytes);
        assert_eq!(rt; found.is_ok(), *good, "row {at}");
        assert!(rt; *good || found == Err(MountFault::BadImage), "row {at}");
    }
    Ok(())
}

#[test]
fn no_memory_is_taken_for_what_a_body_claims(rt: HostRuntime) -> Result<(), Fail> {
    let alloc = rt.alloc();
    let image = new_image(alloc)?;
    let table: [&[u8]; 4] = [
        // a body of 2^32 - 1 bytes
        &[0xa5, 255, 255, 255, 255],
        // 2^40 manifests, components and bytes
        &[0xa5, 0, 0, 0, 12, 0x83, 1, 0, 0x9b, 0, 0, 1, 0, 0, 0, 0, 0],
        &[
            0xa5, 0, 0, 0, 17, 0x83, 1, 0, 0x81, 0x84, 0x40, 0, 0xf5, 0x9b, 0, 0, 1, 0, 0, 0, 0, 0,
        ],
        &[
            0xa5, 0, 0, 0, 14, 0x83, 1, 0, 0x81, 0x84, 0x5b, 0, 0, 1, 0, 0, 0, 0, 0,
        ],
    ];
    for (at, frames) in table.iter().enumerate() {
        let found = counts(alloc, image.as_slice(), frames);
        assert!(rt; found == Err(MountFault::BadImage), "row {at}");
    }
    Ok(())
}

// The fault where the load of this number fails.
fn fault_at(alloc: Global, image: &[u8], number: u64) -> Result<Option<MountFault>, MountFault> {
    let mut failing = List::new(alloc);
    failing.push(number)?;
    let image = Octets::from_slice(alloc, image)?;
    let mut board = MemoryBoard::new(alloc, Octets::new(alloc), image, 1, failing)?;
    Ok(load(alloc, &mut board).err())
}

#[test]
fn each_failed_load_is_told(rt: HostRuntime) -> Result<(), Fail> {
    let alloc = rt.alloc();
    let frames = framed(alloc, &[&FIRST])?;
    let image = with_bytes(
        alloc,
        new_image(alloc)?.as_slice(),
        HALF_AT,
        frames.as_slice(),
    )?;
    // the head, the selector, two gates and the body
    for number in 0..6u64 {
        let fault = fault_at(alloc, image.as_slice(), number)?;
        let want = if number < 5 {
            Some(MountFault::DiskFault)
        } else {
            None
        };
        assert_eq!(rt; fault, want, "call {number}");
    }
    Ok(())
}
