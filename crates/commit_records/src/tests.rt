ghost use Rattle.std.specs.Prelude.{◌≡◌, IfOk, IfSome, length};
ghost use Rattle.suit_commands.specs.Digests.{IsProperDigest};
ghost use Rattle.commit_records.specs.Changes.{HasDigest, HaveDigests, IsProperChange};

use crate::{ChangeFault, read_change, write_change};
use base_types::{List, Octets, OrMemory};
use device_state::{Change, ComponentRow, ManifestRow};
use std::alloc::Global;
use std::test::Fail;
use suit_commands::{Digest, DigestAlgorithm};
use trust_anchors::Anchors;

// SHA-256 of `hello`
const HELLO: [u8; 32] = [
    0x2c, 0xf2, 0x4d, 0xba, 0x5f, 0xb0, 0xa3, 0x0e, 0x26, 0xe8, 0x3b, 0x2a, 0xc5, 0xb9, 0xe2, 0x9e,
    0x1b, 0x16, 0x1e, 0x5c, 0x1f, 0xa7, 0x42, 0x5e, 0x73, 0x04, 0x33, 0x62, 0x93, 0x8b, 0x98, 0x24,
];

// [1, 1, [[h'814101', 7, true, [[h'814102', 'hello']]]]]
const FIRST: [u8; 23] = [
    0x83, 1, 1, 0x81, 0x84, 0x43, 0x81, 0x41, 1, 7, 0xf5, 0x81, 0x82, 0x43, 0x81, 0x41, 2, 0x45,
    0x68, 0x65, 0x6c, 0x6c, 0x6f,
];

// [2, 1, [[h'814101', 7, true, [[h'814102', null, 'hello']]]], null]
const SECOND: [u8; 25] = [
    0x84, 2, 1, 0x81, 0x84, 0x43, 0x81, 0x41, 1, 7, 0xf5, 0x81, 0x83, 0x43, 0x81, 0x41, 2, 0xf6,
    0x45, 0x68, 0x65, 0x6c, 0x6c, 0x6f, 0xf6,
];

// The same with the digest [-16, HELLO] in place of the first null, which stands at 17.
fn with_digest(alloc: Global, digest: &[u8]) -> OrMemory<Octets> {
    let mut bytes = Octets::from_slice(alloc, SECOND.get(..17).unwrap_or(&[]))?;
    bytes.extend(&[0x82, 0x2f, 0x58, 0x20])?;
    bytes.extend(digest)?;
    bytes.extend(SECOND.get(18..).unwrap_or(&[]))?;
    Ok(bytes)
}

// A digest by SHA-256.
fn digest(alloc: Global, bytes: &[u8]) -> OrMemory<Digest>
    requires { length bytes.now ≡ 32 }
    ensures { IfOk result IsProperDigest }
{
    Ok(Digest {
        algorithm: DigestAlgorithm::Sha256,
        bytes: Octets::from_slice(alloc, bytes)?,
    })
}

// The component of the worked update.
fn component(alloc: Global, digest: Option<Digest>) -> OrMemory<ComponentRow>
    requires { IfSome digest IsProperDigest }
    ensures { IfOk result HasDigest }
{
    Ok(ComponentRow {
        id: Octets::from_slice(alloc, &[0x81, 0x41, 2])?,
        bytes: Octets::from_slice(alloc, b"hello")?,
        digest,
    })
}

// Its manifest.
fn manifest(alloc: Global, digest: Option<Digest>) -> OrMemory<ManifestRow>
    requires { IfSome digest IsProperDigest }
    ensures { IfOk result HaveDigests }
{
    let mut components = List::new(alloc);
    components.push(component(alloc, digest)?)?;
    Ok(ManifestRow {
        id: Octets::from_slice(alloc, &[0x81, 0x41, 1])?,
        sequence: 7,
        present: true,
        components,
    })
}

// Its change, to leaf 1.
fn update(alloc: Global, digest: Option<Digest>) -> OrMemory<Change>
    requires { IfSome digest IsProperDigest }
    ensures { IfOk result IsProperChange }
{
    let mut rows = List::new(alloc);
    rows.push(manifest(alloc, digest)?)?;
    Ok(Change {
        leaf: 1,
        rows,
        anchors: None,
    })
}

// A change of the leaf alone, or to no anchors at all.
fn leaf_change(alloc: Global, leaf: u64, clears_anchors: bool) -> Change
    ensures { IsProperChange result }
{
    let anchors = if clears_anchors {
        Some(Anchors {
            manager: List::new(alloc),
            author: List::new(alloc),
        })
    } else {
        None
    };
    Change {
        leaf,
        rows: List::new(alloc),
        anchors,
    }
}

#[test]
fn version_one_keeps_no_digest(rt: HostRuntime) -> Result<(), Fail> {
    let alloc = rt.alloc();
    assert!(rt; read_change(alloc, &FIRST)? == update(alloc, None)?);
    Ok(())
}

#[test]
fn version_two_is_read_and_written(rt: HostRuntime) -> Result<(), Fail> {
    let alloc = rt.alloc();
    let change = update(alloc, None)?;
    assert_eq!(rt; write_change(alloc, &change)?.as_slice(), SECOND.as_slice());
    assert!(rt; read_change(alloc, &SECOND)? == change);
    Ok(())
}

#[test]
fn a_digest_is_kept(rt: HostRuntime) -> Result<(), Fail> {
    let alloc = rt.alloc();
    let bytes = with_digest(alloc, &HELLO)?;
    let change = update(alloc, Some(digest(alloc, &HELLO)?))?;
    assert_eq!(rt; write_change(alloc, &change)?.as_slice(), bytes.as_slice());
    assert!(rt; read_change(alloc, bytes.as_slice())? == change);
    let short = with_digest(alloc, HELLO.get(..31).unwrap_or(&[]))?;
    assert!(rt; read_change(alloc, short.as_slice()) == Err(ChangeFault::BadChange));
    Ok(())
}

#[test]
fn a_leaf_alone_is_short(rt: HostRuntime) -> Result<(), Fail> {
    let alloc = rt.alloc();
    let table: [(u64, bool, &[u8]); 4] = [
        (0, false, &[0x84, 2, 0, 0x80, 0xf6]),
        (1_024, false, &[0x84, 2, 0x19, 4, 0, 0x80, 0xf6]),
        (
            u64::MAX,
            false,
            &[
                0x84, 2, 0x1b, 255, 255, 255, 255, 255, 255, 255, 255, 0x80, 0xf6,
            ],
        ),
        (3, true, &[0x84, 2, 3, 0x80, 0x82, 0x80, 0x80]),
    ];
    for (at, (leaf, clears_anchors, bytes)) in table.iter().enumerate() {
        let change = leaf_change(alloc, *leaf, *clears_anchors);
        assert_eq!(rt;
            write_change(alloc, &change)?.as_slice(),
            *bytes,
            "row {at}"
        );
        assert!(rt; read_change(alloc, bytes)? == change, "row {at}");
    }
    Ok(())
}

#[test]
fn another_form_is_no_change(rt: HostRuntime) -> Result<(), Fail> {
    let alloc = rt.alloc();
    let table: [&[u8]; 30] = [
        // no item, a cut one, one with a byte behind it, a map, no version, a version that is none
        &[],
        &[0x83, 1, 0],
        &[0x83, 1, 0, 0x80, 0],
        &[0xa0],
        &[0x80],
        &[0x83, 3, 0, 0x80],
        &[0x84, 0, 0, 0x80, 0xf6],
        &[0x84, 0xf6, 0, 0x80, 0xf6],
        // a version with the parts of the other, and one part more
        &[0x84, 1, 0, 0x80, 0xf6],
        &[0x83, 2, 0, 0x80],
        &[0x85, 2, 0, 0x80, 0xf6, 0xf6],
        // a leaf that is no number
        &[0x83, 1, 0x20, 0x80],
        &[0x84, 2, 0xf6, 0x80, 0xf6],
        // rows that are no array, or of another form
        &[0x83, 1, 0, 0xa0],
        &[0x84, 2, 0, 0xf6, 0xf6],
        &[0x83, 1, 0, 0x81, 0x80],
        &[0x83, 1, 0, 0x81, 0x83, 0x40, 0, 0xf5],
        &[0x83, 1, 0, 0x81, 0x85, 0x40, 0, 0xf5, 0x80, 0xf6],
        &[0x83, 1, 0, 0x81, 0x84, 0x60, 0, 0xf5, 0x80],
        &[0x83, 1, 0, 0x81, 0x84, 0x40, 0x20, 0xf5, 0x80],
        &[0x83, 1, 0, 0x81, 0x84, 0x40, 0, 1, 0x80],
        &[0x83, 1, 0, 0x81, 0x84, 0x40, 0, 0xf5, 0x40],
        // components with a digest in version 1 and without one in version 2, or of another form
        &[
            0x83, 1, 0, 0x81, 0x84, 0x40, 0, 0xf5, 0x81, 0x83, 0x40, 0xf6, 0x40,
        ],
        &[
            0x84, 2, 0, 0x81, 0x84, 0x40, 0, 0xf5, 0x81, 0x82, 0x40, 0x40, 0xf6,
        ],
        &[
            0x83, 1, 0, 0x81, 0x84, 0x40, 0, 0xf5, 0x81, 0x82, 0x60, 0x40,
        ],
        &[0x83, 1, 0, 0x81, 0x84, 0x40, 0, 0xf5, 0x81, 0x82, 0x40, 0],
        // a digest that is a byte string
        &[
            0x84, 2, 0, 0x81, 0x84, 0x40, 0, 0xf5, 0x81, 0x83, 0x40, 0x40, 0x40, 0xf6,
        ],
        // anchors that are a number, and of one role
        &[0x84, 2, 0, 0x80, 0],
        &[0x84, 2, 0, 0x80, 0x81, 0x80],
        // a manager key that is none
        &[0x84, 2, 0, 0x80, 0x82, 0x81, 0x40, 0x80],
    ];
    for (at, bytes) in table.iter().enumerate() {
        assert!(rt;
            read_change(alloc, bytes) == Err(ChangeFault::BadChange),
            "row {at}"
        );
    }
    Ok(())
}

#[test]
fn a_great_count_takes_no_room(rt: HostRuntime) -> Result<(), Fail> {
    let alloc = rt.alloc();
    let table: [&[u8]; 4] = [
        &[0x9b, 255, 255, 255, 255, 255, 255, 255, 255],
        // so many rows, components and bytes
        &[0x83, 1, 0, 0x9b, 0, 0, 1, 0, 0, 0, 0, 0],
        &[
            0x83, 1, 0, 0x81, 0x84, 0x40, 0, 0xf5, 0x9b, 0, 0, 1, 0, 0, 0, 0, 0,
        ],
        &[0x83, 1, 0, 0x81, 0x84, 0x5b, 0, 0, 1, 0, 0, 0, 0, 0],
    ];
    for (at, bytes) in table.iter().enumerate() {
        assert!(rt;
            read_change(alloc, bytes) == Err(ChangeFault::BadChange),
            "row {at}"
        );
    }
    Ok(())
}
