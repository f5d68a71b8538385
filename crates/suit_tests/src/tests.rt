use base_types::{Octets, OrMemory};
use cbor_core::{Fault, Why};
use std::alloc::Global;
use std::test::Fail;
use suit_commands::SequenceFault;
use suit_envelope::{Envelope, EnvelopeFault, exactly_one, fields_are_proper, one_plan};

// Of an envelope that is read, or of a plan.
const GOOD: Option<EnvelopeFault> = None;

fn shape(member: u64) -> Option<EnvelopeFault> {
    Some(EnvelopeFault::Shape { member })
}

// What is wrong with the bytes of an envelope.
fn fault_of(alloc: Global, bytes: &[u8]) -> Option<EnvelopeFault> {
    Envelope::read(alloc, bytes).err()
}

// The byte string of up to 65535 bytes.
fn string(alloc: Global, bytes: &[u8]) -> OrMemory<Octets> {
    let mut text = Octets::new(alloc);
    let count = bytes.len().min(65535) as u16;
    if count < 24 {
        text.push(0x40 + count as u8)?;
    } else if count < 256 {
        text.extend(&[0x58, count as u8])?;
    } else {
        text.push(0x59)?;
        text.extend(&count.to_be_bytes())?;
    }
    text.extend(bytes)?;
    Ok(text)
}

// The bytes with so many 7 behind them.
fn filled(alloc: Global, front: &[u8], count: u8) -> OrMemory<Octets> {
    let mut bytes = Octets::from_slice(alloc, front)?;
    for _ in 0..count {
        bytes.push(7)?;
    }
    Ok(bytes)
}

// A wrapper: a byte string that wraps [digest], with a digest of 32 times 7.
fn good_wrapper(alloc: Global) -> OrMemory<Octets> {
    filled(alloc, &[0x58, 39, 0x81, 0x58, 36, 0x82, 0x2f, 0x58, 32], 32)
}

// {2: wrapper, 3: manifest}, and what stands behind: so many pairs.
fn enveloped(
    alloc: Global,
    wrapper: &[u8],
    manifest: &[u8],
    count: u8,
    behind: &[u8],
) -> OrMemory<Octets> {
    let mut bytes = Octets::from_slice(alloc, &[0xa2 + count.min(9), 2])?;
    bytes.extend(wrapper)?;
    bytes.push(3)?;
    bytes.extend(manifest)?;
    bytes.extend(behind)?;
    Ok(bytes)
}

// {1: 1, 2: 7, 3: h'a10281814101', 5: [h'09']}, and the byte string of it
const MANIFEST: [u8; 17] = [
    0xa4, 1, 1, 2, 7, 3, 0x46, 0xa1, 2, 0x81, 0x81, 0x41, 1, 5, 0x81, 0x41, 9,
];

#[test]
fn an_envelope_has_its_members(rt: HostRuntime) -> Result<(), Fail> {
    let alloc = rt.alloc();
    exactly_one();
    fields_are_proper();
    one_plan();
    let table: [(&[u8], Option<EnvelopeFault>); 9] = [
        (&[0x80], shape(0)),
        (&[0xa0], shape(2)),
        (&[0xd8, 107, 0xa0], shape(2)),
        (&[0xd8, 107, 0x80], shape(0)),
        // another tag, and the tag twice
        (&[0xd8, 106, 0xa0], shape(0)),
        (&[0xd8, 107, 0xd8, 107, 0xa0], shape(0)),
        (
            &[0x18, 5],
            Some(EnvelopeFault::Cbor(Fault {
                at: 0,
                why: Why::LongForm,
            })),
        ),
        (&[0xa1, 2, 0x41, 0x80], shape(2)),
        (&[0xa1, 3, 0x40], shape(2)),
    ];
    for (at, (bytes, want)) in table.iter().enumerate() {
        assert_eq!(rt; fault_of(alloc, bytes), *want, "row {at}");
    }
    Ok(())
}

#[test]
fn a_wrapper_has_a_digest_and_blocks(rt: HostRuntime) -> Result<(), Fail> {
    let alloc = rt.alloc();
    let manifest = string(alloc, &MANIFEST)?;
    // what stands before so many 7, and what behind
    let table: [(&[u8], u8, &[u8], Option<EnvelopeFault>); 10] = [
        (
            &[0x58, 39, 0x81, 0x58, 36, 0x82, 0x2f, 0x58, 32],
            32,
            &[],
            GOOD,
        ),
        (
            &[0x58, 41, 0x82, 0x58, 36, 0x82, 0x2f, 0x58, 32],
            32,
            &[0x41, 1],
            GOOD,
        ),
        (
            &[0x58, 56, 0x81, 0x58, 53, 0x82, 0x38, 42, 0x58, 48],
            48,
            &[],
            GOOD,
        ),
        // -43 with 32 bytes
        (
            &[0x58, 40, 0x81, 0x58, 37, 0x82, 0x38, 42, 0x58, 32],
            32,
            &[],
            shape(2),
        ),
        // a block that is a number, and a digest that is not wrapped
        (
            &[0x58, 40, 0x82, 0x58, 36, 0x82, 0x2f, 0x58, 32],
            32,
            &[1],
            shape(2),
        ),
        (&[0x58, 37, 0x81, 0x82, 0x2f, 0x58, 32], 32, &[], shape(2)),
        // no array, no item, no digest, and no byte string
        (
            &[0x58, 38, 0x58, 36, 0x82, 0x2f, 0x58, 32],
            32,
            &[],
            shape(2),
        ),
        (&[0x40], 0, &[], shape(2)),
        (&[0x41, 0x80], 0, &[], shape(2)),
        (&[0x80], 0, &[], shape(2)),
    ];
    for (at, (front, count, behind, want)) in table.iter().enumerate() {
        let mut wrapper = filled(alloc, front, *count)?;
        wrapper.extend(behind)?;
        let bytes = enveloped(alloc, wrapper.as_slice(), manifest.as_slice(), 0, &[])?;
        assert_eq!(rt; fault_of(alloc, bytes.as_slice()), *want, "row {at}");
    }
    Ok(())
}

// What is wrong with an envelope whose member 3 is this.
fn fault_of_member(alloc: Global, member: &[u8]) -> Result<Option<EnvelopeFault>, Fail> {
    let wrapper = good_wrapper(alloc)?;
    let bytes = enveloped(alloc, wrapper.as_slice(), member, 0, &[])?;
    Ok(fault_of(alloc, bytes.as_slice()))
}

#[test]
fn a_manifest_has_its_members(rt: HostRuntime) -> Result<(), Fail> {
    let alloc = rt.alloc();
    let table: [(&[u8], Option<EnvelopeFault>); 16] = [
        (&MANIFEST, GOOD),
        (&[], shape(3)),
        (&[0x80], shape(3)),
        (&[0xa0], shape(3)),
        // without the version, and with versions that are not 1
        (
            &[
                0xa3, 2, 7, 3, 0x46, 0xa1, 2, 0x81, 0x81, 0x41, 1, 5, 0x81, 0x41, 9,
            ],
            shape(3),
        ),
        (&[0xa1, 1, 2], shape(3)),
        (&[0xa1, 1, 0x41, 1], shape(3)),
        (&[0xa1, 1, 1], shape(12)),
        (&[0xa2, 1, 1, 2, 0x40], shape(12)),
        (&[0xa2, 1, 1, 2, 7], shape(13)),
        (&[0xa3, 1, 1, 2, 7, 3, 0xa0], shape(13)),
        (&[0xa3, 1, 1, 2, 7, 3, 0x40], shape(13)),
        (&[0xa3, 1, 1, 2, 7, 5, 0x80], shape(13)),
        (
            &[0xa3, 1, 1, 2, 7, 3, 0x46, 0xa1, 2, 0x81, 0x81, 0x41, 1],
            shape(15),
        ),
        (
            &[
                0xa4, 1, 1, 2, 7, 3, 0x46, 0xa1, 2, 0x81, 0x81, 0x41, 1, 5, 0x80,
            ],
            shape(15),
        ),
        (
            &[
                0xa4, 1, 1, 2, 7, 3, 0x46, 0xa1, 2, 0x81, 0x81, 0x41, 1, 5, 0x41, 9,
            ],
            shape(15),
        ),
    ];
    for (at, (manifest, want)) in table.iter().enumerate() {
        let member = string(alloc, manifest)?;
        assert_eq!(rt;
            fault_of_member(alloc, member.as_slice())?,
            *want,
            "row {at}"
        );
    }
    assert_eq!(rt; fault_of_member(alloc, &[0xa0])?, shape(3));
    Ok(())
}

// The byte string of a manifest with this common part, this identifier, and so many other pairs.
fn manifest_with(
    alloc: Global,
    common: &[u8],
    id: &[u8],
    count: u8,
    members: &[u8],
) -> OrMemory<Octets> {
    let mut manifest = Octets::from_slice(alloc, &[0xa4 + count.min(9), 1, 1, 2, 7, 3])?;
    manifest.extend(string(alloc, common)?.as_slice())?;
    manifest.push(5)?;
    manifest.extend(id)?;
    manifest.extend(members)?;
    string(alloc, manifest.as_slice())
}

#[test]
fn a_common_part_has_components(rt: HostRuntime) -> Result<(), Fail> {
    let alloc = rt.alloc();
    let table: [(&[u8], Option<EnvelopeFault>); 13] = [
        (&[0xa1, 2, 0x81, 0x81, 0x41, 1], GOOD),
        (&[0xa1, 2, 0x82, 0x81, 0x41, 1, 0x81, 0x41, 2], GOOD),
        // a component twice
        (&[0xa1, 2, 0x82, 0x81, 0x41, 1, 0x81, 0x41, 1], shape(13)),
        (&[0xa2, 2, 0x81, 0x81, 0x41, 1, 4, 0x41, 0x80], GOOD),
        (&[0xa2, 2, 0x81, 0x81, 0x41, 1, 4, 0x80], shape(13)),
        // with dependencies, and with a label that is no number
        (&[0xa3, 1, 0, 2, 0x81, 0x81, 0x41, 1, 0x60, 0], GOOD),
        (&[0xa0], shape(13)),
        (&[0x80], shape(13)),
        (&[0xa1, 2, 0x80], shape(13)),
        (&[0xa1, 2, 0xa0], shape(13)),
        (&[0xa1, 2, 0x81, 0x80], shape(13)),
        (&[0xa1, 2, 0x81, 0x81, 0x60], shape(13)),
        (&[0xa1, 2, 0x81, 0x41, 1], shape(13)),
    ];
    for (at, (common, want)) in table.iter().enumerate() {
        let member = manifest_with(alloc, common, &[0x81, 0x41, 9], 0, &[])?;
        assert_eq!(rt;
            fault_of_member(alloc, member.as_slice())?,
            *want,
            "row {at}"
        );
    }
    Ok(())
}

// A common part with the components [h'00'], [h'01'], ..
fn components(alloc: Global, count: u8) -> OrMemory<Octets> {
    let mut common = Octets::from_slice(alloc, &[0xa1, 2, 0x80 + count.min(23)])?;
    for number in 0..count {
        common.extend(&[0x81, 0x41, number])?;
    }
    Ok(common)
}

#[test]
fn components_and_identifiers_have_their_limits(rt: HostRuntime) -> Result<(), Fail> {
    let alloc = rt.alloc();
    // how many components, how many bytes the string of the first has and that of the manifest
    let table: [(u8, u8, u8, Option<EnvelopeFault>); 6] = [
        (16, 1, 1, GOOD),
        (17, 1, 1, shape(13)),
        (1, 125, 125, GOOD),
        (1, 126, 125, shape(13)),
        (1, 125, 126, shape(15)),
        (1, 126, 126, shape(13)),
    ];
    for (at, (count, first, own, want)) in table.iter().enumerate() {
        let mut common = components(alloc, *count)?;
        if *first != 1 {
            common = filled(alloc, &[0xa1, 2, 0x81, 0x81, 0x58, *first], *first)?;
        }
        let mut id = Octets::from_slice(alloc, &[0x81, 0x41, 9])?;
        if *own != 1 {
            id = filled(alloc, &[0x81, 0x58, *own], *own)?;
        }
        let manifest = manifest_with(alloc, common.as_slice(), id.as_slice(), 0, &[])?;
        let fault = fault_of_member(alloc, manifest.as_slice())?;
        assert_eq!(rt; fault, *want, "row {at}");
    }
    Ok(())
}

// Of an envelope: how many payloads and other pairs it has, whether the digest holds, and the number of blocks.
fn counts(alloc: Global, bytes: &[u8]) -> Result<(usize, usize, bool, usize), EnvelopeFault> {
    let envelope = Envelope::read(alloc, bytes)?;
    Ok((
        envelope.attached.len(),
        envelope.other.len(),
        envelope.digest_holds(),
        envelope.blocks.len(),
    ))
}

#[test]
fn payloads_are_attached_by_their_names(rt: HostRuntime) -> Result<(), Fail> {
    let alloc = rt.alloc();
    let wrapper = good_wrapper(alloc)?;
    let manifest = string(alloc, &MANIFEST)?;
    let table: [(u8, &[u8], (usize, usize, bool, usize)); 6] = [
        (0, &[], (0, 0, false, 0)),
        (1, &[0x61, 0x23, 0x41, 5], (1, 0, false, 0)),
        (1, &[0x61, 0x61, 0x41, 5], (0, 1, false, 0)),
        (1, &[0x60, 0x41, 5], (0, 1, false, 0)),
        // "#" with a number, and h'23' with bytes
        (1, &[0x61, 0x23, 5], (0, 1, false, 0)),
        // {4: 0, h'23': h'', "#a": h'01', "#b": h'', "ab": h'', [0]: 0}
        (
            6,
            &[
                4, 0, 0x41, 0x23, 0x40, 0x62, 0x23, 0x61, 0x41, 1, 0x62, 0x23, 0x62, 0x40, 0x62,
                0x61, 0x62, 0x40, 0x81, 0, 0,
            ],
            (2, 4, false, 0),
        ),
    ];
    for (at, (count, pairs, want)) in table.iter().enumerate() {
        let bytes = enveloped(
            alloc,
            wrapper.as_slice(),
            manifest.as_slice(),
            *count,
            pairs,
        )?;
        assert!(rt; counts(alloc, bytes.as_slice())? == *want, "row {at}");
    }
    Ok(())
}

// The hashes of the byte string of MANIFEST, by SHA-256, SHA-384 and SHA-512.
const SHA_256: [u8; 32] = [
    0x1e, 0xa2, 0x0a, 0x3d, 0xcf, 0x33, 0x4b, 0x89, 0x5c, 0xda, 0x3c, 0x78, 0xbc, 0x1d, 0x64, 0x09,
    0x0c, 0x28, 0x4b, 0x04, 0xb4, 0x41, 0xf4, 0x4c, 0x3d, 0x10, 0x54, 0xf1, 0x6f, 0x96, 0x12, 0xfd,
];

const SHA_384: [u8; 48] = [
    0x75, 0xb4, 0xeb, 0x7c, 0x0d, 0xc4, 0x16, 0xbb, 0x0d, 0xe3, 0x10, 0x89, 0x1a, 0x49, 0xb9, 0x4f,
    0x52, 0x60, 0x9d, 0x29, 0x86, 0x9e, 0xd0, 0x57, 0x79, 0x71, 0x98, 0x29, 0x83, 0x15, 0x2d, 0x5e,
    0x9e, 0xde, 0x55, 0x77, 0xd8, 0x54, 0xcc, 0xc5, 0xfb, 0x6e, 0x12, 0xbd, 0xc4, 0x1c, 0x68, 0x7f,
];

const SHA_512: [u8; 64] = [
    0xb4, 0x4e, 0xbf, 0x60, 0xfe, 0xe3, 0x7f, 0xa5, 0xcd, 0xfb, 0xc2, 0x0b, 0x9a, 0x0b, 0x5c, 0x8f,
    0xd4, 0xf5, 0x7d, 0x6d, 0xee, 0x6b, 0xba, 0xc7, 0x27, 0x3b, 0xe4, 0x1c, 0x31, 0xf4, 0xca, 0xf9,
    0x6b, 0x2d, 0x50, 0x6a, 0x23, 0xa0, 0x1e, 0x3e, 0x56, 0x38, 0xc2, 0xd7, 0x57, 0xea, 0xc2, 0x82,
    0x33, 0x94, 0xc9, 0x64, 0x45, 0x25, 0x60, 0x87, 0x58, 0x1e, 0xca, 0x76, 0x4b, 0x44, 0x69, 0x07,
];

#[test]
fn digests_are_of_the_byte_string(rt: HostRuntime) -> Result<(), Fail> {
    let alloc = rt.alloc();
    let manifest = string(alloc, &MANIFEST)?;
    // what stands before a digest, the digest, its last byte, and whether it holds
    let table: [(&[u8], &[u8], bool); 4] = [
        (
            &[0x58, 41, 0x82, 0x58, 36, 0x82, 0x2f, 0x58, 32],
            &SHA_256,
            true,
        ),
        (
            &[0x58, 58, 0x82, 0x58, 53, 0x82, 0x38, 42, 0x58, 48],
            &SHA_384,
            true,
        ),
        (
            &[0x58, 74, 0x82, 0x58, 69, 0x82, 0x38, 43, 0x58, 64],
            &SHA_512,
            true,
        ),
        (
            &[0x58, 41, 0x82, 0x58, 36, 0x82, 0x2f, 0x58, 32],
            &[7; 32],
            false,
        ),
    ];
    for (at, (front, digest, holds)) in table.iter().enumerate() {
        let mut wrapper = Octets::from_slice(alloc, front)?;
        wrapper.extend(digest)?;
        wrapper.extend(&[0x41, 0xaa])?;
        let bytes = enveloped(alloc, wrapper.as_slice(), manifest.as_slice(), 0, &[])?;
        assert!(rt;
            counts(alloc, bytes.as_slice())? == (0, 0, *holds, 1),
            "row {at}"
        );
    }
    Ok(())
}

fn index(n: u64) -> Option<SequenceFault> {
    Some(SequenceFault::Index(n))
}

// Why an envelope has no plan.
fn plan_fault(alloc: Global, bytes: &[u8]) -> Result<Option<SequenceFault>, EnvelopeFault> {
    let envelope = Envelope::read(alloc, bytes)?;
    Ok(envelope.manifest.commands(alloc).err())
}

#[test]
fn plans_are_read_in_their_order(rt: HostRuntime) -> Result<(), Fail> {
    let alloc = rt.alloc();
    let wrapper = good_wrapper(alloc)?;
    let one: &[u8] = &[0xa1, 2, 0x81, 0x81, 0x41, 1];
    // the common part, how many other members there are, these, and what is wrong
    let table: [(&[u8], u8, &[u8], Option<SequenceFault>); 15] = [
        (one, 0, &[], None),
        (one, 1, &[20, 0x43, 0x82, 12, 0], None),
        (one, 1, &[20, 0x43, 0x82, 12, 1], index(1)),
        (one, 1, &[16, 0x42, 0x81, 1], Some(SequenceFault::Shape)),
        (one, 1, &[16, 0x80], Some(SequenceFault::Shape)),
        (one, 1, &[7, 0x42, 0x81, 1], Some(SequenceFault::Shape)),
        // no sequence of the plan
        (one, 1, &[8, 0x42, 0x81, 1], None),
        // a source component, in its place before another index
        (one, 1, &[20, 0x47, 0x84, 20, 0xa1, 22, 1, 12, 2], index(1)),
        // sequences inside: [32, h'820c05', 12, 3] and [15, [h'80', h'820c02'], 12, 4]
        (
            one,
            1,
            &[20, 0x49, 0x84, 0x18, 32, 0x43, 0x82, 12, 5, 12, 3],
            index(5),
        ),
        (
            one,
            1,
            &[
                20, 0x4b, 0x84, 15, 0x82, 0x41, 0x80, 0x43, 0x82, 12, 2, 12, 4,
            ],
            index(2),
        ),
        // a fault of reading comes before an index, and one of an earlier sequence before both
        (
            one,
            1,
            &[20, 0x46, 0x84, 12, 9, 0x18, 99, 0],
            Some(SequenceFault::Command(99)),
        ),
        (
            one,
            2,
            &[16, 0x43, 0x82, 12, 7, 20, 0x42, 0x81, 1],
            index(7),
        ),
        (one, 2, &[7, 0x42, 0x81, 1, 20, 0x43, 0x82, 12, 7], index(7)),
        (
            &[0xa2, 2, 0x81, 0x81, 0x41, 1, 4, 0x43, 0x82, 12, 8],
            1,
            &[16, 0x80],
            index(8),
        ),
        // dependencies come first
        (
            &[0xa2, 1, 0, 2, 0x81, 0x81, 0x41, 1],
            1,
            &[20, 0x43, 0x82, 12, 1],
            Some(SequenceFault::Shape),
        ),
    ];
    for (at, (common, count, members, want)) in table.iter().enumerate() {
        let manifest = manifest_with(alloc, common, &[0x81, 0x41, 9], *count, members)?;
        let bytes = enveloped(alloc, wrapper.as_slice(), manifest.as_slice(), 0, &[])?;
        assert_eq!(rt; plan_fault(alloc, bytes.as_slice())?, *want, "row {at}");
    }
    Ok(())
}

// What the envelope of bytes is written as, where it may be written.
fn rewritten(alloc: Global, bytes: &[u8]) -> Result<Option<Octets>, EnvelopeFault> {
    let envelope = Envelope::read(alloc, bytes)?;
    if envelope.is_writable(alloc)? {
        Ok(Some(envelope.write(alloc)?))
    } else {
        Ok(None)
    }
}

#[test]
fn an_envelope_is_written_as_it_was_read(rt: HostRuntime) -> Result<(), Fail> {
    let alloc = rt.alloc();
    let wrapper = good_wrapper(alloc)?;
    let manifest = string(alloc, &MANIFEST)?;
    let table: [(u8, &[u8]); 3] = [
        (0, &[]),
        (1, &[0x61, 0x23, 0x41, 5]),
        // {4: 0, h'23': h'', "#a": h'01', "#b": h'', "ab": h'', [0]: 0}
        (
            6,
            &[
                4, 0, 0x41, 0x23, 0x40, 0x62, 0x23, 0x61, 0x41, 1, 0x62, 0x23, 0x62, 0x40, 0x62,
                0x61, 0x62, 0x40, 0x81, 0, 0,
            ],
        ),
    ];
    for (at, (count, pairs)) in table.iter().enumerate() {
        let bytes = enveloped(
            alloc,
            wrapper.as_slice(),
            manifest.as_slice(),
            *count,
            pairs,
        )?;
        let mut tagged = Octets::from_slice(alloc, &[0xd8, 107])?;
        tagged.extend(bytes.as_slice())?;
        assert!(rt;
            rewritten(alloc, bytes.as_slice())? == Some(tagged),
            "row {at}"
        );
    }
    Ok(())
}
