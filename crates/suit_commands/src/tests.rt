ghost use Rattle.std.specs.Prelude.{IfOk};
ghost use Rattle.suit_commands.specs.Proper.{IsProperSequence};

use crate::{
    Command, Digest, DigestAlgorithm, Sequence, SequenceFault, digests_are_codec, exactly_one,
    one_spelling, parameters_are_codec, proper_sequences, read, refused_in_order,
    sequences_by_bytes, write,
};
use base_types::{List, Octets, OrMemory};
use cbor_core::{Fault, Why};
use std::alloc::Global;
use std::test::Fail;

// Of a sequence that is read.
const GOOD: Option<SequenceFault> = None;

const SHAPE: Option<SequenceFault> = Some(SequenceFault::Shape);

const NESTING: Option<SequenceFault> = Some(SequenceFault::Nesting);

// What is wrong with bytes.
fn fault_of(alloc: Global, bytes: &[u8]) -> Option<SequenceFault> {
    read(alloc, bytes).err()
}

fn command(number: u64) -> Option<SequenceFault> {
    Some(SequenceFault::Command(number))
}

fn parameter(label: u64) -> Option<SequenceFault> {
    Some(SequenceFault::Parameter(label))
}

fn cbor(at: usize, why: Why) -> Option<SequenceFault> {
    Some(SequenceFault::Cbor(Fault { at, why }))
}

#[test]
fn commands_have_their_arguments(rt: HostRuntime) -> Result<(), Fail> {
    let alloc = rt.alloc();
    let table: [(&[u8], Option<SequenceFault>); 36] = [
        (&[0x80], GOOD),
        (&[0xa0], SHAPE),
        (&[0x82, 1, 15], GOOD),
        (&[0x82, 1, 0x40], SHAPE),
        (&[0x82, 2, 0], GOOD),
        (&[0x82, 2, 0x20], SHAPE),
        (&[0x82, 3, 0], GOOD),
        (&[0x82, 3, 0xf6], SHAPE),
        (&[0x82, 0x18, 24, 0], GOOD),
        (&[0x82, 0x18, 24, 0x60], SHAPE),
        (&[0x82, 14, 0], GOOD),
        (&[0x82, 14, 0xf5], SHAPE),
        (&[0x82, 18, 0], GOOD),
        (&[0x82, 18, 0x80], SHAPE),
        (&[0x82, 21, 0], GOOD),
        (&[0x82, 21, 0xa0], SHAPE),
        (&[0x82, 22, 0], GOOD),
        (&[0x82, 22, 0x40], SHAPE),
        (&[0x82, 12, 0], GOOD),
        (&[0x82, 12, 0x20], SHAPE),
        // [15, [h'80']], and an empty array, no array, and a member that is no byte string
        (&[0x82, 15, 0x81, 0x41, 0x80], GOOD),
        (&[0x82, 15, 0x80], SHAPE),
        (&[0x82, 15, 0x41, 0x80], SHAPE),
        (&[0x82, 15, 0x81, 0x80], SHAPE),
        // null alone, last, in the middle, and twice
        (&[0x82, 15, 0x81, 0xf6], GOOD),
        (&[0x82, 15, 0x82, 0x41, 0x80, 0xf6], GOOD),
        (&[0x82, 15, 0x82, 0xf6, 0x41, 0x80], SHAPE),
        (&[0x82, 15, 0x83, 0x41, 0x80, 0xf6, 0x41, 0x80], SHAPE),
        (&[0x82, 15, 0x82, 0xf6, 0xf6], SHAPE),
        (&[0x82, 20, 0xa0], GOOD),
        (&[0x82, 20, 0x80], SHAPE),
        (&[0x82, 0x18, 32, 0x41, 0x80], GOOD),
        (&[0x82, 0x18, 32, 0x80], SHAPE),
        (&[0x82, 0x18, 31, 0], command(31)),
        (&[0x82, 0, 0x40], command(0)),
        (&[0x82, 0x20, 0], SHAPE),
    ];
    for (at, (bytes, want)) in table.iter().enumerate() {
        assert_eq!(rt; fault_of(alloc, bytes), *want, "row {at}");
    }
    Ok(())
}

// [20, {label: value}].
fn setting(alloc: Global, pair: &[u8]) -> OrMemory<Octets> {
    let mut bytes = Octets::from_slice(alloc, &[0x82, 20, 0xa1])?;
    bytes.extend(pair)?;
    Ok(bytes)
}

#[test]
fn parameters_have_their_shapes(rt: HostRuntime) -> Result<(), Fail> {
    let alloc = rt.alloc();
    let table: [(&[u8], Option<SequenceFault>); 21] = [
        (&[1, 0x40], GOOD),
        (&[1, 0], SHAPE),
        (&[2, 0x40], GOOD),
        (&[2, 0x60], SHAPE),
        // no byte string, and byte strings that wrap nothing, an empty array, and 0 behind a byte
        (&[3, 0x80], SHAPE),
        (&[3, 0x40], SHAPE),
        (&[3, 0x41, 0x80], SHAPE),
        (&[3, 0x42, 0, 0], SHAPE),
        (&[14, 5], GOOD),
        (&[14, 0x40], SHAPE),
        (&[18, 0x40], GOOD),
        (&[18, 0x60], SHAPE),
        (&[21, 0x60], GOOD),
        (&[21, 0x40], SHAPE),
        (&[22, 0], GOOD),
        (&[22, 0x20], SHAPE),
        (&[0x18, 24, 0x40], GOOD),
        (&[0x18, 24, 0], SHAPE),
        (&[5, 0], parameter(5)),
        (&[0x18, 25, 0], parameter(25)),
        (&[0x20, 0], SHAPE),
    ];
    for (at, (pair, want)) in table.iter().enumerate() {
        let bytes = setting(alloc, pair)?;
        assert_eq!(rt; fault_of(alloc, bytes.as_slice()), *want, "row {at}");
    }
    Ok(())
}

#[test]
fn digests_have_the_sizes_of_their_algorithms(rt: HostRuntime) -> Result<(), Fail> {
    let alloc = rt.alloc();
    let table: [(&[u8], u8, Option<SequenceFault>); 6] = [
        (&[3, 0x58, 0x24, 0x82, 0x2f, 0x58, 0x20], 32, GOOD),
        (&[3, 0x58, 0x35, 0x82, 0x38, 0x2a, 0x58, 0x30], 48, GOOD),
        (&[3, 0x58, 0x45, 0x82, 0x38, 0x2b, 0x58, 0x40], 64, GOOD),
        (&[3, 0x58, 0x25, 0x82, 0x38, 0x2a, 0x58, 0x20], 32, SHAPE),
        // -17, and 16 in place of -16
        (&[3, 0x58, 0x24, 0x82, 0x30, 0x58, 0x20], 32, SHAPE),
        (&[3, 0x58, 0x24, 0x82, 0x0f, 0x58, 0x20], 32, SHAPE),
    ];
    for (at, (front, count, want)) in table.iter().enumerate() {
        let mut bytes = setting(alloc, front)?;
        for _ in 0..*count {
            bytes.push(7)?;
        }
        assert_eq!(rt; fault_of(alloc, bytes.as_slice()), *want, "row {at}");
    }
    Ok(())
}

#[test]
fn the_first_refusal_comes(rt: HostRuntime) -> Result<(), Fail> {
    let alloc = rt.alloc();
    let table: [(&[u8], Option<SequenceFault>); 15] = [
        (&[0x82, 1], cbor(2, Why::CutHead)),
        (&[0x80, 0], cbor(1, Why::Extra)),
        // an odd count before a wrong command
        (&[0x83, 0x18, 31, 0, 1], SHAPE),
        (&[0x81, 0x20], SHAPE),
        // a wrong parameter and a wrong command, in both orders
        (&[0x84, 20, 0xa1, 5, 0, 0x18, 31, 0], parameter(5)),
        (&[0x84, 0x18, 31, 0, 20, 0xa1, 5, 0], command(31)),
        // {2: 0, 5: 0} and {0: 0, 2: 0}
        (&[0x82, 20, 0xa2, 2, 0, 5, 0], SHAPE),
        (&[0x82, 20, 0xa2, 0, 0, 2, 0], parameter(0)),
        // a byte behind a wrapped sequence, and a place in its bytes
        (&[0x82, 0x18, 32, 0x42, 0x80, 0], cbor(1, Why::Extra)),
        (&[0x82, 0x18, 32, 0x42, 0x82, 1], cbor(2, Why::CutHead)),
        // alternatives: no array and then a byte more, and the other way round
        (&[0x82, 15, 0x82, 0x41, 0, 0x42, 0x80, 0], SHAPE),
        (
            &[0x82, 15, 0x82, 0x42, 0x80, 0, 0x41, 0],
            cbor(1, Why::Extra),
        ),
        // a wrong alternative before a null in the middle, and behind it
        (
            &[0x82, 15, 0x83, 0x42, 0x80, 0, 0xf6, 0x41, 0x80],
            cbor(1, Why::Extra),
        ),
        (&[0x82, 15, 0x82, 0xf6, 0x42, 0x80, 0], SHAPE),
        // a wrong command inside before one outside
        (
            &[0x84, 0x18, 32, 0x44, 0x82, 0x18, 30, 0, 0x18, 31, 0],
            command(30),
        ),
    ];
    for (at, (bytes, want)) in table.iter().enumerate() {
        assert_eq!(rt; fault_of(alloc, bytes), *want, "row {at}");
    }
    Ok(())
}

// The sequence [32, bytes].
fn running(alloc: Global, bytes: &[u8]) -> OrMemory<Octets> {
    let mut round = Octets::from_slice(alloc, &[0x82, 0x18, 32])?;
    let count = bytes.len().min(255) as u8;
    if count < 24 {
        round.push(0x40 + count)?;
    } else {
        round.push(0x58)?;
        round.push(count)?;
    }
    round.extend(bytes)?;
    Ok(round)
}

#[test]
fn eight_sequences_may_stand_round_one(rt: HostRuntime) -> Result<(), Fail> {
    let alloc = rt.alloc();
    // the deepest bytes, how many run-sequences stand round them, and what comes
    let table: [(&[u8], u8, Option<SequenceFault>); 5] = [
        (&[0x80], 8, GOOD),
        (&[0x80], 9, NESTING),
        (&[0x18], 8, cbor(0, Why::CutHead)),
        (&[0x18], 9, NESTING),
        (&[0x82, 0x18, 32, 0x80], 8, SHAPE),
    ];
    for (at, (deepest, count, want)) in table.iter().enumerate() {
        let mut bytes = Octets::from_slice(alloc, deepest)?;
        for _ in 0..*count {
            bytes = running(alloc, bytes.as_slice())?;
        }
        assert_eq!(rt; fault_of(alloc, bytes.as_slice()), *want, "row {at}");
    }
    Ok(())
}

// [20, {3: digest, 14: 5, 21: "#a"}, 21, 15, 3, 15], with a digest of 32 times 7.
const SAMPLE: [u8; 52] = [
    0x86, 20, 0xa3, 3, 0x58, 0x24, 0x82, 0x2f, 0x58, 0x20, 7, 7, 7, 7, 7, 7, 7, 7, 7, 7, 7, 7, 7,
    7, 7, 7, 7, 7, 7, 7, 7, 7, 7, 7, 7, 7, 7, 7, 7, 7, 7, 7, 14, 5, 21, 0x62, 0x23, 0x61, 21, 15,
    3, 15,
];

#[test]
fn commands_are_read(rt: HostRuntime) -> Result<(), Fail> {
    let alloc = rt.alloc();
    exactly_one();
    sequences_by_bytes();
    parameters_are_codec();
    refused_in_order();
    let sequence = read(alloc, &SAMPLE)?;
    let [
        Command::Override(parameters),
        Command::Fetch(15),
        Command::ImageMatch(15),
    ] = sequence.as_slice()
    else {
        assert!(rt; false, "other commands");
        return Ok(());
    };
    let digest = Digest {
        algorithm: DigestAlgorithm::Sha256,
        bytes: Octets::from_slice(alloc, &[7; 32])?,
    };
    assert!(rt; parameters.image_digest == Some(digest));
    assert_eq!(rt; parameters.image_size, Some(5));
    assert!(rt; parameters.vendor.is_none() && parameters.source.is_none());
    if let Some(uri) = &parameters.uri {
        assert_eq!(rt; uri.as_str(), "#a");
    }
    Ok(())
}

// What the sequence that bytes are is written as.
fn written(alloc: Global, bytes: &[u8]) -> Result<Octets, SequenceFault> {
    let sequence = read(alloc, bytes)?;
    Ok(write(alloc, &sequence)?)
}

#[test]
fn sequences_are_written_as_they_were_read(rt: HostRuntime) -> Result<(), Fail> {
    let alloc = rt.alloc();
    one_spelling();
    proper_sequences();
    let table: [&[u8]; 6] = [
        &SAMPLE,
        &[0x80],
        // each command with a number, in no order of theirs
        &[
            0x92, 22, 8, 1, 0, 2, 1, 3, 2, 0x18, 24, 3, 14, 4, 18, 5, 21, 0x18, 24, 12, 7,
        ],
        // [15, [h'80', h'820c01', null], 32, h'80', 15, [null]]
        &[
            0x86, 15, 0x83, 0x41, 0x80, 0x43, 0x82, 12, 1, 0xf6, 0x18, 32, 0x41, 0x80, 15, 0x81,
            0xf6,
        ],
        // [20, {1: h'01', 2: h'02', 18: h'03', 22: 4, 24: h'05'}]
        &[
            0x82, 20, 0xa5, 1, 0x41, 1, 2, 0x41, 2, 18, 0x41, 3, 22, 4, 0x18, 24, 0x41, 5,
        ],
        // [32, h'82182041 80']
        &[0x82, 0x18, 32, 0x45, 0x82, 0x18, 32, 0x41, 0x80],
    ];
    for (at, bytes) in table.iter().enumerate() {
        let again = written(alloc, bytes)?;
        assert_eq!(rt; again.as_slice(), *bytes, "row {at}");
    }
    Ok(())
}

// The sequence [12, 1, 21, 15], made by hand.
fn made(alloc: Global) -> OrMemory<Sequence>
    ensures { IfOk result (λ sequence. IsProperSequence sequence) }
{
    let mut sequence = List::new(alloc);
    sequence.push(Command::SetIndex(1))?;
    sequence.push(Command::Fetch(15))?;
    Ok(sequence)
}

#[test]
fn a_sequence_that_was_never_read_is_written(rt: HostRuntime) -> Result<(), Fail> {
    let alloc = rt.alloc();
    let sequence = made(alloc)?;
    let bytes = write(alloc, &sequence)?;
    let want = [0x84, 12, 1, 21, 15];
    assert_eq!(rt; bytes.as_slice(), want.as_slice());
    assert!(rt; read(alloc, &want)? == sequence);
    Ok(())
}

#[test]
fn digests_match_what_was_hashed(rt: HostRuntime) -> Result<(), Fail> {
    let alloc = rt.alloc();
    digests_are_codec();
    // the digests of no bytes and of `hello`
    let table: [(DigestAlgorithm, &[u8], &[u8]); 6] = [
        (
            DigestAlgorithm::Sha256,
            &[],
            &[
                0xe3, 0xb0, 0xc4, 0x42, 0x98, 0xfc, 0x1c, 0x14, 0x9a, 0xfb, 0xf4, 0xc8, 0x99, 0x6f,
                0xb9, 0x24, 0x27, 0xae, 0x41, 0xe4, 0x64, 0x9b, 0x93, 0x4c, 0xa4, 0x95, 0x99, 0x1b,
                0x78, 0x52, 0xb8, 0x55,
            ],
        ),
        (
            DigestAlgorithm::Sha256,
            b"hello",
            &[
                0x2c, 0xf2, 0x4d, 0xba, 0x5f, 0xb0, 0xa3, 0x0e, 0x26, 0xe8, 0x3b, 0x2a, 0xc5, 0xb9,
                0xe2, 0x9e, 0x1b, 0x16, 0x1e, 0x5c, 0x1f, 0xa7, 0x42, 0x5e, 0x73, 0x04, 0x33, 0x62,
                0x93, 0x8b, 0x98, 0x24,
            ],
        ),
        (
            DigestAlgorithm::Sha384,
            &[],
            &[
                0x38, 0xb0, 0x60, 0xa7, 0x51, 0xac, 0x96, 0x38, 0x4c, 0xd9, 0x32, 0x7e, 0xb1, 0xb1,
                0xe3, 0x6a, 0x21, 0xfd, 0xb7, 0x11, 0x14, 0xbe, 0x07, 0x43, 0x4c, 0x0c, 0xc7, 0xbf,
                0x63, 0xf6, 0xe1, 0xda, 0x27, 0x4e, 0xde, 0xbf, 0xe7, 0x6f, 0x65, 0xfb, 0xd5, 0x1a,
                0xd2, 0xf1, 0x48, 0x98, 0xb9, 0x5b,
            ],
        ),
        (
            DigestAlgorithm::Sha384,
            b"hello",
            &[
                0x59, 0xe1, 0x74, 0x87, 0x77, 0x44, 0x8c, 0x69, 0xde, 0x6b, 0x80, 0x0d, 0x7a, 0x33,
                0xbb, 0xfb, 0x9f, 0xf1, 0xb4, 0x63, 0xe4, 0x43, 0x54, 0xc3, 0x55, 0x3b, 0xcd, 0xb9,
                0xc6, 0x66, 0xfa, 0x90, 0x12, 0x5a, 0x3c, 0x79, 0xf9, 0x03, 0x97, 0xbd, 0xf5, 0xf6,
                0xa1, 0x3d, 0xe8, 0x28, 0x68, 0x4f,
            ],
        ),
        (
            DigestAlgorithm::Sha512,
            &[],
            &[
                0xcf, 0x83, 0xe1, 0x35, 0x7e, 0xef, 0xb8, 0xbd, 0xf1, 0x54, 0x28, 0x50, 0xd6, 0x6d,
                0x80, 0x07, 0xd6, 0x20, 0xe4, 0x05, 0x0b, 0x57, 0x15, 0xdc, 0x83, 0xf4, 0xa9, 0x21,
                0xd3, 0x6c, 0xe9, 0xce, 0x47, 0xd0, 0xd1, 0x3c, 0x5d, 0x85, 0xf2, 0xb0, 0xff, 0x83,
                0x18, 0xd2, 0x87, 0x7e, 0xec, 0x2f, 0x63, 0xb9, 0x31, 0xbd, 0x47, 0x41, 0x7a, 0x81,
                0xa5, 0x38, 0x32, 0x7a, 0xf9, 0x27, 0xda, 0x3e,
            ],
        ),
        (
            DigestAlgorithm::Sha512,
            b"hello",
            &[
                0x9b, 0x71, 0xd2, 0x24, 0xbd, 0x62, 0xf3, 0x78, 0x5d, 0x96, 0xd4, 0x6a, 0xd3, 0xea,
                0x3d, 0x73, 0x31, 0x9b, 0xfb, 0xc2, 0x89, 0x0c, 0xaa, 0xda, 0xe2, 0xdf, 0xf7, 0x25,
                0x19, 0x67, 0x3c, 0xa7, 0x23, 0x23, 0xc3, 0xd9, 0x9b, 0xa5, 0xc1, 0x1d, 0x7c, 0x7a,
                0xcc, 0x6e, 0x14, 0xb8, 0xc5, 0xda, 0x0c, 0x46, 0x63, 0x47, 0x5c, 0x2e, 0x5c, 0x3a,
                0xde, 0xf4, 0x6f, 0x73, 0xbc, 0xde, 0xc0, 0x43,
            ],
        ),
    ];
    for (at, (algorithm, text, bytes)) in table.iter().enumerate() {
        let digest = Digest {
            algorithm: *algorithm,
            bytes: Octets::from_slice(alloc, bytes)?,
        };
        assert!(rt; digest.matches(text), "row {at}");
        assert!(rt; !digest.matches(b"hell"), "row {at}");
    }
    Ok(())
}
