//! Envelopes and command sequences of manifests (draft-ietf-suit-manifest), read and written.
ghost use Rattle.suit_commands.specs.Proper.{IsProperSequence};

use base_types::{Octets, OrMemory};
use cbor_heads::Writer;
use sha2::{Digest, Sha256};
use std::alloc::Global;
use suit_commands::Sequence;
use suit_envelope::Envelope;

/// How many bytes are attached to the envelope.
const ATTACHED: usize = 1 << 20;

/// The manifest `{1: 1, 2: 7, 3: h'a10281814101', 5: [h'09']}`: a number, a component and an identifier.
const MANIFEST: [u8; 17] = [
    0xa4, 1, 1, 2, 7, 3, 0x46, 0xa1, 2, 0x81, 0x81, 0x41, 1, 5, 0x81, 0x41, 9,
];

/// How many groups of four commands stand in the sequence.
const GROUPS: u64 = 2_500;

/// How many times an envelope with an attached payload of 1 MiB was read.
pub fn reads_envelope(alloc: Global, rounds: u64) -> u64 {
    let Ok(bytes) = envelope_bytes(alloc) else {
        return 0;
    };
    let mut good: u64 = 0;
    for _ in 0..rounds {
        if is_envelope(alloc, bytes.as_slice()) {
            good = good.saturating_add(1);
        }
    }
    good
}

fn is_envelope(alloc: Global, bytes: &[u8]) -> bool {
    Envelope::read(alloc, bytes).is_ok()
}

/// How many times the digest of that envelope held.
pub fn holds_digest(alloc: Global, rounds: u64) -> u64 {
    let Ok(bytes) = envelope_bytes(alloc) else {
        return 0;
    };
    let Ok(envelope) = Envelope::read(alloc, bytes.as_slice()) else {
        return 0;
    };
    holds(&envelope, rounds)
}

fn holds(envelope: &Envelope, rounds: u64) -> u64 {
    let mut good: u64 = 0;
    for _ in 0..rounds {
        if envelope.digest_holds() {
            good = good.saturating_add(1);
        }
    }
    good
}

/// How many times a sequence of 10,000 commands was read.
pub fn reads_sequence(alloc: Global, rounds: u64) -> u64 {
    let Ok(bytes) = sequence_bytes(alloc) else {
        return 0;
    };
    let mut good: u64 = 0;
    for _ in 0..rounds {
        if is_sequence(alloc, bytes.as_slice()) {
            good = good.saturating_add(1);
        }
    }
    good
}

fn is_sequence(alloc: Global, bytes: &[u8]) -> bool {
    suit_commands::read(alloc, bytes).is_ok()
}

/// How many times that sequence was written.
pub fn writes_sequence(alloc: Global, rounds: u64) -> u64 {
    let Ok(bytes) = sequence_bytes(alloc) else {
        return 0;
    };
    writes_read(alloc, bytes.as_slice(), rounds)
}

fn writes_read(alloc: Global, bytes: &[u8], rounds: u64) -> u64 {
    let Ok(sequence) = suit_commands::read(alloc, bytes) else {
        return 0;
    };
    writes(alloc, &sequence, rounds)
}

fn writes(alloc: Global, sequence: &Sequence, rounds: u64) -> u64
    requires { IsProperSequence sequence.now }
{
    let mut good: u64 = 0;
    for _ in 0..rounds {
        if suit_commands::write(alloc, sequence).is_ok() {
            good = good.saturating_add(1);
        }
    }
    good
}

// `107({2: wrapper, 3: manifest, "#a": payload})`: 1,048,648 bytes.
fn envelope_bytes(alloc: Global) -> OrMemory<Octets> {
    let payload = Octets::from_vec(vec![in alloc; 7; ATTACHED]?);
    let wrapper = wrapper_bytes(alloc)?;
    let mut out = Writer::new(alloc);
    out.tag(107)?;
    out.map(3)?;
    out.unsigned(2)?;
    out.bytes(wrapper.as_slice())?;
    out.unsigned(3)?;
    out.bytes(&MANIFEST)?;
    out.text("#a")?;
    out.bytes(payload.as_slice())?;
    Ok(out.into_octets())
}

// `[<<[-16, digest]>>]`, with the SHA-256 digest of the manifest as a byte string, and no block.
fn wrapper_bytes(alloc: Global) -> OrMemory<Octets> {
    let mut member = Writer::new(alloc);
    member.bytes(&MANIFEST)?;
    let mut digest = Writer::new(alloc);
    digest.array(2)?;
    digest.negative(15)?;
    digest.bytes(&Sha256::digest(member.as_slice()))?;
    let mut out = Writer::new(alloc);
    out.array(1)?;
    out.bytes(digest.as_slice())?;
    Ok(out.into_octets())
}

// The 10,000 commands: 90,003 bytes.
fn sequence_bytes(alloc: Global) -> OrMemory<Octets> {
    let mut out = Writer::new(alloc);
    out.array(8 * GROUPS)?;
    for group in 0..GROUPS {
        put_group(&mut out, group % 16)?;
    }
    Ok(out.into_octets())
}

// Four commands, each behind its number: the component's index, its size and its URI, fetch, and image match.
fn put_group(out: &mut Writer, index: u64) -> OrMemory<()> {
    out.unsigned(12)?;
    out.unsigned(index)?;
    out.unsigned(20)?;
    out.map(2)?;
    out.unsigned(14)?;
    out.unsigned(1_048_576)?;
    out.unsigned(21)?;
    out.text("http://example.com/a")?;
    out.unsigned(21)?;
    out.unsigned(15)?;
    out.unsigned(3)?;
    out.unsigned(15)
}
