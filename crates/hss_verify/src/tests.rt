//! Expected values come from a program of another language, written from RFC 8554.

mod published;
mod signer;

use super::*;
use sha2::{Digest, Sha256};
use signer::Tree;
use std::alloc::{AllocError, Global};
use std::test::Fail;

// The public keys of the key seed 32 times 11 and the digests of their signatures: one level of
// width 8 at leaf 0, and two levels of width 4 at leaf 33.
const ONE_LEVEL: [u8; 60] = [
    0x00, 0x00, 0x00, 0x01, 0x00, 0x00, 0x00, 0x05, 0x00, 0x00, 0x00, 0x04, 0x1e, 0x96, 0x52, 0x2d,
    0x2f, 0x30, 0xdb, 0x4e, 0xeb, 0x8c, 0x41, 0xad, 0x74, 0x72, 0x5f, 0x14, 0x92, 0x03, 0x67, 0x34,
    0x09, 0xc0, 0xb0, 0x01, 0x22, 0x96, 0x85, 0x1d, 0xd6, 0x6c, 0xaf, 0xdc, 0x0d, 0xb0, 0x2e, 0xbb,
    0xe2, 0x73, 0xf6, 0x25, 0x3f, 0x22, 0x34, 0x91, 0x28, 0x7f, 0xa2, 0xd6,
];

const ONE_LEVEL_SIGNATURE: [u8; 32] = [
    0x66, 0xcf, 0x25, 0x9b, 0x27, 0x26, 0x48, 0x72, 0x43, 0x4e, 0xb9, 0x29, 0x2c, 0xda, 0x80, 0x39,
    0xb6, 0x74, 0x02, 0x1d, 0x52, 0xcd, 0x98, 0x97, 0x21, 0xdc, 0x8b, 0xb7, 0x4a, 0x55, 0x03, 0xb3,
];

const TWO_LEVELS: [u8; 60] = [
    0x00, 0x00, 0x00, 0x02, 0x00, 0x00, 0x00, 0x05, 0x00, 0x00, 0x00, 0x03, 0x1e, 0x96, 0x52, 0x2d,
    0x2f, 0x30, 0xdb, 0x4e, 0xeb, 0x8c, 0x41, 0xad, 0x74, 0x72, 0x5f, 0x14, 0x67, 0x7a, 0x1e, 0x21,
    0x17, 0xf3, 0x16, 0x5e, 0xff, 0x99, 0xa4, 0x6d, 0xc3, 0x54, 0xca, 0xb4, 0x0d, 0x5f, 0xc5, 0x71,
    0x8e, 0xe7, 0x86, 0x60, 0x72, 0x55, 0x10, 0x1b, 0x43, 0x06, 0x9a, 0xcb,
];

const TWO_LEVELS_SIGNATURE: [u8; 32] = [
    0x5e, 0xcf, 0x35, 0x90, 0xdc, 0x24, 0xe7, 0x8a, 0x98, 0x72, 0x7c, 0x95, 0x33, 0xe2, 0x64, 0x6e,
    0xe8, 0xa4, 0x73, 0x3d, 0xf0, 0x3c, 0x5d, 0xbe, 0x7a, 0x4e, 0xd6, 0xf5, 0x32, 0x0a, 0x91, 0xf8,
];

const KEY_SEED: [u8; 32] = [0x11; 32];

const MESSAGE: &[u8] = b"TEEP";

#[test]
fn one_level(rt: HostRuntime) -> Result<(), Fail> {
    let tree = Tree::top(4, &KEY_SEED);
    let key = read(&public_of(rt.alloc(), 1, &tree)?)?;
    assert_eq!(rt; key.bytes(), ONE_LEVEL);

    let mut signature = Vec::new(rt.alloc());
    signature.extend_from_slice(&[0; 4])?;
    signature.extend_from_slice(&tree.sign(rt.alloc(), 0, MESSAGE)?)?;
    assert_eq!(rt; signature.len(), 1296);
    assert_eq!(rt; Sha256::digest(signature.as_slice()), ONE_LEVEL_SIGNATURE);
    assert!(rt; hss_verify(&key, MESSAGE, &signature));
    assert!(rt; !hss_verify(&key, b"TEEp", &signature));

    // the leaf 32, and a byte of the last chain of the checksum
    for (place, value) in [(7, 32), (44 + 32 * 33, 0)] {
        let mut changed = signature.clone()?;
        set(&mut changed, place, value);
        assert!(rt; !hss_verify(&key, MESSAGE, &changed), "at {place}");
    }
    signature.push(0)?;
    assert!(rt; !hss_verify(&key, MESSAGE, &signature));
    Ok(())
}

#[test]
fn two_levels(rt: HostRuntime) -> Result<(), Fail> {
    let top = Tree::top(3, &KEY_SEED);
    let key = read(&public_of(rt.alloc(), 2, &top)?)?;
    assert_eq!(rt; key.bytes(), TWO_LEVELS);

    let lower = top.below(1);
    let lower_key = lower.public(rt.alloc())?;
    let mut signature = Vec::new(rt.alloc());
    signature.extend_from_slice(&[0, 0, 0, 1])?;
    signature.extend_from_slice(&top.sign(rt.alloc(), 1, &lower_key)?)?;
    signature.extend_from_slice(&lower_key)?;
    signature.extend_from_slice(&lower.sign(rt.alloc(), 1, MESSAGE)?)?;
    assert_eq!(rt; signature.len(), 4756);
    assert_eq!(rt; Sha256::digest(signature.as_slice()), TWO_LEVELS_SIGNATURE);
    assert!(rt; hss_verify(&key, MESSAGE, &signature));

    // each of the first 60 bytes, and every twentieth
    for at in 0..298u32 {
        let place = if at < 60 { at } else { (at - 60) * 20 };
        let mut changed = signature.clone()?;
        flip(&mut changed, place as usize);
        assert!(rt; !hss_verify(&key, MESSAGE, &changed), "at {place}");
    }
    Ok(())
}

#[test]
fn reads_keys_of_known_types(rt: HostRuntime) {
    assert!(rt; HssPublic::read(&ONE_LEVEL).is_some());
    assert!(rt; HssPublic::read(&ONE_LEVEL[..59]).is_none());
    // the levels 0, 8 and 9, and types below and above the tables
    for (place, value, is_known) in [
        (3, 0, false),
        (3, 8, true),
        (3, 9, false),
        (0, 1, false),
        (7, 4, false),
        (7, 9, true),
        (7, 10, false),
        (11, 0, false),
        (11, 5, false),
    ] {
        let mut bytes = ONE_LEVEL;
        set(&mut bytes, place, value);
        assert_eq!(rt;
            HssPublic::read(&bytes).is_some(),
            is_known,
            "{value} at {place}"
        );
    }
}

#[test]
fn published_signatures(rt: HostRuntime) -> Result<(), Fail> {
    let lower_key = decoded(rt.alloc(), published::LOWER_KEY)?;
    let lower = decoded(rt.alloc(), published::LOWER_SIGNATURE)?;
    let mut alone = Vec::new(rt.alloc());
    alone.extend_from_slice(&[0; 4])?;
    alone.extend_from_slice(&lower)?;
    let mut below = Vec::new(rt.alloc());
    below.extend_from_slice(&[0, 0, 0, 1])?;
    below.extend_from_slice(&decoded(rt.alloc(), published::UPPER_SIGNATURE)?)?;
    below.extend_from_slice(&lower_key)?;
    below.extend_from_slice(&lower)?;

    let mut lower_public = Vec::new(rt.alloc());
    lower_public.extend_from_slice(&[0, 0, 0, 1])?;
    lower_public.extend_from_slice(&lower_key)?;
    let public = decoded(rt.alloc(), published::KEY)?;
    for (key, signature) in [(&lower_public, &alone), (&public, &below)] {
        let key = read(key)?;
        assert!(rt; hss_verify(&key, published::MESSAGE, signature));
        assert!(rt; !hss_verify(&key, MESSAGE, signature));
    }
    Ok(())
}

fn decoded(alloc: Global, text: &str) -> Result<Vec<u8>, Fail> {
    Ok(hex::decode(alloc, text)?)
}

fn read(bytes: &[u8]) -> Result<HssPublic, Fail> {
    Ok(HssPublic::read(bytes).ok_or("no public key")?)
}

fn public_of(alloc: Global, levels: u32, top: &Tree) -> Result<Vec<u8>, AllocError> {
    let mut bytes = Vec::new(alloc);
    bytes.extend_from_slice(&levels.to_be_bytes())?;
    bytes.extend_from_slice(&top.public(alloc)?)?;
    Ok(bytes)
}

fn set(bytes: &mut [u8], place: usize, value: u8) {
    if place < bytes.len() {
        bytes[place] = value;
    }
}

fn flip(bytes: &mut [u8], place: usize) {
    if place < bytes.len() {
        bytes[place] ^= 1;
    }
}
