ghost use Rattle.cbor_core.specs.Spelling.{IsProper};

use crate::append::appends;
use crate::keys::{ONE_LEVEL, TWO_LEVELS, grows, signs};
use crate::manifests::{holds_digest, reads_envelope, reads_sequence, writes_sequence};
use cbor_core::{Item, decode_whole, encode, is_proper};
use hss_verify::{HssPublic, hss_verify};
use lms_core::chain;
use sha2::{Digest, Sha256};
use std::alloc::{AllocError, Global};
use std::thread::Threads;

/// What is done in each round.
#[derive(Clone, Copy, Debug)]
pub enum Work {
    Decode,
    Encode,
    Verify,
    Cases,
    Hash,
    Chain,
    Append,
    Grow,
    GrowByFour,
    SignOne,
    SignTwo,
    SignBelow,
    ReadEnvelope,
    HoldDigest,
    ReadSequence,
    WriteSequence,
}

impl Work {
    /// The work of that name.
    pub fn named(name: &str) -> Option<Work> {
        match name {
            "decode" => Some(Work::Decode),
            "encode" => Some(Work::Encode),
            "verify" => Some(Work::Verify),
            "cases" => Some(Work::Cases),
            "hash" => Some(Work::Hash),
            "chain" => Some(Work::Chain),
            "append" => Some(Work::Append),
            "grow" => Some(Work::Grow),
            "grow_by_four" => Some(Work::GrowByFour),
            "sign_one" => Some(Work::SignOne),
            "sign_two" => Some(Work::SignTwo),
            "sign_below" => Some(Work::SignBelow),
            "read_envelope" => Some(Work::ReadEnvelope),
            "hold_digest" => Some(Work::HoldDigest),
            "read_sequence" => Some(Work::ReadSequence),
            "write_sequence" => Some(Work::WriteSequence),
            _ => None,
        }
    }

    /// In how many of the rounds the work had a good answer.
    pub fn done<R: Threads + AllocGlobal + Sync>(self, rt: &R, bytes: &[u8], rounds: u64) -> u64 {
        let alloc = rt.alloc();
        keep_memory(alloc);
        match self {
            Work::Decode => decodes(alloc, bytes, rounds),
            Work::Encode => encodes(alloc, bytes, rounds),
            Work::Verify => verifies(bytes, rounds),
            Work::Cases => verifies_cases(bytes, rounds),
            Work::Hash => hashes(bytes, rounds),
            Work::Chain => chains(rounds),
            Work::Append => appends(alloc, rounds),
            Work::Grow => grows(rt, 1, rounds),
            Work::GrowByFour => grows(rt, 4, rounds),
            Work::SignOne => signs(rt, ONE_LEVEL, 1, rounds),
            Work::SignTwo => signs(rt, TWO_LEVELS, 1, rounds),
            Work::SignBelow => signs(rt, TWO_LEVELS, 1024, rounds),
            Work::ReadEnvelope => reads_envelope(alloc, rounds),
            Work::HoldDigest => holds_digest(alloc, rounds),
            Work::ReadSequence => reads_sequence(alloc, rounds),
            Work::WriteSequence => writes_sequence(alloc, rounds),
        }
    }
}

// Takes 30 MiB and gives them back, so that what the rounds give back stays with the process, as it does
// where small messages come one after another. Else glibc hands it to the system after each round, and
// the next round takes a fault for each page that it gets anew, a third of the time of `decode`.
fn keep_memory(alloc: Global) {
    let _much: Result<Vec<u8>, AllocError> = Vec::with_capacity(alloc, 30 << 20);
}

fn decodes(alloc: Global, bytes: &[u8], rounds: u64) -> u64 {
    let mut good: u64 = 0;
    for _ in 0..rounds {
        if decode_whole(alloc, bytes).is_ok() {
            good = good.saturating_add(1);
        }
    }
    good
}

fn encodes(alloc: Global, bytes: &[u8], rounds: u64) -> u64 {
    let Ok(item) = decode_whole(alloc, bytes) else {
        return 0;
    };
    let Ok(true) = is_proper(alloc, &item) else {
        return 0;
    };
    encodes_item(alloc, &item, rounds)
}

fn encodes_item(alloc: Global, item: &Item, rounds: u64) -> u64
    requires { IsProper item.now }
{
    let mut good: u64 = 0;
    for _ in 0..rounds {
        if encode(alloc, item).is_ok() {
            good = good.saturating_add(1);
        }
    }
    good
}

fn verifies(bytes: &[u8], rounds: u64) -> u64 {
    let Some((key, message, signature)) = signed(bytes) else {
        return 0;
    };
    let mut good: u64 = 0;
    for _ in 0..rounds {
        if hss_verify(&key, message, signature) {
            good = good.saturating_add(1);
        }
    }
    good
}

// Verifies one case after another, each behind its length.
fn verifies_cases(bytes: &[u8], rounds: u64) -> u64 {
    let mut good: u64 = 0;
    let mut rest = bytes;
    for _ in 0..rounds {
        let Some((case, after)) = split_by_length(rest) else {
            return good;
        };
        good = good.saturating_add(verifies(case, 1));
        rest = after;
    }
    good
}

// A public key, a message behind its length, and a signature.
fn signed(bytes: &[u8]) -> Option<(HssPublic, &[u8], &[u8])> {
    if bytes.len() < 60 {
        return None;
    }
    let (key, rest) = bytes.split_at(60);
    let (message, signature) = split_by_length(rest)?;
    Some((HssPublic::read(key)?, message, signature))
}

// The bytes whose length stands before them as four bytes, and what follows.
fn split_by_length(bytes: &[u8]) -> Option<(&[u8], &[u8])> {
    if bytes.len() < 4 {
        return None;
    }
    let (length, rest) = bytes.split_at(4);
    let length = u32::from_be_bytes([length[0], length[1], length[2], length[3]]) as usize;
    if rest.len() < length {
        return None;
    }
    Some(rest.split_at(length))
}

fn hashes(bytes: &[u8], rounds: u64) -> u64 {
    let mut good: u64 = 0;
    for _ in 0..rounds {
        let digest = Sha256::digest(bytes);
        if digest != [0; 32] {
            good = good.saturating_add(1);
        }
    }
    good
}

fn chains(rounds: u64) -> u64 {
    let mut good: u64 = 0;
    let mut value = [0; 32];
    for _ in 0..rounds {
        value = chain(&[7; 16], 0, 0, 0, 255, &value);
        if value != [0; 32] {
            good = good.saturating_add(1);
        }
    }
    good
}
