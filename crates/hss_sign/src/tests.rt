use crate::{Key, KeyParams, LeafGate};
use base_types::{Octets, OrMemory};
use hss_verify::{HssPublic, hss_verify};
use sha2::{Digest, Sha256};
use std::hint::spin_loop;
use std::process::Abort;
use std::sync::atomic::{AtomicBool, AtomicU64, Ordering};
use std::test::Fail;
use std::thread::Threads;

const SEED: [u8; 32] = [0x11; 32];

const MESSAGE: [u8; 4] = *b"TEEP";

const ONE_LEVEL: KeyParams = KeyParams {
    levels: 1,
    height: 5,
    width: 8,
};

const TWO_LEVELS: KeyParams = KeyParams {
    levels: 2,
    height: 5,
    width: 4,
};

// The digest of what two levels sign at leaf 33, computed by a program of another language.
const SIGNATURE: [u8; 32] = [
    0x5e, 0xcf, 0x35, 0x90, 0xdc, 0x24, 0xe7, 0x8a, 0x98, 0x72, 0x7c, 0x95, 0x33, 0xe2, 0x64, 0x6e,
    0xe8, 0xa4, 0x73, 0x3d, 0xf0, 0x3c, 0x5d, 0xbe, 0x7a, 0x4e, 0xd6, 0xf5, 0x32, 0x0a, 0x91, 0xf8,
];

// What a key signs at a leaf.
fn signed<R: Threads + Abort + AllocGlobal + Sync>(
    rt: &R,
    key: &mut Key,
    leaf: u64,
) -> OrMemory<Octets> {
    assert!(rt; leaf < key.capacity());
    key.sign(rt, leaf, &MESSAGE)
}

// The public key of a fresh key, and what it signs at a leaf.
fn freshly_signed<R: Threads + Abort + AllocGlobal + Sync>(
    rt: &R,
    params: KeyParams,
    leaf: u64,
    workers: usize,
) -> OrMemory<(HssPublic, Octets)> {
    assert!(rt; params.is_proper());
    assert!(rt; 1 <= workers && workers <= 16);
    let mut key = Key::grow(rt, params, &SEED, leaf, workers)?;
    let signature = signed(rt, &mut key, leaf)?;
    Ok((key.public(), signature))
}

#[test]
fn two_levels_sign(rt: HostRuntime) -> Result<(), Fail> {
    let mut key = Key::grow(&rt, TWO_LEVELS, &SEED, 0, 3)?;
    assert_eq!(rt; key.capacity(), 1024);
    let signature = signed(&rt, &mut key, 33)?;
    assert_eq!(rt; signature.len(), 4756);
    assert_eq!(rt; Sha256::digest(signature.as_slice()), SIGNATURE);
    assert!(rt; hss_verify(&key.public(), &MESSAGE, signature.as_slice()));
    Ok(())
}

#[test]
fn workers_change_nothing(rt: HostRuntime) -> Result<(), Fail> {
    let (public, signature) = freshly_signed(&rt, ONE_LEVEL, 31, 1)?;
    assert_eq!(rt; signature.len(), 1296);
    assert!(rt; hss_verify(&public, &MESSAGE, signature.as_slice()));
    for workers in [3, 16] {
        let (other, again) = freshly_signed(&rt, ONE_LEVEL, 31, workers)?;
        assert!(rt; other == public && again == signature, "{workers} workers");
    }
    Ok(())
}

#[test]
fn what_is_kept_changes_nothing(rt: HostRuntime) -> Result<(), Fail> {
    let mut key = Key::grow(&rt, TWO_LEVELS, &SEED, 0, 2)?;
    for leaf in [0, 31, 32, 0] {
        let (_, fresh) = freshly_signed(&rt, TWO_LEVELS, leaf, 4)?;
        let signature = signed(&rt, &mut key, leaf)?;
        assert!(rt; signature == fresh, "leaf {leaf}");
    }
    Ok(())
}

// Counts the leaves, and holds leaf 0 until one of the other half is entered.
#[derive(Drop)]
struct Held {
    leaves: AtomicU64,
    other: AtomicBool,
    met: AtomicBool,
}

impl LeafGate for Held {
    fn enter(&self, index: u64) {
        self.leaves.fetch_add(1, Ordering::SeqCst);
        if index >= 16 {
            self.other.store(true, Ordering::SeqCst);
        }
        if index == 0 {
            self.met.store(is_set_soon(&self.other), Ordering::SeqCst);
        }
    }
}

// Whether it is set within as many turns.
fn is_set_soon(flag: &AtomicBool) -> bool {
    for _ in 0..1u32 << 28 {
        if flag.load(Ordering::SeqCst) {
            return true;
        }
        spin_loop();
    }
    false
}

// One worker that computed all leaves would hold leaf 0 to its last turn.
#[test]
fn two_workers_grow_at_once(rt: HostRuntime) -> Result<(), Fail> {
    let gate = Held {
        leaves: AtomicU64::new(0),
        other: AtomicBool::new(false),
        met: AtomicBool::new(false),
    };
    Key::grow_with(&rt, TWO_LEVELS, &SEED, 0, 2, &gate)?;
    assert!(rt; gate.met.load(Ordering::SeqCst));
    assert_eq!(rt; gate.leaves.load(Ordering::SeqCst), 32);
    Ok(())
}

#[test]
fn parameters_are_proper_by_the_table(rt: HostRuntime) -> Result<(), Fail> {
    let proper = [
        (1, 5, 4),
        (1, 5, 8),
        (1, 10, 4),
        (1, 10, 8),
        (2, 5, 4),
        (2, 5, 8),
        (2, 10, 4),
        (2, 10, 8),
    ];
    for levels in 0..5 {
        for height in 0..27 {
            for width in 0..11 {
                let params = KeyParams {
                    levels,
                    height,
                    width,
                };
                let want = proper.contains(&(levels, height, width));
                assert_eq!(rt; params.is_proper(), want, "{levels} {height} {width}");
            }
        }
    }
    Ok(())
}
