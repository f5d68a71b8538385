//! Keys that are grown and sign.
ghost use Rattle.hss_sign.specs.Params.{IsProperParams};
ghost use Rattle.std.specs.Prelude.{◌≤◌};

use hss_sign::{Key, KeyParams};
use std::thread::Threads;

/// A key of one level.
pub const ONE_LEVEL: KeyParams = KeyParams {
    levels: 1,
    height: 5,
    width: 8,
};

/// A key of two levels, with as many leaves as one can have.
pub const TWO_LEVELS: KeyParams = KeyParams {
    levels: 2,
    height: 10,
    width: 4,
};

const SEED: [u8; 32] = [0x11; 32];

/// How many times a key of two levels was grown by so many workers: two trees each time.
pub fn grows<R: Threads + AllocGlobal + Sync>(rt: &R, workers: usize, rounds: u64) -> u64
    requires { (1 ≤ workers) × (workers ≤ 16) }
{
    let mut good: u64 = 0;
    for _ in 0..rounds {
        if Key::grow(rt, TWO_LEVELS, &SEED, 0, workers).is_ok() {
            good = good.saturating_add(1);
        }
    }
    good
}

/// How many messages a key signed, each a step of leaves behind the one before, with 1,024 leaves in turn.
pub fn signs<R: Threads + AllocGlobal + Sync>(
    rt: &R,
    params: KeyParams,
    step: u64,
    rounds: u64,
) -> u64
    requires { IsProperParams params }
{
    let Ok(mut key) = Key::grow(rt, params, &SEED, 0, 1) else {
        return 0;
    };
    let mut good: u64 = 0;
    for round in 0..rounds {
        if is_signed(rt, &mut key, (round % 1024).wrapping_mul(step)) {
            good = good.saturating_add(1);
        }
    }
    good
}

// Signs at a leaf, counted from the first again behind the last.
fn is_signed<R: Threads + AllocGlobal + Sync>(rt: &R, key: &mut Key, number: u64) -> bool {
    let leaf = number & (key.capacity().wrapping_sub(1));
    leaf < key.capacity() && key.sign(rt, leaf, b"TEEP").is_ok()
}
