//! What keys of a seed sign, for another program to check.
use hss_sign::{Key, KeyParams};
use std::io;
use std::thread::Threads;

// All parameters that a key may have, each as levels, height and width.
const KINDS: [(u32, u32, u32); 8] = [
    (1, 5, 4),
    (1, 5, 8),
    (1, 10, 4),
    (1, 10, 8),
    (2, 5, 4),
    (2, 5, 8),
    (2, 10, 4),
    (2, 10, 8),
];

/// Prints what each kind of key of a seed signs at a leaf, where it has that leaf: one line each, of
/// levels, height, width, public key and signature. The input is the seed of 32 bytes and the message.
pub fn print_vectors<R: Threads + Print + AllocGlobal + Sync>(
    rt: &R,
    input: &[u8],
    leaf: u64,
) -> io::Result<()> {
    if input.len() < 32 {
        return Ok(());
    }
    let (front, message) = input.split_at(32);
    let mut seed = [0; 32];
    seed.copy_from_slice(front);
    for (levels, height, width) in KINDS {
        let params = KeyParams {
            levels,
            height,
            width,
        };
        print_vector(rt, params, &seed, leaf, message)?;
    }
    Ok(())
}

// One line, or none where memory runs out or the key has no such leaf.
fn print_vector<R: Threads + Print + AllocGlobal + Sync>(
    rt: &R,
    params: KeyParams,
    seed: &[u8; 32],
    leaf: u64,
    message: &[u8],
) -> io::Result<()> {
    let Some((public, signature)) = vector(rt, params, seed, leaf, message) else {
        return Ok(());
    };
    let KeyParams {
        levels,
        height,
        width,
    } = params;
    println!(rt; "{levels} {height} {width} {public} {signature}")
}

// The public key and the signature in hexadecimal.
fn vector<R: Threads + AllocGlobal + Sync>(
    rt: &R,
    params: KeyParams,
    seed: &[u8; 32],
    leaf: u64,
    message: &[u8],
) -> Option<(String, String)> {
    if !params.is_proper() {
        return None;
    }
    let mut key = Key::grow(rt, params, seed, leaf, 4).ok()?;
    if leaf >= key.capacity() {
        return None;
    }
    let signature = key.sign(rt, leaf, message).ok()?;
    let public = hex::encode(rt.alloc(), key.public().bytes()).ok()?;
    let signature = hex::encode(rt.alloc(), signature.as_slice()).ok()?;
    Some((public, signature))
}
