//! The hash chains of LM-OTS.

ghost use Rattle.std.specs.Prelude.{◌≡◌, ◌-◌, ◌*◌, ◌^◌, ◌<◌, ◌≤◌, ◌+◌, ◌++◌, ◌∷◌, ℕ, length, take, drop, slice_index, slice_range};
ghost use Rattle.lms_core.specs.Bytes.{u16_bytes, u32_bytes};
ghost use Rattle.lms_core.specs.Chains.{chain, chain_step};

use crate::bytes::{array_at, blank};
use sha2::{Digest, Sha256};

/// One step of a chain, H(I || u32str(q) || u16str(i) || u8str(j) || tmp): step `j` of chain `i`
/// of the one-time key at leaf `q` (RFC 8554, 4.3 to 4.6).
pub fn chain_step(identifier: &[u8; 16], q: u32, i: u16, j: u8, tmp: &[u8; 32]) -> [u8; 32]
    ensures { result ≡ chain_step identifier.now q i j tmp.now }
{
    Sha256::digest(step_input(identifier, q, i, j, tmp).as_slice())
}

/// A chain from digit `from` up to digit `to`: the steps `from`, .., `to` - 1, beginning with `start`.
pub fn chain(identifier: &[u8; 16], q: u32, i: u16, from: u8, to: u8, start: &[u8; 32]) -> [u8; 32]
    requires { from ≤ to }
    ensures { result ≡ chain identifier.now q i from (to - from) start.now }
{
    // Of a step's input only its number, at 22, and the value, at 23, change.
    let mut input = step_input(identifier, q, i, from, start);
    for j in from..to {
        input[22] = j;
        let value = Sha256::digest(input.as_slice());
        place(&mut input, 23, &value);
    }
    array_at(&input, 23)
}

/// All chains at once, in place: chain `i` from its digit up to digit `to`, beginning with string `i`
/// of `values`.
pub(crate) fn finish_all(identifier: &[u8; 16], q: u32, to: u8, digits: &[u8], values: &mut [u8])
    requires numbered { length digits.now ≤ 2 ^ 16 }
    requires whole { length values.old ≡ 32 * length digits.now }
    ensures length { length values.new ≡ length values.old }
    ensures ends { (i : ℕ) → i < length digits.now → slice_range values.new (32 * i) (32 * i + 32)
        ≡ chain identifier.now q i (slice_index digits.now i) (to - slice_index digits.now i) (slice_range values.old (32 * i) (32 * i + 32)) }
{
    for j in 0..to {
        step_all(identifier, q, j, digits, values);
    }
}

// Step `j` of each chain whose digit is at most `j`. A step's message has a fixed length, and in a loop
// like this one the compiler folds the hasher around it into stores and one call of the block function.
fn step_all(identifier: &[u8; 16], q: u32, j: u8, digits: &[u8], values: &mut [u8])
    requires numbered { length digits.now ≤ 2 ^ 16 }
    requires whole { length values.old ≡ 32 * length digits.now }
    ensures length { length values.new ≡ length values.old }
    ensures stepped { (i : ℕ) → i < length digits.now → slice_index digits.now i ≤ j
        → slice_range values.new (32 * i) (32 * i + 32) ≡ chain_step identifier.now q i j (slice_range values.old (32 * i) (32 * i + 32)) }
    ensures waiting { (i : ℕ) → i < length digits.now → j < slice_index digits.now i
        → slice_range values.new (32 * i) (32 * i + 32) ≡ slice_range values.old (32 * i) (32 * i + 32) }
{
    let mut input = step_input(identifier, q, 0, j, &blank());
    for i in 0..digits.len() {
        if digits[i] <= j {
            turn_to(&mut input, i as u16, &array_at(values, 32 * i));
            let value = Sha256::digest(input.as_slice());
            values[32 * i..32 * i + 32].copy_from_slice(&value);
        }
    }
}

// The same step of another chain: of its input only the chain's number, at 20, and the value change.
#[inline(always)]
fn turn_to(input: &mut [u8; 55], i: u16, tmp: &[u8; 32])
    ensures { input.new ≡ take 20 input.old ++ u16_bytes i ++ slice_index input.old 22 ∷ tmp.now }
{
    place(input, 20, &i.to_be_bytes());
    place(input, 23, tmp);
}

// What one step hashes, which fits one block of SHA-256.
fn step_input(identifier: &[u8; 16], q: u32, i: u16, j: u8, tmp: &[u8; 32]) -> [u8; 55]
    ensures { result ≡ identifier.now ++ u32_bytes q ++ u16_bytes i ++ j ∷ tmp.now }
{
    let mut input = blank();
    place(&mut input, 0, identifier);
    place(&mut input, 16, &q.to_be_bytes());
    place(&mut input, 20, &i.to_be_bytes());
    place(&mut input, 22, &[j]);
    place(&mut input, 23, tmp);
    input
}

// Writes a part at its place, behind what stands before it.
#[inline(always)]
fn place<const N: usize>(input: &mut [u8; 55], at: usize, part: &[u8; N])
    requires { at + N ≤ 55 }
    ensures front { take (at + N) input.new ≡ take at input.old ++ part.now }
    ensures back { drop (at + N) input.new ≡ drop (at + N) input.old }
    ensures length { length input.new ≡ 55 }
{
    input[at..at + N].copy_from_slice(part);
}
