//! One-time signatures.

ghost use Rattle.std.specs.Prelude.{◌≡◌, ◌*◌, ◌<◌, ℕ, length, slice_index};
ghost use Rattle.lms_core.specs.Parameters.{IsOtsRow};
ghost use Rattle.lms_core.specs.Digits.{coef};
ghost use Rattle.lms_core.specs.OneTime.{key_candidate, key_hash, message_hash};
ghost use Rattle.lms_core.specs.Layout.{hashes_in};

use crate::bytes::blank;
use crate::chains::finish_all;
use crate::digits::{coef, signed_string};
use crate::message::Message;
use crate::parameters::OtsParams;
use sha2::{Digest, Sha256};

// D_MESG and D_PBLC (RFC 8554, 7.1)
const MESSAGE_DOMAIN: [u8; 2] = [0x81, 0x81];

const PUBLIC_KEY_DOMAIN: [u8; 2] = [0x80, 0x80];

// The largest number of chains, that of width 1, and the bytes of so many strings.
const MOST_CHAINS: usize = 265;

const MOST_BYTES: usize = 32 * MOST_CHAINS;

/// Q, the hash of a message to be signed at leaf `q`, H(I || u32str(q) || D_MESG || C || message)
/// (RFC 8554, 4.5).
pub fn message_hash(
    identifier: &[u8; 16],
    q: u32,
    randomizer: &[u8; 32],
    message: &Message<'_>,
) -> [u8; 32]
    ensures { result ≡ message_hash identifier.now q randomizer.now message.now }
{
    let mut hasher = Sha256::new();
    hasher.update(identifier.as_slice());
    hasher.update(q.to_be_bytes().as_slice());
    hasher.update(MESSAGE_DOMAIN.as_slice());
    hasher.update(randomizer.as_slice());
    message.add_to(&mut hasher);
    hasher.finalize()
}

/// Kc, the public key of the one-time key for which `ys`, the end to end strings y_0, .., y_(p-1),
/// sign the digest: H(I || u32str(q) || D_PBLC || z_0 || .. || z_(p-1)) (RFC 8554, 4.6).
pub(crate) fn key_candidate(
    identifier: &[u8; 16],
    q: u32,
    params: OtsParams,
    digest: &[u8; 32],
    ys: &[u8],
) -> [u8; 32]
    requires row { IsOtsRow params }
    requires whole { length ys.now ≡ 32 * params.p }
    ensures { result ≡ key_candidate identifier.now q params digest.now (hashes_in params.p ys.now) }
{
    let w = params.w;
    let digits = all_digits(&signed_string(digest, params), params);
    let mut room: [u8; MOST_BYTES] = blank();
    let values = &mut room[..ys.len()];
    values.copy_from_slice(ys);
    let largest = ((1u16 << w) - 1) as u8;
    finish_all(identifier, q, largest, &digits[..params.p as usize], values);
    key_hash(identifier, q, values)
}

/// K, the public key of the one-time key at leaf `q` whose chains end with the strings `ends`, end to
/// end: H(I || u32str(q) || D_PBLC || z_0 || .. || z_(p-1)) (RFC 8554, 4.3).
pub fn key_hash(identifier: &[u8; 16], q: u32, ends: &[u8]) -> [u8; 32]
    ensures value { result ≡ key_hash identifier.now q ends.now }
{
    let mut hasher = Sha256::new();
    hasher.update(identifier.as_slice());
    hasher.update(q.to_be_bytes().as_slice());
    hasher.update(PUBLIC_KEY_DOMAIN.as_slice());
    hasher.update(ends);
    hasher.finalize()
}

// The digits of what is signed, one for each chain.
fn all_digits(string: &[u8; 34], params: OtsParams) -> [u8; MOST_CHAINS]
    requires { IsOtsRow params }
    ensures { (i : ℕ) → i < params.p → slice_index result i ≡ coef string.now i params.w }
{
    let w = params.w;
    let mut digits: [u8; MOST_CHAINS] = blank();
    for i in 0..params.p as u16 {
        digits[i as usize] = coef(string, i, w);
    }
    digits
}
