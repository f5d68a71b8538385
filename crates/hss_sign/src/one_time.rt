//! One-time keys and signatures.

ghost use Rattle.std.specs.Prelude.{◌≡◌, ◌≤◌, ◌+◌, ◌++◌, ◌*◌, OnOk, drop, length, take};
ghost use Rattle.std.specs.List.{concat};
ghost use Rattle.lms_core.specs.Parameters.{IsOtsRow};
ghost use Rattle.hss_sign.specs.Trees.{one_time_public};
ghost use Rattle.hss_sign.specs.Sign.{one_time_signature};

use crate::secrets::TreeSecret;
use base_types::OrMemory;
use lms_core::{OtsParams, chain, coef, key_hash, signed_string};

// The most chains of a width that keys have, that of width 4, and the bytes of so many strings.
const MOST_CHAINS: usize = 67;

const MOST_BYTES: usize = 32 * MOST_CHAINS;

/// K, the public key of the one-time key at a leaf (RFC 8554, 4.3).
pub(crate) fn one_time_public(params: OtsParams, secret: &TreeSecret, leaf: u32) -> [u8; 32]
    requires row { IsOtsRow params }
    requires few { params.p ≤ 67 }
    ensures { result ≡ one_time_public params secret.now leaf }
{
    let largest = ((1u16 << params.w) - 1) as u8;
    let mut ends = [0; MOST_BYTES];
    for i in 0..params.p as u16 {
        let start = secret.at(leaf, i);
        let end = chain(&secret.identifier, leaf, i, 0, largest, &start);
        put(&mut ends, 32 * i as usize, &end);
    }
    key_hash(&secret.identifier, leaf, &ends[..32 * params.p as usize])
}

/// Adds y_0, .., y_(p-1), which sign the digest at a leaf (RFC 8554, 4.5). Refused for want of memory
/// alone.
pub(crate) fn sign_digest(
    bytes: &mut Vec<u8>,
    params: OtsParams,
    secret: &TreeSecret,
    leaf: u32,
    digest: &[u8; 32],
) -> OrMemory<()>
    requires row { IsOtsRow params }
    ensures value { OnOk result (bytes.new.items ≡ bytes.old.items ++ concat (one_time_signature params secret.now leaf digest.now)) }
{
    let string = signed_string(digest, params);
    for i in 0..params.p as u16 {
        let digit = coef(&string, i, params.w);
        let start = secret.at(leaf, i);
        let value = chain(&secret.identifier, leaf, i, 0, digit, &start);
        bytes.extend_from_slice(&value)?;
    }
    Ok(())
}

// Writes a string behind what stands before it.
fn put(ends: &mut [u8; MOST_BYTES], at: usize, end: &[u8; 32])
    requires { at + 32 ≤ 2144 }
    ensures front { take (at + 32) ends.new ≡ take at ends.old ++ end.now }
    ensures length { length ends.new ≡ 2144 }
{
    ends[at..at + 32].copy_from_slice(end);
}
