//! The digits that an LM-OTS signature signs.

ghost use Rattle.std.specs.Prelude.{◌≡◌, ◌*◌, ◌/◌, ◌<◌, ◌^◌, length};
ghost use Rattle.lms_core.specs.Parameters.{IsOtsRow, IsWidth};
ghost use Rattle.lms_core.specs.Digits.{checksum, coef, signed_string};

use crate::parameters::OtsParams;

/// coef(S, i, w): the digit `i` of `w` bits of a byte string (RFC 8554, 3.1.3). `w` is 1, 2, 4 or 8.
pub fn coef(string: &[u8], i: u16, w: u32) -> u8
    requires width { IsWidth w }
    requires inside { i * w / 8 < length string.now }
    ensures digit { result ≡ coef string.now i w }
    ensures small { result < 2 ^ w }
{
    let i = u32::from(i);
    let byte = string[(i * w / 8) as usize];
    let shift = 8 - (w * (i % (8 / w)) + w);
    (((1 << w) - 1) & (u32::from(byte) >> shift)) as u8
}

/// Cksm(Q): the checksum of a message hash (RFC 8554, 4.4).
pub fn checksum(digest: &[u8; 32], params: OtsParams) -> u16
    requires { IsOtsRow params }
    ensures { result ≡ checksum digest.now params.w params.ls }
{
    let w = params.w;
    let largest = (1 << w) - 1;
    let mut sum: u16 = 0;
    for i in 0..(256 / w) as u16 {
        sum += largest - u16::from(coef(digest, i, w));
    }
    sum << params.ls
}

/// Q || Cksm(Q): what a one-time signature signs, as `p` digits of `w` bits (RFC 8554, 4.5).
pub fn signed_string(digest: &[u8; 32], params: OtsParams) -> [u8; 34]
    requires { IsOtsRow params }
    ensures { result ≡ signed_string digest.now params.w params.ls }
{
    let mut string = [0; 34];
    string[..32].copy_from_slice(digest);
    string[32..].copy_from_slice(&checksum(digest, params).to_be_bytes());
    string
}
