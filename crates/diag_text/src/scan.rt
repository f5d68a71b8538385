ghost use Rattle.std.specs.Prelude.{◌≡◌, ◌^◌, ◌<◌, ◌≤◌, ◌+◌, [], length, slice_index, Some, None, codes, if◌then◌else◌, IfSome, IfOk};
ghost use Rattle.std.specs.Str.Parse.{AllDigits};
ghost use Rattle.cbor_heads.specs.Place.{skip, begins};
ghost use Rattle.diag_text.specs.Printed.{hex_byte, escaped};
ghost use Rattle.cbor_heads.specs.Reading.{Follows};
ghost use Rattle.diag_text.specs.Reading.{digits, numeral_value, number_by, number_at, value_below, hex_guess, text_guess, pieces_at, bytes_at, text_at, place_in};

use crate::fault::{DiagFault, TextFault};
use crate::hex::{hex_code, hex_join};
use base_types::Octets;
use cbor_heads::Input;
use itoa::Buffer;
use std::alloc::Global;

/// The answer that names the place of a fault.
pub fn bad(at: usize) -> DiagFault
    ensures { result ≡ DiagFault.Bad (record { at = at }) }
{
    DiagFault::Bad(TextFault { at })
}

/// The byte at an index, and 0 past the end.
fn byte_at(bytes: &[u8], index: usize) -> u8
    ensures { result ≡ slice_index bytes.now index }
{
    match bytes.get(index) {
        Some(byte) => *byte,
        None => 0,
    }
}

/// The byte that a byte string goes on with, where the front of the bytes writes it.
#[tactic(auto, unfolding(crate::specs::Reading::hex_guess))]
fn guess_hex(bytes: &[u8]) -> u8
    ensures { result ≡ hex_guess bytes.now }
{
    hex_join(byte_at(bytes, 0), byte_at(bytes, 1))
}

/// The byte that a text goes on with, where the front of the bytes writes it.
#[tactic(auto, unfolding(crate::specs::Reading::text_guess))]
fn guess_text(bytes: &[u8]) -> u8
    ensures { result ≡ text_guess bytes.now }
{
    let first = byte_at(bytes, 0);
    if first != 92 {
        return first;
    }
    let second = byte_at(bytes, 1);
    if second != 117 {
        return second;
    }
    hex_join(byte_at(bytes, 4), byte_at(bytes, 5))
}

/// Goes on behind a byte in two hexadecimal digits, and says whether it stands there.
fn pass_hex(input: &mut Input<'_>, byte: u8) -> bool
    ensures found { result ≡ begins (hex_byte byte) input.old.rest }
    ensures after { input.new ≡ (if result then skip (length (hex_byte byte)) input.old else input.old) }
{
    input.token(&[hex_code(byte / 16), hex_code(byte % 16)])
}

/// Goes on behind a byte of a text, as it is written there, and says whether it stands there.
fn pass_text(input: &mut Input<'_>, byte: u8) -> bool
    ensures found { result ≡ begins (escaped byte) input.old.rest }
    ensures after { input.new ≡ (if result then skip (length (escaped byte)) input.old else input.old) }
{
    if byte == 34 || byte == 92 {
        return input.token(&[92, byte]);
    }
    if byte < 32 || byte == 127 {
        let high = hex_code(byte / 16);
        let low = hex_code(byte % 16);
        return input.token(&[92, 117, 48, 48, high, low]);
    }
    input.token(&[byte])
}

/// Reads the bytes of a byte string up to its closing mark.
pub fn read_bytes(alloc: Global, input: &mut Input<'_>, at: usize) -> Result<Octets, DiagFault>
    ensures { Follows place_in (bytes_at at input.old) result input.new }
{
    let mut found = Octets::new(alloc);
    for _ in 0..input.len() {
        if input.token(b"'") {
            return Ok(found);
        }
        let byte = guess_hex(input.rest());
        if !pass_hex(input, byte) {
            return Err(bad(at));
        }
        found.push(byte)?;
    }
    Err(bad(at))
}

/// Reads the bytes of a text up to its closing mark.
pub fn read_text(alloc: Global, input: &mut Input<'_>, at: usize) -> Result<Octets, DiagFault>
    ensures { Follows place_in (text_at at input.old) result input.new }
{
    let mut found = Octets::new(alloc);
    for _ in 0..input.len() {
        if input.token(b"\"") {
            return Ok(found);
        }
        let byte = guess_text(input.rest());
        if !pass_text(input, byte) {
            return Err(bad(at));
        }
        found.push(byte)?;
    }
    Err(bad(at))
}

/// How many digits stand at the front of some bytes.
fn digits_len(bytes: &[u8]) -> usize
    ensures { result ≡ length (digits bytes.now) }
{
    bytes.iter().take_while(|b| b.is_ascii_digit()).count()
}

/// The digits at the front of some bytes.
#[tactic(auto, using(crate::proofs::Digits::fronts))]
fn front_digits(bytes: &[u8]) -> &[u8]
    ensures front { result.now ≡ digits bytes.now }
    ensures len { length result.now ≤ length bytes.now }
    ensures all { AllDigits 10 result.now }
{
    let n = digits_len(bytes);
    &bytes[..n]
}

/// The number of some digits, where it is below the limit.
fn digits_number(digits: &[u8], limit: u128) -> Option<u128>
    requires all { AllDigits 10 digits.now }
    requires some { 0 < limit }
    requires limit { limit ≤ 2 ^ 64 + 1 }
    ensures value { result ≡ value_below limit digits.now }
    ensures below { IfSome result (λ n. n < limit) }
{
    let mut n: u128 = 0;
    for digit in digits {
        n = n * 10 + (*digit - 48) as u128;
        if n >= limit {
            return None;
        }
    }
    Some(n)
}

/// The number below the limit that has this decimal form.
#[tactic(auto, unfolding(crate::specs::Reading::numeral_value))]
fn number_from(digits: &[u8], limit: u128) -> Option<u128>
    requires all { AllDigits 10 digits.now }
    requires some { 0 < limit }
    requires limit { limit ≤ 2 ^ 64 + 1 }
    ensures value { result ≡ numeral_value limit digits.now }
    ensures below { IfSome result (λ n. n < limit) }
{
    let n = digits_number(digits, limit)?;
    let mut buffer = Buffer::new();
    if buffer.format(n).as_bytes() == digits {
        Some(n)
    } else {
        None
    }
}

/// Reads a number below a limit: all the digits at the place, in a token that began at an offset.
pub fn read_number(input: &mut Input<'_>, at: usize, limit: u128) -> Result<u128, DiagFault>
    requires some { 0 < limit }
    requires limit { limit ≤ 2 ^ 64 + 1 }
    ensures read { Follows place_in (number_at at limit input.old) result input.new }
    ensures below { IfOk result (λ n. n < limit) }
{
    let digits = front_digits(input.rest());
    match number_from(digits, limit) {
        Some(n) => {
            let _ = input.take(digits.len());
            Ok(n)
        }
        None => Err(bad(at)),
    }
}
