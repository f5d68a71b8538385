ghost use Rattle.std.specs.Prelude.{◌≡◌, ◌<◌};
ghost use Rattle.diag_text.specs.Printed.{hex_digit};
ghost use Rattle.diag_text.specs.Reading.{hex_value, hex_pair};

/// The value of a hexadecimal digit in lower case, and 0 for other bytes.
fn hex_nibble(c: u8) -> u8
    ensures value { result ≡ hex_value c }
    ensures small { result < 16 }
{
    match c {
        48..=57 => c - 48,
        97..=102 => c - 87,
        _ => 0,
    }
}

/// The byte that two hexadecimal digits write.
pub fn hex_join(a: u8, b: u8) -> u8
    ensures { result ≡ hex_pair a b }
{
    hex_nibble(a) * 16 + hex_nibble(b)
}

/// A hexadecimal digit, in lower case.
pub fn hex_code(n: u8) -> u8
    requires { n < 16 }
    ensures digit { result ≡ hex_digit n }
    ensures ascii { result < 128 }
{
    if n < 10 { 48 + n } else { 87 + n }
}
