ghost use Rattle.std.specs.Prelude.{◌≡◌, ◌∷◌, []};
ghost use Rattle.std.specs.Int.{to_be_bytes, w32};

/// `u32::from_be_bytes` of four bytes that are taken one by one: so they are known to be bytes, and the
/// number's own bytes are again these.
pub fn u32_from_be_bytes(a: u8, b: u8, c: u8, d: u8) -> u32
    ensures { to_be_bytes w32 result ≡ a ∷ b ∷ c ∷ d ∷ [] }
{
    u32::from_be_bytes([a, b, c, d])
}
