//! Parts of a byte string.

ghost use Rattle.std.specs.Prelude.{◌≡◌, ◌+◌, ◌≤◌, length, slice_range};
ghost use Rattle.lms_core.specs.Bytes.{u32_at};

/// The `N` bytes from a place on.
pub(crate) fn array_at<const N: usize>(bytes: &[u8], place: usize) -> [u8; N]
    requires { place + N ≤ length bytes.now }
    ensures { result ≡ slice_range bytes.now place (place + N) }
{
    let mut array = [0; N];
    array.copy_from_slice(&bytes[place..place + N]);
    array
}

/// Room for `N` bytes.
pub(crate) fn blank<const N: usize>() -> [u8; N]
    ensures { length result ≡ N }
{
    [0; N]
}

/// The number that the four bytes from a place on spell, high byte first.
pub fn read_u32(bytes: &[u8], place: usize) -> u32
    requires { place + 4 ≤ length bytes.now }
    ensures { result ≡ u32_at bytes.now place }
{
    u32::from_be_bytes(array_at(bytes, place))
}
