ghost use Rattle.std.specs.Prelude.{◌≡◌, ◌+◌, ◌*◌, ◌<◌, ◌^◌};

/// Where a journal lies in the image: `16 + 2 * half` bytes from byte `at` on.
///
/// The first byte is the selector, whose low bit names the half that counts; the next 15 are free.
/// Then come two halves of `half` bytes.
#[derive(Clone, Copy, Debug, Eq, PartialEq)]
pub struct Region {
    pub at: u64,
    pub half: u64,
}

impl Region {
    ghost use Rattle.journal_core.specs.Region.{half_at, region_size};

    /// How many bytes it has.
    pub fn size(self) -> u64
        requires { region_size self < 2 ^ 64 }
        ensures size { result ≡ region_size self }
    {
        16 + 2 * self.half
    }

    // Where a half begins.
    pub(crate) fn half_at(self, second: bool) -> u64
        requires { self.at + region_size self < 2 ^ 64 }
        ensures { result ≡ half_at self second }
    {
        if second {
            self.at + 16 + self.half
        } else {
            self.at + 16
        }
    }
}
