// What bytes are read from and written to.
ghost use Rattle.std.specs.Prelude.{◌≡◌, ℕ};
ghost use Rattle.base_types.specs.Causes.{HasCause};
ghost use Rattle.outside_core.specs.Stream.{Sends};

use base_types::Failed;
use outside_core::Source;

/// A connection: bytes in and bytes out.
///
/// Its reads are those of a `Source`. A failed read and a failed write raise the same count.
pub trait Link: Source {
    /// How often a call has failed, reads and writes together.
    ghost faults: { Self → ℕ };

    /// All that a write leaves as it was. What it is for a kind of link, that kind's trait says.
    ghost keeps_written: { Self → Self → Type 0 };

    /// Writes the bytes behind those that were written before.
    ///
    /// `Failed` exactly where the count of failed calls rose in this call; a front of the bytes is
    /// written then, perhaps none. What is still to be read stays.
    fn write(&mut self, bytes: &[u8]) -> Result<(), Failed>
        ensures cause { HasCause (faults self.old) (faults self.new) result }
        ensures contents { Self.told → Sends bytes.now result (Self.stream self.old) (Self.stream self.new) }
        ensures keeps { keeps_written self.old self.new };

    /// The source's count of failed reads is the link's count.
    ghost counts_reads: { (l : Self) → Self.read_faults l ≡ faults l };

    /// No write at all leaves all as it was.
    ghost writes_none: { (a : Self) → keeps_written a a };

    /// Two writes leave what each of them leaves.
    ghost writes_on: { (a b c : Self) → keeps_written a b → keeps_written b c → keeps_written a c };
}
