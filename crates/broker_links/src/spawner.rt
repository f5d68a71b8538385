// What a child is started with.
ghost use Rattle.std.specs.Prelude.{◌≡◌, ℕ, Option};
ghost use Rattle.base_types.specs.Causes.{HasCause};
ghost use Rattle.broker_links.specs.Children.{Started, Starts, Finishes, WritesTo, OnChild, ReadOf, stream_in};

use base_types::Failed;
use outside_core::Source;

/// What one child is started with, whose output is the source.
///
/// The child is there from the `start` that is Ok to the next `finish`, whatever that answers. All calls
/// raise the same count where they fail. A spawner that tells its contents tells the program that was
/// started, what was taken of the child's output and what was written to it, and what the `finish` that
/// ended it answered. Where no child is there a read gives no bytes.
pub trait Spawner: Source {
    /// How often a call has failed.
    ghost faults: { Self → ℕ };

    /// The child that was started, if one was.
    ghost child: { Self → Option Started };

    /// Starts the program as the child, with the one word `run`.
    ///
    /// `Failed` exactly where the count of failed calls rose in this call; all is as before then. It
    /// fails where a child was started before, also where that one is finished.
    fn start(&mut self, program: &str) -> Result<(), Failed>
        ensures cause { HasCause (faults self.old) (faults self.new) result }
        ensures contents { Self.told → Starts program.now result (child self.old) (child self.new) };

    /// Writes the bytes to the child's input, behind those that were written before.
    ///
    /// `Failed` exactly where the count of failed calls rose in this call; a front of the bytes is
    /// written then, perhaps none. It fails where no child is there, and writes nothing then.
    fn write(&mut self, bytes: &[u8]) -> Result<(), Failed>
        ensures cause { HasCause (faults self.old) (faults self.new) result }
        ensures contents { Self.told → WritesTo bytes.now result (child self.old) (child self.new) };

    /// Closes the child's input and waits for its end. No child is there any more, whatever it answers.
    ///
    /// `Failed` exactly where the count of failed calls rose in this call. It fails where no child is
    /// there, and all is as before then.
    fn finish(&mut self) -> Result<(), Failed>
        ensures cause { HasCause (faults self.old) (faults self.new) result }
        ensures contents { Self.told → Finishes result (child self.old) (child self.new) };

    /// The source's count of failed reads is the spawner's count.
    ghost counts_reads: { (s : Self) → Self.read_faults s ≡ faults s };

    /// The source's stream is that of the child.
    ghost streams: { (s : Self) → Self.told → Self.stream s ≡ stream_in (child s) };

    /// Reads leave all but what was taken of the child's output, and all where it is not there.
    ghost reads_keep: { (a b : Self) → Self.keeps a b → Self.told → OnChild ReadOf (child a) (child b) };
}
