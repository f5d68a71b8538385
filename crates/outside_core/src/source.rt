// What bytes are read from.
ghost use Rattle.std.specs.Prelude.{◌≡◌, ◌<◌, ◌≤◌, ℕ, length, IfOk};
ghost use Rattle.base_types.specs.Causes.{HasCause};
ghost use Rattle.outside_core.specs.Stream.{Stream, Reads};

use base_types::Failed;

/// What bytes are read from: an input, a connection, a child's output.
///
/// The count of failed reads is always told. The stream is told by some sources alone (`told`); whether
/// it is belongs to the type, and so never changes.
pub trait Source {
    /// Whether contents are told.
    ghost told: { Type 0 };

    /// How often a read has failed.
    ghost read_faults: { Self → ℕ };

    /// What was taken, what is left and what was sent.
    ghost stream: { Self → Stream };

    /// All that a read leaves as it was. What it is for a kind of source, that kind's trait says.
    ghost keeps: { Self → Self → Type 0 };

    /// Moves the next bytes of the input into the front of the buffer, which is not empty, and says how
    /// many.
    ///
    /// None come only where the input has ended. `Failed` exactly where the count of failed reads rose in
    /// this call; nothing is taken then, and the buffer may hold anything.
    fn read(&mut self, buf: &mut [u8]) -> Result<usize, Failed>
        requires { 0 < length buf.old }
        ensures within { IfOk result (λ n. n ≤ length buf.new) }
        ensures cause { HasCause (read_faults self.old) (read_faults self.new) result }
        ensures stream { told → Reads buf.new result (stream self.old) (stream self.new) }
        ensures keeps { keeps self.old self.new };

    /// No read at all leaves all as it was.
    ghost keeps_itself: { (a : Self) → keeps a a };

    /// Two reads leave what each of them leaves.
    ghost keeps_on: { (a b c : Self) → keeps a b → keeps b c → keeps a c };
}
