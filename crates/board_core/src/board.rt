// Input, output and disk as one device, so that what was sent and what is durable belong to the same moments.
ghost use Rattle.std.specs.Prelude.{◌≡◌, ◌+◌, ◌≤◌, length};
ghost use Rattle.board_core.specs.Contents.{View};
ghost use Rattle.board_core.specs.Moments.{Passes, NoMoment, WithinSend, WithinPut, Lawful};
ghost use Rattle.board_core.specs.Calls.{ReadAlone, SendCause, DiskCause, SendsOut, Loads, Puts, Syncs};

use base_types::Failed;
use outside_core::Source;

/// The input, the output and the disk of a component. Its input is a `Source`.
///
/// The counts of faults and the length of the image are always told. The contents, and what a crash
/// may leave, are told by some boards alone (`told`): a board in memory tells them, a board over files
/// and pipes does not. Whether it tells them belongs to the type, and so never changes.
///
/// The disk model, a premise on whatever stands behind a board: after a crash each range that was put
/// since the last good sync may hold any bytes, and every other byte of the image is as a load gives
/// it. So after a good sync a crash leaves what a load gives.
pub trait Board: Source {
    /// The counts of faults, the length of the image, what the board holds, and what a crash may leave.
    ghost view: { Self → View };

    /// Appends the bytes to the output.
    ///
    /// A crash within the call may have sent any front of them. `Failed` exactly where the count of
    /// failed sends rose in this call; a front of the bytes is sent then, perhaps none.
    fn send(&mut self, bytes: &[u8]) -> Result<(), Failed>
        ensures cause { SendCause (view self.old) (view self.new) result }
        ensures contents { Self.told → SendsOut bytes.now result (view self.old) (view self.new) }
        ensures moments { Self.told → Passes (view self.old) (view self.new) (WithinSend (view self.old) bytes.now) };

    /// The length of the image in bytes, which never changes.
    fn size(&self) -> u64
        ensures extent { result ≡ (view self.now).extent };

    /// Fills the buffer from the image, from byte `at` on. The range lies within `size()`.
    ///
    /// `Failed` exactly where the count of failed disk calls rose in this call; the buffer may hold
    /// anything then. The image is as before.
    fn load(&mut self, at: u64, buf: &mut [u8]) -> Result<(), Failed>
        requires { at + length buf.old ≤ (view self.old).extent }
        ensures cause { DiskCause (view self.old) (view self.new) result }
        ensures contents { Self.told → Loads at buf.new result (view self.old) (view self.new) }
        ensures moments { Self.told → Passes (view self.old) (view self.new) NoMoment };

    /// Writes the bytes into the image, from byte `at` on. The range lies within `size()`.
    ///
    /// A load gives them from then on. Until a sync is good the range is pending: a crash, also one
    /// within this call, may leave any bytes in it. `Failed` exactly where the count of failed disk
    /// calls rose in this call; the range may hold any bytes then, and nothing else changes.
    fn put(&mut self, at: u64, bytes: &[u8]) -> Result<(), Failed>
        requires { at + length bytes.now ≤ (view self.old).extent }
        ensures cause { DiskCause (view self.old) (view self.new) result }
        ensures contents { Self.told → Puts at bytes.now result (view self.old) (view self.new) }
        ensures moments { Self.told → Passes (view self.old) (view self.new) (WithinPut (view self.old) at (length bytes.now)) };

    /// Makes what was put durable: nothing is pending, and a crash leaves what a load gives.
    ///
    /// `Failed` exactly where the count of failed disk calls rose in this call; what was pending stays
    /// so.
    fn sync(&mut self) -> Result<(), Failed>
        ensures cause { DiskCause (view self.old) (view self.new) result }
        ensures contents { Self.told → Syncs result (view self.old) (view self.new) }
        ensures moments { Self.told → Passes (view self.old) (view self.new) NoMoment };

    /// The source's count of failed reads is the board's.
    ghost reads_faults: { (b : Self) → Self.read_faults b ≡ (view b).faults.read };

    /// The source's stream is the board's.
    ghost reads_stream: { (b : Self) → Self.told → Self.stream b ≡ (view b).now.stream };

    /// What a read leaves as it was.
    ghost reads_keep: { (a b : Self) → Self.keeps a b → ReadAlone Self.told (view a) (view b) };

    /// What is so of each board that tells its contents.
    ghost laws: { (b : Self) → Self.told → Lawful (view b) };
}
