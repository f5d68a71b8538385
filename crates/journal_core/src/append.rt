ghost use Rattle.std.specs.Prelude.{◌≡◌, ◌↔◌, ◌+◌, ◌<◌, ◌++◌, Err, List, ℕ, length, OnOk, OnErr};
ghost use Rattle.board_core.specs.Contents.{NothingPending};
ghost use Rattle.board_core.specs.Moments.{Passes};
ghost use Rattle.board_core.specs.Calls.{DiskCausedBy};
ghost use Rattle.journal_core.specs.Frames.{frames};
ghost use Rattle.journal_core.specs.Region.{Leaves};
ghost use Rattle.journal_core.specs.Kept.{IsWithin, Fits};
ghost use Rattle.journal_core.specs.Outcome.{Makes, SameRegion, StoresWithin};

use crate::fault::AppendFault;
use crate::framed::{Framed, OPEN};
use crate::journal::Journal;
use board_core::{Board, write_gated};

impl Journal {
    /// Puts the one framed body at the end of the list. It takes no memory; one place is reserved for it.
    ///
    /// `Full` exactly where the body with its gate and length, and the closed gate behind it, do not fit
    /// into the half: `used + length + 6 > half`; nothing was put then. `DiskFault` exactly where the count
    /// of failed disk calls rose in this call; the journal is mounted again then, behind a good sync,
    /// before further use. At each moment the region stands for the old list or for the new one, and
    /// nothing outside it changes.
    pub fn append<B: Board>(&mut self, board: &mut B, framed: &Framed) -> Result<(), AppendFault>
        requires one { length framed.now ≡ 1 }
        requires room { 0 < self.old.spare }
        requires within { IsWithin self.old.region (B.view board.old).extent }

        // The board fits the journal again, which has the body at its end, and nothing is pending.
        ensures done { B.told → OnOk result (Makes (λ bodies. bodies ++ framed.now) self.old self.new (B.view board.old) (B.view board.new)) }
        ensures full { (result ≡ Err AppendFault.Full) ↔ (self.old.region.half < self.old.used + length (frames framed.now) + 1) }

        // A refusal leaves the journal as it was, and Full the board too.
        ensures kept { OnErr result (self.new ≡ self.old) }
        ensures refused { result ≡ Err AppendFault.Full → board.new ≡ board.old }

        // Whatever it answers.
        ensures cause { DiskCausedBy (result ≡ Err AppendFault.DiskFault) (B.view board.old) (B.view board.new) }
        ensures same { SameRegion 1 self.old self.new }
        ensures untouched { B.told → StoresWithin self.old.region (length (frames framed.now) + 1) (B.view board.old) (B.view board.new) }
        ensures moments { B.told → NothingPending (B.view board.old) → (bodies : List (List ℕ)) → Fits self.old (B.view board.old).now.disk.bytes bodies →
            Passes (B.view board.old) (B.view board.new) (Leaves self.old.region bodies (bodies ++ framed.now) (B.view board.old)) }
    {
        if self.room() < framed.bytes().len() as u64 {
            return Err(AppendFault::Full);
        }
        let lengths = framed.lengths();
        let gate = self.gate_at();
        write_gated(board, gate + 1, framed.behind_gate(), gate, OPEN)?;
        self.take_in_reserved(lengths[0]);
        Ok(())
    }
}
