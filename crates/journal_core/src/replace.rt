ghost use Rattle.std.specs.Prelude.{◌≡◌, ◌↔◌, ◌+◌, ◌<◌, ◌≤◌, Err, List, ℕ, length, OnOk, OnErr};
ghost use Rattle.board_core.specs.Contents.{NothingPending};
ghost use Rattle.board_core.specs.Moments.{Passes};
ghost use Rattle.board_core.specs.Calls.{DiskCausedBy};
ghost use Rattle.journal_core.specs.Frames.{frames};
ghost use Rattle.journal_core.specs.Region.{Leaves};
ghost use Rattle.journal_core.specs.Kept.{IsWithin, Fits, IsOf, Keeps};
ghost use Rattle.journal_core.specs.Scanning.{IsEmpty};
ghost use Rattle.journal_core.specs.Outcome.{Makes, SameRegion, StoresWithin};

use crate::fault::AppendFault;
use crate::framed::Framed;
use crate::journal::Journal;
use board_core::{Board, write_gated};

impl Journal {
    /// Makes the list the framed bodies. It takes no memory; as many places are reserved as bodies.
    ///
    /// They are put into the half that does not count, and the selector then makes it count. `Full`
    /// exactly where the framed bodies and the closed gate behind them are together more than the half;
    /// nothing was put then. `DiskFault` exactly where the count of failed disk calls rose in this call;
    /// the journal is mounted again then, behind a good sync, before further use. At each moment the
    /// region stands for the old list or for the new one, and nothing outside it changes.
    pub fn replace<B: Board>(&mut self, board: &mut B, framed: &Framed) -> Result<(), AppendFault>
        requires room { length framed.now ≤ self.old.spare }
        requires within { IsWithin self.old.region (B.view board.old).extent }

        // The board fits the journal again, whose list is the framed bodies, and nothing is pending.
        ensures done { B.told → OnOk result (Makes (λ bodies. framed.now) self.old self.new (B.view board.old) (B.view board.new)) }
        ensures full { (result ≡ Err AppendFault.Full) ↔ (self.old.region.half < length (frames framed.now) + 1) }

        // A refusal leaves the journal as it was, and Full the board too.
        ensures kept { OnErr result (self.new ≡ self.old) }
        ensures refused { result ≡ Err AppendFault.Full → board.new ≡ board.old }

        // Whatever it answers.
        ensures cause { DiskCausedBy (result ≡ Err AppendFault.DiskFault) (B.view board.old) (B.view board.new) }
        ensures same { SameRegion (length framed.now) self.old self.new }
        ensures untouched { B.told → StoresWithin self.old.region (length (frames framed.now) + 2) (B.view board.old) (B.view board.new) }
        ensures moments { B.told → NothingPending (B.view board.old) → (bodies : List (List ℕ)) → Fits self.old (B.view board.old).now.disk.bytes bodies →
            Passes (B.view board.old) (B.view board.new) (Leaves self.old.region bodies framed.now (B.view board.old)) }
    {
        if self.half() < framed.bytes().len() as u64 {
            return Err(AppendFault::Full);
        }
        let at = self.other_at();
        let gate = self.selector_at();
        let selector = self.other_selector();
        write_gated(board, at, framed.bytes(), gate, selector)?;
        self.begin_other();
        self.take_all(framed);
        Ok(())
    }

    // Keeps the places of all the bodies, in a half that has none yet.
    fn take_all(&mut self, framed: &Framed)
        requires empty { IsEmpty self.old }
        requires fits { length (frames framed.now) + 1 ≤ self.old.region.half }
        requires room { length framed.now ≤ self.old.spare }
        ensures of { IsOf self.old self.new }
        ensures keeps { Keeps self.new framed.now }
        ensures spare { self.old.spare ≤ self.new.spare + length framed.now }
    {
        for length in framed.lengths() {
            self.take_in_reserved(*length);
        }
    }
}
