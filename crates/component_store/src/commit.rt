// A change that was made ready becomes durable.
ghost use Rattle.std.specs.Prelude.{◌≡◌, ◌≢◌, ◌+◌, Ok, Err, OnOk, OnErr, ℕ, List};
ghost use Rattle.board_core.specs.Contents.{NothingPending, Silent};
ghost use Rattle.board_core.specs.Calls.{DiskCause};
ghost use Rattle.board_core.specs.Moments.{Passes, OldOrNew};
ghost use Rattle.device_state.specs.State.{changed};
ghost use Rattle.device_image.specs.Stands.{Stands};
ghost use Rattle.device_image.specs.Held.{state_of, Holds, IsSafe};
ghost use Rattle.journal_core.specs.Region.{Leaves};
ghost use Rattle.journal_core.specs.Kept.{Fits, IsWithin};
ghost use Rattle.journal_core.specs.Outcome.{Makes, StoresWithin};
ghost use Rattle.component_store.specs.Preparing.{IsReady, HasRoomFor, list_behind, size_of, renewed};

use crate::log_store::LogStore;
use crate::prepared::{Framing, Prepared};
use base_types::{Failed, List};
use board_core::Board;
use device_state::RowHead;
use journal_core::{AppendFault, Journal};

/// The answer of a journal that had room.
fn with_room(answer: Result<(), AppendFault>) -> Result<(), Failed>
    requires { answer ≢ Err AppendFault.Full }
    ensures ok { OnOk result (answer ≡ Ok tt) }
    ensures failed { OnErr result (answer ≡ Err AppendFault.DiskFault) }
{
    match answer {
        Ok(()) => Ok(()),
        Err(AppendFault::DiskFault) => Err(Failed),
        Err(AppendFault::Full) => unreachable!(),
    }
}

/// Puts the bodies of a change, for which the journal has room.
fn write<B: Board>(journal: &mut Journal, board: &mut B, framing: &Framing) -> Result<(), Failed>
    requires room { HasRoomFor journal.old framing.now }
    requires within { IsWithin journal.old.region (B.view board.old).extent }
    ensures done { B.told → OnOk result (Makes (list_behind framing.now) journal.old journal.new (B.view board.old) (B.view board.new)) }
    ensures region { journal.new.region ≡ journal.old.region }
    ensures kept { OnErr result (journal.new ≡ journal.old) }
    ensures cause { DiskCause (B.view board.old) (B.view board.new) result }
    ensures untouched { B.told → StoresWithin journal.old.region (size_of framing.now + 2) (B.view board.old) (B.view board.new) }
    ensures moments { B.told → NothingPending (B.view board.old) → (bodies : List (List ℕ)) → Fits journal.old (B.view board.old).now.disk.bytes bodies →
        Passes (B.view board.old) (B.view board.new) (Leaves journal.old.region bodies (list_behind framing.now bodies) (B.view board.old)) }
{
    match framing {
        Framing::Append(framed) => with_room(journal.append(board, framed)),
        Framing::Replace(framed) => with_room(journal.replace(board, framed)),
    }
}

/// The heads behind a change, where any row changed.
fn renew(heads: &mut List<RowHead>, behind: Option<List<RowHead>>)
    ensures { heads.new ≡ renewed heads.old behind }
{
    if let Some(behind) = behind {
        *heads = behind;
    }
}

impl LogStore {
    /// Makes a change durable.
    pub(crate) fn make_durable<B: Board>(
        &mut self,
        board: &mut B,
        prepared: Prepared,
    ) -> Result<(), Failed>
        requires ready { IsReady self.old prepared }
        requires extent { (B.view board.old).extent ≡ self.old.size }
        ensures state { OnOk result (state_of self.new.held ≡ changed prepared.change (state_of self.old.held)) }
        ensures keeps { B.told → Holds self.old.held (B.view board.old).now.disk.bytes → OnOk result (Holds self.new.held (B.view board.new).now.disk.bytes) }
        ensures safe { IsSafe self.new.held self.new.size }
        ensures clean { B.told → OnOk result (NothingPending (B.view board.new)) }
        ensures kept { OnErr result (state_of self.new.held ≡ state_of self.old.held) }
        ensures extent { self.new.size ≡ self.old.size }
        ensures cause { DiskCause (B.view board.old) (B.view board.new) result }
        ensures silent { B.told → Silent (B.view board.old) (B.view board.new) }
        ensures moments { B.told → NothingPending (B.view board.old) → Holds self.old.held (B.view board.old).now.disk.bytes →
            Passes (B.view board.old) (B.view board.new) (OldOrNew Stands (state_of self.old.held) (changed prepared.change (state_of self.old.held)) (B.view board.old)) }
    {
        let Prepared {
            change,
            heads,
            weight,
            framing,
        } = prepared;
        write(&mut self.held.journal, board, &framing)?;
        self.held.apply(change);
        renew(&mut self.heads, heads);
        self.weight = weight;
        Ok(())
    }
}
