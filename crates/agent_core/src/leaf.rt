// A leaf of the device's key is durably used.
ghost use Rattle.std.specs.Prelude.{◌≡◌, ◌+◌, Err, IfOk, OnOk, OnErr, List, ℕ};
ghost use Rattle.board_core.specs.Contents.{NothingPending, Same, Silent};
ghost use Rattle.board_core.specs.Calls.{DiskCausedBy};
ghost use Rattle.board_core.specs.Moments.{Passes, OldOrNew};
ghost use Rattle.device_image.specs.Stands.{Stands};
ghost use Rattle.device_state.specs.State.{changed, next};
ghost use Rattle.agent_core.specs.Hearing.{HasLeaf};

use base_types::List;
use board_core::Board;
use component_store::{Change, PrepareFault, Prepared, Store};
use std::alloc::Global;
use turn_loop::TurnFault;

/// Uses the first leaf that is not used, of a key that has one left: from then on it is used, also behind
/// a crash. All memory is taken before the first byte is put.
pub(crate) fn use_leaf<S: Store, B: Board>(
    store: &mut S,
    alloc: Global,
    board: &mut B,
) -> Result<(), TurnFault>
    requires leaf { HasLeaf (S.state store.old) }
    requires extent { (B.view board.old).extent ≡ S.extent store.old }
    ensures used { OnOk result (S.state store.new ≡ next (S.state store.old)) }
    ensures kept { OnErr result (S.state store.new ≡ S.state store.old) }
    ensures keeps { B.told → S.keeps store.old (B.view board.old).now.disk.bytes → OnOk result (S.keeps store.new (B.view board.new).now.disk.bytes) }
    ensures clean { B.told → OnOk result (NothingPending (B.view board.new)) }
    ensures extent { S.extent store.new ≡ S.extent store.old }
    ensures cause { DiskCausedBy (result ≡ Err TurnFault.DiskFault) (B.view board.old) (B.view board.new) }
    ensures silent { B.told → Silent (B.view board.old) (B.view board.new) }
    ensures nothing_put { B.told → result ≡ Err TurnFault.NoMemory → Same (B.view board.old) (B.view board.new) }
    ensures moments { B.told → NothingPending (B.view board.old) → S.keeps store.old (B.view board.old).now.disk.bytes →
        Passes (B.view board.old) (B.view board.new) (OldOrNew Stands (S.state store.old) (next (S.state store.old)) (B.view board.old)) }
{
    match prepare_leaf(store, alloc) {
        Ok(prepared) => commit_leaf(store, board, prepared),
        Err(PrepareFault::NoMemory) => Err(TurnFault::NoMemory),
        Err(PrepareFault::Room) => unreachable!(),
    }
}

/// Makes the change ready that uses one leaf more, and changes nothing else.
fn prepare_leaf<S: Store>(store: &mut S, alloc: Global) -> Result<Prepared, PrepareFault>
    requires leaf { HasLeaf (S.state store.old) }
    ensures change { IfOk result (λ p. changed p.change (S.state store.old) ≡ next (S.state store.old)) }
    ensures ready { IfOk result (S.ready store.new) }
    ensures room { result ≡ Err PrepareFault.Room → ⊥ }
    ensures state { S.state store.new ≡ S.state store.old }
    ensures extent { S.extent store.new ≡ S.extent store.old }
    ensures keeps { (image : List ℕ) → S.keeps store.old image → S.keeps store.new image }
{
    // it weighs no more than before, so that there is room for it
    let _weight = store.weight();
    let change = Change {
        leaf: store.leaf() + 1,
        rows: List::new(alloc),
        anchors: None,
    };
    store.prepare(alloc, &change)
}

/// Makes the change durable that uses one leaf more.
fn commit_leaf<S: Store, B: Board>(
    store: &mut S,
    board: &mut B,
    prepared: Prepared,
) -> Result<(), TurnFault>
    requires ready { S.ready store.old prepared }
    requires change { changed prepared.change (S.state store.old) ≡ next (S.state store.old) }
    requires extent { (B.view board.old).extent ≡ S.extent store.old }
    ensures used { OnOk result (S.state store.new ≡ next (S.state store.old)) }
    ensures kept { OnErr result (S.state store.new ≡ S.state store.old) }
    ensures keeps { B.told → S.keeps store.old (B.view board.old).now.disk.bytes → OnOk result (S.keeps store.new (B.view board.new).now.disk.bytes) }
    ensures clean { B.told → OnOk result (NothingPending (B.view board.new)) }
    ensures extent { S.extent store.new ≡ S.extent store.old }
    ensures failed { OnErr result (result ≡ Err TurnFault.DiskFault) }
    ensures cause { DiskCausedBy (result ≡ Err TurnFault.DiskFault) (B.view board.old) (B.view board.new) }
    ensures silent { B.told → Silent (B.view board.old) (B.view board.new) }
    ensures moments { B.told → NothingPending (B.view board.old) → S.keeps store.old (B.view board.old).now.disk.bytes →
        Passes (B.view board.old) (B.view board.new) (OldOrNew Stands (S.state store.old) (next (S.state store.old)) (B.view board.old)) }
{
    match store.commit(board, prepared) {
        Ok(()) => Ok(()),
        Err(_) => Err(TurnFault::DiskFault),
    }
}
