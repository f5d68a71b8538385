// A store is mounted from the image of a board.
ghost use Rattle.std.specs.Prelude.{◌≡◌, Err, IfOk};
ghost use Rattle.board_core.specs.Contents.{NothingPending};
ghost use Rattle.board_core.specs.Calls.{DiskCausedBy};
ghost use Rattle.board_core.specs.Moments.{Passes, NoMoment};
ghost use Rattle.component_store.specs.Stores.{extent, keeps};
ghost use Rattle.component_store.specs.Outcome.{MountedAs, SyncedAlone};

use crate::any::AnyStore;
use crate::log_store::LogStore;
use board_core::Board;
use device_config::MountFault;
use device_image::load;
use std::alloc::Global;

/// Mounts the store of the image that the board holds: one sync, and then loads. No byte is put.
///
/// `BadImage` exactly where the image stands for no state and no disk call failed. `DiskFault` exactly where
/// the count of failed disk calls rose in this call. `NoMemory` may come for any image.
pub fn mount<B: Board>(alloc: Global, board: &mut B) -> Result<AnyStore, MountFault>
    ensures mounted { B.told → MountedAs keeps (B.view board.old).now.disk.bytes result }
    ensures extent { IfOk result (λ store. extent store ≡ (B.view board.old).extent) }
    // Nothing is pending then, and nothing else has changed.
    ensures clean { B.told → IfOk result (λ _. NothingPending (B.view board.new)) }
    ensures same { B.told → SyncedAlone (B.view board.old) (B.view board.new) }
    ensures cause { DiskCausedBy (result ≡ Err MountFault.DiskFault) (B.view board.old) (B.view board.new) }
    ensures moments { B.told → Passes (B.view board.old) (B.view board.new) NoMoment }
{
    board.sync()?;
    let held = load(alloc, board)?;
    Ok(AnyStore::Log(LogStore::of(alloc, held, board.size())?))
}
