// The state for which the image of a board stands.
ghost use Rattle.std.specs.Prelude.{◌≡◌, Err, IfOk};
ghost use Rattle.board_core.specs.Contents.{Same};
ghost use Rattle.board_core.specs.Calls.{DiskCausedBy};
ghost use Rattle.board_core.specs.Moments.{Passes, NoMoment};
ghost use Rattle.device_image.specs.Held.{IsSafe, LoadedAs};

use crate::held::Held;
use crate::replay::begin;
use board_core::Board;
use device_config::{MountFault, load_config};
use std::alloc::Global;

/// Reads the state for which the board's image stands. It loads, and changes nothing.
///
/// It does not sync: what stands in bytes that are pending is not durable, and a crash may leave another
/// state or none. `BadImage` exactly where the image stands for no state and no load failed. `DiskFault`
/// exactly where the count of failed disk calls rose in this call. `NoMemory` may come for any image.
/// The work is linear in the image: each body is loaded and read once, and memory is taken for no count
/// that a body claims.
pub fn load<B: Board>(alloc: Global, board: &mut B) -> Result<Held, MountFault>
    ensures loaded { B.told → LoadedAs (B.view board.old).now.disk.bytes result }
    // Also where the board tells nothing, what is held may be worked on.
    ensures safe { IfOk result (λ held. IsSafe held (B.view board.old).extent) }
    ensures cause { DiskCausedBy (result ≡ Err MountFault.DiskFault) (B.view board.old) (B.view board.new) }
    ensures same { B.told → Same (B.view board.old) (B.view board.new) }
    ensures moments { B.told → Passes (B.view board.old) (B.view board.new) NoMoment }
{
    let config = load_config(alloc, board)?;
    begin(alloc, board, config)?.finish(alloc, board)
}
