// The configuration of the device whose image a board holds.
ghost use Rattle.std.specs.Prelude.{◌≡◌, ◌≢◌, ◌≤◌, ℕ, List, take, length, IfOk, Err};
ghost use Rattle.board_core.specs.Contents.{Same};
ghost use Rattle.board_core.specs.Calls.{DiskCausedBy};
ghost use Rattle.board_core.specs.Moments.{Passes, NoMoment};
ghost use Rattle.journal_core.specs.Kept.{IsWithin};
ghost use Rattle.device_config.specs.Config.{IsConfig};
ghost use Rattle.device_config.specs.Image.{journal_region};
ghost use Rattle.device_config.specs.Loading.{Loaded};

use crate::config::Config;
use crate::fault::{ConfigFault, MountFault};
use crate::head::{HEAD_SIZE, config_in};
use crate::image::journal_of;
use base_types::zeros;
use board_core::Board;
use std::alloc::Global;

// The configuration in the head of an image of this size.
fn config_of(alloc: Global, head: &[u8], size: u64) -> Result<Config, MountFault>
    requires head { length head.now ≡ HEAD_SIZE }
    requires whole { HEAD_SIZE ≤ size }
    ensures loaded { (image : List ℕ) → length image ≡ size → head.now ≡ take HEAD_SIZE image → Loaded image result }
    ensures config { IfOk result IsConfig }
    ensures within { IfOk result (λ config. IsWithin (journal_region config.quota) size) }
    ensures disk { result ≢ Err MountFault.DiskFault }
{
    let Some(bytes) = config_in(head) else {
        return Err(MountFault::BadImage);
    };
    let config = match Config::read(alloc, bytes) {
        Ok(config) => config,
        Err(ConfigFault::NoMemory) => return Err(MountFault::NoMemory),
        Err(ConfigFault::BadConfig) => return Err(MountFault::BadImage),
    };
    if size - (HEAD_SIZE as u64) < journal_of(config.quota).size() {
        return Err(MountFault::BadImage);
    }
    Ok(config)
}

// So many bytes of the image, from its front.
fn load_front<B: Board>(alloc: Global, board: &mut B, size: usize) -> Result<Vec<u8>, MountFault>
    requires { size ≤ (B.view board.old).extent }
    ensures front { B.told → IfOk result (λ front. front.items ≡ take size (B.view board.old).now.disk.bytes) }
    ensures size { IfOk result (λ front. length front.items ≡ size) }
    ensures other { result ≢ Err MountFault.BadImage }
    ensures cause { DiskCausedBy (result ≡ Err MountFault.DiskFault) (B.view board.old) (B.view board.new) }
    ensures same { B.told → Same (B.view board.old) (B.view board.new) }
    ensures moments { B.told → Passes (B.view board.old) (B.view board.new) NoMoment }
{
    let mut front = zeros(alloc, size)?;
    board.load(0, &mut front)?;
    Ok(front)
}

/// The configuration of the device whose image the board holds. It loads, and changes nothing.
///
/// `BadImage` exactly where the image has no head of a configuration, or is smaller than the head and
/// the journal that this configuration asks for, and no load failed. `DiskFault` exactly where the count of
/// failed disk calls rose in this call. `NoMemory` may come for any image.
pub fn load_config<B: Board>(alloc: Global, board: &mut B) -> Result<Config, MountFault>
    ensures loaded { B.told → Loaded (B.view board.old).now.disk.bytes result }
    // Also where the board tells nothing it is a configuration, and the journal that it asks for lies within the image.
    ensures config { IfOk result IsConfig }
    ensures within { IfOk result (λ config. IsWithin (journal_region config.quota) (B.view board.old).extent) }
    ensures cause { DiskCausedBy (result ≡ Err MountFault.DiskFault) (B.view board.old) (B.view board.new) }
    ensures same { B.told → Same (B.view board.old) (B.view board.new) }
    ensures moments { B.told → Passes (B.view board.old) (B.view board.new) NoMoment }
{
    let size = board.size();
    if size < HEAD_SIZE as u64 {
        return Err(MountFault::BadImage);
    }
    let head = load_front(alloc, board, HEAD_SIZE)?;
    config_of(alloc, &head, size)
}
