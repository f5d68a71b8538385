ghost use Rattle.std.specs.Prelude.{◌≡◌, ◌+◌, ◌≤◌, ◌<◌, length, OnOk};
ghost use Rattle.board_core.specs.Contents.{NothingPending};
ghost use Rattle.board_core.specs.Moments.{Passes, written};
ghost use Rattle.board_core.specs.Calls.{DiskCause};
ghost use Rattle.board_core.specs.Ranges.{ChangesWithin};
ghost use Rattle.board_core.specs.Gates.{WithinGated, WritesWithin, WroteGated, PendingWithin};

use crate::board::Board;
use base_types::Failed;

/// Writes bytes from byte `at` on and makes them durable, and then one byte at a gate that stands before
/// them.
///
/// So a crash at any moment leaves the gate's byte as it was, or leaves the bytes whole behind it.
/// `Failed` exactly where the count of failed disk calls rose in this call; what is pending then lies
/// within the bytes or is the gate. Nothing is read or sent.
pub fn write_gated<B: Board>(
    board: &mut B,
    at: u64,
    bytes: &[u8],
    gate: u64,
    byte: u8,
) -> Result<(), Failed>
    requires before { gate < at }
    requires within { at + length bytes.now ≤ (B.view board.old).extent }
    ensures cause { DiskCause (B.view board.old) (B.view board.new) result }
    ensures written { B.told → OnOk result (WroteGated at bytes.now gate byte (B.view board.old) (B.view board.new)) }
    ensures within { B.told → WritesWithin at bytes.now gate (B.view board.old) (B.view board.new) }
    ensures moments { B.told → NothingPending (B.view board.old) →
        Passes (B.view board.old) (B.view board.new) (WithinGated at bytes.now gate (B.view board.old)) }
    ensures pending { B.told → NothingPending (B.view board.old) → PendingWithin at (length bytes.now) gate (B.view board.new) }
{
    put_synced(board, at, bytes)?;
    put_synced(board, gate, &[byte])
}

// Writes bytes from byte `at` on and makes them durable.
fn put_synced<B: Board>(board: &mut B, at: u64, bytes: &[u8]) -> Result<(), Failed>
    requires { at + length bytes.now ≤ (B.view board.old).extent }
    ensures cause { DiskCause (B.view board.old) (B.view board.new) result }
    ensures written { B.told → OnOk result ((B.view board.new).now.disk.bytes ≡ written (B.view board.old).now.disk.bytes at bytes.now) }
    ensures clean { B.told → OnOk result (NothingPending (B.view board.new)) }
    ensures stored { B.told → (B.view board.new).now.disk.stored ≤ (B.view board.old).now.disk.stored + length bytes.now }
    ensures within { B.told → ChangesWithin at (length bytes.now) (B.view board.old) (B.view board.new) }
{
    board.put(at, bytes)?;
    board.sync()
}
