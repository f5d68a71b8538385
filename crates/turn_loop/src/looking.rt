// A look for the next frame, as a board sees it.
ghost use Rattle.std.specs.Prelude.{◌≡◌, ◌≤◌};
ghost use Rattle.base_types.specs.Causes.{CausedBy};
ghost use Rattle.board_core.specs.Calls.{ReadAlone};
ghost use Rattle.frames.specs.Filling.{TookSome};
ghost use Rattle.frames.specs.Nexts.{Grows, IsReadFault, Nexts};

use base_types::{FRAME_IN_LIMIT, INPUT_LIMIT};
use board_core::Board;
use frames::{Budget, Next, next_frame};
use std::alloc::Global;

/// Takes the next frame, and no byte behind it. Nothing is sent, and the disk is left alone.
pub fn look<B: Board>(alloc: Global, board: &mut B, budget: &mut Budget) -> Next
    requires { budget.old.most ≡ INPUT_LIMIT }
    ensures next { B.told → Nexts FRAME_IN_LIMIT INPUT_LIMIT budget.new.taken (B.view board.old).now.stream.rest (B.view board.new).now.stream.rest result }
    ensures took { B.told → TookSome budget.old.taken budget.new.taken (B.view board.old).now.stream (B.view board.new).now.stream }
    ensures grows { Grows budget.old.taken budget.new.taken result }
    ensures most { budget.new.most ≡ INPUT_LIMIT }
    ensures bounded { budget.new.taken ≤ INPUT_LIMIT }
    ensures cause { CausedBy (IsReadFault result) (B.view board.old).faults.read (B.view board.new).faults.read }
    ensures alone { ReadAlone B.told (B.view board.old) (B.view board.new) }
{
    next_frame(alloc, board, FRAME_IN_LIMIT, budget)
}
