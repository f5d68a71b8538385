ghost use Rattle.agent_core.specs.Leaves.{LeavesAscend};
ghost use Rattle.agent_core.specs.TurnLaw.{OneTurn, RangesHold, SomeTurn};

/// From a standing in range each frame of bytes leads to exactly one standing and one reply. Each state
/// for which an image stands is in range.
pub fn one_turn()
    ensures one { OneTurn }
    ensures some { SomeTurn }
    ensures ranges { RangesHold }
{}

/// The signed replies of a run start at the first leaf that was not used, and take the next leaf each, so
/// that no leaf signs twice; behind the run the state names the leaf that comes next. A refusal takes
/// none. The configuration, and with it the key, stays as it was.
pub fn leaves_ascend()
    ensures { LeavesAscend }
{}
