ghost use Rattle.journal_core.specs.Laws.{OneList, StandsElsewhere, FitsElsewhere, ZerosAreEmpty};

/// A region stands for exactly one list of bodies; or for none, and then an open gate's length or body,
/// or the gate that must follow it, reaches past the half. Never both.
pub fn one_list()
    ensures one { OneList }
{}

/// A change outside a region leaves the list for which it stands, and each journal that keeps it.
pub fn kept_elsewhere()
    ensures stands { StandsElsewhere }
    ensures fits { FitsElsewhere }
{}

/// A region of zeros stands for the empty list.
pub fn zeros_are_empty()
    ensures empty { ZerosAreEmpty }
{}
