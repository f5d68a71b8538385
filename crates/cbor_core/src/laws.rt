ghost use Rattle.cbor_core.specs.Law.{ExactlyOne, ExactlyOneWhole, OneForOne, PartsAreProper, SpelledInFront};

/// For each list of bytes: one front of it spells an item, and one item, or it has one first fault,
/// and never both.
pub fn exactly_one()
    ensures { ExactlyOne }
{}

/// For each list of bytes: as a whole it spells an item, and one item, or it has one first fault, and
/// never both.
pub fn exactly_one_whole()
    ensures { ExactlyOneWhole }
{}

/// What spells an item stands in front of whatever follows. So by `decode` what `encode` wrote is
/// read back, with its length, whatever follows.
pub fn spelled_in_front()
    ensures { SpelledInFront }
{}

/// An item and its bytes determine each other. So what was decoded encodes to the bytes that it came
/// from.
pub fn one_for_one()
    ensures { OneForOne }
{}

/// The parts of a proper item are proper, so each may be encoded alone.
pub fn parts_are_proper()
    ensures { PartsAreProper }
{}
