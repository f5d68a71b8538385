ghost use Rattle.suit_commands.specs.Law.{DigestsAreCodec, ParametersAreCodec, RefusedInOrder, ByBytes, ExactlyOne, OneSpelling, SequencesAreProper, ProperAreSpelled};

/// Each item is one digest at most, written as it was read, and what is written of a digest that has
/// its size is read as it; as an array, and wrapped in a byte string.
pub fn digests_are_codec()
    ensures { DigestsAreCodec }
{}

/// Each item is the parameters of one value, or has one refusal, and never both. What was read is
/// written as it was, and what is written is read as the value.
pub fn parameters_are_codec()
    ensures { ParametersAreCodec }
{}

/// In a map whose keys ascend, as those of each map that was decoded do, the first pair that is refused
/// says how.
pub fn refused_in_order()
    ensures { RefusedInOrder }
{}

/// Bytes are a sequence, where so many levels are left, exactly where they spell an item (RFC 8949,
/// section 4.2.1) that is it. They are refused exactly where they spell an item that is refused so, or
/// spell none, and `Cbor` names the first fault. Where no level is left, all are refused as Nesting.
pub fn sequences_by_bytes()
    ensures { ByBytes }
{}

/// Each list of bytes is one sequence, or has one refusal, and never both. Want of memory and `Index`
/// are none of the refusals.
pub fn exactly_one()
    ensures { ExactlyOne }
{}

/// A sequence is one list of bytes at most. So what was read is written as it was.
pub fn one_spelling()
    ensures { OneSpelling }
{}

/// A sequence is proper exactly where some bytes are it. They are the spelling of the item that it is
/// written as.
pub fn proper_sequences()
    ensures proper { SequencesAreProper }
    ensures spelled { ProperAreSpelled }
{}
