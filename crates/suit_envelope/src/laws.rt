ghost use Rattle.suit_envelope.specs.Law.{ExactlyOne, FieldsAreProper, OnePlan};

/// Each list of bytes is one envelope, or has one refusal, and never both.
pub fn exactly_one()
    ensures { ExactlyOne }
{}

/// The fields of an envelope that some bytes are keep their rules. So it is proper exactly where the
/// item of its tagged form is, and then it is read again as it was written.
pub fn fields_are_proper()
    ensures { FieldsAreProper }
{}

/// Each manifest has one plan, or one refusal, and never both. Want of memory is none of the refusals.
pub fn one_plan()
    ensures { OnePlan }
{}
