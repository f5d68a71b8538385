ghost use Rattle.diag_text.specs.Law.{ExactlyOne};

/// For each list of bytes that a text could be, shorter than 2^64: one proper item has this text, or
/// it has one fault, at one place, and never both.
pub fn exactly_one()
    ensures { ExactlyOne }
{}
