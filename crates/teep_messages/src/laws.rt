ghost use Rattle.teep_messages.specs.Law.{ExactlyOne, OneSpelling, MessagesAreProper, ProperAreSpelled};

/// Each list of bytes is one message, or has one refusal, and never both.
pub fn exactly_one()
    ensures { ExactlyOne }
{}

/// A message is one list of bytes at most. So what was read is written as it was.
pub fn one_spelling()
    ensures { OneSpelling }
{}

/// A message is proper, and in range as every running value is, exactly where some bytes are it. They
/// are the spelling of the item that it is written as.
pub fn proper_messages()
    ensures proper { MessagesAreProper }
    ensures spelled { ProperAreSpelled }
{}
