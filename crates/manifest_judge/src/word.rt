ghost use Rattle.std.specs.Prelude.{◌≡◌};
ghost use Rattle.manifest_judge.specs.Testing.{word_of};

use std::fmt;

/// Why a manifest is not taken (draft-ietf-suit-manifest, "Manifest Processing"), in the order in which
/// it is looked at. The first that holds is told.
#[derive(Clone, Copy, Debug, Eq, PartialEq)]
pub enum Word {
    /// It is the ninth or a later one of an Update, or the bytes are no envelope.
    Form,
    /// The digest of the envelope is not that of its manifest.
    Digest,
    /// No block is signed by an author's anchor over the bytes of the digest.
    Signature,
    /// A number that is kept for the manifest is not below its own.
    Sequence,
    /// The command sequences are not read.
    Command,
    /// The run ends with a condition that does not hold, or with an abort.
    Condition,
    /// The run ends where bytes are missing or above the limit.
    Payload,
    /// The run needs one payload more than may be fetched.
    Fetches,
    /// A component that is listed has no bytes, no digest, or bytes that have not its digest, or not its
    /// size where one is set.
    Image,
    /// A component that is listed belongs to another manifest.
    Owner,
}

impl fmt::Display for Word {
    ghost use Rattle.std.specs.Prelude.{Some};
    ghost use Rattle.manifest_judge.specs.Printing.{name};

    ghost output = { λ word. Some (name word) };

    fn fmt<W: fmt::Write>(&self, f: &mut fmt::Formatter<W>) -> fmt::Result {
        match self {
            Word::Form => write!(f, "form"),
            Word::Digest => write!(f, "digest"),
            Word::Signature => write!(f, "signature"),
            Word::Sequence => write!(f, "sequence"),
            Word::Command => write!(f, "command"),
            Word::Condition => write!(f, "condition"),
            Word::Payload => write!(f, "payload"),
            Word::Fetches => write!(f, "fetches"),
            Word::Image => write!(f, "image"),
            Word::Owner => write!(f, "owner"),
        }
    }
}

/// The word of a run that failed.
pub(crate) fn of_run(word: suit_engine::Word) -> Word
    ensures { result ≡ word_of word }
{
    match word {
        suit_engine::Word::Condition => Word::Condition,
        suit_engine::Word::Payload => Word::Payload,
        suit_engine::Word::Fetches => Word::Fetches,
    }
}
