use crate::word::Word;
use base_types::Utf8;
use device_state::ManifestRow;

/// What is found of a manifest, with what was fetched so far.
#[derive(Debug, Drop, Eq, PartialEq)]
pub enum Verdict {
    /// It is taken, and this is its row: present, with its number and the components that it built.
    Passes(ManifestRow),
    /// The payload of this URI, or its failure, has to be known first.
    Needs(Utf8),
    /// It is not taken, for this reason.
    Fails(Word),
}
