use crate::rows::ManifestRow;
use base_types::List;
use trust_anchors::Anchors;

/// What one commit changes.
#[derive(Debug, Drop, Eq, PartialEq)]
pub struct Change {
    /// How many leaves of the device's key are used then.
    pub leaf: u64,
    /// Each stands in the place of the row of its identifier, with all its components.
    pub rows: List<ManifestRow>,
    /// The keys that are trusted from then on, where they change.
    pub anchors: Option<Anchors>,
}
