use base_types::{List, Octets};
use suit_commands::Digest;

/// A component without its bytes.
#[derive(Debug, Drop, Eq, PartialEq)]
pub struct PartHead {
    /// The encoding of its identifier.
    pub id: Octets,
    /// How many bytes it has.
    pub length: u64,
    /// The digest that it was verified by, where one is kept.
    pub digest: Option<Digest>,
}

/// A manifest and its components without their bytes, in ascending order of their identifiers.
#[derive(Debug, Drop, Eq, PartialEq)]
pub struct RowHead {
    /// The encoding of its identifier.
    pub id: Octets,
    /// Its sequence number.
    pub sequence: u64,
    /// Whether it is installed.
    pub present: bool,
    /// Its components.
    pub components: List<PartHead>,
}
