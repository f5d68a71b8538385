use base_types::Octets;

/// A manifest that an agent has.
#[derive(Debug, Drop, Eq, PartialEq)]
pub struct Reported {
    /// The encoding of the manifest's component identifier.
    pub id: Octets,
    /// The manifest's sequence number.
    pub sequence: u64,
}
