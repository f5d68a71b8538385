use base_types::Octets;

/// One number of a ledger that rises: what a book is told by `WaveBook::note`.
#[derive(Debug, Drop, Eq, PartialEq)]
pub struct Note {
    /// The device.
    pub device: Octets,
    /// The identifier of a manifest, as it is encoded.
    pub id: Octets,
    /// The number that the ledger had, if any.
    pub before: Option<u64>,
    /// The number above it that it has now.
    pub after: u64,
}
