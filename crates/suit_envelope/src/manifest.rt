use base_types::{List, Octets};
use cbor_core::Pair;

/// A manifest: what is installed where, and in which steps.
#[derive(Debug, Drop, Eq, PartialEq)]
pub struct Manifest {
    /// Label 5, the encoding of its identifier, of at most 128 bytes.
    pub id: Octets,
    /// Label 2, its sequence number: a newer manifest has a greater one.
    pub sequence: u64,
    /// The encodings of the component identifiers, 1 to 16, no two the same, each of at most 128 bytes.
    pub components: List<Octets>,
    /// The sequence that runs before each of the others, where it is there.
    pub shared: Option<Octets>,
    /// All members but 1, 2, 3 and 5, in ascending order of the encoded keys; the sequences are
    /// 7 (validate), 16 (payload-fetch) and 20 (install).
    pub members: List<Pair>,
    /// What the common part has beside components and shared sequence, in ascending order of the
    /// encoded keys.
    pub common_other: List<Pair>,
}

/// The common part of a manifest.
#[derive(Debug, Drop, Eq, PartialEq)]
pub(crate) struct Common {
    pub(crate) components: List<Octets>,
    pub(crate) shared: Option<Octets>,
    pub(crate) other: List<Pair>,
}
