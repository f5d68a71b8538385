use base_types::{List, Octets};
use suit_commands::Digest;

/// A component that a device keeps.
#[derive(Debug, Drop, Eq, PartialEq)]
pub struct ComponentRow {
    /// The encoding of its identifier, of at most 128 bytes.
    pub id: Octets,
    /// The image itself.
    pub bytes: Octets,
    /// The digest that the image was verified by, where one is kept.
    pub digest: Option<Digest>,
}

/// A manifest that a device has, or had and must not take again in an older form.
#[derive(Debug, Drop, Eq, PartialEq)]
pub struct ManifestRow {
    /// The encoding of its identifier, of at most 128 bytes.
    pub id: Octets,
    /// Its sequence number.
    pub sequence: u64,
    /// Whether it is installed. One that was removed has no components, and its number stays.
    pub present: bool,
    /// Its components: 1 to 16 where it is present.
    pub components: List<ComponentRow>,
}
