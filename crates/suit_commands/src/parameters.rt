use crate::digest::Digest;
use base_types::{Octets, Utf8};

/// The parameters that a sequence sets, each where it is there.
#[derive(Debug, Drop, Eq, PartialEq)]
pub struct Parameters {
    /// Label 1, the vendor's identifier.
    pub vendor: Option<Octets>,
    /// Label 2, the class's identifier.
    pub class: Option<Octets>,
    /// Label 3, the digest of the image.
    pub image_digest: Option<Digest>,
    /// Label 14, the size of the image in bytes.
    pub image_size: Option<u64>,
    /// Label 18, the content itself.
    pub content: Option<Octets>,
    /// Label 21, where the image is fetched from.
    pub uri: Option<Utf8>,
    /// Label 22, the index of the component that is copied from.
    pub source: Option<u64>,
    /// Label 24, the device's identifier.
    pub device: Option<Octets>,
}
