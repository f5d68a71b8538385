use crate::manifest::Manifest;
use base_types::{List, Octets, Utf8};
use cbor_core::Pair;
use suit_commands::Digest;

/// A payload that travels in the envelope.
#[derive(Debug, Drop, Eq, PartialEq)]
pub struct Attached {
    /// Its name, which begins with `#`.
    pub name: Utf8,
    /// The payload itself.
    pub bytes: Octets,
}

/// An envelope: a manifest, the digest of it that was signed, and payloads.
#[derive(Debug, Drop, Eq, PartialEq)]
pub struct Envelope {
    /// The digest of the manifest's member.
    pub digest: Digest,
    /// The encoding of the digest, which the blocks sign.
    pub digest_bytes: Octets,
    /// The blocks that sign it, each as its bytes.
    pub blocks: List<Octets>,
    /// The encoding of the manifest.
    pub manifest_bytes: Octets,
    /// The manifest.
    pub manifest: Manifest,
    /// The payloads that are attached, in ascending order of their encoded names.
    pub attached: List<Attached>,
    /// All other members, in ascending order of the encoded keys.
    pub other: List<Pair>,
}

/// The wrapper of an envelope: the digest and the blocks.
#[derive(Debug, Drop, Eq, PartialEq)]
pub(crate) struct Wrapper {
    pub(crate) digest: Digest,
    pub(crate) digest_bytes: Octets,
    pub(crate) blocks: List<Octets>,
}
