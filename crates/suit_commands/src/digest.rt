ghost use Rattle.std.specs.Prelude.{◌≡◌, ◌↔◌, IsTrue};
ghost use Rattle.suit_commands.specs.Digests.{hash_of};

use base_types::Octets;
use sha2::{Digest as Hasher, Sha256, Sha384, Sha512};

/// A hash function of FIPS 180-4, by its number in COSE (RFC 9054, section 2.1).
#[derive(Clone, Copy, Debug, Eq, PartialEq)]
pub enum DigestAlgorithm {
    /// SHA-256, number -16, with digests of 32 bytes.
    Sha256,
    /// SHA-384, number -43, with digests of 48 bytes.
    Sha384,
    /// SHA-512, number -44, with digests of 64 bytes.
    Sha512,
}

/// The digest of an image.
#[derive(Debug, Drop, Eq, PartialEq)]
pub struct Digest {
    pub algorithm: DigestAlgorithm,
    /// One that is read has as many as the algorithm's digests.
    pub bytes: Octets,
}

impl Digest {
    /// Whether it is the digest of the bytes: false exactly where their hash by the algorithm is
    /// another.
    pub fn matches(&self, bytes: &[u8]) -> bool
        ensures { IsTrue result ↔ (self.now.bytes ≡ hash_of self.now.algorithm bytes.now) }
    {
        let digest = self.bytes.as_slice();
        match self.algorithm {
            DigestAlgorithm::Sha256 => digest == Sha256::digest(bytes).as_slice(),
            DigestAlgorithm::Sha384 => digest == Sha384::digest(bytes).as_slice(),
            DigestAlgorithm::Sha512 => digest == Sha512::digest(bytes).as_slice(),
        }
    }
}
