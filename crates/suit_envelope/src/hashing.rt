ghost use Rattle.std.specs.Prelude.{◌≡◌, ◌↔◌, ◌++◌, ℕ, List, length, IsTrue};
ghost use Rattle.cbor_core.specs.declared.item.Item.TheVariants as i;
ghost use Rattle.cbor_core.specs.Spelling.{spelling};
ghost use Rattle.cbor_heads.specs.Head.{head};
ghost use Rattle.suit_commands.specs.Digests.{hash_of};

use crate::envelope::Envelope;
use sha2::{Digest as Hasher, Sha256, Sha384, Sha512};
use suit_commands::{Digest, DigestAlgorithm};

impl Envelope {
    /// Whether the digest is that of the manifest's member: false exactly where the hash of the byte
    /// string `manifest_bytes`, its head included, is another. The bytes are hashed where they lie.
    pub fn digest_holds(&self) -> bool
        ensures { IsTrue result ↔ (self.now.digest.bytes ≡ hash_of self.now.digest.algorithm (spelling (i.Bytes self.now.manifest_bytes))) }
    {
        matches_string(&self.digest, self.manifest_bytes.as_slice())
    }
}

/// Whether a digest is that of a byte string, its head included.
fn matches_string(digest: &Digest, bytes: &[u8]) -> bool
    ensures { IsTrue result ↔ (digest.now.bytes ≡ hash_of digest.now.algorithm (head 2 (length bytes.now) ++ bytes.now)) }
{
    let digest_bytes = digest.bytes.as_slice();
    match digest.algorithm {
        DigestAlgorithm::Sha256 => digest_bytes == string_digest::<Sha256>(bytes).as_slice(),
        DigestAlgorithm::Sha384 => digest_bytes == string_digest::<Sha384>(bytes).as_slice(),
        DigestAlgorithm::Sha512 => digest_bytes == string_digest::<Sha512>(bytes).as_slice(),
    }
}

/// The digest of a byte string, its head included.
fn string_digest<H: Hasher>(bytes: &[u8]) -> H::Output
    ensures { H.digest_of (head 2 (length bytes.now) ++ bytes.now) result }
{
    let mut hasher = H::new();
    hash_head(&mut hasher, bytes.len() as u64);
    hasher.update(bytes);
    hasher.finalize()
}

/// Hashes the head of a byte string of n bytes (RFC 8949, section 3) behind what the hasher holds.
#[tactic(auto, unfolding(cbor_heads::specs::Head::head))]
fn hash_head<H: Hasher>(hasher: &mut H, n: u64)
    ensures { (front : List ℕ) → H.holds hasher.old front → H.holds hasher.new (front ++ head 2 n) }
{
    if n < 24 {
        hasher.update([0x40 + n as u8].as_slice());
        return;
    }
    if n < 256 {
        hasher.update([0x58, n as u8].as_slice());
        return;
    }
    if n < 65536 {
        hasher.update([0x59].as_slice());
        hasher.update((n as u16).to_be_bytes().as_slice());
        return;
    }
    if n < 4294967296 {
        hasher.update([0x5a].as_slice());
        hasher.update((n as u32).to_be_bytes().as_slice());
        return;
    }
    hasher.update([0x5b].as_slice());
    hasher.update(n.to_be_bytes().as_slice());
}
