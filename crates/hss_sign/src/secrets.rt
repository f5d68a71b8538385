//! Where the private parts of a tree come from.

ghost use Rattle.std.specs.Prelude.{◌≡◌, ◌∷◌, take};
ghost use Rattle.sha2.specs.Sha256.{sha256};
ghost use Rattle.hss_sign.specs.Secrets.{lower_secret, secret_at, top_secret};

use lms_core::chain_step;
use sha2::{Digest, Sha256};

/// A tree's identifier I and its seed, from which all its one-time keys come (RFC 8554, appendix A).
#[derive(Clone, Copy)]
pub(crate) struct TreeSecret {
    pub identifier: [u8; 16],
    pub seed: [u8; 32],
}

impl TreeSecret {
    /// That of the top tree of a key seed.
    pub(crate) fn top(key_seed: &[u8; 32]) -> TreeSecret
        ensures { result ≡ top_secret key_seed.now }
    {
        TreeSecret {
            identifier: front(&tagged_hash(0x49, key_seed)),
            seed: tagged_hash(0x53, key_seed),
        }
    }

    /// That of the tree below a leaf of this one.
    pub(crate) fn below(&self, leaf: u32) -> TreeSecret
        ensures { result ≡ lower_secret self.now leaf }
    {
        TreeSecret {
            identifier: front(&self.at(leaf, 0xfffc)),
            seed: self.at(leaf, 0xfffe),
        }
    }

    /// What the seed gives at a leaf and a number.
    pub(crate) fn at(&self, leaf: u32, number: u16) -> [u8; 32]
        ensures { result ≡ secret_at self.now leaf number }
    {
        chain_step(&self.identifier, leaf, number, 0xff, &self.seed)
    }
}

fn tagged_hash(tag: u8, key_seed: &[u8; 32]) -> [u8; 32]
    ensures { result ≡ sha256 (tag ∷ key_seed.now) }
{
    let mut hasher = Sha256::new();
    hasher.update([tag].as_slice());
    hasher.update(key_seed.as_slice());
    hasher.finalize()
}

fn front(hash: &[u8; 32]) -> [u8; 16]
    ensures { result ≡ take 16 hash.now }
{
    let mut bytes = [0; 16];
    bytes.copy_from_slice(&hash[..16]);
    bytes
}
