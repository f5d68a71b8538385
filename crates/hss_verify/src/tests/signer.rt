//! A plain signer over trees of height 5, whose keys come from a seed (RFC 8554, appendix A).

use lms_core::{
    Message, chain, chain_step, coef, inner_hash, leaf_hash, message_hash, ots_of, signed_string,
};
use sha2::{Digest, Sha256};
use std::alloc::{AllocError, Global};

const HEIGHT: u32 = 5;

const LEAVES: u8 = 32;

const LMS_TYPE: u32 = 5;

/// A tree and its secrets. Node `r` stands at place `r`.
#[derive(Drop)]
pub struct Tree {
    ots_type: u32,
    identifier: [u8; 16],
    seed: [u8; 32],
    nodes: [[u8; 32]; 64],
}

impl Tree {
    /// The top tree of a key seed.
    pub fn top(ots_type: u32, key_seed: &[u8; 32]) -> Tree {
        let identifier = front(&hash_of(0x49, key_seed));
        grow(ots_type, identifier, hash_of(0x53, key_seed))
    }

    /// The tree below a leaf of this one.
    pub fn below(&self, leaf: u8) -> Tree {
        let identifier = front(&self.secret(leaf, 0xfffc));
        grow(self.ots_type, identifier, self.secret(leaf, 0xfffe))
    }

    /// The LMS public key.
    pub fn public(&self, alloc: Global) -> Result<Vec<u8>, AllocError> {
        let mut bytes = Vec::new(alloc);
        bytes.extend_from_slice(&LMS_TYPE.to_be_bytes())?;
        bytes.extend_from_slice(&self.ots_type.to_be_bytes())?;
        bytes.extend_from_slice(&self.identifier)?;
        bytes.extend_from_slice(&self.nodes[1])?;
        Ok(bytes)
    }

    /// An LMS signature of the message at a leaf.
    pub fn sign(&self, alloc: Global, leaf: u8, message: &[u8]) -> Result<Vec<u8>, AllocError> {
        let q = u32::from(leaf);
        let randomizer = self.secret(leaf, 0xfffd);
        let mut bytes = Vec::new(alloc);
        bytes.extend_from_slice(&q.to_be_bytes())?;
        bytes.extend_from_slice(&self.ots_type.to_be_bytes())?;
        bytes.extend_from_slice(&randomizer)?;
        let parts = [message];
        let digest = message_hash(&self.identifier, q, &randomizer, &Message::new(&parts));
        self.sign_digest(&mut bytes, leaf, &digest)?;
        bytes.extend_from_slice(&LMS_TYPE.to_be_bytes())?;
        let mut node = 32 + leaf % LEAVES;
        for _ in 0..HEIGHT {
            bytes.extend_from_slice(&self.nodes[((node ^ 1) % 64) as usize])?;
            node /= 2;
        }
        Ok(bytes)
    }

    // Adds y_0, .., y_(p-1).
    fn sign_digest(
        &self,
        bytes: &mut Vec<u8>,
        leaf: u8,
        digest: &[u8; 32],
    ) -> Result<(), AllocError> {
        let Some(params) = ots_of(self.ots_type) else {
            return Ok(());
        };
        let string = signed_string(digest, params);
        for i in 0..params.p as u16 {
            let digit = coef(&string, i, params.w);
            let secret = self.secret(leaf, i);
            let y = chain(&self.identifier, u32::from(leaf), i, 0, digit, &secret);
            bytes.extend_from_slice(&y)?;
        }
        Ok(())
    }

    // The secret of a leaf that the seed gives at a number.
    fn secret(&self, leaf: u8, i: u16) -> [u8; 32] {
        chain_step(&self.identifier, u32::from(leaf), i, 0xff, &self.seed)
    }
}

fn grow(ots_type: u32, identifier: [u8; 16], seed: [u8; 32]) -> Tree {
    let mut nodes = [[0; 32]; 64];
    for leaf in 0..LEAVES {
        let place = 32 + u32::from(leaf);
        let key = one_time_key(ots_type, &identifier, &seed, u32::from(leaf));
        nodes[place as usize] = leaf_hash(&identifier, place, &key);
    }
    for done in 0..31u32 {
        let place = 31 - done;
        let left = nodes[(2 * place) as usize];
        let right = nodes[(2 * place + 1) as usize];
        nodes[place as usize] = inner_hash(&identifier, place, &left, &right);
    }
    Tree {
        ots_type,
        identifier,
        seed,
        nodes,
    }
}

// K, the one-time public key of leaf `q` (RFC 8554, 4.3).
fn one_time_key(ots_type: u32, identifier: &[u8; 16], seed: &[u8; 32], q: u32) -> [u8; 32] {
    let Some(params) = ots_of(ots_type) else {
        return [0; 32];
    };
    let largest = ((1u16 << params.w) - 1) as u8;
    let mut hasher = Sha256::new();
    hasher.update(identifier.as_slice());
    hasher.update(q.to_be_bytes().as_slice());
    hasher.update([0x80, 0x80].as_slice());
    for i in 0..params.p as u16 {
        let secret = chain_step(identifier, q, i, 0xff, seed);
        let end = chain(identifier, q, i, 0, largest, &secret);
        hasher.update(end.as_slice());
    }
    hasher.finalize()
}

fn hash_of(domain: u8, key_seed: &[u8; 32]) -> [u8; 32] {
    let mut hasher = Sha256::new();
    hasher.update([domain].as_slice());
    hasher.update(key_seed.as_slice());
    hasher.finalize()
}

fn front(hash: &[u8; 32]) -> [u8; 16] {
    let mut bytes = [0; 16];
    bytes.copy_from_slice(&hash[..16]);
    bytes
}
