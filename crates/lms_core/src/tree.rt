//! The nodes of a Merkle tree.

ghost use Rattle.std.specs.Prelude.{◌≡◌, ◌/◌, length};
ghost use Rattle.lms_core.specs.Tree.{inner_hash, leaf_hash, parent_hash, root_above};
ghost use Rattle.lms_core.specs.Layout.{hashes_in};

use crate::bytes::array_at;
use sha2::{Digest, Sha256};

// D_LEAF and D_INTR (RFC 8554, 7.1)
const LEAF_DOMAIN: [u8; 2] = [0x82, 0x82];

const INNER_DOMAIN: [u8; 2] = [0x83, 0x83];

/// A leaf, H(I || u32str(r) || D_LEAF || K), at node number `node`, of the one-time public key `key`
/// (RFC 8554, 5.3).
pub fn leaf_hash(identifier: &[u8; 16], node: u32, key: &[u8; 32]) -> [u8; 32]
    ensures { result ≡ leaf_hash identifier.now node key.now }
{
    let mut hasher = Sha256::new();
    hasher.update(identifier.as_slice());
    hasher.update(node.to_be_bytes().as_slice());
    hasher.update(LEAF_DOMAIN.as_slice());
    hasher.update(key.as_slice());
    hasher.finalize()
}

/// An inner node, H(I || u32str(r) || D_INTR || T[2r] || T[2r+1]), at node number `node`
/// (RFC 8554, 5.3).
pub fn inner_hash(identifier: &[u8; 16], node: u32, left: &[u8; 32], right: &[u8; 32]) -> [u8; 32]
    ensures { result ≡ inner_hash identifier.now node left.now right.now }
{
    let mut hasher = Sha256::new();
    hasher.update(identifier.as_slice());
    hasher.update(node.to_be_bytes().as_slice());
    hasher.update(INNER_DOMAIN.as_slice());
    hasher.update(left.as_slice());
    hasher.update(right.as_slice());
    hasher.finalize()
}

/// The root above a node, by `path`, the end to end siblings of the nodes on the way up
/// (RFC 8554, 5.4.2, algorithm 6a).
pub(crate) fn root_above(identifier: &[u8; 16], node: u32, value: [u8; 32], path: &[u8]) -> [u8; 32]
    ensures { result ≡ root_above identifier.now node value (hashes_in (length path.now / 32) path.now) }
{
    let mut above = node;
    let mut root = value;
    for k in 0..path.len() / 32 {
        let sibling = array_at(path, 32 * k);
        root = parent_hash(identifier, above, &root, &sibling);
        above /= 2;
    }
    root
}

// The parent of a node and its sibling: an odd node is the right one of the two.
fn parent_hash(identifier: &[u8; 16], node: u32, value: &[u8; 32], sibling: &[u8; 32]) -> [u8; 32]
    ensures { result ≡ parent_hash identifier.now node value.now sibling.now }
{
    if node % 2 == 1 {
        inner_hash(identifier, node / 2, sibling, value)
    } else {
        inner_hash(identifier, node / 2, value, sibling)
    }
}
