//! A tree whose nodes are kept, and signatures of it.

ghost use Rattle.std.specs.Prelude.{◌≡◌, ◌+◌, ◌++◌, ◌<◌, ◌^◌, [], OnOk, length, slice_index_or};
ghost use Rattle.std.specs.List.{concat};
ghost use Rattle.hss_sign.specs.Params.{IsProperParams};
ghost use Rattle.hss_sign.specs.Trees.{IsGrown, leaf_at, tree_public};
ghost use Rattle.hss_sign.specs.Sign.{tree_signature};
ghost use Rattle.lms_core.specs.Lms.{public_key_bytes, signature_bytes};
ghost use Rattle.lms_core.specs.Tree.{path_above, sibling};

use crate::one_time::sign_digest;
use crate::params::KeyParams;
use crate::secrets::TreeSecret;
use base_types::OrMemory;
use lms_core::{Message, message_hash};

/// A tree's secrets and all its nodes: node `r` stands at place `r`, and nothing of meaning at 0.
#[derive(Drop)]
pub(crate) struct Tree {
    pub secret: TreeSecret,
    pub nodes: Vec<[u8; 32]>,
}

impl Tree {
    /// Adds the LMS public key (RFC 8554, 5.3). Refused for want of memory alone.
    pub(crate) fn write_public(&self, params: KeyParams, bytes: &mut Vec<u8>) -> OrMemory<()>
        requires proper { IsProperParams params }
        requires grown { IsGrown params self.now.secret self.now.nodes.items }
        ensures value { OnOk result (bytes.new.items ≡ bytes.old.items ++ public_key_bytes (tree_public params self.now.secret)) }
    {
        bytes.extend_from_slice(&params.lms_type().to_be_bytes())?;
        bytes.extend_from_slice(&params.ots_type().to_be_bytes())?;
        bytes.extend_from_slice(&self.secret.identifier)?;
        bytes.extend_from_slice(self.node(1))?;
        Ok(())
    }

    /// Adds the LMS signature of a message at a leaf (RFC 8554, 5.4). Refused for want of memory alone.
    pub(crate) fn write_signature(
        &self,
        params: KeyParams,
        leaf: u32,
        message: &[u8],
        bytes: &mut Vec<u8>,
    ) -> OrMemory<()>
        requires proper { IsProperParams params }
        requires grown { IsGrown params self.now.secret self.now.nodes.items }
        requires inside { leaf < 2 ^ params.height }
        ensures value { OnOk result (bytes.new.items ≡ bytes.old.items ++ signature_bytes (tree_signature params self.now.secret leaf message.now)) }
    {
        let randomizer = self.secret.at(leaf, 0xfffd);
        let parts = [message];
        let digest = message_hash(
            &self.secret.identifier,
            leaf,
            &randomizer,
            &Message::new(&parts),
        );
        bytes.extend_from_slice(&leaf.to_be_bytes())?;
        bytes.extend_from_slice(&params.ots_type().to_be_bytes())?;
        bytes.extend_from_slice(&randomizer)?;
        sign_digest(bytes, params.ots(), &self.secret, leaf, &digest)?;
        bytes.extend_from_slice(&params.lms_type().to_be_bytes())?;
        self.write_path(params, leaf, bytes)?;
        Ok(())
    }

    // Adds the siblings of the nodes from a leaf up.
    fn write_path(&self, params: KeyParams, leaf: u32, bytes: &mut Vec<u8>) -> OrMemory<()>
        requires proper { IsProperParams params }
        requires grown { IsGrown params self.now.secret self.now.nodes.items }
        requires inside { leaf < 2 ^ params.height }
        ensures value { OnOk result (bytes.new.items ≡ bytes.old.items
            ++ concat (path_above self.now.secret.identifier (leaf_at params self.now.secret) 0 (2 ^ params.height + leaf) params.height)) }
    {
        let mut node = params.leaves() + leaf;
        for level in 0..params.height {
            bytes.extend_from_slice(self.node(sibling(node)))?;
            node /= 2;
        }
        Ok(())
    }

    // The node of this number.
    fn node(&self, number: u32) -> &[u8; 32]
        requires { number < length self.now.nodes.items }
        ensures { result.now ≡ slice_index_or self.now.nodes.items number [] }
    {
        &self.nodes[number as usize]
    }
}

// The other child of a node's parent.
fn sibling(node: u32) -> u32
    requires { node < 2 ^ 31 }
    ensures { result ≡ sibling node }
{
    if node % 2 == 1 { node - 1 } else { node + 1 }
}
