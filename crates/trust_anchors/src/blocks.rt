ghost use Rattle.std.specs.Prelude.{◌≡◌, ℕ, IfOk, IsErrOf, MatchOption};
ghost use Rattle.trust_anchors.specs.Blocks.{BlockPassed, BlockSigned, BlocksSearchedAs};

use crate::anchors::Anchors;
use crate::fault::SignFault;
use crate::role::Role;
use base_types::{List, NoMemory, Octets, OrMemory};
use cose_core::Signed;
use std::alloc::Global;

/// The first anchor of the role that signed a block over the payload. None exactly where none did, as
/// where the block is no COSE_Sign1 or has a payload of its own.
fn block_signer(
    alloc: Global,
    anchors: &Anchors,
    role: Role,
    block: &[u8],
    payload: &[u8],
) -> OrMemory<Option<usize>>
    ensures { IfOk result (λ found. MatchOption found
        (BlockPassed anchors.now role payload.now block.now)
        (BlockSigned anchors.now role payload.now block.now)) }
{
    let Ok(message) = Signed::read(block) else {
        return Ok(None);
    };
    if message.payload.is_some() {
        return Ok(None);
    }
    match anchors.verified_signed(alloc, role, &message, payload) {
        Ok(anchor) => Ok(Some(anchor)),
        Err(SignFault::NotSigned) => Ok(None),
        Err(SignFault::NoMemory) => Err(NoMemory),
    }
}

/// The place of the first block that an anchor of the role signed, and the place of that anchor.
fn first_signed(
    alloc: Global,
    anchors: &Anchors,
    role: Role,
    blocks: &[Octets],
    payload: &[u8],
) -> Result<(usize, usize), SignFault>
    ensures { BlocksSearchedAs anchors.now role blocks.now payload.now result }
{
    for (place, block) in blocks.iter().enumerate() {
        let signer = block_signer(alloc, anchors, role, block.as_slice(), payload)?;
        if let Some(anchor) = signer {
            return Ok((place, anchor));
        }
    }
    Err(SignFault::NotSigned)
}

impl Anchors {
    ghost use Rattle.trust_anchors.specs.Blocks.{VerifiedAny, IsPlace};

    /// The first of the blocks that an anchor of the role signed over this payload, and the first such
    /// anchor, both places counted from 0. A block is signed so where it is a COSE_Sign1 (RFC 9052,
    /// section 4.2) whose payload is null (section 2: detached content), and its signature is over its
    /// protected bytes and this payload (section 4.4).
    ///
    /// A block that is no COSE_Sign1, or that has a payload of its own, is passed over. Nothing of the
    /// blocks or the payload is copied; each anchor of the role hashes the payload for each block before
    /// the one that is told.
    ///
    /// `NotSigned` exactly where no block is signed so, unless `NoMemory` comes, as it may for any blocks.
    pub fn verified_any(
        &self,
        alloc: Global,
        role: Role,
        blocks: &List<Octets>,
        payload: &[u8],
    ) -> Result<(usize, usize), SignFault>
        // What is found is the first block that is signed, with its first anchor.
        ensures found { IfOk result (λ t. VerifiedAny self.now role blocks.now payload.now t.0 t.1) }
        // The first block that is signed is found, unless memory runs out.
        ensures only { (block anchor : ℕ) → VerifiedAny self.now role blocks.now payload.now block anchor → IsPlace result block anchor }
        // NotSigned says that none is.
        ensures not_signed { IsErrOf result SignFault.NotSigned
            → (block anchor : ℕ) → VerifiedAny self.now role blocks.now payload.now block anchor → ⊥ }
    {
        first_signed(alloc, self, role, blocks.as_slice(), payload)
    }
}
