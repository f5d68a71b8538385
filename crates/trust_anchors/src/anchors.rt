ghost use Rattle.trust_anchors.specs.Anchors.{RolesReadAs};
ghost use Rattle.std.specs.Prelude.{◌≡◌, ◌⊎◌, ◌↔◌, ◌≤◌, ℕ, length, IfOk, IfErr, IsErrOf};

use crate::fault::{AnchorFault, SignFault};
use crate::reading::{are_strings, read_keys, two_arrays};
use crate::role::Role;
use crate::signers::signer_over;
use crate::writing::write_keys;
use base_types::{ANCHORS_LIMIT, List, OrMemory};
use cbor_core::Item;
use cose_core::{Sign1, Signed};
use hss_verify::HssPublic;
use std::alloc::Global;

/// The keys that a device trusts, at most 16 of each role.
#[derive(Debug, Drop, Eq, PartialEq)]
pub struct Anchors {
    /// Whose messages are taken.
    pub manager: List<HssPublic>,
    /// Whose manifests are taken.
    pub author: List<HssPublic>,
}

/// Reads the keys of both roles.
fn read_roles(alloc: Global, managers: &[Item], authors: &[Item]) -> Result<Anchors, AnchorFault>
    ensures { RolesReadAs managers.now authors.now result }
{
    if !are_strings(managers) {
        return Err(AnchorFault::Shape);
    }
    if !are_strings(authors) {
        return Err(AnchorFault::Shape);
    }
    if managers.len() > ANCHORS_LIMIT {
        return Err(AnchorFault::TooMany(Role::Manager));
    }
    if authors.len() > ANCHORS_LIMIT {
        return Err(AnchorFault::TooMany(Role::Author));
    }
    let manager = read_keys(alloc, managers, Role::Manager)?;
    let author = read_keys(alloc, authors, Role::Author)?;
    Ok(Anchors { manager, author })
}

impl Anchors {
    ghost use Rattle.cose_core.specs.declared.sign1.Sign1.{Sign1};
    ghost use Rattle.trust_anchors.specs.Anchors.{AnchorsIs, RefusedAs, IsFound, IsRefused, keys_of, written_anchors};
    ghost use Rattle.trust_anchors.specs.Verified.{Verified, VerifiedBy, IsSigner};

    /// Reads anchors from an item: `[[key, ..], [key, ..]]`, the manager's keys and the author's, each
    /// a byte string that wraps a COSE_Key (RFC 9052, section 7) with an HSS key (RFC 8554, section
    /// 6.1). Identifiers of keys are not kept.
    ///
    /// `Shape` where the item is not an array of two arrays of byte strings. `TooMany` of the manager
    /// and then of the author where there are more than 16. `BadKey` at the first place, the manager's
    /// before the author's, that holds no such key. The first that holds is told. `NoMemory` may come
    /// for any item.
    pub fn read(alloc: Global, item: &Item) -> Result<Anchors, AnchorFault>
        // What is found is what the item is.
        ensures found { IfOk result (λ v. AnchorsIs v item.now) }
        // What the item is is found, unless memory runs out.
        ensures only { (v : Anchors) → AnchorsIs v item.now → IsFound result v }
        // A refusal has its cause in the item, or memory ran out.
        ensures bad { IfErr result (λ e. (e ≡ AnchorFault.NoMemory) ⊎ RefusedAs item.now e) }
        // What the item is refused for is the answer, unless memory runs out.
        ensures refused { (e : AnchorFault) → RefusedAs item.now e → IsRefused result e }
    {
        let Some((managers, authors)) = two_arrays(item) else {
            return Err(AnchorFault::Shape);
        };
        read_roles(alloc, managers, authors)
    }

    /// The anchors as an item, which `read` reads back. Refused for want of memory alone.
    pub fn write(&self, alloc: Global) -> OrMemory<Item>
        requires manager { length self.now.manager ≤ ANCHORS_LIMIT }
        requires author { length self.now.author ≤ ANCHORS_LIMIT }
        // The keys without identifiers, each wrapped.
        ensures value { IfOk result (λ x. x ≡ written_anchors self.now) }
        // It is read as these anchors.
        ensures again { IfOk result (AnchorsIs self.now) }
    {
        let mut roles = List::new(alloc);
        roles.push(Item::Array(write_keys(alloc, self.manager.as_slice())?))?;
        roles.push(Item::Array(write_keys(alloc, self.author.as_slice())?))?;
        Ok(Item::Array(roles))
    }

    /// The keys of a role.
    pub fn keys(&self, role: Role) -> &[HssPublic]
        ensures { result.now ≡ keys_of role self.now }
    {
        match role {
            Role::Manager => self.manager.as_slice(),
            Role::Author => self.author.as_slice(),
        }
    }

    /// The place, counted from 0, of the first anchor of the role whose key verifies the signature of
    /// the message over its protected bytes and this payload (RFC 9052, section 4.4).
    ///
    /// `NotSigned` exactly where none does, unless `NoMemory` comes, as it may for any message.
    pub fn verified(
        &self,
        alloc: Global,
        role: Role,
        message: &Sign1,
        payload: &[u8],
    ) -> Result<usize, SignFault>
        // What is found signed the message, and none before it did.
        ensures found { IfOk result (λ at. Verified self.now role message.now payload.now at) }
        // The first that signed is found, unless memory runs out.
        ensures only { (at : ℕ) → Verified self.now role message.now payload.now at → IsSigner result at }
        // NotSigned says that none did.
        ensures not_signed { IsErrOf result SignFault.NotSigned → (at : ℕ) → Verified self.now role message.now payload.now at → ⊥ }
    {
        let signature = message.signature.as_slice();
        signer_over(
            alloc,
            self.keys(role),
            message.protected.as_slice(),
            payload,
            signature,
        )
    }

    /// The same of a message where it lies. Neither it nor the payload is copied: what is written are the
    /// heads round its protected bytes and the payload, at most 31 bytes in two buffers.
    pub fn verified_signed(
        &self,
        alloc: Global,
        role: Role,
        message: &Signed<'_>,
        payload: &[u8],
    ) -> Result<usize, SignFault>
        ensures found { IfOk result (λ at. VerifiedBy self.now role message.now.protected.now message.now.signature.now payload.now at) }
        ensures only { (at : ℕ) → VerifiedBy self.now role message.now.protected.now message.now.signature.now payload.now at → IsSigner result at }
        ensures not_signed { IsErrOf result SignFault.NotSigned
            → (at : ℕ) → VerifiedBy self.now role message.now.protected.now message.now.signature.now payload.now at → ⊥ }
    {
        signer_over(
            alloc,
            self.keys(role),
            message.protected,
            payload,
            message.signature,
        )
    }
}
