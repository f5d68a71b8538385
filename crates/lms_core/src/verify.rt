//! The verifier.

ghost use Rattle.std.specs.Prelude.{◌≡◌, ◌↔◌, ℕ, List, IsSome, IsTrue, length};
ghost use Rattle.lms_core.specs.declared.public_key.PublicKey.{PublicKey as Key};
ghost use Rattle.lms_core.specs.Lms.{IsKnown, IsPublicKey, LmsValid, Spells, root_candidate, signature_length};
ghost use Rattle.lms_core.specs.Layout.{HasForm, IsFormed, chains_end, signature_at};

use crate::bytes::{array_at, read_u32};
use crate::message::Message;
use crate::one_time::{key_candidate, message_hash};
use crate::public_key::PublicKey;
use crate::tree::{leaf_hash, root_above};

/// Whether `signature` is a valid LMS signature of `message` under the LMS public key `public`
/// (RFC 8554, 5.4.2): false where the key has not 56 bytes or a type that is not in the tables,
/// where the signature has another length, other types than the key or no leaf of its tree, and
/// where it leads to another root. Lengths and types are compared before anything is hashed.
pub fn lms_verify(public: &[u8], message: &[u8], signature: &[u8]) -> bool
    ensures { IsTrue result ↔ LmsValid public.now message.now signature.now }
{
    let parts = [message];
    lms_verify_message(public, &Message::new(&parts), signature)
}

/// The same of a message whose parts lie apart.
pub fn lms_verify_message(public: &[u8], message: &Message<'_>, signature: &[u8]) -> bool
    ensures { IsTrue result ↔ LmsValid public.now message.now signature.now }
{
    let Some(key) = PublicKey::read(public) else {
        return false;
    };
    has_form(&key, signature) && root_candidate(&key, message, signature) == key.root
}

/// Whether `signature` has the exact length and the types that the LMS public key `public` gives it,
/// and names a leaf of its tree: false for what is no public key too. Nothing is hashed.
pub fn lms_has_form(public: &[u8], signature: &[u8]) -> bool
    ensures form { IsTrue result ↔ IsFormed public.now signature.now }
{
    let Some(key) = PublicKey::read(public) else {
        return false;
    };
    has_form(&key, signature)
}

/// The length of each signature under an LMS public key. `None` comes exactly where `public` is no
/// public key of 56 bytes with types from the tables.
pub fn lms_signature_len(public: &[u8]) -> Option<usize>
    ensures known { IsSome result ↔ IsPublicKey public.now }
    ensures length { (key : Key) → Spells public.now key → result ≡ Some (signature_length key) }
    ensures exact { (message signature : List ℕ) → LmsValid public.now message signature
        → result ≡ Some (length signature) }
    ensures formed { (signature : List ℕ) → IsFormed public.now signature → result ≡ Some (length signature) }
{
    let key = PublicKey::read(public)?;
    Some(signature_len(&key))
}

// The length of each signature under a key (RFC 8554, 5.4).
fn signature_len(key: &PublicKey) -> usize
    requires { IsKnown key.now }
    ensures { result ≡ signature_length key.now }
{
    12 + 32 * (key.params.p as usize + 1) + 32 * key.height as usize
}

// Where the one-time signature ends.
fn ots_end(key: &PublicKey) -> usize
    requires { IsKnown key.now }
    ensures { result ≡ chains_end key.now }
{
    40 + 32 * key.params.p as usize
}

// Whether the bytes have the length of a signature under the key, its types and a leaf of its tree.
fn has_form(key: &PublicKey, signature: &[u8]) -> bool
    requires { IsKnown key.now }
    ensures { IsTrue result ↔ HasForm key.now signature.now }
{
    signature.len() == signature_len(key)
        && read_u32(signature, 0) < 1 << key.height
        && read_u32(signature, 4) == key.ots_type
        && read_u32(signature, ots_end(key)) == key.lms_type
}

// Tc, the root that a signature of the message leads to (RFC 8554, 5.4.2, algorithm 6a).
fn root_candidate(key: &PublicKey, message: &Message<'_>, signature: &[u8]) -> [u8; 32]
    requires known { IsKnown key.now }
    requires form { HasForm key.now signature.now }
    ensures { result ≡ root_candidate key.now message.now (signature_at key.now signature.now) }
{
    let q = read_u32(signature, 0);
    let end = ots_end(key);
    let digest = message_hash(&key.identifier, q, &array_at(signature, 8), message);
    let chains = &signature[40..end];
    let one_time_key = key_candidate(&key.identifier, q, key.params, &digest, chains);
    let node = (1 << key.height) + q;
    let leaf = leaf_hash(&key.identifier, node, &one_time_key);
    root_above(&key.identifier, node, leaf, &signature[end + 4..])
}
