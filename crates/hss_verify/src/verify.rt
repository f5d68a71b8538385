//! The verifier.

ghost use Rattle.std.specs.Prelude.{◌≡◌, ◌↔◌, ◌+◌, ◌≤◌, List, ℕ, [], IfSome, IsTrue, length};
ghost use Rattle.hss_verify.specs.Hss.{HasKeyForm, HssValid, IsChain};
ghost use Rattle.lms_core.specs.Layout.{IsFormed};
ghost use Rattle.lms_core.specs.Lms.{LmsValid};

use crate::public_key::HssPublic;
use lms_core::{
    Message, lms_has_form, lms_signature_len, lms_verify, lms_verify_message, read_u32,
};

const LMS_PUBLIC_LEN: usize = 56;

/// Whether `signature` is a valid HSS signature of `message` under the public key (RFC 8554, 6.3):
/// false where the number of levels is not the key's, where a part has not the exact length or the
/// types that the key before it gives it, or bytes follow, and where any of the public keys in it
/// or the message is not validly signed by the key before it. All lengths and types are compared
/// before anything is hashed, and each tree is hashed only under a key that is authenticated by then.
pub fn hss_verify(public: &HssPublic, message: &[u8], signature: &[u8]) -> bool
    ensures { IsTrue result ↔ HssValid public.now message.now signature.now }
{
    let parts = [message];
    hss_verify_message(public, &Message::new(&parts), signature)
}

/// The same of a message whose parts lie apart.
pub fn hss_verify_message(public: &HssPublic, message: &Message<'_>, signature: &[u8]) -> bool
    ensures { IsTrue result ↔ HssValid public.now message.now signature.now }
{
    let key = public.bytes();
    let links = read_u32(&key, 0) - 1;
    signature.len() >= 4
        && read_u32(signature, 0) == links
        && is_signed(&key[4..], links, &signature[4..], message)
}

// Whether the bytes are so many signed public keys and a last signature, by which `key` signs the
// message.
fn is_signed(key: &[u8], links: u32, bytes: &[u8], message: &Message<'_>) -> bool
    ensures { IsTrue result ↔ IsChain LmsValid key.now links bytes.now message.now }
{
    has_forms(key, links, bytes) && verifies(key, links, bytes, message)
}

// Whether the bytes are so many signatures and public keys by turns, and a last signature, each
// signature of the length and the types that the key before it gives it. Nothing is hashed.
fn has_forms(key: &[u8], links: u32, bytes: &[u8]) -> bool
    ensures { IsTrue result ↔ IsChain HasKeyForm key.now links bytes.now [] }
{
    if links == 0 {
        return lms_has_form(key, bytes);
    }
    let Some(len) = first_len(key, bytes) else {
        return false;
    };
    let next = &bytes[len..len + LMS_PUBLIC_LEN];
    lms_has_form(key, &bytes[..len]) && has_forms(next, links - 1, &bytes[len + LMS_PUBLIC_LEN..])
}

// Whether the bytes are a chain by which `key` signs the message, from the top, which stops at the
// first key that is not validly signed: what is hashed stands under keys that are.
fn verifies(key: &[u8], links: u32, bytes: &[u8], message: &Message<'_>) -> bool
    ensures { IsTrue result ↔ IsChain LmsValid key.now links bytes.now message.now }
{
    if links == 0 {
        return lms_verify_message(key, message, bytes);
    }
    let Some(len) = first_len(key, bytes) else {
        return false;
    };
    let next = &bytes[len..len + LMS_PUBLIC_LEN];
    lms_verify(key, next, &bytes[..len])
        && verifies(next, links - 1, &bytes[len + LMS_PUBLIC_LEN..], message)
}

// The length of a signature under the key, where the bytes have room for it and a public key.
fn first_len(key: &[u8], bytes: &[u8]) -> Option<usize>
    ensures room { IfSome result (λ len. len + 56 ≤ length bytes.now) }
    ensures only { (signature : List ℕ) → IsFormed key.now signature → length signature + 56 ≤ length bytes.now
        → result ≡ Some (length signature) }
{
    let len = lms_signature_len(key)?;
    if bytes.len() < LMS_PUBLIC_LEN || bytes.len() - LMS_PUBLIC_LEN < len {
        return None;
    }
    Some(len)
}
