ghost use Rattle.std.specs.Prelude.{◌≡◌, List, [], ◌∷◌, Some, option_map};
ghost use Rattle.cbor_core.specs.declared.item.Item.{Item};
ghost use Rattle.cbor_core.specs.declared.item.Pair.{Pair};
ghost use Rattle.cbor_core.specs.Spelling.{Spells};
ghost use Rattle.cbor_core.specs.Views.{field, map_of};
ghost use Rattle.cbor_span.specs.Parts.{AreSpelled, IsThere};
ghost use Rattle.cose_core.specs.Borrowed.{FormIs};
ghost use Rattle.cose_core.specs.Headers.{kid_of};
ghost use Rattle.cose_core.specs.Reading.{payload_of, content_of, form_of, four_by};

use crate::borrowed::Signed;
use crate::labels::{HEADER_KID, SIGN1_TAG};
use cbor_span::{array_in, bytes_in, first, first_map, null_in, tagged_in};

/// A payload: bytes, or null for none.
fn payload_in(bytes: &[u8]) -> Option<Option<&[u8]>>
    ensures { (x : Item) → Spells x bytes.now → option_map (option_map (λ s. s.now)) result ≡ payload_of x }
{
    if null_in(bytes) {
        return Some(None);
    }
    match bytes_in(bytes) {
        Some(payload) => Some(Some(payload)),
        None => None,
    }
}

/// The bytes of an item without the tag of a COSE_Sign1, where it has it.
fn content_in(bytes: &[u8]) -> &[u8]
    ensures { (x : Item) → Spells x bytes.now → Spells (content_of x) result.now }
{
    match tagged_in(bytes) {
        Some((n, content)) => { if n == SIGN1_TAG { content } else { bytes } }
        None => bytes,
    }
}

/// The key identifier, from the bytes of the value at its label.
fn kid_in(value: Option<&[u8]>) -> Option<&[u8]>
    ensures { (ps : List Pair) → IsThere (λ s. s.now) (field HEADER_KID ps) value.entry → option_map (λ s. s.now) result ≡ kid_of ps }
{
    match value {
        Some(kid) => bytes_in(kid),
        None => None,
    }
}

/// The parts of a COSE_Sign1, from the bytes of its members and of the value at the label of the key
/// identifier.
fn four_in<'a>(
    protected: &'a [u8],
    value: Option<&'a [u8]>,
    payload: &'a [u8],
    signature: &'a [u8],
) -> Option<Signed<'a>>
    ensures { (p u c s : Item) (ps : List Pair) → Spells p protected.now → map_of u ≡ Some ps → IsThere (λ s. s.now) (field HEADER_KID ps) value.entry → Spells c payload.now → Spells s signature.now → FormIs (four_by p u c s) result }
{
    let Some(signature) = bytes_in(signature) else {
        return None;
    };
    let Some(payload) = payload_in(payload) else {
        return None;
    };
    let Some(protected) = bytes_in(protected) else {
        return None;
    };
    let kid = kid_in(value);
    Some(Signed {
        protected,
        kid,
        payload,
        signature,
    })
}

/// The parts of a COSE_Sign1, from the bytes of its four members one behind the other.
fn members_in(members: &[u8]) -> Option<Signed<'_>>
    ensures { (p u c s : Item) → AreSpelled (p ∷ u ∷ c ∷ s ∷ []) members.now → FormIs (four_by p u c s) result }
{
    let Some((protected, rest)) = first(members) else {
        return None;
    };
    let Some(headers) = first_map(rest, HEADER_KID) else {
        return None;
    };
    let Some((payload, signature)) = first(headers.behind) else {
        return None;
    };
    four_in(protected, headers.value, payload, signature)
}

/// The parts of a COSE_Sign1 in the item that the bytes, which are to spell one, spell, with the tag or
/// without.
pub fn form_in(bytes: &[u8]) -> Option<Signed<'_>>
    ensures { (x : Item) → Spells x bytes.now → FormIs (form_of x) result }
{
    let content = content_in(bytes);
    let Some((n, members)) = array_in(content) else {
        return None;
    };
    if n != 4 {
        return None;
    }
    members_in(members)
}
