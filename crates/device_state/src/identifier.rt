ghost use Rattle.std.specs.Prelude.{◌≡◌, ◌↔◌, IsTrue, List, length, true};
ghost use Rattle.cbor_core.specs.declared.item.Item.{Item};
ghost use Rattle.cbor_span.specs.Parts.{AreSpelled};
ghost use Rattle.cbor_fields.specs.Views.{IsIdentifier, all_bytes};
ghost use Rattle.device_state.specs.Valid.{IsShortId};

use base_types::COMPONENT_ID_LIMIT;
use cbor_heads::Kind;
use cbor_span::{array_in, check_whole, open_first};

/// Whether so many items, which the bytes are to spell one behind the other, are byte strings.
fn are_strings(count: u64, bytes: &[u8]) -> bool
    ensures { (xs : List Item) → AreSpelled xs bytes.now → count ≡ length xs → IsTrue result ↔ (all_bytes xs ≡ true) }
{
    let mut rest = bytes;
    for _ in 0..count {
        match open_first(rest) {
            Some(member) => match member.head.kind {
                Kind::Bytes => rest = member.behind,
                _ => return false,
            },
            None => return false,
        }
    }
    true
}

/// Whether the bytes are the encoding of a component identifier (draft-ietf-suit-manifest,
/// "SUIT_Component_Identifier"): an array of one or more byte strings. No memory is taken.
fn is_identifier(bytes: &[u8]) -> bool
    ensures { IsTrue result ↔ IsIdentifier bytes.now }
{
    if check_whole(bytes).is_err() {
        return false;
    }
    match array_in(bytes) {
        Some((count, members)) => count > 0 && are_strings(count, members),
        None => false,
    }
}

/// The same of an identifier of at most 128 bytes.
pub fn is_short_id(bytes: &[u8]) -> bool
    ensures { IsTrue result ↔ IsShortId bytes.now }
{
    bytes.len() <= COMPONENT_ID_LIMIT && is_identifier(bytes)
}
