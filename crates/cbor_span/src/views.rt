ghost use Rattle.std.specs.Prelude.{◌≡◌, ◌++◌, ℕ, List, option_map, MatchOption, length};
ghost use Rattle.cbor_core.specs.declared.item.Item.{Item, out-Item};
ghost use Rattle.cbor_core.specs.Spelling.{Spells, spelling, spellings, pair_spellings};
ghost use Rattle.cbor_core.specs.Views.{unsigned_of, bytes_of, text_of, array_of, map_of, labelled_by, negative_of, tagged_of, is_null};
ghost use Rattle.cbor_span.specs.Parts.{IsInFront};
ghost use Rattle.cbor_span.specs.Opening.{opening};

use cbor_heads::{Head, Input, Kind, read_head};

/// The argument of the head of null (RFC 8949, section 3.3).
const NULL: u64 = 22;

/// The head of the item that a front of the bytes spells, and all bytes behind that head.
pub fn open_front(bytes: &[u8]) -> Option<(Head, &[u8])>
    ensures { (x : Item) (more : List ℕ) → IsInFront x bytes.now more → MatchOption result ⊥ (λ r. (r.0 ≡ (opening (out-Item x)).0) × (r.1.now ≡ (opening (out-Item x)).1 ++ more)) }
{
    let mut input = Input::new(bytes);
    match read_head(&mut input) {
        Ok(head) => Some((head, input.rest())),
        Err(_) => None,
    }
}

/// The head of the item that all the bytes spell, and the bytes behind it: the content of a string, the
/// parts of a container.
///
/// The bytes are to spell an item, as `check_whole` tells. Of others nothing is promised.
pub fn open(bytes: &[u8]) -> Option<(Head, &[u8])>
    ensures { (x : Item) → Spells x bytes.now → MatchOption result ⊥ (λ r. (r.0 ≡ (opening (out-Item x)).0) × (r.1.now ≡ (opening (out-Item x)).1)) }
{
    open_front(bytes)
}

/// Whether a head is that of the unsigned integer.
pub fn is_labelled(head: Head, label: u64) -> bool
    ensures { (x : Item) → head ≡ (opening (out-Item x)).0 → result ≡ labelled_by label (out-Item x) }
{
    match head.kind {
        Kind::Unsigned => head.argument == label,
        _ => false,
    }
}

/// Whether the bytes, which are to spell an item, spell the unsigned integer `label`.
pub fn is_label(bytes: &[u8], label: u64) -> bool
    ensures { (x : Item) → Spells x bytes.now → result ≡ labelled_by label (out-Item x) }
{
    match open(bytes) {
        Some((head, _)) => is_labelled(head, label),
        None => false,
    }
}

/// The number of the unsigned integer that the bytes, which are to spell an item, spell. None exactly
/// for every other item.
pub fn unsigned_in(bytes: &[u8]) -> Option<u64>
    ensures { (x : Item) → Spells x bytes.now → result ≡ unsigned_of x }
{
    let Some((head, _)) = open(bytes) else {
        return None;
    };
    match head.kind {
        Kind::Unsigned => Some(head.argument),
        _ => None,
    }
}

/// The n of the negative integer -1-n that the bytes, which are to spell an item, spell. None exactly
/// for every other item.
pub fn negative_in(bytes: &[u8]) -> Option<u64>
    ensures { (x : Item) → Spells x bytes.now → result ≡ negative_of x }
{
    let Some((head, _)) = open(bytes) else {
        return None;
    };
    match head.kind {
        Kind::Negative => Some(head.argument),
        _ => None,
    }
}

/// The content of the byte string that the bytes, which are to spell an item, spell. None exactly for
/// every other item.
pub fn bytes_in(bytes: &[u8]) -> Option<&[u8]>
    ensures { (x : Item) → Spells x bytes.now → option_map (λ s. s.now) result ≡ bytes_of x }
{
    let Some((head, content)) = open(bytes) else {
        return None;
    };
    match head.kind {
        Kind::Bytes => Some(content),
        _ => None,
    }
}

/// The text of the text string that the bytes, which are to spell an item, spell. None exactly for every
/// other item. It costs a test of UTF-8.
pub fn text_in(bytes: &[u8]) -> Option<&str>
    ensures { (x : Item) → Spells x bytes.now → option_map (λ s. s.now) result ≡ text_of x }
{
    let Some((head, content)) = open(bytes) else {
        return None;
    };
    match head.kind {
        Kind::Text => match str::from_utf8(content) {
            Ok(text) => Some(text),
            Err(_) => None,
        },
        _ => None,
    }
}

/// How many members the array has that the bytes, which are to spell an item, spell, and the bytes of
/// the members. None exactly for every other item.
pub fn array_in(bytes: &[u8]) -> Option<(u64, &[u8])>
    ensures { (x : Item) → Spells x bytes.now → option_map {U = ℕ × List ℕ} (λ r. (r.0, r.1.now)) result ≡ option_map {U = ℕ × List ℕ} (λ xs. (length xs, spellings xs)) (array_of x) }
{
    let Some((head, content)) = open(bytes) else {
        return None;
    };
    match head.kind {
        Kind::Array => Some((head.argument, content)),
        _ => None,
    }
}

/// How many pairs the map has that the bytes, which are to spell an item, spell, and the bytes of the
/// pairs. None exactly for every other item.
pub fn map_in(bytes: &[u8]) -> Option<(u64, &[u8])>
    ensures { (x : Item) → Spells x bytes.now → option_map {U = ℕ × List ℕ} (λ r. (r.0, r.1.now)) result ≡ option_map {U = ℕ × List ℕ} (λ ps. (length ps, pair_spellings ps)) (map_of x) }
{
    let Some((head, content)) = open(bytes) else {
        return None;
    };
    match head.kind {
        Kind::Map => Some((head.argument, content)),
        _ => None,
    }
}

/// The number of the tag that the bytes, which are to spell an item, spell, and the bytes of the item
/// that it is put on. None exactly for every other item.
pub fn tagged_in(bytes: &[u8]) -> Option<(u64, &[u8])>
    ensures { (x : Item) → Spells x bytes.now → option_map {U = ℕ × List ℕ} (λ r. (r.0, r.1.now)) result ≡ option_map {U = ℕ × List ℕ} (λ t. (t.0, spelling t.1)) (tagged_of x) }
{
    let Some((head, content)) = open(bytes) else {
        return None;
    };
    match head.kind {
        Kind::Tag => Some((head.argument, content)),
        _ => None,
    }
}

/// Whether the bytes, which are to spell an item, spell null.
pub fn null_in(bytes: &[u8]) -> bool
    ensures { (x : Item) → Spells x bytes.now → result ≡ is_null (out-Item x) }
{
    let Some((head, _)) = open(bytes) else {
        return false;
    };
    match head.kind {
        Kind::Simple => head.argument == NULL,
        _ => false,
    }
}
