ghost use Rattle.std.specs.Prelude.{◌≡◌, ℕ, List, MatchOption, Some, None, length};
ghost use Rattle.cbor_core.specs.declared.item.Item.{Item, out-Item};
ghost use Rattle.cbor_core.specs.declared.item.Pair.{Pair};
ghost use Rattle.cbor_core.specs.Spelling.{spelling};
ghost use Rattle.cbor_core.specs.Views.{field, map_of};
ghost use Rattle.cbor_span.specs.Parts.{IsInFront, PairInFront, PairsSpelled, PairsInFront, IsThere};
ghost use Rattle.cbor_span.specs.Opening.{opening};
ghost use Rattle.cbor_span.specs.Fields.{is_past, IsSought, IsFrontMap};

use crate::parts::{first, open_first};
use crate::views::{is_labelled, open_front};
use cbor_heads::{Head, Kind};

/// Unsigned integers below it are spelled in one byte.
const ONE_BYTE_LIMIT: u64 = 24;

/// A pair at the front of some bytes: the head of its key, and the bytes of its value.
#[derive(Clone, Copy)]
struct FrontPair<'a> {
    key: Head,
    value: &'a [u8],
    behind: &'a [u8],
}

/// The pair that a front of the bytes spells, by one walk.
fn open_pair(bytes: &[u8]) -> Option<FrontPair<'_>>
    ensures { (p : Pair) (more : List ℕ) → PairInFront p bytes.now more → MatchOption result ⊥ (λ r. (r.key ≡ (opening (out-Item p.key)).0) × (r.value.now ≡ spelling p.value) × (r.behind.now ≡ more)) }
{
    match open_first(bytes) {
        Some(key) => match first(key.behind) {
            Some((value, behind)) => Some(FrontPair {
                key: key.head,
                value,
                behind,
            }),
            None => None,
        },
        None => None,
    }
}

/// Where the search for a number among pairs stopped: behind the pair that has it, or a key above it, or
/// behind the last.
#[derive(Clone, Copy)]
struct Sought<'a> {
    /// The bytes of the value, where a pair has the number.
    value: Option<&'a [u8]>,
    /// How many pairs were not looked at.
    left: u64,
    /// The bytes from them on.
    rest: &'a [u8],
}

/// Whether a key is above the label, where the label is spelled in one byte. As keys ascend, none behind
/// it is the label then.
fn is_past_label(key: Head, label: u64) -> bool
    ensures { result ≡ is_past label key }
{
    match key.kind {
        Kind::Unsigned => label < key.argument,
        _ => true,
    }
}

/// Looks for a number among the keys of so many pairs, which a front of the bytes spells.
fn seek(count: u64, bytes: &[u8], label: u64) -> Option<Sought<'_>>
    ensures { (ps : List Pair) (more : List ℕ) → PairsInFront ps bytes.now more → length ps ≡ count → MatchOption result ⊥ (λ r. IsSought label ps more r) }
{
    let mut rest = bytes;
    for index in 0..count {
        let Some(pair) = open_pair(rest) else {
            return None;
        };
        if is_labelled(pair.key, label) {
            return Some(Sought {
                value: Some(pair.value),
                left: count - index - 1,
                rest: pair.behind,
            });
        }
        rest = pair.behind;
        if label < ONE_BYTE_LIMIT && is_past_label(pair.key, label) {
            return Some(Sought {
                value: None,
                left: count - index - 1,
                rest,
            });
        }
    }
    Some(Sought {
        value: None,
        left: 0,
        rest,
    })
}

/// What stands behind so many pairs, which a front of the bytes spells.
fn behind_pairs(count: u64, bytes: &[u8]) -> Option<&[u8]>
    ensures { (ps : List Pair) (more : List ℕ) → PairsInFront ps bytes.now more → length ps ≡ count → MatchOption result ⊥ (λ r. r.now ≡ more) }
{
    let mut rest = bytes;
    for _ in 0..count {
        let Some(pair) = open_pair(rest) else {
            return None;
        };
        rest = pair.behind;
    }
    Some(rest)
}

/// The bytes of the value under the unsigned integer `label`, of so many pairs that the bytes spell one
/// behind the other. None exactly where no key is the label.
///
/// Each pair is walked over once, up to the one that has the label; a label below 24 is not looked for
/// behind a key above it. The bytes are to spell the pairs of a map, as those of `map_in` do. Of others
/// nothing is promised.
pub fn field_in(count: u64, pairs: &[u8], label: u64) -> Option<&[u8]>
    ensures { (ps : List Pair) → PairsSpelled ps pairs.now → length ps ≡ count → IsThere (λ s. s.now) (field label ps) result }
{
    match seek(count, pairs, label) {
        Some(sought) => sought.value,
        None => None,
    }
}

/// A map at the front of some bytes, as one walk over it found it.
#[derive(Clone, Copy, Debug)]
pub struct FrontMap<'a> {
    /// How many pairs it has.
    pub count: u64,
    /// The bytes of the pairs.
    pub pairs: &'a [u8],
    /// The bytes of the value that was asked for, where a key is its label.
    pub value: Option<&'a [u8]>,
    /// The bytes behind the map.
    pub behind: &'a [u8],
}

/// A map of so many pairs, which a front of the bytes spells.
fn pairs_first(count: u64, bytes: &[u8], label: u64) -> Option<FrontMap<'_>>
    ensures { (ps : List Pair) (more : List ℕ) → PairsInFront ps bytes.now more → length ps ≡ count → MatchOption result ⊥ (λ r. IsFrontMap label ps more r) }
{
    let Some(sought) = seek(count, bytes, label) else {
        return None;
    };
    match behind_pairs(sought.left, sought.rest) {
        Some(behind) => Some(FrontMap {
            count,
            pairs: &bytes[..bytes.len().saturating_sub(behind.len())],
            value: sought.value,
            behind,
        }),
        None => None,
    }
}

/// The map that a front of the bytes spells, with the value under the unsigned integer `label`, by one
/// walk. None exactly where the item there is no map.
///
/// A front of the bytes is to spell an item. Of others nothing is promised.
pub fn first_map(bytes: &[u8], label: u64) -> Option<FrontMap<'_>>
    // None is the answer where the item is no map.
    ensures other { (x : Item) (more : List ℕ) → IsInFront x bytes.now more → map_of x ≡ None → result ≡ None }
    // A map, its value under the label and what stands behind it are found.
    ensures found { (x : Item) (ps : List Pair) (more : List ℕ) → IsInFront x bytes.now more → map_of x ≡ Some ps → MatchOption result ⊥ (λ r. IsFrontMap label ps more r) }
{
    let Some((head, content)) = open_front(bytes) else {
        return None;
    };
    match head.kind {
        Kind::Map => pairs_first(head.argument, content, label),
        _ => None,
    }
}
