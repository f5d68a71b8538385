ghost use Rattle.std.specs.Prelude.{◌≡◌, ◌↔◌, ◌≤◌, ℕ, List, [], true, length, slice_range, drop, IsTrue, IfOk};
ghost use Rattle.std.specs.List.{AllByRecursion};
ghost use Rattle.cbor_core.specs.Spelling.{spelling, spellings, pair_spellings, bytes_below, IsProper, IsProperWithin, IsSpellable, Spells};
ghost use Rattle.cbor_core.specs.Writing.{Writes, PairsAre};

use crate::item::{Item, Pair};
use base_types::{CBOR_DEPTH_LIMIT, Octets, OrMemory};
use cbor_heads::Writer;
use std::alloc::Global;

/// Whether the bytes from a place on are above those between two places before it.
fn is_above(out: &[u8], last_start: usize, last_end: usize, start: usize) -> bool
    requires last { last_start ≤ last_end }
    requires before { last_end ≤ start }
    requires within { start ≤ length out.now }
    ensures { result ≡ bytes_below (slice_range out.now last_start last_end) (drop start out.now) }
{
    let last = &out[last_start..last_end];
    let bytes = &out[start..];
    last.cmp(&bytes).is_lt()
}

/// Writes an item inside which so many containers may still stand. The answer is false exactly where
/// it is not proper, and what was written is of no use then.
#[cycle(writer)]
fn push_item(out: &mut Writer, depth: u8, item: &Item) -> OrMemory<bool>
    ensures { Writes result (IsSpellable depth item.now) (IsProperWithin depth item.now) out.old (spelling item.now) out.new }
{
    match item {
        Item::Unsigned(n) => out.unsigned(*n)?,
        Item::Negative(n) => out.negative(*n)?,
        Item::Bytes(bytes) => out.bytes(bytes.as_slice())?,
        Item::Text(text) => out.text(text.as_str())?,
        Item::Array(members) => return push_array(out, depth, members.as_slice()),
        Item::Map(pairs) => return push_map(out, depth, pairs.as_slice()),
        Item::Tag(n, content) => return push_tag(out, depth, *n, content.get()),
        Item::Truth(b) => out.truth(*b)?,
        Item::Null => out.null()?,
    }
    Ok(true)
}

/// Writes an array. It is refused where no container may stand.
#[cycle(writer)]
fn push_array(out: &mut Writer, depth: u8, members: &[Item]) -> OrMemory<bool>
    ensures { Writes result (IsSpellable depth (Item.Array members.now)) (IsProperWithin depth (Item.Array members.now)) out.old (spelling (Item.Array members.now)) out.new }
{
    if depth == 0 {
        return Ok(false);
    }
    out.array(members.len() as u64)?;
    push_items(out, depth - 1, members)
}

/// Writes a map. It is refused where no container may stand.
#[cycle(writer)]
fn push_map(out: &mut Writer, depth: u8, pairs: &[Pair]) -> OrMemory<bool>
    ensures { Writes result (IsSpellable depth (Item.Map pairs.now)) (IsProperWithin depth (Item.Map pairs.now)) out.old (spelling (Item.Map pairs.now)) out.new }
{
    if depth == 0 {
        return Ok(false);
    }
    out.map(pairs.len() as u64)?;
    push_pairs(out, depth - 1, pairs)
}

/// Writes a tag and its content. It is refused where no container may stand.
#[cycle(writer)]
fn push_tag(out: &mut Writer, depth: u8, n: u64, content: &Item) -> OrMemory<bool>
    ensures { Writes result (IsSpellable depth (Item.Tag n content.now)) (IsProperWithin depth (Item.Tag n content.now)) out.old (spelling (Item.Tag n content.now)) out.new }
{
    if depth == 0 {
        return Ok(false);
    }
    out.tag(n)?;
    push_item(out, depth - 1, content)
}

/// Writes items, one behind the other.
#[cycle(writer)]
fn push_items(out: &mut Writer, depth: u8, items: &[Item]) -> OrMemory<bool>
    ensures { Writes result (AllByRecursion (IsSpellable depth) items.now) (AllByRecursion (IsProperWithin depth) items.now) out.old (spellings items.now) out.new }
{
    for item in items {
        if !push_item(out, depth, item)? {
            return Ok(false);
        }
    }
    Ok(true)
}

/// Writes a key that is to be above the last one, whose encoding stands between two places.
#[cycle(writer)]
fn push_key(
    out: &mut Writer,
    depth: u8,
    last_start: usize,
    last_end: usize,
    key: &Item,
) -> OrMemory<bool>
    requires last { last_start ≤ last_end }
    requires within { last_end ≤ length out.old }
    ensures { Writes result
        (IsSpellable depth key.now × (bytes_below (slice_range out.old last_start last_end) (spelling key.now) ≡ true))
        (IsProperWithin depth key.now × (bytes_below (slice_range out.old last_start last_end) (spelling key.now) ≡ true))
        out.old (spelling key.now) out.new }
{
    let start = out.len();
    if !push_item(out, depth, key)? {
        return Ok(false);
    }
    Ok(is_above(out.as_slice(), last_start, last_end, start))
}

/// Writes pairs, one behind the other, whose keys are to ascend. Each key's encoding is compared where
/// it was written.
#[cycle(writer)]
fn push_pairs(out: &mut Writer, depth: u8, pairs: &[Pair]) -> OrMemory<bool>
    ensures { Writes result (PairsAre (IsSpellable depth) [] pairs.now) (PairsAre (IsProperWithin depth) [] pairs.now) out.old (pair_spellings pairs.now) out.new }
{
    let mut last_start = out.len();
    let mut last_end = last_start;
    for pair in pairs {
        let start = out.len();
        if !push_key(out, depth, last_start, last_end, &pair.key)? {
            return Ok(false);
        }
        last_start = start;
        last_end = out.len();
        if !push_item(out, depth, &pair.value)? {
            return Ok(false);
        }
    }
    Ok(true)
}

/// The one encoding of a proper item (RFC 8949, section 4.2.1). `is_proper` tells which items are.
/// Refused for want of memory alone.
pub fn encode(alloc: Global, item: &Item) -> OrMemory<Octets>
    requires { IsProper item.now }
    ensures { IfOk result (λ bytes. Spells item.now bytes) }
{
    let mut out = Writer::new(alloc);
    let is_written = push_item(&mut out, CBOR_DEPTH_LIMIT, item)?;
    prove!(is_written);
    Ok(out.into_octets())
}

/// Whether an item is proper: at most 16 containers stand inside one another, and the keys of each
/// map ascend strictly by their encodings (RFC 8949, section 4.2.1). These are the items that some
/// bytes spell. It takes memory for one encoding of the item, and is refused for want of it alone.
pub fn is_proper(alloc: Global, item: &Item) -> OrMemory<bool>
    ensures answer { IfOk result (λ b. IsTrue b ↔ IsProper item.now) }
    // Some bytes spell a proper item.
    ensures spelled { IfOk result (λ b. IsTrue b → Spells item.now (spelling item.now)) }
    // Nothing spells any other.
    ensures unspelled { IfOk result (λ b. (bytes : List ℕ) → Spells item.now bytes → IsTrue b) }
{
    let mut scratch = Writer::new(alloc);
    push_item(&mut scratch, CBOR_DEPTH_LIMIT, item)
}
