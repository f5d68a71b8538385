ghost use Rattle.std.specs.Prelude.{◌≡◌, ℕ, [], ◌<◌, ◌-◌, take, length, IfOk};
ghost use Rattle.cbor_heads.specs.Place.{start};
ghost use Rattle.cbor_heads.specs.Reading.{Follows, inside};
ghost use Rattle.cbor_core.specs.declared.item.Item.{Item};
ghost use Rattle.cbor_core.specs.Spelling.{bytes_below, Spells};
ghost use Rattle.cbor_core.specs.Law.{SpellsFront, IsFaulty, IsFaultyWhole};
ghost use Rattle.cbor_heads.specs.declared.fault.Fault.{Fault};
ghost use Rattle.cbor_core.specs.Reading.{fault_in, Decodes, IsFound, IsRefused, items_at, item_at, item_by, array_at, tag_at, bytes_at, text_at, simple, map_at, pairs_at};

use crate::fault::CborFault;
use crate::item::{Item, Pair};
use base_types::{Boxed, CBOR_DEPTH_LIMIT, List, Octets, Utf8};
use cbor_heads::{Fault, Input, Kind, Why, read_head};
use std::alloc::Global;

/// The answer that names a fault.
fn bad(at: usize, why: Why) -> CborFault
    ensures { result ≡ CborFault.Bad (record { at = at; why = why }) }
{
    CborFault::Bad(Fault { at, why })
}

/// The item of a simple value that is known.
fn simple_item(n: u64) -> Item
    ensures { result ≡ simple n }
{
    match n {
        20 => Item::Truth(false),
        21 => Item::Truth(true),
        _ => Item::Null,
    }
}

/// Reads the n bytes of the byte string that began at a place.
#[tactic(auto, unfolding(crate::specs::Reading::part))]
fn read_bytes(alloc: Global, input: &mut Input<'_>, at: usize, n: u64) -> Result<Item, CborFault>
    ensures { Follows fault_in (bytes_at at n input.old) result input.new }
{
    let n = n as usize;
    if input.len() < n {
        return Err(bad(at, Why::CutBody));
    }
    let bytes = input.take(n);
    Ok(Item::Bytes(Octets::from_slice(alloc, bytes)?))
}

/// Reads the n bytes of the text that began at a place.
#[tactic(auto, using(cbor_heads::proofs::Public::Texts::texts), unfolding(crate::specs::Reading::part))]
fn read_text(alloc: Global, input: &mut Input<'_>, at: usize, n: u64) -> Result<Item, CborFault>
    ensures { Follows fault_in (text_at at n input.old) result input.new }
{
    let n = n as usize;
    if input.len() < n {
        return Err(bad(at, Why::CutBody));
    }
    let bytes = input.take(n);
    match str::from_utf8(bytes) {
        Ok(text) => Ok(Item::Text(Utf8::from_str(alloc, text)?)),
        Err(_) => Err(bad(at, Why::BadText)),
    }
}

/// Reads an item inside which so many containers may still stand. It is put into its callers, so that
/// its answer does not go through memory.
#[cycle(reader)]
#[inline(always)]
#[tactic(auto, using(cbor_heads::proofs::Public::Depths::depths))]
fn read_item(alloc: Global, depth: u8, input: &mut Input<'_>) -> Result<Item, CborFault>
    ensures { Follows fault_in (item_at depth input.old) result input.new }
{
    let at = input.at();
    let head = read_head(input)?;
    let n = head.argument;
    match head.kind {
        Kind::Unsigned => Ok(Item::Unsigned(n)),
        Kind::Negative => Ok(Item::Negative(n)),
        Kind::Bytes => read_bytes(alloc, input, at, n),
        Kind::Text => read_text(alloc, input, at, n),
        Kind::Array => read_array(alloc, depth, input, at, n),
        Kind::Map => read_map(alloc, depth, input, at, n),
        Kind::Tag => read_tag(alloc, depth, input, at, n),
        Kind::Simple => Ok(simple_item(n)),
    }
}

/// Reads the n members of the array that began at a place.
#[cycle(reader)]
#[tactic(auto, using(cbor_heads::proofs::Public::Depths::depths))]
fn read_array(
    alloc: Global,
    depth: u8,
    input: &mut Input<'_>,
    at: usize,
    n: u64,
) -> Result<Item, CborFault>
    ensures { Follows fault_in (array_at (inside item_by depth) at n input.old) result input.new }
{
    if depth == 0 {
        return Err(bad(at, Why::TooDeep));
    }
    let items = read_items(alloc, depth - 1, input, n)?;
    Ok(Item::Array(items))
}

/// Reads the item that the tag n, which began at a place, is put on.
#[cycle(reader)]
#[tactic(auto, using(cbor_heads::proofs::Public::Depths::depths))]
fn read_tag(
    alloc: Global,
    depth: u8,
    input: &mut Input<'_>,
    at: usize,
    n: u64,
) -> Result<Item, CborFault>
    ensures { Follows fault_in (tag_at (inside item_by depth) at n input.old) result input.new }
{
    if depth == 0 {
        return Err(bad(at, Why::TooDeep));
    }
    let item = read_item(alloc, depth - 1, input)?;
    Ok(Item::Tag(n, Boxed::new(alloc, item)?))
}

/// How many places are kept for the parts of a container before they are read: all, unless there are
/// more than 1,024, so that a head alone takes little memory.
fn first_room(n: u64) -> usize {
    n.min(1024) as usize
}

/// Reads n items, one behind the other.
#[cycle(reader)]
fn read_items(
    alloc: Global,
    depth: u8,
    input: &mut Input<'_>,
    n: u64,
) -> Result<List<Item>, CborFault>
    ensures { Follows fault_in (items_at (item_at depth) n [] input.old) result input.new }
{
    let mut found = Vec::with_capacity(alloc, first_room(n))?;
    for _ in 0..n {
        found.push(read_item(alloc, depth, input)?)?;
    }
    Ok(List::from_vec(found))
}

/// Reads the n pairs of the map that began at a place.
#[cycle(reader)]
#[tactic(auto, using(cbor_heads::proofs::Public::Depths::depths))]
fn read_map(
    alloc: Global,
    depth: u8,
    input: &mut Input<'_>,
    at: usize,
    n: u64,
) -> Result<Item, CborFault>
    ensures { Follows fault_in (map_at (inside item_by depth) at n input.old) result input.new }
{
    if depth == 0 {
        return Err(bad(at, Why::TooDeep));
    }
    let pairs = read_pairs(alloc, depth - 1, input, n)?;
    Ok(Item::Map(pairs))
}

/// Whether an encoding stands before another, byte by byte (RFC 8949, section 4.2.1).
fn is_below(a: &[u8], b: &[u8]) -> bool
    ensures { result ≡ bytes_below a.now b.now }
{
    a.cmp(&b).is_lt()
}

/// Of the bytes that were left earlier, those that were read since.
fn read_since<'a>(before: &'a [u8], input: &Input<'_>) -> &'a [u8]
    ensures { result.now ≡ take (length before.now - length input.now.rest) before.now }
{
    &before[..before.len().saturating_sub(input.len())]
}

/// Reads n pairs, one behind the other. A key that is not above the one before is refused before its
/// value is looked at.
#[cycle(reader)]
fn read_pairs(
    alloc: Global,
    depth: u8,
    input: &mut Input<'_>,
    n: u64,
) -> Result<List<Pair>, CborFault>
    ensures { Follows fault_in (pairs_at (item_at depth) n [] [] input.old) result input.new }
{
    let mut found = Vec::with_capacity(alloc, first_room(n))?;
    let mut last: &[u8] = &[];
    for _ in 0..n {
        let at = input.at();
        let before = input.rest();
        let key = read_item(alloc, depth, input)?;
        let spelled = read_since(before, input);
        if !is_below(last, spelled) {
            return Err(bad(at, Why::KeyOrder));
        }
        let value = read_item(alloc, depth, input)?;
        found.push(Pair { key, value })?;
        last = spelled;
    }
    Ok(List::from_vec(found))
}

/// Reads the item that begins at the first byte, and how many bytes it takes.
fn read_front(alloc: Global, bytes: &[u8]) -> Result<(Item, usize), CborFault>
    ensures { Decodes (item_at CBOR_DEPTH_LIMIT (start bytes.now)) result }
{
    let mut input = Input::new(bytes);
    let item = read_item(alloc, CBOR_DEPTH_LIMIT, &mut input)?;
    Ok((item, input.at()))
}

/// Reads the one item that a front of the bytes spells (RFC 8949, section 4.2.1), and how many bytes
/// it takes. What stands behind them is not looked at.
///
/// `Bad` names the first fault: of an item, the rules about its head and what the head announces come
/// first, in their order, and then its parts from left to right. `NoMemory` may come for any bytes.
/// The work is linear in the bytes that are read, and nothing recurses deeper than 16 containers.
pub fn decode(alloc: Global, bytes: &[u8]) -> Result<(Item, usize), CborFault>
    // What is found is spelled by that many bytes.
    ensures found { IfOk result (λ x. SpellsFront bytes.now x.0 x.1) }
    // What a front of the bytes spells is found, unless memory runs out.
    ensures only { (x : Item) (n : ℕ) → SpellsFront bytes.now x n → IsFound result (x, n) }
    // The answer Bad names a fault that the bytes have.
    ensures bad { (f : Fault) → result ≡ Err (CborFault.Bad f) → IsFaulty bytes.now f }
    // A fault that the bytes have is the answer, unless memory runs out.
    ensures refused { (f : Fault) → IsFaulty bytes.now f → IsRefused result f }
{
    read_front(alloc, bytes)
}

/// Reads the one item that all the bytes spell (RFC 8949, section 4.2.1).
///
/// `Bad` names the first fault as `decode` does, or Extra at the first byte behind the item.
/// `NoMemory` may come for any bytes.
pub fn decode_whole(alloc: Global, bytes: &[u8]) -> Result<Item, CborFault>
    // What is found is spelled by the bytes.
    ensures found { IfOk result (λ x. Spells x bytes.now) }
    // What the bytes spell is found, unless memory runs out.
    ensures only { (x : Item) → Spells x bytes.now → IsFound result x }
    // The answer Bad names a fault that the bytes have as a whole.
    ensures bad { (f : Fault) → result ≡ Err (CborFault.Bad f) → IsFaultyWhole bytes.now f }
    // A fault that the bytes have as a whole is the answer, unless memory runs out.
    ensures refused { (f : Fault) → IsFaultyWhole bytes.now f → IsRefused result f }
{
    let (item, n) = decode(alloc, bytes)?;
    if n < bytes.len() {
        return Err(bad(n, Why::Extra));
    }
    Ok(item)
}
