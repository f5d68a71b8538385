ghost use Rattle.std.specs.Prelude.{◌≡◌, ◌↔◌, ◌-◌, ℕ, [], length, take};
ghost use Rattle.cbor_heads.specs.Place.{start};
ghost use Rattle.cbor_heads.specs.Reading.{inside};
ghost use Rattle.cbor_heads.specs.declared.fault.Fault.{Fault};
ghost use Rattle.cbor_core.specs.Spelling.{bytes_below};
ghost use Rattle.cbor_core.specs.Law.{IsFaulty, IsFaultyWhole};
ghost use Rattle.cbor_core.specs.Reading.{content, items_at, item_at, item_by, array_at, tag_at, bytes_at, text_at, map_at, pairs_at};
ghost use Rattle.cbor_span.specs.Ending.{EndsSo, LengthIs};
ghost use Rattle.cbor_span.specs.Span.{IsSpan, IsItem};

use base_types::CBOR_DEPTH_LIMIT;
use cbor_heads::{Fault, Head, Input, Kind, Why, read_head};

/// The answer that names a fault.
fn fault(at: usize, why: Why) -> Fault
    ensures { result ≡ record { at = at; why = why } }
{
    Fault { at, why }
}

/// Goes over the n bytes of the byte string that began at a place.
#[tactic(auto, unfolding(cbor_core::specs::Reading::part))]
fn skip_bytes(input: &mut Input<'_>, at: usize, n: u64) -> Result<(), Fault>
    ensures { EndsSo (bytes_at at n input.old) result input.new }
{
    let n = n as usize;
    if input.len() < n {
        return Err(fault(at, Why::CutBody));
    }
    input.take(n);
    Ok(())
}

/// Goes over the n bytes of the text that began at a place.
#[tactic(auto, using(cbor_heads::proofs::Public::Texts::texts), unfolding(cbor_core::specs::Reading::part))]
fn skip_text(input: &mut Input<'_>, at: usize, n: u64) -> Result<(), Fault>
    ensures { EndsSo (text_at at n input.old) result input.new }
{
    let n = n as usize;
    if input.len() < n {
        return Err(fault(at, Why::CutBody));
    }
    let bytes = input.take(n);
    match str::from_utf8(bytes) {
        Ok(_) => Ok(()),
        Err(_) => Err(fault(at, Why::BadText)),
    }
}

/// Goes over what stands behind the head of an item that began at a place, and inside which so many
/// containers may still stand.
#[cycle(walk)]
#[inline(always)]
#[tactic(auto, using(cbor_heads::proofs::Public::Depths::depths))]
pub fn skip_content(depth: u8, input: &mut Input<'_>, at: usize, head: Head) -> Result<(), Fault>
    ensures { EndsSo (content (inside item_by depth) at head.kind head.argument input.old) result input.new }
{
    let n = head.argument;
    match head.kind {
        Kind::Unsigned => Ok(()),
        Kind::Negative => Ok(()),
        Kind::Bytes => skip_bytes(input, at, n),
        Kind::Text => skip_text(input, at, n),
        Kind::Array => skip_array(depth, input, at, n),
        Kind::Map => skip_map(depth, input, at, n),
        Kind::Tag => skip_tag(depth, input, at, n),
        Kind::Simple => Ok(()),
    }
}

/// Goes over an item inside which so many containers may still stand. It is put into its callers, so
/// that a head of one byte costs no call.
#[cycle(walk)]
#[inline(always)]
#[tactic(auto, using(cbor_heads::proofs::Public::Depths::depths))]
fn skip_item(depth: u8, input: &mut Input<'_>) -> Result<(), Fault>
    ensures { EndsSo (item_at depth input.old) result input.new }
{
    let at = input.at();
    let head = read_head(input)?;
    skip_content(depth, input, at, head)
}

/// Goes over the n members of the array that began at a place.
#[cycle(walk)]
#[tactic(auto, using(cbor_heads::proofs::Public::Depths::depths, crate::proofs::Endings::wrapped))]
fn skip_array(depth: u8, input: &mut Input<'_>, at: usize, n: u64) -> Result<(), Fault>
    ensures { EndsSo (array_at (inside item_by depth) at n input.old) result input.new }
{
    if depth == 0 {
        return Err(fault(at, Why::TooDeep));
    }
    skip_items(depth - 1, input, n)
}

/// Goes over the item that the tag n, which began at a place, is put on.
#[cycle(walk)]
#[tactic(auto, using(cbor_heads::proofs::Public::Depths::depths, crate::proofs::Endings::wrapped))]
fn skip_tag(depth: u8, input: &mut Input<'_>, at: usize, n: u64) -> Result<(), Fault>
    ensures { EndsSo (tag_at (inside item_by depth) at n input.old) result input.new }
{
    if depth == 0 {
        return Err(fault(at, Why::TooDeep));
    }
    skip_item(depth - 1, input)
}

/// Goes over n items, one behind the other.
#[cycle(walk)]
fn skip_items(depth: u8, input: &mut Input<'_>, n: u64) -> Result<(), Fault>
    ensures { EndsSo (items_at (item_at depth) n [] input.old) result input.new }
{
    for _ in 0..n {
        skip_item(depth, input)?;
    }
    Ok(())
}

/// Goes over the n pairs of the map that began at a place.
#[cycle(walk)]
#[tactic(auto, using(cbor_heads::proofs::Public::Depths::depths, crate::proofs::Endings::wrapped))]
fn skip_map(depth: u8, input: &mut Input<'_>, at: usize, n: u64) -> Result<(), Fault>
    ensures { EndsSo (map_at (inside item_by depth) at n input.old) result input.new }
{
    if depth == 0 {
        return Err(fault(at, Why::TooDeep));
    }
    skip_pairs(depth - 1, input, n)
}

/// Whether an encoding stands before another, byte by byte (RFC 8949, section 4.2.1).
fn is_below(a: &[u8], b: &[u8]) -> bool
    ensures { result ≡ bytes_below a.now b.now }
{
    a.cmp(&b).is_lt()
}

/// Of the bytes that were left earlier, those that were read since.
pub fn read_since<'a>(before: &'a [u8], input: &Input<'_>) -> &'a [u8]
    ensures { result.now ≡ take (length before.now - length input.now.rest) before.now }
{
    &before[..before.len().saturating_sub(input.len())]
}

/// Goes over n pairs, one behind the other. A key that is not above the one before is refused before
/// its value is looked at. The keys are compared where they stand.
#[cycle(walk)]
fn skip_pairs(depth: u8, input: &mut Input<'_>, n: u64) -> Result<(), Fault>
    ensures { EndsSo (pairs_at (item_at depth) n [] [] input.old) result input.new }
{
    let mut last: &[u8] = &[];
    for _ in 0..n {
        let at = input.at();
        let before = input.rest();
        skip_item(depth, input)?;
        let spelled = read_since(before, input);
        if !is_below(last, spelled) {
            return Err(fault(at, Why::KeyOrder));
        }
        skip_item(depth, input)?;
        last = spelled;
    }
    Ok(())
}

/// How far the item goes that begins at the first byte.
fn front(bytes: &[u8]) -> Result<usize, Fault>
    ensures { LengthIs (item_at CBOR_DEPTH_LIMIT (start bytes.now)) result }
{
    let mut input = Input::new(bytes);
    skip_item(CBOR_DEPTH_LIMIT, &mut input)?;
    Ok(input.at())
}

/// How many bytes spell the one item that a front of the bytes spells (RFC 8949, section 4.2.1). What
/// stands behind them is not looked at.
///
/// The refusal names the first fault, and its place in bytes from the start, as `decode` does. No
/// memory is taken, so there is no other. The work is linear in the bytes that are read, and nothing
/// recurses deeper than 16 containers.
pub fn span(bytes: &[u8]) -> Result<usize, Fault>
    // The answer is a number exactly where so many bytes spell an item.
    ensures found { (n : ℕ) → result ≡ Ok n ↔ IsSpan bytes.now n }
    // The answer is a fault exactly where the bytes have it.
    ensures refused { (f : Fault) → result ≡ Err f ↔ IsFaulty bytes.now f }
{
    front(bytes)
}

/// Whether all the bytes spell one item (RFC 8949, section 4.2.1).
///
/// The refusal names the first fault as `span` does, or Extra at the first byte behind the item, as
/// `decode_whole` does. No memory is taken, so there is no other.
pub fn check_whole(bytes: &[u8]) -> Result<(), Fault>
    // The answer is Ok exactly where the bytes spell an item.
    ensures found { (result ≡ Ok tt) ↔ IsItem bytes.now }
    // The answer is a fault exactly where the bytes have it as a whole.
    ensures refused { (f : Fault) → result ≡ Err f ↔ IsFaultyWhole bytes.now f }
{
    let n = span(bytes)?;
    if n < bytes.len() {
        return Err(fault(n, Why::Extra));
    }
    Ok(())
}
