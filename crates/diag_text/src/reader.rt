ghost use Rattle.std.specs.Prelude.{◌≡◌, ◌≤◌, ◌<◌, ◌^◌, ℕ, [], ◌∷◌, length, codes, IfOk, OnOk, IsOk, MatchResult, ◌↔◌, List};
ghost use Rattle.std.specs.Str.{IsUtf8, IsValidUpTo};
ghost use Rattle.cbor_heads.specs.Place.{start};
ghost use Rattle.cbor_core.specs.declared.item.Item.{Item};
ghost use Rattle.cbor_core.specs.declared.item.Pair.{Pair};
ghost use Rattle.cbor_core.specs.Faulty.{last_key};
ghost use Rattle.cbor_core.specs.Spelling.{spelling, bytes_below};
ghost use Rattle.diag_text.specs.declared.fault.TextFault.{TextFault};
ghost use Rattle.diag_text.specs.Printed.{Prints};
ghost use Rattle.cbor_heads.specs.Reading.{Follows, inside};
ghost use Rattle.diag_text.specs.Reading.{Decides, whole_at, string_at, inside_at, parts_at, member_at, key_at, pair_at, array_at, map_at, tag_at, number_or_tag, negative_at, plain_at, item_at, alone};
ghost use Rattle.diag_text.specs.Reading.{IsTextRead, IsTextRefused, place_in, item_by};
ghost use Rattle.diag_text.specs.Faulty.{TextFaulty};

use crate::fault::{DiagFault, TextFault};
use crate::scan::{bad, read_bytes, read_number, read_text};
use base_types::{Boxed, CBOR_DEPTH_LIMIT, List, Octets, Utf8};
use cbor_core::{Item, Pair, encode};
use cbor_heads::Input;
use std::alloc::Global;

/// Reads the text string that began at a place.
#[tactic(auto, using(cbor_heads::proofs::Public::Texts::texts))]
fn read_string(alloc: Global, input: &mut Input<'_>, at: usize) -> Result<Item, DiagFault>
    ensures { Follows place_in (string_at at input.old) result input.new }
{
    let found = read_text(alloc, input, at)?;
    match str::from_utf8(found.as_slice()) {
        Ok(text) => Ok(Item::Text(Utf8::from_str(alloc, text)?)),
        Err(_) => Err(bad(at)),
    }
}

/// Reads the negative number that began at a place, behind its `-`.
fn read_negative(input: &mut Input<'_>, at: usize) -> Result<Item, DiagFault>
    ensures { Follows place_in (negative_at at input.old) result input.new }
{
    let n = read_number(input, at, (1 << 64) + 1)?;
    if n == 0 {
        return Err(bad(at));
    }
    Ok(Item::Negative((n - 1) as u64))
}

/// Reads an item inside which so many containers may still stand.
#[cycle(reader)]
#[tactic(auto, using(cbor_heads::proofs::Public::Depths::depths))]
fn read_item(alloc: Global, depth: u8, input: &mut Input<'_>) -> Result<Item, DiagFault>
    requires { depth ≤ 16 }
    ensures { Follows place_in (item_at depth input.old) result input.new }
{
    let at = input.at();
    if input.token(b"true") {
        return Ok(Item::Truth(true));
    }
    if input.token(b"false") {
        return Ok(Item::Truth(false));
    }
    if input.token(b"null") {
        return Ok(Item::Null);
    }
    if input.token(b"h'") {
        return Ok(Item::Bytes(read_bytes(alloc, input, at)?));
    }
    if input.token(b"\"") {
        return read_string(alloc, input, at);
    }
    if input.token(b"[") {
        return read_array(alloc, depth, input, at);
    }
    if input.token(b"{") {
        return read_map(alloc, depth, input, at);
    }
    if input.token(b"-") {
        return read_negative(input, at);
    }
    read_plain(alloc, depth, input, at)
}

/// Reads a number, or a tag where a bracket stands behind it.
#[cycle(reader)]
fn read_plain(alloc: Global, depth: u8, input: &mut Input<'_>, at: usize) -> Result<Item, DiagFault>
    requires depth { depth ≤ 16 }
    requires at { at ≡ input.old.at }
    ensures { Follows place_in (plain_at (inside item_by depth) input.old) result input.new }
{
    let n = read_number(input, at, 1 << 64)? as u64;
    if input.token(b"(") {
        return read_tag(alloc, depth, input, at, n);
    }
    Ok(Item::Unsigned(n))
}

/// Reads the content of the tag n, which began at a place, and the bracket behind it.
#[cycle(reader)]
#[tactic(auto, using(cbor_heads::proofs::Public::Depths::depths))]
fn read_tag(
    alloc: Global,
    depth: u8,
    input: &mut Input<'_>,
    at: usize,
    n: u64,
) -> Result<Item, DiagFault>
    requires { depth ≤ 16 }
    ensures { Follows place_in (tag_at (inside item_by depth) at n input.old) result input.new }
{
    if depth == 0 {
        return Err(bad(at));
    }
    let content = read_item(alloc, depth - 1, input)?;
    if !input.token(b")") {
        return Err(bad(input.at()));
    }
    Ok(Item::Tag(n, Boxed::new(alloc, content)?))
}

/// Reads the array that began at a place, behind its `[`.
#[cycle(reader)]
#[tactic(auto, using(cbor_heads::proofs::Public::Depths::depths))]
fn read_array(alloc: Global, depth: u8, input: &mut Input<'_>, at: usize) -> Result<Item, DiagFault>
    requires { depth ≤ 16 }
    ensures { Follows place_in (array_at (inside item_by depth) at input.old) result input.new }
{
    if depth == 0 {
        return Err(bad(at));
    }
    if input.token(b"]") {
        return Ok(Item::Array(List::new(alloc)));
    }
    Ok(Item::Array(read_members(alloc, depth - 1, input)?))
}

/// Reads the members of an array, up to its `]`.
#[cycle(reader)]
fn read_members(alloc: Global, depth: u8, input: &mut Input<'_>) -> Result<List<Item>, DiagFault>
    requires { depth ≤ 16 }
    ensures { Follows place_in (parts_at (member_at (item_at depth)) (codes "]") (length input.old.rest) [] input.old) result input.new }
{
    let mut found = List::new(alloc);
    for _ in 0..input.len() {
        found.push(read_item(alloc, depth, input)?)?;
        if input.token(b"]") {
            return Ok(found);
        }
        if !input.token(b", ") {
            return Err(bad(input.at()));
        }
    }
    Err(bad(input.at()))
}

/// Reads the map that began at a place, behind its `{`.
#[cycle(reader)]
#[tactic(auto, using(cbor_heads::proofs::Public::Depths::depths))]
fn read_map(alloc: Global, depth: u8, input: &mut Input<'_>, at: usize) -> Result<Item, DiagFault>
    requires { depth ≤ 16 }
    ensures { Follows place_in (map_at (inside item_by depth) at input.old) result input.new }
{
    if depth == 0 {
        return Err(bad(at));
    }
    if input.token(b"}") {
        return Ok(Item::Map(List::new(alloc)));
    }
    Ok(Item::Map(read_pairs(alloc, depth - 1, input)?))
}

/// Whether an encoding stands before another, byte by byte (RFC 8949, section 4.2.1).
fn is_below(a: &[u8], b: &[u8]) -> bool
    ensures { result ≡ bytes_below a.now b.now }
{
    a.cmp(&b).is_lt()
}

/// Reads a key, which is to be above the last one, and replaces that one's encoding by its own.
#[cycle(reader)]
fn read_key(
    alloc: Global,
    depth: u8,
    input: &mut Input<'_>,
    last: &mut Octets,
) -> Result<Item, DiagFault>
    requires { depth < 16 }
    ensures read { Follows place_in (key_at (item_at depth) last.old input.old) result input.new }
    ensures last { OnOk result (IfOk result (λ key. last.new ≡ spelling key)) }
{
    let at = input.at();
    let key = read_item(alloc, depth, input)?;
    let spelled = encode(alloc, &key)?;
    if !is_below(last.as_slice(), spelled.as_slice()) {
        return Err(bad(at));
    }
    *last = spelled;
    Ok(key)
}

/// Reads a key and its value.
#[cycle(reader)]
fn read_pair(
    alloc: Global,
    depth: u8,
    input: &mut Input<'_>,
    last: &mut Octets,
) -> Result<Pair, DiagFault>
    requires { depth < 16 }
    ensures read { (found : List Pair) → last.old ≡ last_key [] found → Follows place_in (pair_at (item_at depth) found input.old) result input.new }
    ensures last { IfOk result (λ pair. last.new ≡ spelling pair.key) }
{
    let key = read_key(alloc, depth, input, last)?;
    if !input.token(b": ") {
        return Err(bad(input.at()));
    }
    let value = read_item(alloc, depth, input)?;
    Ok(Pair { key, value })
}

/// Reads the pairs of a map, up to its `}`.
#[cycle(reader)]
fn read_pairs(alloc: Global, depth: u8, input: &mut Input<'_>) -> Result<List<Pair>, DiagFault>
    requires { depth < 16 }
    ensures { Follows place_in (parts_at (pair_at (item_at depth)) (codes "}") (length input.old.rest) [] input.old) result input.new }
{
    let mut found = List::new(alloc);
    let mut last = Octets::new(alloc);
    for _ in 0..input.len() {
        found.push(read_pair(alloc, depth, input, &mut last)?)?;
        if input.token(b"}") {
            return Ok(found);
        }
        if !input.token(b", ") {
            return Err(bad(input.at()));
        }
    }
    Err(bad(input.at()))
}

/// Reads the item that is all of the text.
fn read_alone(alloc: Global, text: &[u8]) -> Result<Item, DiagFault>
    ensures { Decides (whole_at text.now) result }
{
    let mut input = Input::new(text);
    let item = read_item(alloc, CBOR_DEPTH_LIMIT, &mut input)?;
    if input.len() > 0 {
        return Err(bad(input.at()));
    }
    Ok(item)
}

/// Reads the proper item whose one diagnostic text this is, as `print` writes it.
///
/// `Bad` comes exactly where the text has a fault, which is where no proper item has this text; it names
/// the place of the first one, in bytes from the start: that of a number, string or word that is not in
/// the written form or out of range, of a mark that is missing, cut short or out of place, of a
/// container inside sixteen others, or of a key that is not above the one before it. Where nothing is
/// left and more is needed it is the length of the text. `NoMemory` may come for any text. The work is
/// linear in the text, and nothing recurses deeper than 16 containers.
pub fn read(alloc: Global, text: &str) -> Result<Item, DiagFault>
    // What is found has this text.
    ensures found { IfOk result (λ x. Prints x text.now) }
    // The proper item that has this text is found, unless memory runs out.
    ensures only { (x : Item) → Prints x text.now → IsTextRead result x }
    // The answer Bad names the place of a fault of the text.
    ensures bad { (f : TextFault) → result ≡ Err (DiagFault.Bad f) → TextFaulty text.now f.at }
    // A fault of the text is the answer, unless memory runs out.
    ensures refused { (at : ℕ) → TextFaulty text.now at → IsTextRefused result at }
{
    read_alone(alloc, text.as_bytes())
}

/// The bytes of a file as a text that may be read. Refused exactly where they are not UTF-8; the fault
/// is placed behind the longest front of them that is.
pub fn text_of(bytes: &[u8]) -> Result<&str, TextFault>
    ensures text { MatchResult result (λ text. text.now ≡ bytes.now) (λ fault. IsValidUpTo bytes.now fault.at) }
    ensures utf8 { IsOk result ↔ IsUtf8 bytes.now }
{
    match str::from_utf8(bytes) {
        Ok(text) => Ok(text),
        Err(fault) => Err(TextFault {
            at: fault.valid_up_to(),
        }),
    }
}
