ghost use Rattle.std.specs.Prelude.{◌≡◌, ◌+◌, ◌<◌, ◌++◌, List, [], codes, decimal, string_bytes, IfOk, OnOk, if◌then◌else◌};
ghost use Rattle.std.specs.List.{flat_map};
ghost use Rattle.std.specs.Char.{encode_utf8};
ghost use Rattle.cbor_core.specs.Spelling.{IsProper};
ghost use Rattle.diag_text.specs.Printed.{hex_byte, escaped, listed, word, printed, pair_printed};
ghost use Rattle.diag_text.specs.Printing.{before};

use crate::hex::hex_code;
use base_types::{OrMemory, Utf8};
use cbor_core::{Item, Pair};
use itoa::Buffer;
use std::alloc::Global;

/// Writes a byte in two hexadecimal digits.
fn push_hex(out: &mut String, byte: u8) -> OrMemory<()>
    ensures { OnOk result (string_bytes out.new ≡ string_bytes out.old ++ hex_byte byte) }
{
    out.push(hex_code(byte / 16) as char)?;
    out.push(hex_code(byte % 16) as char)?;
    Ok(())
}

/// Writes bytes, each in two hexadecimal digits.
fn push_bytes(out: &mut String, bytes: &[u8]) -> OrMemory<()>
    ensures { OnOk result (string_bytes out.new ≡ string_bytes out.old ++ flat_map hex_byte bytes.now) }
{
    for byte in bytes {
        push_hex(out, *byte)?;
    }
    Ok(())
}

/// Writes a control character as an escape.
fn push_control(out: &mut String, code: u8) -> OrMemory<()>
    ensures { OnOk result (string_bytes out.new ≡ string_bytes out.old ++ (codes "\\u00" ++ hex_byte code)) }
{
    out.push_str("\\u00")?;
    push_hex(out, code)
}

/// Writes a character of a text, as an escape where it needs one.
#[tactic(auto, using(crate::proofs::Characters::characters))]
fn push_char(out: &mut String, c: char) -> OrMemory<()>
    ensures { OnOk result (string_bytes out.new ≡ string_bytes out.old ++ flat_map escaped (encode_utf8 c)) }
{
    let code = c as u32;
    if code == 34 {
        out.push_str("\\\"")?;
    } else if code == 92 {
        out.push_str("\\\\")?;
    } else if code < 32 || code == 127 {
        push_control(out, code as u8)?;
    } else {
        out.push(c)?;
    }
    Ok(())
}

/// Writes the characters of a text.
fn push_text(out: &mut String, text: &str) -> OrMemory<()>
    ensures { OnOk result (string_bytes out.new ≡ string_bytes out.old ++ flat_map escaped text.now) }
{
    for c in text.chars() {
        push_char(out, c)?;
    }
    Ok(())
}

/// Writes an unsigned number.
fn push_number(out: &mut String, n: u128) -> OrMemory<()>
    ensures { OnOk result (string_bytes out.new ≡ string_bytes out.old ++ decimal n) }
{
    let mut buffer = Buffer::new();
    out.push_str(buffer.format(n))?;
    Ok(())
}

/// Writes -1-n.
fn push_negative(out: &mut String, n: u64) -> OrMemory<()>
    ensures { OnOk result (string_bytes out.new ≡ string_bytes out.old ++ (codes "-" ++ decimal (n + 1))) }
{
    out.push_str("-")?;
    push_number(out, n as u128 + 1)
}

/// Writes a byte string: its bytes between `h'` and `'`.
fn push_byte_string(out: &mut String, bytes: &[u8]) -> OrMemory<()>
    ensures { OnOk result (string_bytes out.new ≡ string_bytes out.old ++ (codes "h'" ++ (flat_map hex_byte bytes.now ++ codes "'"))) }
{
    out.push_str("h'")?;
    push_bytes(out, bytes)?;
    out.push_str("'")?;
    Ok(())
}

/// Writes a text string: its characters between quotation marks.
fn push_text_string(out: &mut String, text: &str) -> OrMemory<()>
    ensures { OnOk result (string_bytes out.new ≡ string_bytes out.old ++ (codes "\"" ++ (flat_map escaped text.now ++ codes "\""))) }
{
    out.push_str("\"")?;
    push_text(out, text)?;
    out.push_str("\"")?;
    Ok(())
}

/// Writes `true` or `false`.
fn push_truth(out: &mut String, b: bool) -> OrMemory<()>
    ensures { OnOk result (string_bytes out.new ≡ string_bytes out.old ++ word b) }
{
    out.push_str(if b { "true" } else { "false" })?;
    Ok(())
}

/// Writes what stands before a part: nothing before the first, and else a comma and a space.
fn push_separator(out: &mut String, index: usize) -> OrMemory<()>
    ensures { OnOk result (string_bytes out.new ≡ string_bytes out.old ++ before index) }
{
    if index > 0 {
        out.push_str(", ")?;
    }
    Ok(())
}

/// Writes an item.
#[cycle(printer)]
#[tactic(auto, using(crate::proofs::Texts::prints))]
fn push_item(out: &mut String, item: &Item) -> OrMemory<()>
    ensures { OnOk result (string_bytes out.new ≡ string_bytes out.old ++ printed item.now) }
{
    match item {
        Item::Unsigned(n) => push_number(out, *n as u128),
        Item::Negative(n) => push_negative(out, *n),
        Item::Bytes(bytes) => push_byte_string(out, bytes.as_slice()),
        Item::Text(text) => push_text_string(out, text.as_str()),
        Item::Array(members) => push_array(out, members.as_slice()),
        Item::Map(pairs) => push_map(out, pairs.as_slice()),
        Item::Tag(n, content) => push_tag(out, *n, content.get()),
        Item::Truth(b) => push_truth(out, *b),
        Item::Null => {
            out.push_str("null")?;
            Ok(())
        }
    }
}

/// Writes an array.
#[cycle(printer)]
#[tactic(auto, using(crate::proofs::Texts::prints))]
fn push_array(out: &mut String, members: &[Item]) -> OrMemory<()>
    ensures { OnOk result (string_bytes out.new ≡ string_bytes out.old ++ printed (Item.Array members.now)) }
{
    out.push_str("[")?;
    push_members(out, members)?;
    out.push_str("]")?;
    Ok(())
}

/// Writes a map.
#[cycle(printer)]
#[tactic(auto, using(crate::proofs::Texts::prints))]
fn push_map(out: &mut String, pairs: &[Pair]) -> OrMemory<()>
    ensures { OnOk result (string_bytes out.new ≡ string_bytes out.old ++ printed (Item.Map pairs.now)) }
{
    out.push_str("{")?;
    push_pairs(out, pairs)?;
    out.push_str("}")?;
    Ok(())
}

/// Writes a tag and its content.
#[cycle(printer)]
#[tactic(auto, using(crate::proofs::Texts::prints))]
fn push_tag(out: &mut String, n: u64, content: &Item) -> OrMemory<()>
    ensures { OnOk result (string_bytes out.new ≡ string_bytes out.old ++ printed (Item.Tag n content.now)) }
{
    push_number(out, n as u128)?;
    out.push_str("(")?;
    push_item(out, content)?;
    out.push_str(")")?;
    Ok(())
}

/// Writes the members of an array.
#[cycle(printer)]
fn push_members(out: &mut String, members: &[Item]) -> OrMemory<()>
    ensures { OnOk result (string_bytes out.new ≡ string_bytes out.old ++ listed printed members.now) }
{
    for (index, member) in members.iter().enumerate() {
        push_separator(out, index)?;
        push_item(out, member)?;
    }
    Ok(())
}

/// Writes a key and its value.
#[cycle(printer)]
#[tactic(auto, using(crate::proofs::Texts::prints))]
fn push_pair(out: &mut String, pair: &Pair) -> OrMemory<()>
    ensures { OnOk result (string_bytes out.new ≡ string_bytes out.old ++ pair_printed pair.now) }
{
    push_item(out, &pair.key)?;
    out.push_str(": ")?;
    push_item(out, &pair.value)
}

/// Writes the pairs of a map.
#[cycle(printer)]
fn push_pairs(out: &mut String, pairs: &[Pair]) -> OrMemory<()>
    ensures { OnOk result (string_bytes out.new ≡ string_bytes out.old ++ listed pair_printed pairs.now) }
{
    for (index, pair) in pairs.iter().enumerate() {
        push_separator(out, index)?;
        push_pair(out, pair)?;
    }
    Ok(())
}

/// The one diagnostic text of a proper item (after RFC 8949, section 8): `{1: -1, "a": [true]}`.
///
/// Numbers are decimal, byte strings stand in lower-case hexadecimal between `h'` and `'`, texts in
/// quotation marks, where a quotation mark and a backslash have a backslash before them and control
/// characters are written `\u` and four hexadecimal digits. `cbor_core::is_proper` tells which items
/// are proper. Refused for want of memory alone.
pub fn print(alloc: Global, item: &Item) -> OrMemory<Utf8>
    requires { IsProper item.now }
    ensures { IfOk result (λ text. text ≡ printed item.now) }
{
    let mut out = String::new(alloc);
    push_item(&mut out, item)?;
    Ok(Utf8::from_string(out))
}
