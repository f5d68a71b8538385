// The head and the body of a message, off a connection.
ghost use Rattle.std.specs.Prelude.{◌≡◌, ◌↔◌, ◌<◌, [], ◌∷◌, IsTrue, MatchOption};
ghost use Rattle.base_types.specs.Causes.{HasCause, CausedBy};
ghost use Rattle.outside_core.specs.Stream.{Took};
ghost use Rattle.http_wire.specs.Ends.{Ends, EndsInEmptyLine};
ghost use Rattle.http_wire.specs.Parts.{Heads, Bodies, ReadsByte};

use base_types::{Failed, Octets, zeros};
use frames::{Budget, Fill, fill_from};
use http_link::Link;
use std::alloc::Global;

/// The longest head of a message, in bytes.
pub const HEAD_LIMIT: usize = 8_192;

/// Why a head or a body did not come whole.
#[derive(Clone, Copy, Debug, Eq, PartialEq)]
pub enum PartFault {
    /// The input ended before.
    Cut,
    LinkFault,
    NoMemory,
}

// Whether these stand at the end of the bytes.
fn ends_with(bytes: &[u8], end: &[u8]) -> bool
    ensures { IsTrue result ↔ Ends bytes.now end.now }
{
    bytes.ends_with(end)
}

// Whether the bytes end in an empty line.
fn ends_in_empty_line(bytes: &[u8]) -> bool
    ensures { IsTrue result ↔ EndsInEmptyLine bytes.now }
{
    ends_with(bytes, b"\n\n") || ends_with(bytes, b"\n\r\n")
}

// The next byte, and None where the input has ended.
fn read_byte<L: Link>(link: &mut L) -> Result<Option<u8>, Failed>
    ensures read { L.told → ReadsByte result (L.stream link.old) (L.stream link.new) }
    ensures cause { HasCause (L.faults link.old) (L.faults link.new) result }
    ensures keeps { L.keeps link.old link.new }
{
    let mut byte = [0u8; 1];
    match link.read(&mut byte) {
        Ok(0) => Ok(None),
        Ok(_) => Ok(Some(byte[0])),
        Err(fault) => Err(fault),
    }
}

/// Takes a head, up to and with its empty line, byte by byte, and no byte behind it.
///
/// None where no head ends within the longest one, of which all bytes are taken then.
pub fn read_head<L: Link>(alloc: Global, link: &mut L) -> Result<Option<Octets>, PartFault>
    ensures head { L.told → Heads (L.stream link.old) (L.stream link.new) result }
    ensures cause { CausedBy (result ≡ Err PartFault.LinkFault) (L.faults link.old) (L.faults link.new) }
    ensures keeps { L.keeps link.old link.new }
{
    let mut head = Octets::new(alloc);
    while head.len() < HEAD_LIMIT {
        match read_byte(link) {
            Ok(Some(byte)) => {
                if head.push(byte).is_err() {
                    return Err(PartFault::NoMemory);
                }
            }
            Ok(None) => return Err(PartFault::Cut),
            Err(_) => return Err(PartFault::LinkFault),
        }
        if ends_in_empty_line(head.as_slice()) {
            return Ok(Some(head));
        }
    }
    Ok(None)
}

/// Takes a body of so many bytes into one buffer, in pieces of any size, and no byte behind it.
pub fn read_body<L: Link>(alloc: Global, link: &mut L, size: usize) -> Result<Octets, PartFault>
    ensures body { L.told → Bodies size (L.stream link.old) (L.stream link.new) result }
    ensures cause { CausedBy (result ≡ Err PartFault.LinkFault) (L.faults link.old) (L.faults link.new) }
    ensures keeps { L.keeps link.old link.new }
{
    let Ok(mut body) = zeros(alloc, size) else {
        return Err(PartFault::NoMemory);
    };
    let mut budget = Budget::new(size as u64);
    match fill_from(link, &mut body, &mut budget) {
        Fill::Full => Ok(Octets::from_vec(body)),
        Fill::Ended(_) | Fill::Spent(_) => Err(PartFault::Cut),
        Fill::Failed(_) => Err(PartFault::LinkFault),
    }
}
