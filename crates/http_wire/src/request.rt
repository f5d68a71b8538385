// A request off a connection.
ghost use Rattle.std.specs.Prelude.{◌≡◌};
ghost use Rattle.base_types.specs.Causes.{CausedBy};
ghost use Rattle.http_wire.specs.Behind.{AskedBehind};
ghost use Rattle.http_wire.specs.Requests.{Requested};

use crate::parts::{PartFault, read_body, read_head};
use crate::routes::Routes;
use crate::verdict::{Verdict, judge};
use base_types::{Octets, Utf8};
use http_link::Link;
use std::alloc::Global;
use thiserror::Error;

/// What a connection asks.
#[derive(Debug, Drop, Eq, PartialEq)]
pub enum Asked {
    /// A POST to its route, with this body.
    Post(Octets),
    /// A GET of this target.
    Get(Utf8),
}

/// Why no request was taken.
#[derive(Clone, Copy, Debug, Eq, Error, PartialEq)]
pub enum WireFault {
    /// The request is refused with this status.
    #[error("the request is refused with status {0}")]
    Refuse(u16),
    /// A read failed.
    #[error("the connection failed")]
    LinkFault,
    /// The input ended inside the request.
    #[error("the input ended inside a request")]
    Cut,
    #[error("no memory is left")]
    NoMemory,
}

impl From<PartFault> for WireFault {
    ghost use Rattle.http_wire.specs.Requests.{wire_fault};

    ghost from_gives = { λ fault result. result ≡ wire_fault fault };

    fn from(fault: PartFault) -> WireFault {
        match fault {
            PartFault::Cut => WireFault::Cut,
            PartFault::LinkFault => WireFault::LinkFault,
            PartFault::NoMemory => WireFault::NoMemory,
        }
    }
}

/// Takes one request off a connection, and no byte behind it (RFC 9112).
///
/// A head has at most 8,192 bytes and 32 fields. `Refuse` by the first of these rows that holds; the
/// last four are looked at for the POST route alone:
///
/// - 400: no head ends within 8,192 bytes, which are taken then; or the head is none of the grammar; or
///   its Content-Length is repeated or not 1 to 18 digits
/// - 404: the target is none of the routes
/// - 405: the target takes another method
/// - 411: there is no Content-Length
/// - 413: it is above 2^24
/// - 415: it is above 0, and the first Content-Type up to a `;` is not `application/teep+cbor`
/// - 501: there is a Transfer-Encoding
///
/// `Cut` where the input ends inside the request, `LinkFault` exactly where the count of failed calls
/// rose, and `NoMemory` where no room is found. A body is taken into one buffer, and none is made for
/// one that is refused.
pub fn read_request<L: Link>(
    alloc: Global,
    link: &mut L,
    routes: &Routes,
) -> Result<Asked, WireFault>
    ensures request { L.told → Requested routes.now (L.stream link.old) (L.stream link.new) result }
    ensures cause { CausedBy (result ≡ Err WireFault.LinkFault) (L.faults link.old) (L.faults link.new) }
    ensures keeps { L.keeps link.old link.new }
{
    match read_head(alloc, link) {
        Ok(Some(head)) => behind_head(alloc, link, routes, head.as_slice()),
        Ok(None) => Err(WireFault::Refuse(400)),
        Err(fault) => Err(WireFault::from(fault)),
    }
}

// Takes what a head asks for.
fn behind_head<L: Link>(
    alloc: Global,
    link: &mut L,
    routes: &Routes,
    head: &[u8],
) -> Result<Asked, WireFault>
    ensures request { L.told → AskedBehind routes.now head.now (L.stream link.old) (L.stream link.new) result }
    ensures cause { CausedBy (result ≡ Err WireFault.LinkFault) (L.faults link.old) (L.faults link.new) }
    ensures keeps { L.keeps link.old link.new }
{
    match judge(alloc, routes, head) {
        Ok(Verdict::Takes(size)) => match read_body(alloc, link, size as usize) {
            Ok(body) => Ok(Asked::Post(body)),
            Err(fault) => Err(WireFault::from(fault)),
        },
        Ok(Verdict::Gets(path)) => Ok(Asked::Get(path)),
        Ok(Verdict::Refused(status)) => Err(WireFault::Refuse(status)),
        Err(_) => Err(WireFault::NoMemory),
    }
}
