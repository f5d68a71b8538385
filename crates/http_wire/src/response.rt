// A response off a connection.
ghost use Rattle.std.specs.Prelude.{◌≡◌, map, IfOk, codes};
ghost use Rattle.base_types.specs.Causes.{CausedBy};
ghost use Rattle.httparse.specs.Borrowed.{header_parts};
ghost use Rattle.http_wire.specs.Fields.{values};
ghost use Rattle.http_wire.specs.Behind.{AnsweredBehind, Fulfilled};
ghost use Rattle.http_wire.specs.Responses.{Responded};
ghost use Rattle.http_wire.specs.Verdicts.{Announces, announcement, lower_media, media_of, body_size};

use crate::announced::Announced;
use crate::fields::{
    BodyLength, FIELDS_LIMIT, Values, content_length, values_of, without_parameters,
};
use crate::parts::{PartFault, read_body, read_head};
use crate::verdict::is_transfer_coded;
use base_types::{Octets, OrMemory, Utf8};
use http_link::Link;
use httparse::{EMPTY_HEADER, Header, Response, Status};
use std::alloc::Global;
use std::str;
use thiserror::Error;

/// A response.
#[derive(Debug, Drop, Eq, PartialEq)]
pub struct Answered {
    pub status: u16,
    /// The media type without its parameters, in lower case; empty where there is none.
    pub media: Utf8,
    pub body: Octets,
}

/// Why no response was taken.
#[derive(Clone, Copy, Debug, Eq, Error, PartialEq)]
pub enum ResponseFault {
    /// There is no good head.
    #[error("the response has no good head")]
    BadHead,
    /// The body is longer than the limit.
    #[error("the response is too long")]
    TooLong,
    /// The input ended inside the response.
    #[error("the input ended inside a response")]
    Cut,
    /// A read failed.
    #[error("the connection failed")]
    LinkFault,
    #[error("no memory is left")]
    NoMemory,
}

impl From<PartFault> for ResponseFault {
    ghost use Rattle.http_wire.specs.Responses.{response_fault};

    ghost from_gives = { λ fault result. result ≡ response_fault fault };

    fn from(fault: PartFault) -> ResponseFault {
        match fault {
            PartFault::Cut => ResponseFault::Cut,
            PartFault::LinkFault => ResponseFault::LinkFault,
            PartFault::NoMemory => ResponseFault::NoMemory,
        }
    }
}

// A media type in lower case.
fn lower_media(alloc: Global, media: &[u8]) -> OrMemory<Utf8>
    ensures { IfOk result (λ it. it ≡ lower_media media.now) }
{
    match str::from_utf8(media) {
        Ok(text) => Ok(Utf8::from_string(text.to_ascii_lowercase(alloc)?)),
        Err(_) => Utf8::from_str(alloc, ""),
    }
}

// The first media type that the fields say, without its parameters.
fn media_of(alloc: Global, fields: &[Header<'_>]) -> OrMemory<Utf8>
    ensures { IfOk result (λ it. it ≡ media_of (values (codes "content-type") (map header_parts fields.now))) }
{
    match values_of(fields, "content-type") {
        Values::Nowhere => Utf8::from_str(alloc, ""),
        Values::Once(value) => lower_media(alloc, without_parameters(value)),
        Values::Again(value) => lower_media(alloc, without_parameters(value)),
    }
}

// The length of the body of a response of this status, and None where it is not said well.
fn body_size(status: u16, length: BodyLength) -> Option<u64>
    ensures { result ≡ body_size status length }
{
    match length {
        BodyLength::Bad => None,
        BodyLength::Said(size) if status != 204 => Some(size),
        BodyLength::Unsaid if status != 204 => None,
        BodyLength::Said(_) | BodyLength::Unsaid => Some(0),
    }
}

// What a head of this status with these fields announces.
fn announced_by(alloc: Global, status: u16, fields: &[Header<'_>]) -> OrMemory<Option<Announced>>
    ensures { IfOk result (λ a. a ≡ announcement status (map header_parts fields.now)) }
{
    if is_transfer_coded(fields) {
        return Ok(None);
    }
    let Some(size) = body_size(status, content_length(fields)) else {
        return Ok(None);
    };
    let media = media_of(alloc, fields)?;
    Ok(Some(Announced {
        status,
        media,
        size,
    }))
}

// What a head that has ended announces, and None where it is no good head.
fn announced(alloc: Global, head: &[u8]) -> OrMemory<Option<Announced>>
    ensures { IfOk result (Announces head.now) }
{
    let mut headers = [EMPTY_HEADER; FIELDS_LIMIT];
    let mut response = Response::new(&mut headers);
    let size = match response.parse(head) {
        Ok(Status::Complete(size)) => size,
        Ok(Status::Partial) => return Ok(None),
        Err(_) => return Ok(None),
    };
    if size != head.len() {
        return Ok(None);
    }
    if response.headers.len() > FIELDS_LIMIT {
        return Ok(None);
    }
    let Some(status) = response.code else {
        return Ok(None);
    };
    announced_by(alloc, status, response.headers)
}

/// Takes one response off a connection, and no byte behind it (RFC 9112). A response of status 204 has
/// no body, whatever its length says.
///
/// - `BadHead`: no head ends within 8,192 bytes, which are taken then; or the head is none of the
///   grammar with at most 32 fields; or it has a Transfer-Encoding, or a Content-Length that is repeated
///   or not 1 to 18 digits, or none and a status other than 204
/// - `TooLong`: the body has more than `limit` bytes, of which none is taken
/// - `Cut`: the input ends inside the response
/// - `LinkFault`: exactly where the count of failed calls rose
/// - `NoMemory`: no room is found. A body is taken into one buffer, and none is made for one that is
///   too long
pub fn read_response<L: Link>(
    alloc: Global,
    link: &mut L,
    limit: u64,
) -> Result<Answered, ResponseFault>
    ensures response { L.told → Responded limit (L.stream link.old) (L.stream link.new) result }
    ensures cause { CausedBy (result ≡ Err ResponseFault.LinkFault) (L.faults link.old) (L.faults link.new) }
    ensures keeps { L.keeps link.old link.new }
{
    match read_head(alloc, link) {
        Ok(Some(head)) => behind_head(alloc, link, limit, head.as_slice()),
        Ok(None) => Err(ResponseFault::BadHead),
        Err(fault) => Err(ResponseFault::from(fault)),
    }
}

// Takes what a head announces.
fn behind_head<L: Link>(
    alloc: Global,
    link: &mut L,
    limit: u64,
    head: &[u8],
) -> Result<Answered, ResponseFault>
    ensures response { L.told → AnsweredBehind limit head.now (L.stream link.old) (L.stream link.new) result }
    ensures cause { CausedBy (result ≡ Err ResponseFault.LinkFault) (L.faults link.old) (L.faults link.new) }
    ensures keeps { L.keeps link.old link.new }
{
    match announced(alloc, head) {
        Ok(Some(it)) => fulfil(alloc, link, limit, it),
        Ok(None) => Err(ResponseFault::BadHead),
        Err(_) => Err(ResponseFault::NoMemory),
    }
}

// Takes the body that was announced, unless it is too long.
fn fulfil<L: Link>(
    alloc: Global,
    link: &mut L,
    limit: u64,
    it: Announced,
) -> Result<Answered, ResponseFault>
    ensures response { L.told → Fulfilled limit it (L.stream link.old) (L.stream link.new) result }
    ensures cause { CausedBy (result ≡ Err ResponseFault.LinkFault) (L.faults link.old) (L.faults link.new) }
    ensures keeps { L.keeps link.old link.new }
{
    let Announced {
        status,
        media,
        size,
    } = it;
    if size > limit {
        return Err(ResponseFault::TooLong);
    }
    match read_body(alloc, link, size as usize) {
        Ok(body) => Ok(Answered {
            status,
            media,
            body,
        }),
        Err(fault) => Err(ResponseFault::from(fault)),
    }
}
