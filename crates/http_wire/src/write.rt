// Requests and responses, onto a connection.
ghost use Rattle.std.specs.Prelude.{◌≡◌, ◌++◌, [], codes, OnOk, IsTrue};
ghost use Rattle.std.specs.List.{flat_map};
ghost use Rattle.base_types.specs.Causes.{HasCause, CausedBy};
ghost use Rattle.outside_core.specs.Stream.{Sends};
ghost use Rattle.http.specs.StatusCode.{IsStatusCode};
ghost use Rattle.http_wire.specs.Sending.{HasBodyOf, IsAuthority, IsTarget, is_media_type};
ghost use Rattle.http_wire.specs.Writing.{line_bytes, field_line, media_lines, length_line, length_lines, phrase_of, status_line, request_lines, response_lines, closed, request_bytes, response_bytes, Wrote};

use crate::method::Method;
use base_types::{Failed, Octets, OrMemory};
use http::StatusCode;
use http_link::Link;
use std::alloc::Global;
use thiserror::Error;

/// The longest media type, in bytes (RFC 6838, section 4.2).
pub const MEDIA_LIMIT: usize = 255;

/// Why a message was not written whole.
#[derive(Clone, Copy, Debug, Eq, Error, PartialEq)]
pub enum SendWire {
    /// A write failed. A front of the message is written, perhaps none.
    #[error("the connection failed")]
    LinkFault,
    /// No memory was left. Nothing is written.
    #[error("no memory is left")]
    NoMemory,
}

// The field of a name and a value, as a line.
fn push_field(head: &mut Octets, name: &str, value: &str) -> OrMemory<()>
    ensures { OnOk result (head.new ≡ head.old ++ line_bytes (field_line name.now value.now)) }
{
    head.extend(name.as_bytes())?;
    head.extend(b": ")?;
    head.extend(value.as_bytes())?;
    head.extend(b"\r\n")
}

// The line on the length of a body.
fn push_length(alloc: Global, head: &mut Octets, body: &[u8]) -> OrMemory<()>
    ensures { OnOk result (head.new ≡ head.old ++ line_bytes (length_line body.now)) }
{
    let size = body.len();
    let digits = format!(in alloc; "{size}")?;
    push_field(head, "Content-Length", digits.as_str())
}

// The line on the media type of a body, where there is a body.
fn push_media(head: &mut Octets, media: &str, body: &[u8]) -> OrMemory<()>
    ensures { OnOk result (head.new ≡ head.old ++ flat_map line_bytes (media_lines media.now body.now)) }
{
    match body {
        [] => Ok(()),
        [_, ..] => push_field(head, "Content-Type", media),
    }
}

// The last line of fields, and the empty line.
fn push_close(head: &mut Octets) -> OrMemory<()>
    ensures { OnOk result (head.new ≡ head.old ++ line_bytes (field_line (codes "Connection") (codes "close")) ++ codes "\r\n") }
{
    push_field(head, "Connection", "close")?;
    head.extend(b"\r\n")
}

// The first line of a request, and its host.
fn push_target(head: &mut Octets, method: &str, host: &str, path: &str) -> OrMemory<()>
    ensures { OnOk result (head.new ≡ head.old ++ line_bytes (method.now ++ codes " " ++ path.now ++ codes " HTTP/1.1") ++ line_bytes (field_line (codes "Host") host.now)) }
{
    head.extend(method.as_bytes())?;
    head.extend(b" ")?;
    head.extend(path.as_bytes())?;
    head.extend(b" HTTP/1.1\r\n")?;
    push_field(head, "Host", host)
}

// The lines of a POST, of which the last is still to come.
fn push_post(alloc: Global, head: &mut Octets, host: &str, path: &str, body: &[u8]) -> OrMemory<()>
    ensures { OnOk result (head.new ≡ head.old ++ flat_map line_bytes (request_lines Method.Post host.now path.now body.now)) }
{
    push_target(head, "POST", host, path)?;
    push_field(head, "Accept", "application/teep+cbor")?;
    push_media(head, "application/teep+cbor", body)?;
    push_length(alloc, head, body)
}

// The same of a request of either method.
fn push_request(
    alloc: Global,
    head: &mut Octets,
    method: Method,
    host: &str,
    path: &str,
    body: &[u8],
) -> OrMemory<()>
    ensures { OnOk result (head.new ≡ head.old ++ flat_map line_bytes (request_lines method host.now path.now body.now)) }
{
    match method {
        Method::Get => push_target(head, "GET", host, path),
        Method::Post => push_post(alloc, head, host, path, body),
    }
}

// The phrase of a status.
fn phrase_of(status: StatusCode) -> &'static str
    ensures { result.now ≡ phrase_of status }
{
    match status.canonical_reason() {
        Some(phrase) => phrase,
        None => "",
    }
}

// The first line of a response.
fn push_status(alloc: Global, head: &mut Octets, status: StatusCode) -> OrMemory<()>
    ensures { OnOk result (head.new ≡ head.old ++ line_bytes (status_line status)) }
{
    let code = status.as_u16();
    let digits = format!(in alloc; "{code}")?;
    head.extend(b"HTTP/1.1 ")?;
    head.extend(digits.as_bytes())?;
    head.extend(b" ")?;
    head.extend(phrase_of(status).as_bytes())?;
    head.extend(b"\r\n")
}

// The line on the length of a response's body, where there is one.
fn push_size(alloc: Global, head: &mut Octets, status: u16, body: &[u8]) -> OrMemory<()>
    ensures { OnOk result (head.new ≡ head.old ++ flat_map line_bytes (length_lines status body.now)) }
{
    if status == 204 {
        return Ok(());
    }
    push_length(alloc, head, body)
}

// The lines of a response, of which the last is still to come.
fn push_response(
    alloc: Global,
    head: &mut Octets,
    status: StatusCode,
    media: &str,
    body: &[u8],
) -> OrMemory<()>
    ensures { OnOk result (head.new ≡ head.old ++ flat_map line_bytes (response_lines status media.now body.now)) }
{
    push_status(alloc, head, status)?;
    push_media(head, media, body)?;
    push_size(alloc, head, status.as_u16(), body)
}

// Writes a body, where there is one.
fn write_body<L: Link>(link: &mut L, body: &[u8]) -> Result<(), Failed>
    ensures cause { HasCause (L.faults link.old) (L.faults link.new) result }
    ensures written { L.told → Sends body.now result (L.stream link.old) (L.stream link.new) }
    ensures keeps { L.keeps_written link.old link.new }
{
    if body.is_empty() {
        return Ok(());
    }
    link.write(body)
}

// Closes a head, and writes it and then a body.
fn write_both<L: Link>(link: &mut L, mut head: Octets, body: &[u8]) -> Result<(), SendWire>
    ensures written { L.told → Wrote (closed head ++ body.now) (L.stream link.old) (L.stream link.new) result }
    ensures cause { CausedBy (result ≡ Err SendWire.LinkFault) (L.faults link.old) (L.faults link.new) }
    ensures keeps { L.keeps_written link.old link.new }
{
    match push_close(&mut head) {
        Ok(()) => write_closed(link, head.as_slice(), body),
        Err(_) => Err(SendWire::NoMemory),
    }
}

// Writes a head, and then a body.
fn write_closed<L: Link>(link: &mut L, head: &[u8], body: &[u8]) -> Result<(), SendWire>
    ensures written { L.told → Wrote (head.now ++ body.now) (L.stream link.old) (L.stream link.new) result }
    ensures cause { CausedBy (result ≡ Err SendWire.LinkFault) (L.faults link.old) (L.faults link.new) }
    ensures keeps { L.keeps_written link.old link.new }
{
    match link.write(head) {
        Ok(()) => match write_body(link, body) {
            Ok(()) => Ok(()),
            Err(_) => Err(SendWire::LinkFault),
        },
        Err(_) => Err(SendWire::LinkFault),
    }
}

/// Writes a request to a host, which is given with its port (RFC 9112, section 3.2), for a path, which is
/// the target. A GET has no body. Host and path are those of an address, so that none of them ends a line.
///
/// A POST accepts `application/teep+cbor`, which its body is too. `LinkFault` exactly where the count of
/// failed calls rose; a front of the request is written then. `NoMemory` where no room is found for its
/// head; nothing is written then.
pub fn write_request<L: Link>(
    alloc: Global,
    link: &mut L,
    method: Method,
    host: &str,
    path: &str,
    body: &[u8],
) -> Result<(), SendWire>
    requires host { IsAuthority host.now }
    requires path { IsTarget path.now }
    requires body { HasBodyOf method body.now }
    ensures written { L.told → Wrote (request_bytes method host.now path.now body.now) (L.stream link.old) (L.stream link.new) result }
    ensures cause { CausedBy (result ≡ Err SendWire.LinkFault) (L.faults link.old) (L.faults link.new) }
    ensures keeps { L.keeps_written link.old link.new }
{
    let mut head = Octets::new(alloc);
    match push_request(alloc, &mut head, method, host, path, body) {
        Ok(()) => write_both(link, head, body),
        Err(_) => Err(SendWire::NoMemory),
    }
}

/// Writes a response of a status from 100 to 999, with its phrase, and a body of this media type. A 204
/// has no body (RFC 9110, section 15.3.5). The media type has visible bytes in lower case and no
/// parameters, and is not written where there is no body.
///
/// `LinkFault` exactly where the count of failed calls rose; a front of the response is written then.
/// `NoMemory` where no room is found for its head; nothing is written then.
pub fn write_response<L: Link>(
    alloc: Global,
    link: &mut L,
    status: u16,
    media: &str,
    body: &[u8],
) -> Result<(), SendWire>
    requires code { IsStatusCode status }
    requires media { IsTrue (is_media_type media.now) }
    requires empty { status ≡ 204 → body.now ≡ [] }
    ensures written { L.told → Wrote (response_bytes status media.now body.now) (L.stream link.old) (L.stream link.new) result }
    ensures cause { CausedBy (result ≡ Err SendWire.LinkFault) (L.faults link.old) (L.faults link.new) }
    ensures keeps { L.keeps_written link.old link.new }
{
    let code = StatusCode::from_u16(status).unwrap();
    let mut head = Octets::new(alloc);
    match push_response(alloc, &mut head, code, media, body) {
        Ok(()) => write_both(link, head, body),
        Err(_) => Err(SendWire::NoMemory),
    }
}
