// What is to be done with the head of a request.
ghost use Rattle.std.specs.Prelude.{◌≡◌, map, IfOk};
ghost use Rattle.httparse.specs.Borrowed.{header_parts};
ghost use Rattle.http_wire.specs.Verdicts.{verdict, post_verdict, is_teep, is_transfer_coded, is_bad, verdict_by, IsJudged};

use crate::fields::{
    BodyLength, FIELDS_LIMIT, Values, content_length, values_of, without_parameters,
};
use crate::routes::{Route, Routes, route_of};
use base_types::{HTTP_BODY_LIMIT, OrMemory, Utf8};
use httparse::{EMPTY_HEADER, Header, Request, Status};
use std::alloc::Global;

/// What is to be done with the head of a request.
#[derive(Debug, Drop)]
pub enum Verdict {
    /// It is a POST with a body of so many bytes.
    Takes(u64),
    /// It is a GET of this target.
    Gets(Utf8),
    /// It is refused with this status.
    Refused(u16),
}

/// Whether a head has a Transfer-Encoding, which is not served.
pub fn is_transfer_coded(fields: &[Header<'_>]) -> bool
    ensures { result ≡ is_transfer_coded (map header_parts fields.now) }
{
    !matches!(values_of(fields, "transfer-encoding"), Values::Nowhere)
}

// Whether the first Content-Type is that of the protocol's messages.
fn is_teep(fields: &[Header<'_>]) -> bool
    ensures { result ≡ is_teep (map header_parts fields.now) }
{
    match values_of(fields, "content-type") {
        Values::Nowhere => false,
        Values::Once(value) | Values::Again(value) => {
            without_parameters(value).eq_ignore_ascii_case(b"application/teep+cbor")
        }
    }
}

// The rows for a POST.
fn post_verdict(length: BodyLength, fields: &[Header<'_>]) -> Verdict
    ensures { result ≡ post_verdict length (map header_parts fields.now) }
{
    let size = match length {
        BodyLength::Unsaid => return Verdict::Refused(411),
        BodyLength::Bad => return Verdict::Refused(400),
        BodyLength::Said(size) => size,
    };
    if size > HTTP_BODY_LIMIT {
        Verdict::Refused(413)
    } else if size > 0 && !is_teep(fields) {
        Verdict::Refused(415)
    } else if is_transfer_coded(fields) {
        Verdict::Refused(501)
    } else {
        Verdict::Takes(size)
    }
}

// Whether the length is bad.
fn is_bad(length: BodyLength) -> bool
    ensures { result ≡ is_bad length }
{
    matches!(length, BodyLength::Bad)
}

// The rows behind the first.
fn verdict_by(
    alloc: Global,
    route: Route,
    target: &str,
    length: BodyLength,
    fields: &[Header<'_>],
) -> OrMemory<Verdict>
    ensures { IfOk result (λ v. v ≡ verdict_by route target.now length (map header_parts fields.now)) }
{
    match route {
        Route::Unknown => Ok(Verdict::Refused(404)),
        Route::OtherMethod => Ok(Verdict::Refused(405)),
        Route::Post => Ok(post_verdict(length, fields)),
        Route::Get => Ok(Verdict::Gets(Utf8::from_str(alloc, target)?)),
    }
}

// The rows for a request.
fn verdict_on(
    alloc: Global,
    routes: &Routes,
    method: &str,
    target: &str,
    fields: &[Header<'_>],
) -> OrMemory<Verdict>
    ensures { IfOk result (λ v. v ≡ verdict routes.now method.now target.now (map header_parts fields.now)) }
{
    let length = content_length(fields);
    if is_bad(length) {
        return Ok(Verdict::Refused(400));
    }
    verdict_by(
        alloc,
        route_of(routes, method, target),
        target,
        length,
        fields,
    )
}

/// The verdict on a head that has ended. Refused for want of memory alone.
pub fn judge(alloc: Global, routes: &Routes, head: &[u8]) -> OrMemory<Verdict>
    ensures { IfOk result (IsJudged routes.now head.now) }
{
    let mut headers = [EMPTY_HEADER; FIELDS_LIMIT];
    let mut request = Request::new(&mut headers);
    let size = match request.parse(head) {
        Ok(Status::Complete(size)) => size,
        Ok(Status::Partial) => return Ok(Verdict::Refused(400)),
        Err(_) => return Ok(Verdict::Refused(400)),
    };
    if size != head.len() {
        return Ok(Verdict::Refused(400));
    }
    if request.headers.len() > FIELDS_LIMIT {
        return Ok(Verdict::Refused(400));
    }
    let (Some(method), Some(target)) = (request.method, request.path) else {
        return Ok(Verdict::Refused(400));
    };
    verdict_on(alloc, routes, method, target, request.headers)
}
