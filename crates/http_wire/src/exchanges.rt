// Exchanges with another implementation, Python's http.client and http.server, in both directions.
ghost use Rattle.std.specs.Prelude.{◌≡◌, [], IsTrue};
ghost use Rattle.http.specs.StatusCode.{IsStatusCode};
ghost use Rattle.http_wire.specs.Sending.{HasBodyOf, is_media_type};

use crate::tests::{answer, broken_link, is_written, link_of};
use crate::{
    Asked, MemoryLink, Method, Routes, SendWire, authority_of, read_request, read_uri,
    write_request, write_response,
};
use base_types::{List, NoMemory, OrMemory, Utf8};
use std::alloc::Global;
use std::test::Fail;

// What http.client sends to 127.0.0.1:8080, and what http.server answers.
const CLIENT_POST: &str =
    "POST /teep HTTP/1.1\r\nHost: 127.0.0.1:8080\r\nAccept-Encoding: identity\r\nContent-Length: 2\r\nAccept: application/teep+cbor\r\nContent-Type: application/teep+cbor\r\n\r\nhi";

const CLIENT_EMPTY_POST: &str =
    "POST /teep HTTP/1.1\r\nHost: 127.0.0.1:8080\r\nAccept-Encoding: identity\r\nContent-Length: 0\r\nAccept: application/teep+cbor\r\nContent-Type: application/teep+cbor\r\n\r\n";

const CLIENT_GET: &str =
    "GET /a?b#c HTTP/1.1\r\nHost: 127.0.0.1:8080\r\nAccept-Encoding: identity\r\n\r\n";

const SERVER_OK: &str =
    "HTTP/1.1 200 OK\r\nServer: python \r\nDate: Tue, 01 Dec 2026 00:00:00 GMT\r\nContent-Type: application/octet-stream\r\nContent-Length: 2\r\n\r\nhi";

const SERVER_NO_CONTENT: &str =
    "HTTP/1.1 204 No Content\r\nServer: python \r\nDate: Tue, 01 Dec 2026 00:00:00 GMT\r\n\r\n";

const SERVER_NOT_FOUND: &str =
    "HTTP/1.1 404 Not Found\r\nServer: python \r\nDate: Tue, 01 Dec 2026 00:00:00 GMT\r\nContent-Length: 0\r\n\r\n";

// What is written here, and is read by http.server and by http.client.
const WRITTEN_POST: &str =
    "POST /teep HTTP/1.1\r\nHost: 127.0.0.1:8080\r\nAccept: application/teep+cbor\r\nContent-Type: application/teep+cbor\r\nContent-Length: 2\r\nConnection: close\r\n\r\nhi";

const WRITTEN_EMPTY_POST: &str =
    "POST /teep HTTP/1.1\r\nHost: 127.0.0.1:8080\r\nAccept: application/teep+cbor\r\nContent-Length: 0\r\nConnection: close\r\n\r\n";

const WRITTEN_GET: &str =
    "GET /a?b#c HTTP/1.1\r\nHost: 127.0.0.1:8080\r\nConnection: close\r\n\r\n";

const ANSWERED_OK: &str =
    "HTTP/1.1 200 OK\r\nContent-Type: application/octet-stream\r\nContent-Length: 2\r\nConnection: close\r\n\r\nhi";

const ANSWERED_NO_CONTENT: &str = "HTTP/1.1 204 No Content\r\nConnection: close\r\n\r\n";

const ANSWERED_NOT_FOUND: &str =
    "HTTP/1.1 404 Not Found\r\nContent-Length: 0\r\nConnection: close\r\n\r\n";

// A POST to /teep, and a GET of /a?b#c.
fn routes(alloc: Global) -> OrMemory<Routes> {
    let mut gets = List::new(alloc);
    gets.push(Utf8::from_str(alloc, "/a?b#c")?)?;
    let post = Utf8::from_str(alloc, "/teep")?;
    Ok(Routes { post, gets })
}

// The body of a POST or the target of a GET with this input.
fn is_asked(alloc: Global, input: &str, want: &str) -> OrMemory<bool> {
    let routes = routes(alloc)?;
    let mut link = link_of(alloc, input.as_bytes(), 7)?;
    Ok(match read_request(alloc, &mut link, &routes) {
        Ok(Asked::Post(body)) => body.as_slice() == want.as_bytes(),
        Ok(Asked::Get(path)) => path.as_str() == want,
        Err(_) => false,
    })
}

#[test]
fn what_a_client_sends_is_read(rt: HostRuntime) -> Result<(), Fail> {
    let table = [
        (CLIENT_POST, "hi"),
        (CLIENT_EMPTY_POST, ""),
        (CLIENT_GET, "/a?b#c"),
    ];
    for (text, want) in table {
        assert!(rt; is_asked(rt.alloc(), text, want)?, "{text}");
    }
    Ok(())
}

#[test]
fn what_a_server_answers_is_read(rt: HostRuntime) -> Result<(), Fail> {
    let table = [
        (SERVER_OK, "application/octet-stream", "hi", 200),
        (SERVER_NO_CONTENT, "", "", 204),
        (SERVER_NOT_FOUND, "", "", 404),
    ];
    for (text, media, body, want) in table {
        assert_eq!(rt;
            answer(rt.alloc(), text.as_bytes(), 2, media, body.as_bytes())?,
            want,
            "{text}"
        );
    }
    Ok(())
}

// Writes a request to the address that a text is.
fn request_to(
    alloc: Global,
    link: &mut MemoryLink,
    method: Method,
    address: &str,
    body: &[u8],
) -> Result<(), SendWire>
    requires { HasBodyOf method body.now }
{
    let Some(uri) = read_uri(address) else {
        return Err(SendWire::NoMemory);
    };
    let Ok(host) = authority_of(alloc, uri.host, uri.port) else {
        return Err(SendWire::NoMemory);
    };
    write_request(alloc, link, method, host.as_str(), uri.path, body)
}

// Whether this is written of a request.
fn is_sent(alloc: Global, method: Method, address: &str, body: &[u8], want: &str) -> OrMemory<bool>
    requires { HasBodyOf method body.now }
{
    let mut link = link_of(alloc, b"", 1)?;
    let sent = request_to(alloc, &mut link, method, address, body);
    Ok(sent == Ok(()) && is_written(&link, want))
}

#[test]
fn requests_are_written(rt: HostRuntime) -> Result<(), Fail> {
    let alloc = rt.alloc();
    let post = "http://127.0.0.1:8080/teep";
    let get = "http://127.0.0.1:8080/a?b#c";
    assert!(rt; is_sent(alloc, Method::Post, post, b"hi", WRITTEN_POST)?);
    assert!(rt; is_sent(alloc, Method::Post, post, b"", WRITTEN_EMPTY_POST)?);
    assert!(rt; is_sent(alloc, Method::Get, get, b"", WRITTEN_GET)?);
    let mut link = broken_link(alloc)?;
    let failed = request_to(alloc, &mut link, Method::Post, post, b"");
    assert_eq!(rt; failed, Err(SendWire::LinkFault));
    Ok(())
}

// Whether this is written of a response.
fn is_answered(alloc: Global, status: u16, media: &str, body: &[u8], want: &str) -> OrMemory<bool>
    requires code { IsStatusCode status }
    requires media { IsTrue (is_media_type media.now) }
    requires empty { status ≡ 204 → body.now ≡ [] }
{
    let mut link = link_of(alloc, b"", 1)?;
    write_response(alloc, &mut link, status, media, body).map_err(|_| NoMemory)?;
    Ok(is_written(&link, want))
}

#[test]
fn responses_are_written(rt: HostRuntime) -> Result<(), Fail> {
    let alloc = rt.alloc();
    let media = "application/octet-stream";
    assert!(rt; is_answered(alloc, 200, media, b"hi", ANSWERED_OK)?);
    assert!(rt; is_answered(alloc, 204, media, b"", ANSWERED_NO_CONTENT)?);
    assert!(rt; is_answered(alloc, 404, media, b"", ANSWERED_NOT_FOUND)?);
    Ok(())
}
