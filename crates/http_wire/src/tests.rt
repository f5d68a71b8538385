ghost use Rattle.std.specs.Prelude.{◌<◌};

use crate::{Asked, MemoryLink, ResponseFault, Routes, WireFault, read_request, read_response};
use base_types::{List, Octets, OrMemory, Utf8};
use std::alloc::Global;
use std::test::Fail;

// A connection with this input, no call of which is to fail.
pub(crate) fn link_of(alloc: Global, input: &[u8], piece: usize) -> OrMemory<MemoryLink>
    requires { 0 < piece }
{
    MemoryLink::new(
        alloc,
        Octets::from_slice(alloc, input)?,
        piece,
        List::new(alloc),
    )
}

// A connection whose first call is to fail.
pub(crate) fn broken_link(alloc: Global) -> OrMemory<MemoryLink> {
    let mut failing = List::new(alloc);
    failing.push(0)?;
    MemoryLink::new(alloc, Octets::new(alloc), 1, failing)
}

// A POST to /teep, and GETs of /a and /b.
fn routes(alloc: Global) -> OrMemory<Routes> {
    let mut gets = List::new(alloc);
    gets.push(Utf8::from_str(alloc, "/a")?)?;
    gets.push(Utf8::from_str(alloc, "/b")?)?;
    let post = Utf8::from_str(alloc, "/teep")?;
    Ok(Routes { post, gets })
}

// The status of a refusal, 200 for a POST, 201 for a GET, 1 where it is cut, 2 where the connection fails.
fn number_of(asked: &Result<Asked, WireFault>) -> u16 {
    match asked {
        Ok(Asked::Post(_)) => 200,
        Ok(Asked::Get(_)) => 201,
        Err(WireFault::Refuse(status)) => *status,
        Err(WireFault::Cut) => 1,
        Err(WireFault::LinkFault) => 2,
        Err(WireFault::NoMemory) => 3,
    }
}

// What a connection with this input asks.
fn outcome(alloc: Global, input: &[u8], piece: usize) -> OrMemory<u16>
    requires { 0 < piece }
{
    let routes = routes(alloc)?;
    let mut link = link_of(alloc, input, piece)?;
    Ok(number_of(&read_request(alloc, &mut link, &routes)))
}

#[test]
fn the_first_row_that_holds_counts(rt: HostRuntime) -> Result<(), Fail> {
    let table = [
        ("POST /teep HTTP/1.1\r\nContent-Length: 0\r\n\r\n", 200),
        ("GET /teep HTTP/1.1\r\n\r\n", 405),
        ("PUT /teep HTTP/1.1\r\n\r\n", 405),
        ("POST /a HTTP/1.1\r\nContent-Length: 0\r\n\r\n", 405),
        ("POST /x HTTP/1.1\r\n\r\n", 404),
        ("GET /a HTTP/1.1\r\nContent-Length: 7\r\n\r\n", 201),
        ("POST /teep HTTP/1.1\r\n\r\n", 411),
        (
            "POST /teep HTTP/1.1\r\nContent-Length: 16777217\r\n\r\n",
            413,
        ),
        ("POST /teep HTTP/1.1\r\nContent-Length: 1\r\n\r\nx", 415),
        (
            "POST /teep HTTP/1.1\r\nContent-Length: 1\r\nContent-Type: text/plain\r\n\r\nx",
            415,
        ),
        (
            "POST /teep HTTP/1.1\r\nContent-Length: 1\r\nContent-Type: application/teep+cbor ; x\r\n\r\nx",
            415,
        ),
        (
            "POST /teep HTTP/1.1\r\ncontent-length:1\r\nCONTENT-TYPE: APPLICATION/TEEP+CBOR;x\r\n\r\nx",
            200,
        ),
        (
            "POST /teep HTTP/1.1\r\nContent-Length: 0\r\nTransfer-Encoding: chunked\r\n\r\n",
            501,
        ),
    ];
    for (text, want) in table {
        assert_eq!(rt; outcome(rt.alloc(), text.as_bytes(), 1)?, want, "{text}");
        assert_eq!(rt;
            outcome(rt.alloc(), text.as_bytes(), 4_096)?,
            want,
            "{text}"
        );
    }
    Ok(())
}

#[test]
fn lengths_are_numbers_of_at_most_18_digits(rt: HostRuntime) -> Result<(), Fail> {
    let table = [
        (
            "POST /x HTTP/1.1\r\nContent-Length: 1\r\nContent-Length: 1\r\n\r\n",
            400,
        ),
        (
            "POST /x HTTP/1.1\r\nContent-Length: 0000000000000000001\r\n\r\n",
            400,
        ),
        (
            "POST /x HTTP/1.1\r\nContent-Length: 999999999999999999\r\n\r\n",
            404,
        ),
        ("POST /x HTTP/1.1\r\nContent-Length: +1\r\n\r\n", 400),
        ("POST /x HTTP/1.1\r\nContent-Length: -1\r\n\r\n", 400),
        ("POST /x HTTP/1.1\r\nContent-Length: 1 2\r\n\r\n", 400),
        ("POST /x HTTP/1.1\r\nContent-Length:\r\n\r\n", 400),
        ("GET /a HTTP/1.1\r\nContent-Length: 0x1\r\n\r\n", 400),
    ];
    for (text, want) in table {
        assert_eq!(rt; outcome(rt.alloc(), text.as_bytes(), 7)?, want, "{text}");
    }
    Ok(())
}

#[test]
fn heads_are_judged_by_the_grammar(rt: HostRuntime) -> Result<(), Fail> {
    let table = [
        ("GET /a HTTP/1.1\n\n", 201),
        ("\r\nGET /a HTTP/1.1\r\n\r\n", 201),
        ("\r\n\r\nGET /a HTTP/1.1\r\n\r\n", 400),
        ("GET /b HTTP/1.0\r\nX: y\n\r\n", 201),
        ("GET /a HTTP/2.0\r\n\r\n", 400),
        ("GET /a HTTP/1.1\r\nX: a\r\n b\r\n\r\n", 400),
        ("GET /a HTTP/1.1\r\nX: \0\r\n\r\n", 400),
        ("GET /a\r\n\r\n", 400),
        ("GET /a HTTP/1.1\r\n\r", 1),
        ("", 1),
    ];
    for (text, want) in table {
        assert_eq!(rt; outcome(rt.alloc(), text.as_bytes(), 3)?, want, "{text}");
    }
    Ok(())
}

// What is asked by a GET with a field of so many bytes, whose head has 24 more.
fn with_long_field(alloc: Global, size: usize) -> OrMemory<u16> {
    let mut head = Octets::from_slice(alloc, b"GET /a HTTP/1.1\r\nX: ")?;
    for _ in 0..size {
        head.push(b'x')?;
    }
    head.extend(b"\r\n\r\n")?;
    outcome(alloc, head.as_slice(), 4_096)
}

// What is asked by a GET with so many fields.
fn with_fields(alloc: Global, count: usize) -> OrMemory<u16> {
    let mut head = Octets::from_slice(alloc, b"GET /a HTTP/1.1\r\n")?;
    for _ in 0..count {
        head.extend(b"X: y\r\n")?;
    }
    head.extend(b"\r\n")?;
    outcome(alloc, head.as_slice(), 1)
}

#[test]
fn heads_have_at_most_8192_bytes_and_32_fields(rt: HostRuntime) -> Result<(), Fail> {
    assert_eq!(rt; with_long_field(rt.alloc(), 8_191 - 24)?, 201);
    assert_eq!(rt; with_long_field(rt.alloc(), 8_192 - 24)?, 201);
    assert_eq!(rt; with_long_field(rt.alloc(), 8_193 - 24)?, 400);
    assert_eq!(rt; with_fields(rt.alloc(), 32)?, 201);
    assert_eq!(rt; with_fields(rt.alloc(), 33)?, 400);
    Ok(())
}

#[test]
fn a_request_is_cut_at_each_byte(rt: HostRuntime) -> Result<(), Fail> {
    let whole =
        b"POST /teep HTTP/1.1\r\nContent-Length: 2\r\nContent-Type: application/teep+cbor\r\n\r\nhi";
    for end in 0..whole.len() {
        assert_eq!(rt; outcome(rt.alloc(), &whole[..end], 4_096)?, 1, "{end}");
    }
    assert_eq!(rt; outcome(rt.alloc(), whole, 4_096)?, 200);
    Ok(())
}

// The status of a response, 1 to 5 by its fault, and 600 where the body or the media is another.
pub(crate) fn answer(
    alloc: Global,
    input: &[u8],
    limit: u64,
    media: &str,
    body: &[u8],
) -> OrMemory<u16> {
    let mut link = link_of(alloc, input, 5)?;
    Ok(match read_response(alloc, &mut link, limit) {
        Ok(it) if it.body.as_slice() == body && it.media.as_str() == media => it.status,
        Ok(_) => 600,
        Err(ResponseFault::BadHead) => 1,
        Err(ResponseFault::TooLong) => 2,
        Err(ResponseFault::Cut) => 3,
        Err(ResponseFault::LinkFault) => 4,
        Err(ResponseFault::NoMemory) => 5,
    })
}

#[test]
fn responses_are_read(rt: HostRuntime) -> Result<(), Fail> {
    let table = [
        (
            "HTTP/1.1 200 OK\r\nContent-Length: 2\r\nContent-Type: A/B; c\r\n\r\nhi!",
            "a/b",
            "hi",
            200,
        ),
        ("HTTP/1.1 200 OK\r\nContent-Length: 3\r\n\r\nhi!", "", "", 2),
        ("HTTP/1.1 200 OK\r\nContent-Length: 2\r\n\r\nh", "", "", 3),
        (
            "HTTP/1.1 204 No Content\r\nContent-Length: 9\r\n\r\n",
            "",
            "",
            204,
        ),
        ("HTTP/1.1 204 No Content\r\n\r\n", "", "", 204),
        ("HTTP/1.1 404 Not Found\r\n\r\n", "", "", 1),
        (
            "HTTP/1.1 404 Not Found\r\nContent-Length: 0\r\n\r\n",
            "",
            "",
            404,
        ),
        (
            "HTTP/1.1 204 No Content\r\nContent-Length: x\r\n\r\n",
            "",
            "",
            1,
        ),
        (
            "HTTP/1.1 204 No Content\r\nTransfer-Encoding: chunked\r\n\r\n",
            "",
            "",
            1,
        ),
        ("hello\r\n\r\n", "", "", 1),
        ("HTTP/1.1 204", "", "", 3),
    ];
    for (text, media, body, want) in table {
        assert_eq!(rt;
            answer(rt.alloc(), text.as_bytes(), 2, media, body.as_bytes())?,
            want,
            "{text}"
        );
    }
    Ok(())
}

// Whether this was written.
pub(crate) fn is_written(link: &MemoryLink, want: &str) -> bool {
    link.written(1).is_none() && link.written(0) == Some(want.as_bytes())
}

#[test]
fn a_connection_that_fails_says_so(rt: HostRuntime) -> Result<(), Fail> {
    let alloc = rt.alloc();
    let mut link = broken_link(alloc)?;
    assert_eq!(rt;
        number_of(&read_request(alloc, &mut link, &routes(alloc)?)),
        2
    );
    let mut link = broken_link(alloc)?;
    assert!(rt;
        matches!(
            read_response(alloc, &mut link, 1),
            Err(ResponseFault::LinkFault)
        )
    );
    Ok(())
}
