//! Requests written into connections in memory, and read from them.
ghost use Rattle.std.specs.Prelude.{◌<◌};
ghost use Rattle.http_wire.specs.Sending.{IsAuthority, IsTarget};

use base_types::{List, Octets, OrMemory, Utf8};
use http_wire::{
    Asked, MemoryLink, Method, Routes, authority_of, read_request, read_uri, write_request,
};
use std::alloc::Global;

/// Where the POST goes.
const ADDRESS: &str = "http://127.0.0.1:8080/teep";

const PATH: &str = "/teep";

/// The body of the small request.
const BODY: [u8; 100] = [7; 100];

/// The most bytes that a read of the small request gives.
const SMALL_PIECE: usize = 4_096;

/// How many bytes the large body has: as many as one may have.
const LARGE: usize = 1 << 24;

/// The most bytes that a read of the large request gives.
const LARGE_PIECE: usize = 65_536;

/// The head of the large request.
const LARGE_HEAD: &[u8] =
    b"POST /teep HTTP/1.1\r\nContent-Length: 16777216\r\nContent-Type: application/teep+cbor\r\n\r\n";

fn routes(alloc: Global) -> OrMemory<Routes> {
    let post = Utf8::from_str(alloc, PATH)?;
    Ok(Routes {
        post,
        gets: List::new(alloc),
    })
}

fn link_of(alloc: Global, input: Octets, piece: usize) -> OrMemory<MemoryLink>
    requires { 0 < piece }
{
    MemoryLink::new(alloc, input, piece, List::new(alloc))
}

fn is_post(asked: &Asked) -> bool {
    matches!(asked, Asked::Post(_))
}

// Whether the connection asks for a POST.
fn asks_post(alloc: Global, link: &mut MemoryLink, routes: &Routes) -> bool {
    match read_request(alloc, link, routes) {
        Ok(asked) => is_post(&asked),
        Err(_) => false,
    }
}

fn link_asks(alloc: Global, mut link: MemoryLink, routes: &Routes) -> bool {
    asks_post(alloc, &mut link, routes)
}

// Whether these bytes are a POST, read by such pieces.
fn is_request(alloc: Global, bytes: &[u8], piece: usize, routes: &Routes) -> OrMemory<bool>
    requires { 0 < piece }
{
    let input = Octets::from_slice(alloc, bytes)?;
    let link = link_of(alloc, input, piece)?;
    Ok(link_asks(alloc, link, routes))
}

// Whether what was written to the connection is a POST.
fn is_written(alloc: Global, link: &MemoryLink, routes: &Routes) -> OrMemory<bool> {
    match link.written(0) {
        Some(bytes) => is_request(alloc, bytes, SMALL_PIECE, routes),
        None => Ok(false),
    }
}

// Whether a small POST is written to the connection, and read back.
fn is_exchanged(
    alloc: Global,
    link: &mut MemoryLink,
    host: &str,
    path: &str,
    routes: &Routes,
) -> OrMemory<bool>
    requires host { IsAuthority host.now }
    requires path { IsTarget path.now }
{
    match write_request(alloc, link, Method::Post, host, path, &BODY) {
        Ok(()) => is_written(alloc, link, routes),
        Err(_) => Ok(false),
    }
}

fn exchanges(alloc: Global, host: &str, path: &str, routes: &Routes) -> OrMemory<bool>
    requires host { IsAuthority host.now }
    requires path { IsTarget path.now }
{
    let mut link = link_of(alloc, Octets::new(alloc), 1)?;
    is_exchanged(alloc, &mut link, host, path, routes)
}

fn count_exchanges(alloc: Global, host: &str, path: &str, routes: &Routes, rounds: u64) -> u64
    requires host { IsAuthority host.now }
    requires path { IsTarget path.now }
{
    let mut good: u64 = 0;
    for _ in 0..rounds {
        if matches!(exchanges(alloc, host, path, routes), Ok(true)) {
            good = good.saturating_add(1);
        }
    }
    good
}

fn exchanges_by(alloc: Global, routes: &Routes, rounds: u64) -> u64 {
    let Some(uri) = read_uri(ADDRESS) else {
        return 0;
    };
    let Ok(host) = authority_of(alloc, uri.host, uri.port) else {
        return 0;
    };
    count_exchanges(alloc, host.as_str(), uri.path, routes, rounds)
}

/// How many times a POST with a body of 100 bytes was written and read.
pub fn exchanges_small(alloc: Global, rounds: u64) -> u64 {
    match routes(alloc) {
        Ok(routes) => exchanges_by(alloc, &routes, rounds),
        Err(_) => 0,
    }
}

fn large_request(alloc: Global) -> OrMemory<Octets> {
    let body = Octets::from_vec(vec![in alloc; 7; LARGE]?);
    let mut bytes = Octets::from_slice(alloc, LARGE_HEAD)?;
    bytes.extend(body.as_slice())?;
    Ok(bytes)
}

fn count_large(alloc: Global, bytes: &[u8], routes: &Routes, rounds: u64) -> u64 {
    let mut good: u64 = 0;
    for _ in 0..rounds {
        if matches!(is_request(alloc, bytes, LARGE_PIECE, routes), Ok(true)) {
            good = good.saturating_add(1);
        }
    }
    good
}

fn reads_by(alloc: Global, bytes: &[u8], rounds: u64) -> u64 {
    match routes(alloc) {
        Ok(routes) => count_large(alloc, bytes, &routes, rounds),
        Err(_) => 0,
    }
}

/// How many times a POST with a body of 16 MiB was read.
pub fn reads_large(alloc: Global, rounds: u64) -> u64 {
    match large_request(alloc) {
        Ok(bytes) => reads_by(alloc, bytes.as_slice(), rounds),
        Err(_) => 0,
    }
}
