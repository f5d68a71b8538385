//! HTTP/1.1 messages as bytes over a connection (RFC 9110 and RFC 9112): a request or a response is
//! read off a connection, and no byte behind it; and one is written.
//!
//! Where a head ends is decided here, at its first empty line. A head that has ended is judged by the
//! grammar of `httparse`. Each connection serves one message in each direction.
//!
//! Each input has exactly one answer (`one_request`, `one_response`), and what is written at one side is
//! read as the same message at the other (`written_requests_are_read`, `written_responses_are_read`).
#![tactic(auto)]

mod announced;
mod authority;
#[cfg(test)]
mod exchanges;
mod fields;
mod laws;
mod method;
mod parts;
mod request;
mod response;
mod routes;
#[cfg(test)]
mod tests;
mod verdict;
mod write;

pub use announced::Announced;
pub use authority::authority_of;
pub use fetch_uri::{HOST_LIMIT, URI_LIMIT, Uri, is_uri, read_uri};
pub use fields::FIELDS_LIMIT;
pub use http_link::{Link, MemoryLink};
pub use laws::{one_request, one_response, written_requests_are_read, written_responses_are_read};
pub use method::Method;
pub use parts::HEAD_LIMIT;
pub use request::{Asked, WireFault, read_request};
pub use response::{Answered, ResponseFault, read_response};
pub use routes::Routes;
pub use write::{MEDIA_LIMIT, SendWire, write_request, write_response};
