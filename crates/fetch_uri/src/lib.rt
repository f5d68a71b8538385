//! Where a payload is fetched from: the address `http://HOST:PORT/PATH`.
//!
//! It is a profile of RFC 3986 with the scheme `http` of RFC 9110, section 4.2.1. The host has 1 to 255
//! letters, digits, `.` and `-`. The port stands always, from 1 to 65,535 in decimal without leading
//! zeros. The path begins with `/` and has bytes from 0x21 to 0x7e, `?` and `#` like any others. All
//! has at most 1,024 bytes.
#![tactic(auto)]

mod parts;
#[cfg(test)]
mod tests;
mod uri;

pub use uri::{HOST_LIMIT, URI_LIMIT, Uri, is_uri, read_uri};
