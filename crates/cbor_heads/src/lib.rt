//! The heads of CBOR data items (RFC 8949, section 3), and the places in bytes where they stand.
//!
//! `Input` is bytes that are being read, from a place on, and `read_head` reads the head there.
//! `Writer` writes heads, strings and encoded pieces from borrowed parts, one behind the other.
#![tactic(auto)]

mod fault;
mod head;
mod input;
#[cfg(test)]
mod tests;
mod writer;

pub use fault::{Fault, Why};
pub use head::{Head, Kind, read_head};
pub use input::Input;
pub use writer::Writer;
