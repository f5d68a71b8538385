//! CBOR in core deterministic encoding (RFC 8949, section 4.2.1), both ways and exact.
//!
//! `decode` and `decode_whole` read bytes into an `Item`, or say which fault comes first and where.
//! `encode` writes a proper item, and `is_proper` tells which items are. The typed readers on `Item`
//! are what the codecs above look at an item through.
#![tactic(auto)]

mod copies;
mod fault;
mod item;
mod laws;
mod reader;
#[cfg(test)]
mod tests;
mod views;
mod writer;

pub use cbor_heads::{Fault, Why};
pub use copies::{copy_items, copy_pairs};
pub use fault::CborFault;
pub use item::{Item, Pair};
pub use laws::{exactly_one, exactly_one_whole, one_for_one, parts_are_proper, spelled_in_front};
pub use reader::{decode, decode_whole};
pub use views::field;
pub use writer::{encode, is_proper};
