//! Typed fields of CBOR items: pieces that typed codecs over `cbor_core` are made of.
//!
//! A `Form` is a shape that an item may have, with the value that it stands for then. A form is read
//! and written alone, for each member of an array (`ListOf`), and for a field of a map by its label.
#![tactic(auto)]

mod fault;
mod field;
mod form;
mod id;
mod laws;
mod list;
mod parts;
mod put;
mod simple;
#[cfg(test)]
mod tests;

pub use fault::FormFault;
pub use field::{has_keys_among, negative_field, other_pairs, read_field, read_needed};
pub use form::Form;
pub use id::Id;
pub use laws::{fields_put_back, forms_determine, lists_determine};
pub use list::ListOf;
pub use parts::{into_bytes, into_map};
pub use put::{put_field, put_needed};
pub use simple::{ByteString, TextString, Truth, Unsigned};
