//! Diagnostic text of CBOR items (after RFC 8949, section 8), exact in both ways.
//!
//! `print` writes the one text of a proper item, and `read` reads exactly those texts.
#![tactic(auto)]

mod fault;
mod hex;
mod laws;
mod printer;
mod reader;
mod scan;
#[cfg(test)]
mod tests;

pub use fault::{DiagFault, TextFault};
pub use laws::exactly_one;
pub use printer::print;
pub use reader::{read, text_of};
