//! Codecs by one definition: a view gives an item its value or its first refusal, as a `Result`, and a
//! function of the value gives the item that it is written as.
//!
//! A codec reads part by part. Each reader here answers by one clause: what the view gives, unless
//! memory runs out. What a codec keeps follows from the laws in `proofs/Public`, in two chains with the
//! shape of its definition.
#![tactic(auto)]

mod ordered;
mod part;
mod refusal;
mod row;
#[cfg(test)]
mod tests;
mod wrap;

pub use ordered::{take_field, take_needed};
pub use part::{read_known, read_known_sized, read_optional, read_part, read_required, read_sized};
pub use refusal::Refusal;
pub use row::{put_first, put_needed_row, put_row};
pub use wrap::unwrap_item;
