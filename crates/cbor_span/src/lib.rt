//! CBOR items where they stand in bytes. No memory is taken.
//!
//! `span` answers what `decode` of `cbor_core` answers, but for the item: how many bytes spell it, or
//! the same first fault. `check_whole` does so for `decode_whole`. Bytes that spell an item are then
//! looked at by readers that give its head, its value, and its parts as slices of these bytes.
#![tactic(auto)]

mod fields;
mod parts;
#[cfg(test)]
mod tests;
mod views;
mod walk;

pub use fields::{FrontMap, field_in, first_map};
pub use parts::{FrontItem, first, first_pair, open_first};
pub use views::{
    array_in, bytes_in, is_label, map_in, negative_in, null_in, open, tagged_in, text_in,
    unsigned_in,
};
pub use walk::{check_whole, span};
