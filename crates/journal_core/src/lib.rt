//! A durable list in a region of the image that a crash cannot tear.
//!
//! A change of the list is one byte on the disk: the gate of a new body, or the selector of the half that
//! counts. Whatever else is written is written first, where nothing counts yet, and made durable. So at
//! each moment the region stands for the list before the change or for the one behind it.
#![tactic(auto)]

mod append;
mod fault;
mod framed;
mod journal;
mod laws;
mod mount;
mod place;
mod region;
mod replace;
#[cfg(test)]
mod tests;

pub use fault::{AppendFault, JournalFault};
pub use framed::Framed;
pub use journal::Journal;
pub use laws::{kept_elsewhere, one_list, zeros_are_empty};
pub use place::Place;
pub use region::Region;
