//! Frames: a kind byte, a length as four bytes big-endian, and a body.
//!
//! A pipe between a broker and an agent carries nothing else. `next_frame` takes one frame off a source
//! and no byte behind it, `frame_of` encodes one, and `one_reading` says that an input has exactly one
//! list of frames and one end.
#![tactic(auto)]

mod budget;
mod encode;
mod fill;
mod laws;
mod next;
#[cfg(test)]
mod tests;

pub use budget::Budget;
pub use encode::frame_of;
pub use fill::{Fill, fill_from};
pub use laws::one_reading;
pub use next::{Next, next_frame};
