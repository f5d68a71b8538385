//! Messages of the TEEP protocol (RFC 9397's architecture) between a device's agent and its manager,
//! read from bytes and written to bytes.
//!
//! A message is a kind, its options by their labels, and for a question and an error a little more.
//! Labels that are not known are kept.
#![tactic(auto)]

mod fault;
mod forms;
mod labels;
mod laws;
mod message;
mod operation;
mod options;
mod read;
mod read_options;
mod reported;
mod requested;
#[cfg(test)]
mod tests;
mod write;
mod write_options;
mod write_parts;

pub use fault::MessageFault;
pub use laws::{exactly_one, one_spelling, proper_messages};
pub use message::Message;
pub use operation::{Operation, Profile, Suite};
pub use options::Options;
pub use reported::Reported;
pub use requested::Requested;
