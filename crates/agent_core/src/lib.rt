//! One turn of a device's agent: an event comes in, one reply goes out, and what it changes is durable
//! before.
//!
//! The loop that takes frames from the input and sends the replies stands in `turn_loop`, over the trait
//! that an agent meets.
#![tactic(auto)]

mod agent;
mod event;
mod hearing;
mod laws;
mod leaf;
mod refusal;
mod reply;
mod session;
#[cfg(test)]
mod tests;

pub use agent::Agent;
pub use event::{Event, event_of};
pub use laws::{leaves_ascend, one_turn};
pub use refusal::Refusal;
pub use session::Session;
