//! What all traits of the outside share: a stream of bytes in and out, a count of faults, which calls
//! of an object in memory are to fail, and the words of a command line.
//!
//! A board, a connection and a child are each a `Source` that is read, and more. What reads bytes by
//! pieces is written once over `Source`, and then holds for each of them.
#![tactic(auto)]

mod call_numbers;
mod fault_count;
mod source;
#[cfg(test)]
mod tests;
mod words;

pub use call_numbers::{CallNumbers, FailingCalls};
pub use fault_count::FaultCount;
pub use source::Source;
pub use words::{WordsFault, command_words};
