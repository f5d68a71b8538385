//! Input, output and disk of a component as one device, so that what was sent and what is durable belong
//! to the same moments.
#![tactic(auto)]

mod board;
mod call;
mod crash;
mod fault_counts;
mod file_board;
mod gated;
mod history;
mod memory_board;
mod stop;
#[cfg(test)]
mod tests;

pub use board::Board;
pub use call::Call;
pub use file_board::FileBoard;
pub use gated::write_gated;
pub use memory_board::MemoryBoard;
