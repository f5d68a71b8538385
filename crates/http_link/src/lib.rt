//! A connection: bytes in and bytes out, as a trait, and one in memory for tests.
//!
//! Whatever stands behind the trait, a socket or a memory, what is written once over it holds for each.
#![tactic(auto)]

mod link;
mod memory_link;
#[cfg(test)]
mod tests;

pub use link::Link;
pub use memory_link::MemoryLink;
