//! The outside of a broker: the connections that it dials and the child that it starts.
//!
//! Each is a trait, with one object in memory for tests. Whatever stands behind the traits, a socket or a
//! memory, what is written once over them holds for each. A broker carries messages between an agent, its
//! child, and a manager, to which it dials (RFC 9397, section 6).
#![tactic(auto)]

mod child;
mod connection;
mod dialer;
mod memory_dialer;
mod memory_spawner;
mod pipe;
mod spawner;
#[cfg(test)]
mod tests;

pub use connection::Connection;
pub use dialer::Dialer;
pub use memory_dialer::MemoryDialer;
pub use memory_spawner::MemorySpawner;
pub use spawner::Spawner;
