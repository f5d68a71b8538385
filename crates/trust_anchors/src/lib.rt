//! The keys that a device trusts, by role, and the test that a message is signed by one of them.
#![tactic(auto)]

mod anchors;
mod blocks;
mod fault;
mod laws;
mod reading;
mod role;
mod signers;
#[cfg(test)]
mod tests;
mod writing;

pub use anchors::Anchors;
pub use fault::{AnchorFault, SignFault};
pub use laws::exactly_one;
pub use role::Role;
