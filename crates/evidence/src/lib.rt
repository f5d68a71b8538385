//! What a device is known by, and what it says of itself to a challenge.
#![tactic(auto)]

mod claims;
mod ids;
#[cfg(test)]
mod tests;

pub use claims::evidence_of;
pub use ids::{DeviceIds, is_field};
