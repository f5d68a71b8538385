//! The two texts that tell what a device keeps: a listing of its manifests and their components, and an
//! audit of the stored images against the digests that are kept of them.
//!
//! Both are made over any `Store` and any `Board`. They load at most: what is stored stays as it was, and
//! nothing is sent.
#![tactic(auto)]

mod audited;
mod findings;
mod images;
mod laws;
mod lines;
mod listed;
#[cfg(test)]
mod tests;

pub use audited::audit;
pub use component_store::LoadFault;
pub use laws::{audits_are_whole, findings_are_exact, listings_ascend};
pub use listed::listing;
