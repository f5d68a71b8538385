//! Tests of manifests and their envelopes by their public calls: a good and a bad value of each member
//! and field, the order of refusals, digests, plans, and what is written.
//!
//! They stand in a crate of their own, so that a changed row proves the rows alone.
#![tactic(auto)]

#[cfg(test)]
mod tests;
