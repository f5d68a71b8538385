//! Tests of the run of a manifest by its public calls: what each command does, in which order, where a
//! run waits, and how it goes on.
//!
//! They stand in a crate of their own, so that a changed row proves the rows alone.
#![tactic(auto)]

#[cfg(test)]
mod resumed;
#[cfg(test)]
mod samples;
#[cfg(test)]
mod tests;
