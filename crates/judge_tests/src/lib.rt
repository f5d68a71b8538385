//! Tests of the judging of one manifest by its public calls: each word once, the order of words, where a
//! manifest waits, and the row of one that passes.
//!
//! They stand in a crate of their own, so that a changed row proves the rows alone.
#![tactic(auto)]

#[cfg(test)]
mod samples;
#[cfg(test)]
mod tests;
