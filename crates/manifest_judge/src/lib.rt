//! One manifest of an Update (RFC 9397, "Update") is judged: against the configuration of a device and
//! the manifests that it keeps so far, without a store and without the bytes of stored components.
//!
//! Ten words say why a manifest is not taken, in the order in which they are looked at. A manifest that
//! needs a payload waits, and is not run again from the start once the payload is there.
#![tactic(auto)]

mod begin;
mod candidate;
mod components;
mod kept;
mod laws;
mod run;
mod verdict;
mod word;

pub use candidate::{Candidate, Entry};
pub use laws::{accepted, made_are_sound, needs_an_address, one_verdict, passes_stay, words_stay};
pub use verdict::Verdict;
pub use word::Word;
