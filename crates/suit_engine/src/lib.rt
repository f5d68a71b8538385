//! The run of a SUIT manifest (draft-ietf-suit-manifest, "Abstract Machine"): its sequences are carried
//! out, and what each component is comes out.
//!
//! A run waits where it needs a payload from outside, and goes on from there once the payload, or its
//! failure, is known.
#![tactic(auto)]

mod conditions;
mod engine;
mod going;
mod laws;
mod outcome;
mod pass;
mod passes;
mod payloads;
mod place;
mod run;
mod shared;
mod state;
mod stop;
mod world;

pub use engine::Engine;
pub use laws::{done_stays, needs_an_address, one_outcome, waits_on};
pub use outcome::{Built, Env, Fetched, Outcome, Word};
