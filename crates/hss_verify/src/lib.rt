//! HSS signatures with SHA-256 and 32-byte hashes, verified: up to eight levels of LMS trees, each
//! of which signs the public key of the next (RFC 8554). Nothing here takes memory.
#![tactic(auto)]

pub use lms_core::Message;
pub use public_key::HssPublic;
pub use verify::{hss_verify, hss_verify_message};

mod public_key;
#[cfg(test)]
mod tests;
mod verify;
