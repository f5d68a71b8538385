//! LMS signatures with SHA-256 and 32-byte hashes, verified: one Merkle tree of RFC 8554, and the
//! one-time signatures LM-OTS at its leaves.
//!
//! `lms_verify` is the verifier. The other functions are the pieces that it is made of, which a
//! signer shares: the parameter sets, the digits of a message hash, the hash chains and the nodes
//! of the tree. Nothing here takes memory.
#![tactic(auto)]

pub use bytes::read_u32;
pub use chains::{chain, chain_step};
pub use digits::{checksum, coef, signed_string};
pub use message::Message;
pub use one_time::{key_hash, message_hash};
pub use parameters::{OtsParams, lms_of, ots_of};
pub use tree::{inner_hash, leaf_hash};
pub use verify::{lms_has_form, lms_signature_len, lms_verify, lms_verify_message};

mod bytes;
mod chains;
mod digits;
mod message;
mod one_time;
mod parameters;
mod public_key;
#[cfg(test)]
mod tests;
mod tree;
mod verify;
