//! Command sequences of SUIT manifests (draft-ietf-suit-manifest) as data: read from bytes, and written
//! to bytes.
//!
//! A sequence is an array of commands, each a number and then its argument. Sequences stand inside
//! one another as byte strings that wrap their encoding, to a fixed depth. The parameters that a
//! sequence sets, and digests alone, are codecs of their own.
#![tactic(auto)]

mod command;
mod digest;
mod digest_forms;
mod fault;
mod labels;
mod laws;
mod numbers;
mod parameters;
mod read_parameters;
mod reader;
#[cfg(test)]
mod tests;
mod write_parameters;
mod writer;

pub use command::{Command, Sequence};
pub use digest::{Digest, DigestAlgorithm};
pub use digest_forms::{DigestArray, WrappedDigest};
pub use fault::SequenceFault;
pub use laws::{
    digests_are_codec, exactly_one, one_spelling, parameters_are_codec, proper_sequences,
    refused_in_order, sequences_by_bytes,
};
pub use parameters::Parameters;
pub use reader::read;
pub use writer::write;
