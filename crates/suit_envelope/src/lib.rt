//! SUIT envelopes and manifests (draft-ietf-suit-manifest) as data: read from bytes, and written to
//! bytes.
//!
//! An envelope has the digest of its manifest, the blocks that sign it, the manifest and the payloads
//! that travel with it. A manifest names its components, and its command sequences say what is done to
//! them.
#![tactic(auto)]

mod commands;
mod envelope;
mod fault;
mod hashing;
mod indices;
mod labels;
mod laws;
mod manifest;
mod plan;
mod read;
mod read_manifest;
mod wrapper;
mod write;

pub use envelope::{Attached, Envelope};
pub use fault::EnvelopeFault;
pub use laws::{exactly_one, fields_are_proper, one_plan};
pub use manifest::Manifest;
pub use plan::Plan;
