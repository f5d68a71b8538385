ghost use Rattle.std.specs.Prelude.{◌≡◌};
ghost use Rattle.teep_messages.specs.Options.{no_options};

use crate::reported::Reported;
use crate::requested::Requested;
use base_types::{List, Octets, Utf8};
use cbor_core::Pair;
use std::alloc::Global;

/// The options of a message. Every option may stand in every kind.
#[derive(Debug, Drop, Eq, PartialEq)]
pub struct Options {
    /// Label 2, of 8 to 512 bytes.
    pub challenge: Option<Octets>,
    /// Label 3.
    pub versions: Option<List<u64>>,
    /// Label 6, the version that was selected.
    pub selected: Option<u64>,
    /// Label 7.
    pub evidence: Option<Octets>,
    /// Label 8, the manifests that the agent has.
    pub reported: Option<List<Reported>>,
    /// Label 10, envelopes.
    pub manifests: Option<List<Octets>>,
    /// Label 11, a message for a human reader.
    pub msg: Option<Utf8>,
    /// Label 12, what went wrong, for a human reader.
    pub err_msg: Option<Utf8>,
    /// Label 13, the media type of the evidence.
    pub evidence_format: Option<Utf8>,
    /// Label 14, the manifests that the agent asks for.
    pub requested: Option<List<Requested>>,
    /// Label 15, the encodings of the component identifiers of manifests to be removed.
    pub unneeded: Option<List<Octets>>,
    /// Label 20, of 8 to 64 bytes.
    pub token: Option<Octets>,
    /// All other labels, in ascending order of the encoded keys.
    pub other: List<Pair>,
}

impl Options {
    /// No option at all.
    pub fn new(alloc: Global) -> Options
        ensures { result ≡ no_options }
    {
        Options {
            challenge: None,
            versions: None,
            selected: None,
            evidence: None,
            reported: None,
            manifests: None,
            msg: None,
            err_msg: None,
            evidence_format: None,
            requested: None,
            unneeded: None,
            token: None,
            other: List::new(alloc),
        }
    }
}
