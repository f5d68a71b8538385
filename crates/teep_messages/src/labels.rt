//! The numbers of the kinds, the labels of options, and the numbers by which the other parts of a
//! message are named.

pub const QUERY_REQUEST: u64 = 1;

pub const QUERY_RESPONSE: u64 = 2;

pub const UPDATE: u64 = 3;

pub const SUCCESS: u64 = 5;

pub const ERROR: u64 = 6;

pub const CHALLENGE: u64 = 2;

pub const VERSIONS: u64 = 3;

pub const SELECTED: u64 = 6;

pub const EVIDENCE: u64 = 7;

pub const REPORTED: u64 = 8;

pub const MANIFESTS: u64 = 10;

pub const MSG: u64 = 11;

pub const ERR_MSG: u64 = 12;

pub const EVIDENCE_FORMAT: u64 = 13;

pub const REQUESTED: u64 = 14;

pub const UNNEEDED: u64 = 15;

pub const TOKEN: u64 = 20;

/// The message as a whole.
pub const MESSAGE: u64 = 100;

/// The map of options.
pub const OPTIONS: u64 = 101;

pub const SUITES: u64 = 102;

pub const PROFILES: u64 = 103;

/// What a question asks for.
pub const ITEMS: u64 = 104;

/// The number of an error.
pub const CODE: u64 = 105;

/// All labels of options.
pub const LABELS: [u64; 12] = [
    CHALLENGE,
    VERSIONS,
    SELECTED,
    EVIDENCE,
    REPORTED,
    MANIFESTS,
    MSG,
    ERR_MSG,
    EVIDENCE_FORMAT,
    REQUESTED,
    UNNEEDED,
    TOKEN,
];
