use base_types::{List, Octets, Utf8};
use suit_commands::Digest;

/// Why a run failed.
#[derive(Clone, Copy, Debug, Eq, PartialEq)]
pub enum Word {
    /// A condition does not hold.
    Condition,
    /// There are no bytes to take, or they are above the limit.
    Payload,
    /// One payload more is needed than may be fetched.
    Fetches,
}

/// What was fetched for a URI.
#[derive(Debug, Drop, Eq, PartialEq)]
pub struct Fetched {
    /// The URI that was needed.
    pub uri: Utf8,
    /// The payload, and none where the fetch failed.
    pub bytes: Option<Octets>,
}

/// What was fetched so far, in the order in which it came. Of two entries with one URI the first
/// counts.
pub type Env = List<Fetched>;

/// What a run made of a component.
#[derive(Debug, Drop, Eq, PartialEq)]
pub struct Built {
    /// The bytes that it has, where it has any.
    pub bytes: Option<Octets>,
    /// The digest that is set for it, where one is.
    pub digest: Option<Digest>,
    /// The size in bytes that is set for it, where one is.
    pub size: Option<u64>,
}

/// What came of a run.
#[derive(Debug, Drop, Eq, PartialEq)]
pub enum Outcome {
    /// It went through, and each component is this.
    Done(List<Built>),
    /// It stopped, and goes on once the payload of this URI, or its failure, is known.
    Need(Utf8),
    /// It failed.
    Failed(Word),
}
