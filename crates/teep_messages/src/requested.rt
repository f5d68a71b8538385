use base_types::Octets;

/// A manifest that an agent asks for.
#[derive(Debug, Drop, Eq, PartialEq)]
pub struct Requested {
    /// The encoding of the manifest's component identifier.
    pub id: Octets,
    /// The least sequence number that will do, where the agent names one; else any does.
    pub sequence: Option<u64>,
    /// Whether the agent has the payload already, where it says so.
    pub flag: Option<bool>,
}
