use suit_commands::Sequence;

/// The sequences of a manifest, each empty where the manifest has none.
#[derive(Debug, Drop, Eq, PartialEq)]
pub struct Plan {
    /// What runs before each of the others, from the common part.
    pub shared: Sequence,
    /// Member 16, payload-fetch.
    pub fetch: Sequence,
    /// Member 20, install.
    pub install: Sequence,
    /// Member 7, validate.
    pub validate: Sequence,
}
