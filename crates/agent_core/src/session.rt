use base_types::Octets;

/// A session of an agent with its manager. It is not kept across a restart.
#[derive(Debug, Drop, Eq, PartialEq)]
pub enum Session {
    /// The agent awaits a question.
    Closed,
    /// A question with this token was answered, and the agent awaits an update with it.
    Ready(Octets),
}
