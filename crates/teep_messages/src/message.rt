use crate::operation::{Profile, Suite};
use crate::options::Options;
use base_types::List;

/// A message of this product's profile of the TEEP protocol.
#[derive(Debug, Drop, Eq, PartialEq)]
pub enum Message {
    /// A manager's question. Bit 0 of `items` asks for attestation, bit 1 for the components.
    QueryRequest {
        options: Options,
        suites: List<Suite>,
        profiles: List<Profile>,
        items: u64,
    },
    /// An agent's answer to a question.
    QueryResponse {
        options: Options,
    },
    /// A manager's order to install and remove.
    Update {
        options: Options,
    },
    /// An agent's report that an order was carried out.
    Success {
        options: Options,
    },
    /// An agent's report of what went wrong, by a number.
    Error {
        options: Options,
        code: u64,
    },
}
