//! The types, limits and words that every other crate stands on.
//!
//! Octets, texts, lists and boxes are seen by contracts as what they hold, so that equal contents are
//! equal values. Want of memory is one ordinary answer, `NoMemory`, and a fault of the outside is
//! another, `Failed`.
#![tactic(auto)]

mod boxed;
mod buffer;
mod failed;
mod limits;
mod list;
mod memory;
mod number;
mod octets;
#[cfg(test)]
mod tests;
mod text;

pub use boxed::Boxed;
pub use buffer::zeros;
pub use failed::Failed;
pub use limits::{
    ANCHORS_LIMIT, ATTACHED_LIMIT, CATALOGUE_DEVICES_LIMIT, CATALOGUE_ENTRIES_LIMIT,
    CATALOGUE_PAYLOADS_LIMIT, CATALOGUE_WITHDRAWN_LIMIT, CBOR_DEPTH_LIMIT, CHALLENGE_LEAST,
    CHALLENGE_LIMIT, COMPONENT_ID_LIMIT, COMPONENTS_LIMIT, CONTENT_LIMIT, DEVICE_FIELD_LIMIT,
    FETCHES_LIMIT, FILE_LIMIT, FRAME_IN_LIMIT, FRAME_OUT_LIMIT, GET_RESPONSE_LIMIT,
    HTTP_BODY_LIMIT, INPUT_LIMIT, LEDGER_ROWS_LIMIT, MANIFESTS_LIMIT, NESTING_LIMIT,
    OUTSTANDING_TOKENS_LIMIT, PAYLOAD_LIMIT, POST_RESPONSE_LIMIT, QUOTA_LEAST, QUOTA_LIMIT,
    TOKEN_LEAST, TOKEN_LIMIT,
};
pub use list::List;
pub use memory::{NoMemory, OrMemory};
pub use number::u32_from_be_bytes;
pub use octets::Octets;
pub use text::Utf8;
