use base_types::Utf8;

/// What the head of a response announces.
#[derive(Debug, Drop)]
pub struct Announced {
    pub status: u16,
    /// The media type without its parameters, in lower case; empty where there is none.
    pub media: Utf8,
    /// The length of the body, in bytes.
    pub size: u64,
}
