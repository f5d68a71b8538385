//! Every limit of the product, each with its unit.

/// How many CBOR containers (arrays, maps, tags) may stand inside one another.
pub const CBOR_DEPTH_LIMIT: u8 = 16;

/// The longest body of a frame into the agent, in bytes.
pub const FRAME_IN_LIMIT: usize = 1 << 24;

/// The longest body of a frame out of the agent, in bytes.
pub const FRAME_OUT_LIMIT: usize = 1 << 24;

/// The most that one run takes from its input, in bytes.
pub const INPUT_LIMIT: u64 = 1 << 40;

/// The longest body of an HTTP request, in bytes.
pub const HTTP_BODY_LIMIT: u64 = 1 << 24;

/// The longest HTTP response to a POST that the broker reads, in bytes.
pub const POST_RESPONSE_LIMIT: u64 = 1 << 21;

/// The longest HTTP response to a GET that the broker reads, in bytes: a payload.
pub const GET_RESPONSE_LIMIT: u64 = PAYLOAD_LIMIT as u64;

/// The longest payload, in bytes.
pub const PAYLOAD_LIMIT: usize = 1 << 23;

/// The longest payload attached to an envelope, in bytes.
pub const ATTACHED_LIMIT: usize = PAYLOAD_LIMIT;

/// The longest content that a manifest writes, in bytes.
pub const CONTENT_LIMIT: usize = PAYLOAD_LIMIT;

/// How many manifests one Update may have.
pub const MANIFESTS_LIMIT: usize = 8;

/// How many components one manifest may have.
pub const COMPONENTS_LIMIT: usize = 16;

/// How many distinct URIs one Update may fetch.
pub const FETCHES_LIMIT: usize = 16;

/// How many run-sequences and try-eaches may stand inside one another.
pub const NESTING_LIMIT: u8 = 8;

/// The longest encoding of a component identifier in a manifest, in bytes.
pub const COMPONENT_ID_LIMIT: usize = 128;

/// The shortest token, in bytes.
pub const TOKEN_LEAST: usize = 8;

/// The longest token, in bytes.
pub const TOKEN_LIMIT: usize = 64;

/// The shortest challenge, in bytes.
pub const CHALLENGE_LEAST: usize = 8;

/// The longest challenge, in bytes.
pub const CHALLENGE_LIMIT: usize = 512;

/// The least quota of a device, in bytes of weight.
pub const QUOTA_LEAST: u64 = 16_384;

/// The greatest quota of a device, in bytes of weight.
pub const QUOTA_LIMIT: u64 = 33_554_432;

/// The longest identifier of a vendor, a class or a device, in bytes.
pub const DEVICE_FIELD_LIMIT: usize = 64;

/// How many keys of one role a device may trust.
pub const ANCHORS_LIMIT: usize = 16;

/// The longest file that the tool reads, in bytes.
pub const FILE_LIMIT: usize = 1 << 29;

/// How many tokens of a manager may be outstanding at a time.
pub const OUTSTANDING_TOKENS_LIMIT: usize = 1_024;

/// How many rows a manager's ledger may have.
pub const LEDGER_ROWS_LIMIT: usize = 16_384;

/// How many devices a catalogue may have.
pub const CATALOGUE_DEVICES_LIMIT: usize = 256;

/// How many entries (manifests on offer) a catalogue may have.
pub const CATALOGUE_ENTRIES_LIMIT: usize = 64;

/// How many withdrawn manifests a catalogue may name.
pub const CATALOGUE_WITHDRAWN_LIMIT: usize = 64;

/// How many payloads a catalogue may serve.
pub const CATALOGUE_PAYLOADS_LIMIT: usize = 64;
