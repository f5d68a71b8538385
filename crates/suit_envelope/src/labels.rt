//! The labels of an envelope, of a manifest and of its common part, and the numbers of faults.

/// The tag of an envelope.
pub const ENVELOPE_TAG: u64 = 107;

/// Of an envelope: the wrapper with the digest and the blocks.
pub const WRAPPER: u64 = 2;

/// Of an envelope: the manifest.
pub const MANIFEST: u64 = 3;

/// Of a manifest: its version.
pub const VERSION: u64 = 1;

/// Of a manifest: its sequence number.
pub const SEQUENCE: u64 = 2;

/// Of a manifest: its common part.
pub const COMMON: u64 = 3;

/// Of a manifest: its identifier.
pub const ID: u64 = 5;

/// Of a manifest: the sequence that validates.
pub const VALIDATE: u64 = 7;

/// Of a manifest: the sequence that fetches payloads.
pub const FETCH: u64 = 16;

/// Of a manifest: the sequence that installs.
pub const INSTALL: u64 = 20;

/// Of a common part: the manifests that it depends on.
pub const DEPENDENCIES: u64 = 1;

/// Of a common part: the identifiers of its components.
pub const COMPONENTS: u64 = 2;

/// Of a common part: the sequence that runs before the others.
pub const SHARED: u64 = 4;

/// The fault of an envelope as a whole.
pub const WHOLE_FAULT: u64 = 0;

/// The fault of a manifest's sequence number.
pub const SEQUENCE_FAULT: u64 = 12;

/// The fault of a manifest's common part.
pub const COMMON_FAULT: u64 = 13;

/// The fault of a manifest's identifier.
pub const ID_FAULT: u64 = 15;
