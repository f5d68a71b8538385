//! The labels of parameters.

pub const VENDOR: u64 = 1;

pub const CLASS: u64 = 2;

pub const IMAGE_DIGEST: u64 = 3;

pub const IMAGE_SIZE: u64 = 14;

pub const CONTENT: u64 = 18;

pub const URI: u64 = 21;

pub const SOURCE: u64 = 22;

pub const DEVICE: u64 = 24;
