//! The numbers of commands.

pub const VENDOR: u64 = 1;

pub const CLASS: u64 = 2;

pub const IMAGE_MATCH: u64 = 3;

pub const SET_INDEX: u64 = 12;

pub const ABORT: u64 = 14;

pub const TRY_EACH: u64 = 15;

pub const WRITE: u64 = 18;

pub const OVERRIDE: u64 = 20;

pub const FETCH: u64 = 21;

pub const COPY: u64 = 22;

pub const DEVICE: u64 = 24;

pub const RUN_SEQUENCE: u64 = 32;
