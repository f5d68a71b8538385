//! The numbers of COSE that this product uses.

/// The tag of a COSE_Sign1 (RFC 9052, section 2).
pub const SIGN1_TAG: u64 = 18;

/// The header `alg`, the algorithm (RFC 9052, section 3.1).
pub const HEADER_ALG: u64 = 1;

/// The header `crit`, the headers that a reader has to understand (RFC 9052, section 3.1).
pub const HEADER_CRIT: u64 = 2;

/// The header `kid`, the key identifier (RFC 9052, section 3.1).
pub const HEADER_KID: u64 = 4;

/// The algorithm HSS/LMS, which is -46: the n of -1-n (RFC 8778, section 3).
pub const ALG_HSS_LMS: u64 = 45;

/// The label `kty` of a key, its type (RFC 9052, section 7.1).
pub const KEY_KTY: u64 = 1;

/// The label `kid` of a key, its identifier (RFC 9052, section 7.1).
pub const KEY_KID: u64 = 2;

/// The label `alg` of a key, the one algorithm that it is for (RFC 9052, section 7.1).
pub const KEY_ALG: u64 = 3;

/// The label `pub` of an HSS/LMS key, which is -1: the n of -1-n (RFC 8778, section 6.3).
pub const KEY_PUB: u64 = 0;

/// The key type HSS-LMS (RFC 8778, section 3).
pub const KTY_HSS_LMS: u64 = 5;
