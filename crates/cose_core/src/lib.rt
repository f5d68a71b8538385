//! COSE as this product uses it: COSE_Sign1 with HSS/LMS signatures, and their public keys as
//! COSE_Key (RFC 9052 and RFC 8778).
//!
//! `Sign1` is read and written with all headers that are not looked at. `Signed` is the same message
//! where it lies in its bytes, found without memory. `signed_bytes` are the bytes that its signature is
//! of, and `SignedHeads` the same without a copy. `CoseKey` is the form in which a public key travels.
#![tactic(auto)]

mod borrowed;
mod fault;
mod headers;
mod key;
mod labels;
mod laws;
mod members;
mod sign1;
mod signed;
#[cfg(test)]
mod tests;
mod wrapped;

pub use borrowed::Signed;
pub use fault::{CoseFault, KeyFault};
pub use key::CoseKey;
pub use labels::{
    ALG_HSS_LMS, HEADER_ALG, HEADER_CRIT, HEADER_KID, KEY_ALG, KEY_KID, KEY_KTY, KEY_PUB,
    KTY_HSS_LMS, SIGN1_TAG,
};
pub use laws::exactly_one;
pub use sign1::Sign1;
pub use signed::{SignedHeads, signed_bytes};
