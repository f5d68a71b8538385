//! HSS keys of this product's devices and managers (RFC 8554): which parameters they may have, how they
//! are grown from a seed by several workers, and how they sign. Public keys and signatures are functions
//! of parameters, seed, leaf and message, and what is signed so is valid; what a key keeps spares work.
#![tactic(auto)]

mod grow;
mod key;
mod law;
mod one_time;
mod params;
mod secrets;
#[cfg(test)]
mod tests;
mod tree;

pub use grow::LeafGate;
pub use key::Key;
pub use law::signatures_verify;
pub use params::KeyParams;
