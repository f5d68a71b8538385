//! A run of a device's agent: the image is mounted, and then frames are taken from the input and answered,
//! one after the other.
#![tactic(auto)]

mod run;
mod status;
#[cfg(test)]
mod tests;
mod turn;
mod words;

pub use run::run_agent;
pub use status::Status;
