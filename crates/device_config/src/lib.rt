//! What a device keeps: its configuration, in the head of its image.
//!
//! The image has a head of 65,536 bytes and the region of a journal behind it.
#![tactic(auto)]

mod config;
mod fault;
mod head;
mod image;
mod laws;
mod load;
mod read;
#[cfg(test)]
mod tests;
mod write;

pub use config::{CONFIG_LIMIT, Config, KEY_SEED_SIZE};
pub use fault::{ConfigFault, MountFault};
pub use head::{HEAD_SIZE, LAYOUT};
pub use image::{image_of, journal_of};
pub use laws::one_image;
pub use load::load_config;
