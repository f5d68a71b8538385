//! Which state a device's image stands for, and how it is read.
//!
//! The head of the image has the configuration that the device was given, and the bodies of the journal
//! behind it are changes, which lead from there to the state (`specs/Stands`).
#![tactic(auto)]

mod held;
mod image;
mod laws;
mod replay;
#[cfg(test)]
mod tests;

pub use held::Held;
pub use image::load;
pub use laws::{more_leads, new_images_stand, one_state};
