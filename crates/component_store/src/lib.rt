//! What a device keeps besides its configuration, in an image that a crash cannot tear.
//!
//! A `Store` is mounted from the image of a board. A change of its state is prepared, which takes all the
//! memory that is needed, and then committed: at each moment of the commit the image stands for the state
//! before it or for the one behind it.
#![tactic(auto)]

mod any;
mod bodies;
mod change;
mod commit;
mod fault;
mod log_store;
mod mounting;
mod prepare;
mod prepared;
mod store;
#[cfg(test)]
mod tests;

pub use any::AnyStore;
pub use device_config::{Config, MountFault, image_of};
pub use device_state::{Change, ComponentRow, ManifestRow, PartHead, RowHead};
pub use fault::{LoadFault, PrepareFault};
pub use log_store::LogStore;
pub use mounting::mount;
pub use prepared::Prepared;
pub use store::Store;
