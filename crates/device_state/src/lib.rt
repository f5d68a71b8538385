//! What a device keeps behind its configuration: which leaves of its key are used, the manifests that
//! it has or had, the components of each, and the trust anchors that an update gave it.
//!
//! `specs/State` says what a state is, what a change makes of it and which states are valid. All states
//! that are equal are equal values: the manifests stand in ascending order of their identifiers, and so
//! do the components of each.
#![tactic(auto)]

mod change;
mod copies;
mod heads;
mod identifier;
mod ids;
mod laws;
mod order;
mod placing;
mod rows;
mod sound;
#[cfg(test)]
mod tests;
mod weight;

pub use change::Change;
pub use heads::{PartHead, RowHead};
pub use ids::HasId;
pub use laws::{changes_keep_order, heads_weigh_the_same};
pub use placing::put;
pub use rows::{ComponentRow, ManifestRow};
pub use sound::is_sound;
pub use weight::{heads_weight, rows_weight};
