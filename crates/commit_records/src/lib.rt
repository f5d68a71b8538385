//! A change of a device's state as bytes: the body of a record in its journal.
//!
//! Version 1 is `[1, leaf, rows]`, a row `[id, sequence, present, [[component id, content], ..]]`.
//! Version 2 is `[2, leaf, rows, anchors]`, a row `[id, sequence, present, [[component id, digest,
//! content], ..]]`, where a digest is null or `[alg, bytes]`, and anchors are null or an item of anchors.
//! Both are read, and version 2 is written.
#![tactic(auto)]

mod fault;
mod forms;
mod laws;
mod read;
mod rows;
#[cfg(test)]
mod tests;
mod write;

pub use fault::ChangeFault;
pub use laws::one_change;
pub use read::read_change;
pub use write::write_change;
