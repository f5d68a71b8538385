//! Rollout waves: a manifest is offered first to a few devices, and to more of them once enough of the
//! first have confirmed it.
//!
//! `specs/Waves` says to which devices a wave is open, over a manager's ledger. A `WaveBook` answers that
//! without the ledger: it keeps one count for each step, and is told of each number that rises. The
//! contracts speak of every ledger that a book stands for.
#![tactic(auto)]

mod book;
mod counts;
mod laws;
mod note;
mod noting;
mod reading;
#[cfg(test)]
mod tests;
mod wave;

pub use book::WaveBook;
pub use laws::{any_notes, open_stays};
pub use note::Note;
pub use wave::{STEPS_LIMIT, Step, Wave};
