//! What a run over frames promises, whatever answers them: definitions, and the laws by which a loop that
//! answers one frame after the other keeps it.
//!
//! What a turn is, is not known here: from a state a frame leads to a state and a reply, and an image stands
//! for some part of a state. A run whose turns no crash can tear leaves, at each moment, the state behind a
//! prefix of its frames, with all replies to them but the last out and a front of the last.
#![tactic(auto)]

mod answer;
mod fault;
mod looking;
mod stop;

pub use answer::Answer;
pub use fault::TurnFault;
pub use looking::look;
pub use stop::Stop;
