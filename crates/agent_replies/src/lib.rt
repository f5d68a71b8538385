//! What a device's agent says to a question of its manager, and how it signs what it says.
#![tactic(auto)]

mod answer;
mod question;
mod response;
mod sign;
#[cfg(test)]
mod tests;

pub use answer::{Answer, answer_question};
pub use sign::sign_message;
