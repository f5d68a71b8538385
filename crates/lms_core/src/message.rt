//! What is signed.

ghost use Rattle.std.specs.Prelude.{◌≡◌, ◌++◌, List, ℕ, map};
ghost use Rattle.std.specs.List.{concat};
ghost use Rattle.sha2.specs.Hashers.{Holds256};

use sha2::{Digest, Sha256};
use std::marker::Model;

/// A message whose parts may lie apart. What is signed are the parts one behind the other, and none
/// of them is copied.
///
/// Contracts see it as those bytes.
#[derive(Drop)]
pub struct Message<'a> {
    parts: &'a [&'a [u8]],
}

impl<'a> Model for Message<'a> {
    ghost Value = { List ℕ };

    ghost view = { λ it. concat (map (λ part. part.now) it.parts.now) };
}

impl<'a> Message<'a> {
    /// The message of these parts, in their order.
    pub fn new(parts: &'a [&'a [u8]]) -> Message<'a>
        ensures value { result ≡ concat (map (λ part. part.now) parts.now) }
    {
        Message { parts }
    }

    // The parts.
    fn parts(&self) -> &'a [&'a [u8]]
        ensures { concat (map (λ part. part.now) result.now) ≡ self.now }
    {
        self.parts
    }

    // Hashes the message behind what the hasher holds.
    pub(crate) fn add_to(&self, hasher: &mut Sha256)
        ensures { (front : List ℕ) → Holds256 hasher.old front → Holds256 hasher.new (front ++ self.now) }
    {
        for part in self.parts() {
            hasher.update(part);
        }
    }
}
