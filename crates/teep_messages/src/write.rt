ghost use Rattle.std.specs.Prelude.{◌≡◌, ℕ, List, IfOk};
ghost use Rattle.teep_messages.specs.Messages.{MessageIs};
ghost use Rattle.teep_messages.specs.Proper.{IsProperMessage};

use crate::message::Message;
use crate::write_parts::write_item;
use base_types::{Octets, OrMemory};
use cbor_core::encode;
use std::alloc::Global;

impl Message {
    /// Writes a proper message as its bytes. Refused for want of memory alone.
    ///
    /// A message is proper where its fields keep their rules:
    ///
    /// - `challenge` has 8 to 512 bytes, and `token` 8 to 64, where they are there;
    /// - each `id` in `reported` and `requested`, and each member of `unneeded`, is the encoding of an
    ///   array of one or more byte strings;
    /// - no pair of `other` has the label of another option, and `other` ascends by the encoded keys
    ///   (RFC 8949, section 4.2.1);
    /// - no profile of a question is empty;
    /// - at most 16 containers stand inside one another, and the keys of each map ascend.
    ///
    /// Each message that was read is proper, and each that is proper is some bytes (`proper_messages`).
    pub fn write(&self, alloc: Global) -> OrMemory<Octets>
        requires { IsProperMessage self.now }
        // The bytes are this message, so that they are read as it.
        ensures is { IfOk result (λ bytes. MessageIs self.now bytes) }
        // No other bytes are this message: what was read is written as it was.
        ensures one { IfOk result (λ bytes. (other : List ℕ) → MessageIs self.now other → other ≡ bytes) }
    {
        let item = write_item(alloc, self)?;
        encode(alloc, &item)
    }
}
