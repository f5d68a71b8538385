ghost use Rattle.std.specs.Prelude.{◌≡◌};

use crate::role::Role;
use base_types::NoMemory;
use thiserror::Error;

/// Why an item was not read as anchors. Of those that hold, the first in this order is told.
#[derive(Clone, Copy, Debug, Eq, Error, PartialEq)]
pub enum AnchorFault {
    /// The item is not an array of two arrays of byte strings.
    #[error("Shape")]
    Shape,
    /// More keys than 16 of this role; the manager's are counted first.
    #[error("TooMany {0}")]
    TooMany(Role),
    /// The first byte string, the manager's before the author's, that wraps no HSS key, and its place
    /// counted from 0.
    #[error("BadKey {0} {1}")]
    BadKey(Role, usize),
    /// No memory was left.
    #[error("no memory is left")]
    NoMemory,
}

impl From<NoMemory> for AnchorFault {
    ghost use Rattle.trust_anchors.specs.declared.fault.AnchorFault.TheVariants as faults;

    ghost from_gives = { λ _ e. e ≡ faults.NoMemory };

    fn from(_: NoMemory) -> AnchorFault {
        AnchorFault::NoMemory
    }
}

/// Why no anchor is told for a message.
#[derive(Clone, Copy, Debug, Eq, Error, PartialEq)]
pub enum SignFault {
    /// No anchor of the role verifies.
    #[error("NotSigned")]
    NotSigned,
    /// No memory was left.
    #[error("no memory is left")]
    NoMemory,
}

impl From<NoMemory> for SignFault {
    ghost use Rattle.trust_anchors.specs.declared.fault.SignFault.TheVariants as faults;

    ghost from_gives = { λ _ e. e ≡ faults.NoMemory };

    fn from(_: NoMemory) -> SignFault {
        SignFault::NoMemory
    }
}
