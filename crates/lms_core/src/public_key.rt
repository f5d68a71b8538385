//! LMS public keys.

ghost use Rattle.std.specs.Prelude.{◌≡◌, IfSome};

use crate::bytes::{array_at, read_u32};
use crate::parameters::{OtsParams, lms_of, ots_of};

/// The parts of an LMS public key (RFC 8554, 5.3), with the parameters of its types.
#[derive(Clone, Copy)]
pub(crate) struct PublicKey {
    pub lms_type: u32,
    pub ots_type: u32,
    /// The height of the tree.
    pub height: u32,
    pub params: OtsParams,
    /// I, by which hashes of this tree differ from those of others.
    pub identifier: [u8; 16],
    pub root: [u8; 32],
}

impl PublicKey {
    ghost use Rattle.lms_core.specs.declared.public_key.PublicKey.{PublicKey as Key};
    ghost use Rattle.lms_core.specs.Lms.{Spells};

    /// Reads a public key of 56 bytes. `None` comes exactly where the bytes are of another length
    /// or a type is not in the tables.
    pub(crate) fn read(bytes: &[u8]) -> Option<PublicKey>
        ensures found { IfSome result (λ key. Spells bytes.now key) }
        ensures only { (key : Key) → Spells bytes.now key → result ≡ Some key }
    {
        if bytes.len() != 56 {
            return None;
        }
        let lms_type = read_u32(bytes, 0);
        let ots_type = read_u32(bytes, 4);
        let height = lms_of(lms_type)?;
        let params = ots_of(ots_type)?;
        Some(PublicKey {
            lms_type,
            ots_type,
            height,
            params,
            identifier: array_at(bytes, 8),
            root: array_at(bytes, 24),
        })
    }
}
