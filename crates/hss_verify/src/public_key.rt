//! HSS public keys.

ghost use Rattle.std.specs.Prelude.{◌≡◌, ◌↔◌, IfSome, IsSome};
ghost use Rattle.hss_verify.specs.Hss.{IsHssPublic};

use lms_core::{lms_signature_len, read_u32};
use std::marker::Model;

/// An HSS public key of known types, seen as its 60 bytes (RFC 8554, 6.1).
#[derive(Clone, Copy, Debug, PartialEq, Eq)]
pub struct HssPublic {
    bytes: [u8; 60],
}

impl Model for HssPublic {
    ghost use Rattle.std.specs.Prelude.{ℕ, List};
    ghost use Rattle.hss_verify.specs.Hss.{IsHssPublic};

    ghost Value = { List ℕ };

    ghost view = { λ key. key.bytes };

    ghost invariant = { λ key. IsHssPublic key.bytes };

    ghost inverse = { λ bytes. record { bytes = bytes } };
}

impl HssPublic {
    /// Reads a public key of 60 bytes. `None` comes exactly where the bytes are of another length,
    /// the number of levels is not 1 to 8, or a type is not in the tables.
    pub fn read(bytes: &[u8]) -> Option<HssPublic>
        ensures known { IsSome result ↔ IsHssPublic bytes.now }
        ensures value { IfSome result (λ key. key ≡ bytes.now) }
    {
        if bytes.len() != 60 {
            return None;
        }
        let levels = read_u32(bytes, 0);
        if levels == 0 || levels > 8 {
            return None;
        }
        lms_signature_len(&bytes[4..])?;
        let mut copy = [0; 60];
        copy.copy_from_slice(bytes);
        Some(HssPublic { bytes: copy })
    }

    /// The 60 bytes of the key, which `read` reads back.
    pub fn bytes(&self) -> [u8; 60]
        ensures value { result ≡ self.now }
        ensures known { IsHssPublic result }
    {
        self.bytes
    }
}
