//! What was signed verifies.

ghost use Rattle.std.specs.Prelude.{◌<◌};
ghost use Rattle.hss_sign.specs.Params.{IsProperParams, capacity};
ghost use Rattle.hss_sign.specs.Sign.{public_of, signature_of};
ghost use Rattle.hss_verify.specs.Hss.{HssValid};

use crate::params::KeyParams;

/// For parameters that a key may have, any seed, each leaf below the capacity and any message: the
/// signature is valid under the public key (RFC 8554, 6.3).
pub fn signatures_verify(params: KeyParams, seed: &[u8; 32], leaf: u64, message: &[u8])
    requires proper { IsProperParams params }
    requires inside { leaf < capacity params }
    ensures valid { HssValid (public_of params seed.now) message.now (signature_of params seed.now leaf message.now) }
{}
