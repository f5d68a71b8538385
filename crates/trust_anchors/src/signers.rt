ghost use Rattle.std.specs.Prelude.{◌++◌};
ghost use Rattle.cbor_core.specs.Spelling.{spelling};
ghost use Rattle.cose_core.specs.Signed.{signed_item};
ghost use Rattle.trust_anchors.specs.Verified.{SearchedAs, SearchedOver};

use crate::fault::SignFault;
use cose_core::SignedHeads;
use hss_verify::{HssPublic, Message, hss_verify_message};
use std::alloc::Global;

/// The place of the first of some keys that made the signature over protected bytes and a payload
/// (RFC 9052, section 4.4). Neither of the two is copied.
pub fn signer_over(
    alloc: Global,
    keys: &[HssPublic],
    protected: &[u8],
    payload: &[u8],
    signature: &[u8],
) -> Result<usize, SignFault>
    ensures { SearchedOver keys.now (spelling (signed_item protected.now payload.now)) signature.now result }
{
    let heads = SignedHeads::of(alloc, protected, payload)?;
    signer_round(keys, &heads, protected, payload, signature)
}

// The same with the heads between them.
fn signer_round(
    keys: &[HssPublic],
    heads: &SignedHeads,
    protected: &[u8],
    payload: &[u8],
    signature: &[u8],
) -> Result<usize, SignFault>
    ensures { SearchedAs keys.now (heads.now.front ++ (protected.now ++ (heads.now.middle ++ payload.now))) signature.now result }
{
    let parts = [
        heads.front.as_slice(),
        protected,
        heads.middle.as_slice(),
        payload,
    ];
    first_signer(keys, &Message::new(&parts), signature)
}

/// The place of the first of some keys that made the signature of the message.
fn first_signer(
    keys: &[HssPublic],
    message: &Message<'_>,
    signature: &[u8],
) -> Result<usize, SignFault>
    ensures { SearchedAs keys.now message.now signature.now result }
{
    for (at, key) in keys.iter().enumerate() {
        if hss_verify_message(key, message, signature) {
            return Ok(at);
        }
    }
    Err(SignFault::NotSigned)
}
