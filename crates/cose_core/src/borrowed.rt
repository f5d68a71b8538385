ghost use Rattle.std.specs.Prelude.{◌≡◌, ◌↔◌, IfOk, MatchResult};
ghost use Rattle.cbor_span.specs.Span.{IsItem};
ghost use Rattle.cose_core.specs.declared.sign1.Sign1.{Sign1};
ghost use Rattle.cose_core.specs.Borrowed.{IsPartsOf, SignedAs};
ghost use Rattle.cose_core.specs.Sign1.{Sign1Is, RefusedAs};

use crate::fault::CoseFault;
use crate::members::form_in;
use crate::wrapped::check_wrapped;
use cbor_span::check_whole;

/// A COSE_Sign1 (RFC 9052, section 4.2) where it lies in some bytes.
#[derive(Clone, Copy, Debug, Eq, PartialEq)]
pub struct Signed<'a> {
    /// The protected headers as they are signed: no bytes, or the encoding of a map.
    pub protected: &'a [u8],
    /// The key identifier: the byte string at label 4 of the unprotected headers. None where nothing or
    /// no byte string is there.
    pub kid: Option<&'a [u8]>,
    /// What is signed, or None where it is not here.
    pub payload: Option<&'a [u8]>,
    /// The signature.
    pub signature: &'a [u8],
}

/// Finds the parts of a COSE_Sign1 in bytes that spell an item.
fn read_spelled(bytes: &[u8]) -> Result<Signed<'_>, CoseFault>
    requires { IsItem bytes.now }
    ensures { SignedAs bytes.now result }
{
    let Some(value) = form_in(bytes) else {
        return Err(CoseFault::Shape);
    };
    match check_wrapped(value.protected) {
        Ok(()) => Ok(value),
        Err(fault) => Err(fault),
    }
}

/// Finds the parts of a COSE_Sign1 in any bytes.
fn read_bytes(bytes: &[u8]) -> Result<Signed<'_>, CoseFault>
    ensures { SignedAs bytes.now result }
{
    match check_whole(bytes) {
        Ok(()) => read_spelled(bytes),
        Err(fault) => Err(CoseFault::NotCose(fault)),
    }
}

impl<'a> Signed<'a> {
    /// Finds the COSE_Sign1 that all the bytes spell, with the tag 18 or without (RFC 9052, section 4.2).
    /// No memory is taken and nothing is copied; the work is linear in the bytes.
    ///
    /// `NotCose` where they spell no item, with the first fault. `Shape` where the item is not
    /// `[protected, unprotected, payload, signature]`: a byte string that is empty or wraps one map, a
    /// map, a byte string or null, and a byte string. `WrongAlg` where the protected map has not
    /// `1: -46`. `Critical` where it has 2. The first that holds is told. `NoMemory` never comes.
    ///
    /// Bytes are one value or have one refusal, and never both (`exactly_one`). So this reader and
    /// `Sign1::read` agree on all bytes for which that one has the memory.
    pub fn read(bytes: &'a [u8]) -> Result<Signed<'a>, CoseFault>
        // What is found are the parts of what the bytes are.
        ensures found { IfOk result (λ w. (v : Sign1) × Sign1Is v bytes.now × IsPartsOf w v) }
        // What the bytes are is found.
        ensures only { (v : Sign1) → Sign1Is v bytes.now → MatchResult result (λ w. IsPartsOf w v) (λ _. ⊥) }
        // A refusal is the answer exactly where the bytes are refused so.
        ensures refused { (e : CoseFault) → (result ≡ Err e) ↔ RefusedAs bytes.now e }
    {
        read_bytes(bytes)
    }
}
