ghost use Rattle.std.specs.Prelude.{◌≡◌, ◌↔◌, IsTrue, IfOk};
ghost use Rattle.cbor_core.specs.declared.item.Item.{out-Item};
ghost use Rattle.cose_core.specs.Headers.{HasGoodHeaders, JudgedAs, UnwrapsAs};
ghost use Rattle.cose_core.specs.Key.{is_alg_by};
ghost use Rattle.cose_core.specs.Reading.{CheckedAs};

use crate::fault::CoseFault;
use crate::labels::{ALG_HSS_LMS, HEADER_ALG, HEADER_CRIT};
use base_types::{List, NoMemory, OrMemory};
use cbor_core::{CborFault, Item, Pair, decode_whole, field};
use std::alloc::Global;

/// Whether an item names the algorithm HSS/LMS, -46.
pub fn is_hss_lms(alg: &Item) -> bool
    ensures is { IsTrue result ↔ (alg.now ≡ Item.Negative ALG_HSS_LMS) }
    ensures test { result ≡ is_alg_by (out-Item alg.now) }
{
    match alg {
        Item::Negative(n) => *n == ALG_HSS_LMS,
        _ => false,
    }
}

/// The headers that bytes wrap: they are to spell one map.
fn unwrap_headers(alloc: Global, protected: &[u8]) -> Result<List<Pair>, CoseFault>
    ensures { UnwrapsAs protected.now result }
{
    match decode_whole(alloc, protected) {
        Ok(Item::Map(headers)) => Ok(headers),
        Ok(_) | Err(CborFault::Bad(_)) => Err(CoseFault::Shape),
        Err(CborFault::NoMemory) => Err(CoseFault::NoMemory),
    }
}

/// Whether headers name HSS/LMS and none of them is critical.
fn judge_headers(headers: &[Pair]) -> Result<(), CoseFault>
    ensures { JudgedAs headers.now result }
{
    let Some(alg) = field(headers, HEADER_ALG) else {
        return Err(CoseFault::WrongAlg);
    };
    if !is_hss_lms(alg) {
        return Err(CoseFault::WrongAlg);
    }
    if field(headers, HEADER_CRIT).is_some() {
        return Err(CoseFault::Critical);
    }
    Ok(())
}

/// Whether protected bytes are such that their message is read (RFC 9052, section 3).
pub fn check_protected(alloc: Global, protected: &[u8]) -> Result<(), CoseFault>
    ensures { CheckedAs protected.now result }
{
    if protected.is_empty() {
        return Err(CoseFault::WrongAlg);
    }
    let headers = unwrap_headers(alloc, protected)?;
    judge_headers(headers.as_slice())
}

/// Whether protected bytes are such that their message is read.
pub fn are_good(alloc: Global, protected: &[u8]) -> OrMemory<bool>
    ensures { IfOk result (λ b. IsTrue b ↔ HasGoodHeaders protected.now) }
{
    match check_protected(alloc, protected) {
        Ok(()) => Ok(true),
        Err(fault) => match fault {
            CoseFault::NoMemory => Err(NoMemory),
            _ => Ok(false),
        },
    }
}
