ghost use Rattle.std.specs.Prelude.{◌≡◌, ◌↔◌, IsTrue, List, length};
ghost use Rattle.cbor_core.specs.declared.item.Item.{Item};
ghost use Rattle.cbor_core.specs.declared.item.Item.TheVariants as i;
ghost use Rattle.cbor_core.specs.declared.item.Pair.{Pair};
ghost use Rattle.cbor_core.specs.Spelling.{Spells};
ghost use Rattle.cbor_span.specs.Parts.{PairsSpelled};
ghost use Rattle.cbor_span.specs.Span.{IsItem};
ghost use Rattle.cose_core.specs.Headers.{JudgedAs};
ghost use Rattle.cose_core.specs.Reading.{CheckedAs};

use crate::fault::CoseFault;
use crate::labels::{ALG_HSS_LMS, HEADER_ALG, HEADER_CRIT};
use cbor_span::{check_whole, field_in, map_in, negative_in};

/// Whether the bytes, which are to spell an item, spell the algorithm HSS/LMS, -46.
fn names_hss_lms(alg: &[u8]) -> bool
    ensures { (x : Item) → Spells x alg.now → IsTrue result ↔ (x ≡ i.Negative ALG_HSS_LMS) }
{
    match negative_in(alg) {
        Some(n) => n == ALG_HSS_LMS,
        None => false,
    }
}

/// Whether so many headers name HSS/LMS and none of them is critical.
fn judge_pairs(count: u64, pairs: &[u8]) -> Result<(), CoseFault>
    ensures { (ps : List Pair) → PairsSpelled ps pairs.now → length ps ≡ count → JudgedAs ps result }
{
    let Some(alg) = field_in(count, pairs, HEADER_ALG) else {
        return Err(CoseFault::WrongAlg);
    };
    if !names_hss_lms(alg) {
        return Err(CoseFault::WrongAlg);
    }
    match field_in(count, pairs, HEADER_CRIT) {
        Some(_) => Err(CoseFault::Critical),
        None => Ok(()),
    }
}

/// Whether the bytes, which spell an item, are a map of headers with which their message is read.
fn check_map(protected: &[u8]) -> Result<(), CoseFault>
    requires { IsItem protected.now }
    ensures checked { CheckedAs protected.now result }
    ensures memory { result ≡ Err CoseFault.NoMemory → ⊥ }
{
    match map_in(protected) {
        Some((count, pairs)) => judge_pairs(count, pairs),
        None => Err(CoseFault::Shape),
    }
}

/// Whether protected bytes are such that their message is read (RFC 9052, section 3). No memory is
/// taken.
pub fn check_wrapped(protected: &[u8]) -> Result<(), CoseFault>
    ensures checked { CheckedAs protected.now result }
    ensures memory { result ≡ Err CoseFault.NoMemory → ⊥ }
{
    if protected.is_empty() {
        return Err(CoseFault::WrongAlg);
    }
    match check_whole(protected) {
        Ok(()) => check_map(protected),
        Err(_) => Err(CoseFault::Shape),
    }
}
