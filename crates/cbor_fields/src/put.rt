ghost use Rattle.std.specs.Prelude.{◌≡◌, ◌≤◌, length, IfOk};
ghost use Rattle.std.specs.List.{prefix_len};
ghost use Rattle.cbor_core.specs.declared.item.Item.{out-Item};
ghost use Rattle.cbor_fields.specs.Written.{is_below_by, is_below, put, put_if};

use crate::form::Form;
use base_types::{List, OrMemory};
use cbor_core::{Item, Pair};
use std::alloc::Global;

/// Puts the value of a field into a map's pairs, behind the first pairs whose keys are numbers below
/// the label. Where the keys ascend, none is the label, and the label is below 24, the keys ascend
/// then too: `fields_put_back` says so of a field that was left out. Refused for want of memory alone.
pub fn put_needed<V: Drop, F: Form<V>>(
    alloc: Global,
    pairs: List<Pair>,
    label: u64,
    value: &V,
) -> OrMemory<List<Pair>>
    ensures { IfOk result (λ ps. ps ≡ put label (F.written value.now) pairs) }
{
    put_item(pairs, label, F::write(alloc, value)?)
}

/// Puts the value of a field as `put_needed` does, where there is one. Refused for want of memory
/// alone.
#[tactic(auto, unfolding(crate::specs::Written::put_if))]
pub fn put_field<V: Drop, F: Form<V>>(
    alloc: Global,
    pairs: List<Pair>,
    label: u64,
    value: &Option<V>,
) -> OrMemory<List<Pair>>
    ensures { IfOk result (λ ps. ps ≡ put_if F.written label value.now pairs) }
{
    match value {
        Some(value) => put_needed::<V, F>(alloc, pairs, label, value),
        None => Ok(pairs),
    }
}

/// Whether a key is a number below the label.
fn is_number_below(key: &Item, label: u64) -> bool
    ensures { result ≡ is_below_by label (out-Item key.now) }
{
    match key {
        Item::Unsigned(n) => *n < label,
        _ => false,
    }
}

/// How many of the first pairs have keys that are numbers below the label.
fn place_of(label: u64, pairs: &[Pair]) -> usize
    ensures place { result ≡ prefix_len (is_below label) pairs.now }
    ensures within { result ≤ length pairs.now }
{
    for (place, pair) in pairs.iter().enumerate() {
        if !is_number_below(&pair.key, label) {
            return place;
        }
    }
    pairs.len()
}

/// Puts an item under a label.
#[tactic(auto, unfolding(crate::specs::Written::put))]
fn put_item(pairs: List<Pair>, label: u64, value: Item) -> OrMemory<List<Pair>>
    ensures { IfOk result (λ ps. ps ≡ put label value pairs) }
{
    let place = place_of(label, pairs.as_slice());
    let mut pairs = pairs.into_vec();
    let key = Item::Unsigned(label);
    pairs.insert(place, Pair { key, value })?;
    Ok(List::from_vec(pairs))
}
