ghost use Rattle.std.specs.Prelude.{◌≡◌, ◌∷◌, IfOk};
ghost use Rattle.cbor_core.specs.declared.item.Pair.{Pair};
ghost use Rattle.item_codec.specs.Ordered.{row, needed_row};

use base_types::{List, OrMemory};
use cbor_core::{Item, Pair};
use cbor_fields::Form;
use std::alloc::Global;

/// The pairs with one more before them. Refused for want of memory alone.
pub fn put_first(pairs: List<Pair>, key: Item, value: Item) -> OrMemory<List<Pair>>
    ensures is { IfOk result (λ ps. ps ≡ record { key = key; value = value } ∷ pairs) }
{
    let mut pairs = pairs.into_vec();
    pairs.insert(0, Pair { key, value })?;
    Ok(List::from_vec(pairs))
}

/// The pairs with a value under its label before them. Refused for want of memory alone.
pub fn put_needed_row<V: Drop, F: Form<V>>(
    alloc: Global,
    pairs: List<Pair>,
    label: u64,
    value: &V,
) -> OrMemory<List<Pair>>
    ensures is { IfOk result (λ ps. ps ≡ needed_row F.written label value.now pairs) }
{
    put_first(pairs, Item::Unsigned(label), F::write(alloc, value)?)
}

/// The pairs with a value under its label before them, where there is one. Refused for want of memory
/// alone.
pub fn put_row<V: Drop, F: Form<V>>(
    alloc: Global,
    pairs: List<Pair>,
    label: u64,
    value: &Option<V>,
) -> OrMemory<List<Pair>>
    ensures is { IfOk result (λ ps. ps ≡ row F.written label value.now pairs) }
{
    match value {
        Some(value) => put_needed_row::<V, F>(alloc, pairs, label, value),
        None => Ok(pairs),
    }
}
