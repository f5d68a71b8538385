ghost use Rattle.std.specs.Prelude.{◌≡◌, IfOk};
ghost use Rattle.std.specs.Option.{option_copied};
ghost use Rattle.cbor_core.specs.declared.item.Item.{out-Item};
ghost use Rattle.cbor_fields.specs.Reads.{ReadsForm};
ghost use Rattle.cbor_fields.specs.Views.{field_of, needed_of, keys_among, is_among, others, negative_labelled_by};
ghost use Rattle.cbor_fields.specs.Views as Views;

use crate::fault::FormFault;
use crate::form::Form;
use base_types::{List, OrMemory};
use cbor_core::{Item, Pair, field};
use std::alloc::Global;

/// The field of a map under a label, where it is there. `Shape` exactly where its value has another
/// shape than the form.
pub fn read_field<V: Drop, F: Form<V>>(
    alloc: Global,
    pairs: &[Pair],
    label: u64,
) -> Result<Option<V>, FormFault>
    ensures { ReadsForm (field_of F.view label pairs.now) result }
{
    match field(pairs, label) {
        Some(item) => Ok(Some(F::read(alloc, item)?)),
        None => Ok(None),
    }
}

/// The field of a map under a label. `Shape` exactly where it is not there, or its value has another
/// shape than the form.
pub fn read_needed<V: Drop, F: Form<V>>(
    alloc: Global,
    pairs: &[Pair],
    label: u64,
) -> Result<V, FormFault>
    ensures { ReadsForm (needed_of F.view label pairs.now) result }
{
    match field(pairs, label) {
        Some(item) => F::read(alloc, item),
        None => Err(FormFault::Shape),
    }
}

/// Whether a key is the number -1-n with this n.
fn is_negative_label(key: &Item, label: u64) -> bool
    ensures { result ≡ negative_labelled_by label (out-Item key.now) }
{
    match key {
        Item::Negative(n) => *n == label,
        _ => false,
    }
}

/// The value of the first pair whose key is the negative number -1-`label`. None exactly where no key
/// is.
pub fn negative_field(pairs: &[Pair], label: u64) -> Option<&Item>
    ensures { option_copied result ≡ Views.negative_field label pairs.now }
{
    for pair in pairs {
        if is_negative_label(&pair.key, label) {
            return Some(&pair.value);
        }
    }
    None
}

/// Whether a key is one of the labels.
fn is_key_among(labels: &[u64], key: &Item) -> bool
    ensures { result ≡ is_among labels.now (out-Item key.now) }
{
    for label in labels {
        if key.as_unsigned() == Some(*label) {
            return true;
        }
    }
    false
}

/// The pairs behind the first, where its key is the label, and else all.
fn behind_key(label: u64, pairs: &[Pair]) -> &[Pair]
    ensures { result.now ≡ Views.behind_key label pairs.now }
{
    if let [first, behind @ ..] = pairs {
        if is_key_among(&[label], &first.key) {
            return behind;
        }
    }
    pairs
}

/// Whether the keys of a map are some of the labels, in the labels' order.
pub fn has_keys_among(labels: &[u64], pairs: &[Pair]) -> bool
    ensures { result ≡ keys_among labels.now pairs.now }
{
    let mut rest = pairs;
    for label in labels {
        rest = behind_key(*label, rest);
    }
    rest.is_empty()
}

/// A copy of the pairs whose key is none of the labels, in their order. Refused for want of memory
/// alone.
pub fn other_pairs(alloc: Global, labels: &[u64], pairs: &[Pair]) -> OrMemory<List<Pair>>
    ensures { IfOk result (λ xs. xs ≡ others labels.now pairs.now) }
{
    let mut copies = List::new(alloc);
    for pair in pairs {
        if !is_key_among(labels, &pair.key) {
            copies.push(pair.try_clone(alloc)?)?;
        }
    }
    Ok(copies)
}
