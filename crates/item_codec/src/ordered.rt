ghost use Rattle.std.specs.Prelude.{◌≡◌, Some, None};
ghost use Rattle.std.specs.Option.{option_copied};
ghost use Rattle.cbor_core.specs.declared.item.Item.{out-Item};
ghost use Rattle.cbor_core.specs.Views.{labelled_by};
ghost use Rattle.cbor_fields.specs.Views as Views;
ghost use Rattle.item_codec.specs.Answers.{Answers, mapped};
ghost use Rattle.item_codec.specs.Fields.{shaped};
ghost use Rattle.item_codec.specs.Ordered.{taken, taken_needed};
ghost use Rattle.item_codec.specs.Ordered as Ordered;

use crate::part::{read_optional, read_required};
use crate::refusal::Refusal;
use cbor_core::{Item, Pair};
use cbor_fields::Form;
use std::alloc::Global;

/// Whether a key is the unsigned integer.
fn is_labelled(key: &Item, label: u64) -> bool
    ensures { result ≡ labelled_by label (out-Item key.now) }
{
    match key {
        Item::Unsigned(n) => *n == label,
        _ => false,
    }
}

/// The value of the first pair, where its key is the label.
fn first_item(pairs: &[Pair], label: u64) -> Option<&Item>
    ensures { option_copied result ≡ Ordered.first_item label pairs.now }
{
    if let [first, ..] = pairs {
        if is_labelled(&first.key, label) {
            return Some(&first.value);
        }
    }
    None
}

/// The pairs behind the first, where its key is the label, and else all.
fn behind_key(pairs: &[Pair], label: u64) -> &[Pair]
    ensures { result.now ≡ Views.behind_key label pairs.now }
{
    if let [first, behind @ ..] = pairs {
        if is_labelled(&first.key, label) {
            return behind;
        }
    }
    pairs
}

/// The field under a label, where it stands first, and the pairs behind it. `fault` exactly where it
/// stands there and its value has another shape.
pub fn take_field<'a, V: Drop, E: Refusal, F: Form<V>>(
    alloc: Global,
    pairs: &'a [Pair],
    label: u64,
    fault: E,
) -> Result<(Option<V>, &'a [Pair]), E>
    ensures found { Answers E.no_memory (taken (shaped fault F.view) label pairs.now) (mapped (λ t. (t.0, t.1.now)) result) }
{
    match read_optional::<V, E, F>(alloc, first_item(pairs, label), fault) {
        Ok(value) => Ok((value, behind_key(pairs, label))),
        Err(fault) => Err(fault),
    }
}

/// The field under a label, which must stand first, and the pairs behind it. `missing` exactly where it
/// does not stand there, and `fault` exactly where its value has another shape.
pub fn take_needed<'a, V: Drop, E: Refusal, F: Form<V>>(
    alloc: Global,
    pairs: &'a [Pair],
    label: u64,
    missing: E,
    fault: E,
) -> Result<(V, &'a [Pair]), E>
    ensures found { Answers E.no_memory (taken_needed (shaped fault F.view) missing label pairs.now) (mapped (λ t. (t.0, t.1.now)) result) }
{
    match read_required::<V, E, F>(alloc, first_item(pairs, label), missing, fault) {
        Ok(value) => Ok((value, behind_key(pairs, label))),
        Err(fault) => Err(fault),
    }
}
