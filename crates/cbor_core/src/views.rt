ghost use Rattle.std.specs.Prelude.{◌≡◌, option_map};
ghost use Rattle.std.specs.Option.{option_copied};
ghost use Rattle.cbor_core.specs.Views.{unsigned_of, bytes_of, text_of, array_of, map_of, truth_of, labelled_by};
ghost use Rattle.cbor_core.specs.Views as Views;
ghost use Rattle.cbor_core.specs.declared.item.Item.{out-Item};

use crate::item::{Item, Pair};

impl Item {
    /// The number of an unsigned integer. None exactly for every other item.
    pub fn as_unsigned(&self) -> Option<u64>
        ensures { result ≡ unsigned_of self.now }
    {
        match self {
            Item::Unsigned(n) => Some(*n),
            _ => None,
        }
    }

    /// The bytes of a byte string. None exactly for every other item.
    pub fn as_bytes(&self) -> Option<&[u8]>
        ensures { option_map (λ x. x.now) result ≡ bytes_of self.now }
    {
        match self {
            Item::Bytes(bytes) => Some(bytes.as_slice()),
            _ => None,
        }
    }

    /// The text of a text string. None exactly for every other item.
    pub fn as_text(&self) -> Option<&str>
        ensures { option_map (λ x. x.now) result ≡ text_of self.now }
    {
        match self {
            Item::Text(text) => Some(text.as_str()),
            _ => None,
        }
    }

    /// The members of an array. None exactly for every other item.
    pub fn as_array(&self) -> Option<&[Item]>
        ensures { option_map (λ x. x.now) result ≡ array_of self.now }
    {
        match self {
            Item::Array(members) => Some(members.as_slice()),
            _ => None,
        }
    }

    /// The pairs of a map, in their order. None exactly for every other item.
    pub fn as_map(&self) -> Option<&[Pair]>
        ensures { option_map (λ x. x.now) result ≡ map_of self.now }
    {
        match self {
            Item::Map(pairs) => Some(pairs.as_slice()),
            _ => None,
        }
    }

    /// The value of false or true. None exactly for every other item.
    pub fn as_truth(&self) -> Option<bool>
        ensures { result ≡ truth_of self.now }
    {
        match self {
            Item::Truth(b) => Some(*b),
            _ => None,
        }
    }
}

/// Whether a key is the unsigned integer.
fn is_labelled(key: &Item, label: u64) -> bool
    ensures { result ≡ labelled_by label (out-Item key.now) }
{
    match key {
        Item::Unsigned(n) => *n == label,
        _ => false,
    }
}

/// The value of the first pair whose key is the unsigned integer `label`. None exactly where no key is.
pub fn field(pairs: &[Pair], label: u64) -> Option<&Item>
    ensures { option_copied result ≡ Views.field label pairs.now }
{
    for pair in pairs {
        if is_labelled(&pair.key, label) {
            return Some(&pair.value);
        }
    }
    None
}
