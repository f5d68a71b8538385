ghost use Rattle.std.specs.Prelude.{◌≡◌, ◌-◌, ◌++◌, ℕ, List, IfSome, MatchOption, length};
ghost use Rattle.cbor_core.specs.declared.item.Item.{Item, out-Item};
ghost use Rattle.cbor_core.specs.declared.item.Pair.{Pair};
ghost use Rattle.cbor_core.specs.Spelling.{spelling};
ghost use Rattle.cbor_span.specs.Parts.{IsInFront, PairInFront};
ghost use Rattle.cbor_span.specs.Opening.{opening};
ghost use Rattle.cbor_span.specs.Span.{IsSpan, IsItem};

use crate::walk::{read_since, skip_content, span};
use base_types::CBOR_DEPTH_LIMIT;
use cbor_heads::{Head, Input, read_head};

/// An item at the front of some bytes, as one walk over it found it.
#[derive(Clone, Copy, Debug)]
pub struct FrontItem<'a> {
    /// Its head.
    pub head: Head,
    /// The bytes of it behind the head: the content of a string, the parts of a container.
    pub content: &'a [u8],
    /// The bytes behind the item.
    pub behind: &'a [u8],
}

/// The item that a front of the bytes spells, by one walk: its head, its content and what stands behind
/// it. None exactly where no front of the bytes spells an item.
pub fn open_first(bytes: &[u8]) -> Option<FrontItem<'_>>
    // The item there is found.
    ensures found { (x : Item) (more : List ℕ) → IsInFront x bytes.now more → MatchOption result ⊥ (λ r. (r.head ≡ (opening (out-Item x)).0) × (r.content.now ≡ (opening (out-Item x)).1) × (r.behind.now ≡ more)) }
    // What is found was there.
    ensures spelled { IfSome result (λ r. IsSpan bytes.now (length bytes.now - length r.behind.now)) }
{
    let mut input = Input::new(bytes);
    match read_head(&mut input) {
        Ok(head) => {
            let content = input.rest();
            match skip_content(CBOR_DEPTH_LIMIT, &mut input, 0, head) {
                Ok(()) => Some(FrontItem {
                    head,
                    content: read_since(content, &input),
                    behind: input.rest(),
                }),
                Err(_) => None,
            }
        }
        Err(_) => None,
    }
}

/// The bytes of the item that a front of the bytes spells, and what stands behind them. None exactly
/// where no front of the bytes spells an item.
pub fn first(bytes: &[u8]) -> Option<(&[u8], &[u8])>
    // The item there is found.
    ensures found { (x : Item) (more : List ℕ) → IsInFront x bytes.now more → MatchOption result ⊥ (λ r. (r.0.now ≡ spelling x) × (r.1.now ≡ more)) }
    // What is found was there.
    ensures spelled { IfSome result (λ r. (bytes.now ≡ r.0.now ++ r.1.now) × IsItem r.0.now) }
{
    match span(bytes) {
        Ok(n) => Some(bytes.split_at(n)),
        Err(_) => None,
    }
}

/// The bytes of a key and of its value, which a front of the bytes spells one behind the other, and what
/// stands behind them. None exactly where no front of the bytes spells two items so.
pub fn first_pair(bytes: &[u8]) -> Option<(&[u8], &[u8], &[u8])>
    // The pair there is found.
    ensures found { (p : Pair) (more : List ℕ) → PairInFront p bytes.now more → MatchOption result ⊥ (λ r. (r.0.now ≡ spelling p.key) × (r.1.now ≡ spelling p.value) × (r.2.now ≡ more)) }
    // What is found was there.
    ensures spelled { IfSome result (λ r. (bytes.now ≡ r.0.now ++ (r.1.now ++ r.2.now)) × IsItem r.0.now × IsItem r.1.now) }
{
    match first(bytes) {
        Some((key, behind)) => match first(behind) {
            Some((value, more)) => Some((key, value, more)),
            None => None,
        },
        None => None,
    }
}
