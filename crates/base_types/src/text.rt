ghost use Rattle.std.specs.Prelude.{◌≡◌, [], length, ◌↔◌, IsTrue, IfOk, string_bytes};
ghost use Rattle.std.specs.Str.{IsUtf8};

use crate::memory::OrMemory;
use std::alloc::{AllocError, Global};
use std::marker::Model;

/// A text, which contracts see as its bytes in UTF-8.
///
/// It is made from a `String` and gives it back without memory.
#[derive(Debug, Drop)]
pub struct Utf8 {
    text: String,
}

impl Model for Utf8 {
    ghost use Rattle.std.specs.Prelude.{List, ℕ, string_bytes};

    ghost Value = { List ℕ };

    ghost view = { λ it. string_bytes it.text };
}

impl Utf8 {
    /// The text of a `String`, moved.
    pub fn from_string(text: String) -> Utf8
        ensures { result ≡ string_bytes text }
    {
        Utf8 { text }
    }

    /// A copy of the text. Refused for want of memory alone.
    pub fn from_str(alloc: Global, text: &str) -> OrMemory<Utf8>
        ensures { IfOk result (λ it. it ≡ text.now) }
    {
        let text = String::from_str(alloc, text)?;
        Ok(Utf8 { text })
    }

    /// The text as a `String`, moved.
    pub fn into_string(self) -> String
        ensures { string_bytes result ≡ self }
    {
        let Utf8 { text } = self;
        text
    }

    /// The text.
    pub fn as_str(&self) -> &str
        ensures value { result.now ≡ self.now }
        ensures utf8 { IsUtf8 self.now }
    {
        self.text.as_str()
    }

    /// The number of bytes.
    pub fn len(&self) -> usize
        ensures { result ≡ length self.now }
    {
        self.text.len()
    }

    /// Whether there are none.
    pub fn is_empty(&self) -> bool
        ensures { IsTrue result ↔ (self.now ≡ []) }
    {
        self.text.as_str().is_empty()
    }

    /// A copy. Refused for want of memory alone.
    pub fn try_clone(&self, alloc: Global) -> OrMemory<Utf8>
        ensures { IfOk result (λ it. it ≡ self.now) }
    {
        Utf8::from_str(alloc, self.text.as_str())
    }
}

impl PartialEq for Utf8 {
    ghost use Rattle.std.specs.Prelude.{nat_eq};
    ghost use Rattle.std.specs.Cmp.Lexicographic.{pointwise, nat_list_eq_equiv};
    ghost use Rattle.std.specs.Cmp.{partial_equiv_from_equiv};

    ghost eq = { pointwise nat_eq };

    ghost laws = { partial_equiv_from_equiv nat_list_eq_equiv };

    fn eq(&self, other: &Utf8) -> bool {
        self.text.as_str() == other.text.as_str()
    }
}

impl Eq for Utf8 {
    ghost use Rattle.std.specs.Cmp.Lexicographic.{nat_list_eq_equiv};

    ghost laws = { nat_list_eq_equiv };
}

impl Clone for Utf8 {
    ghost is_clone = { λ v w. w ≡ v };

    fn clone(&self) -> Result<Utf8, AllocError> {
        Ok(Utf8 {
            text: self.text.clone()?,
        })
    }
}
