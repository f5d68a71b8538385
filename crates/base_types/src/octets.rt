ghost use Rattle.std.specs.Prelude.{◌≡◌, ℕ, [], ◌∷◌, ◌++◌, ◌<◌, length, slice_get, slice_index, ◌↔◌, IsTrue, IfOk, OnOk, OnErr};

use crate::memory::OrMemory;
use smallvec::SmallVec;
use std::alloc::{AllocError, Global};
use std::cmp::Ordering;
use std::marker::Model;

/// A string of bytes, which contracts see as the list of them, each a number below 256.
///
/// Up to 16 bytes lie in the value itself and take no memory. It is ordered byte by byte, a front
/// before what goes on behind it, as CBOR map keys are (RFC 8949 section 4.2.1).
#[derive(Debug, Drop)]
pub struct Octets {
    bytes: SmallVec<u8, 16>,
}

impl Model for Octets {
    ghost use Rattle.std.specs.Prelude.{List, ℕ};

    ghost Value = { List ℕ };

    ghost view = { λ it. it.bytes.items };
}

impl Octets {
    /// No bytes, which takes no memory.
    pub fn new(alloc: Global) -> Octets
        ensures { result ≡ [] }
    {
        Octets {
            bytes: SmallVec::new(alloc),
        }
    }

    /// The bytes of a `Vec`, moved.
    pub fn from_vec(bytes: Vec<u8>) -> Octets
        ensures { result ≡ bytes.items }
    {
        Octets {
            bytes: SmallVec::from_vec(bytes),
        }
    }

    /// A copy of the bytes. Refused for want of memory alone.
    pub fn from_slice(alloc: Global, bytes: &[u8]) -> OrMemory<Octets>
        ensures { IfOk result (λ it. it ≡ bytes.now) }
    {
        let bytes = SmallVec::from_slice(alloc, bytes)?;
        Ok(Octets { bytes })
    }

    /// The bytes.
    pub fn as_slice(&self) -> &[u8]
        ensures { result.now ≡ self.now }
    {
        self.bytes.as_slice()
    }

    /// The number of bytes.
    pub fn len(&self) -> usize
        ensures { result ≡ length self.now }
    {
        self.bytes.len()
    }

    /// Whether there are none.
    pub fn is_empty(&self) -> bool
        ensures { IsTrue result ↔ (self.now ≡ []) }
    {
        self.bytes.is_empty()
    }

    /// Puts a byte at the end. Refused for want of memory alone, and all is as before then.
    pub fn push(&mut self, byte: u8) -> OrMemory<()>
        ensures ok { OnOk result (self.new ≡ self.old ++ byte ∷ []) }
        ensures err { OnErr result (self.new ≡ self.old) }
    {
        self.bytes.push(byte)?;
        Ok(())
    }

    /// Puts bytes at the end. Refused for want of memory alone, and all is as before then.
    pub fn extend(&mut self, bytes: &[u8]) -> OrMemory<()>
        ensures ok { OnOk result (self.new ≡ self.old ++ bytes.now) }
        ensures err { OnErr result (self.new ≡ self.old) }
    {
        self.bytes.extend_from_slice(bytes)?;
        Ok(())
    }

    /// A copy. Refused for want of memory alone.
    pub fn try_clone(&self, alloc: Global) -> OrMemory<Octets>
        ensures { IfOk result (λ it. it ≡ self.now) }
    {
        Octets::from_slice(alloc, self.bytes.as_slice())
    }
}

impl PartialEq for Octets {
    ghost use Rattle.std.specs.Prelude.{nat_eq};
    ghost use Rattle.std.specs.Cmp.Lexicographic.{pointwise, nat_list_eq_equiv};
    ghost use Rattle.std.specs.Cmp.{partial_equiv_from_equiv};

    ghost eq = { pointwise nat_eq };

    ghost laws = { partial_equiv_from_equiv nat_list_eq_equiv };

    fn eq(&self, other: &Octets) -> bool {
        self.bytes.as_slice() == other.bytes.as_slice()
    }
}

impl Eq for Octets {
    ghost use Rattle.std.specs.Cmp.Lexicographic.{nat_list_eq_equiv};

    ghost laws = { nat_list_eq_equiv };
}

impl PartialOrd for Octets {
    ghost use Rattle.std.specs.Prelude.{Some};
    ghost use Rattle.std.specs.Ordering.{nat_cmp};
    ghost use Rattle.std.specs.Cmp.Lexicographic.{slice_cmp, texts_po};

    ghost partial_cmp = { λ v w. Some (slice_cmp nat_cmp v w) };

    ghost laws = { texts_po };

    fn partial_cmp(&self, other: &Octets) -> Option<Ordering> {
        Some(self.cmp(other))
    }
}

impl Ord for Octets {
    ghost use Rattle.std.specs.Prelude.{refl};
    ghost use Rattle.std.specs.Ordering.{nat_cmp};
    ghost use Rattle.std.specs.Cmp.Lexicographic.{slice_cmp, nat_list_cmp_total, texts_ties};

    ghost cmp = { slice_cmp nat_cmp };

    ghost total = { nat_list_cmp_total };

    ghost matches_partial_cmp = { λ v w. refl };

    ghost matches_eq = { texts_ties };

    fn cmp(&self, other: &Octets) -> Ordering {
        self.bytes.as_slice().cmp(&other.bytes.as_slice())
    }
}

impl Clone for Octets {
    ghost is_clone = { λ v w. w ≡ v };

    fn clone(&self) -> Result<Octets, AllocError> {
        Ok(Octets {
            bytes: SmallVec::from_slice(*self.bytes.allocator(), self.bytes.as_slice())?,
        })
    }
}
