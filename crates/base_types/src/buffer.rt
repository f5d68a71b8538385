ghost use Rattle.std.specs.Prelude.{◌≡◌, IfOk, replicate};

use crate::memory::OrMemory;
use std::alloc::Global;

/// A buffer of so many zeros. Refused for want of memory alone.
pub fn zeros(alloc: Global, size: usize) -> OrMemory<Vec<u8>>
    ensures { IfOk result (λ buffer. buffer.items ≡ replicate size 0) }
{
    Ok(vec![in alloc; 0u8; size]?)
}
