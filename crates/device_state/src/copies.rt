ghost use Rattle.std.specs.Prelude.{◌≡◌, IfOk, map};
ghost use Rattle.device_state.specs.Heads.{part_head, row_head};

use crate::heads::{PartHead, RowHead};
use crate::rows::{ComponentRow, ManifestRow};
use base_types::{List, OrMemory};
use std::alloc::Global;
use suit_commands::Digest;

/// A copy of a digest that may be there.
fn copy_digest(alloc: Global, digest: &Option<Digest>) -> OrMemory<Option<Digest>>
    ensures { IfOk result (λ copy. copy ≡ digest.now) }
{
    match digest {
        Some(digest) => Ok(Some(Digest {
            algorithm: digest.algorithm,
            bytes: digest.bytes.try_clone(alloc)?,
        })),
        None => Ok(None),
    }
}

impl ComponentRow {
    /// A copy. Refused for want of memory alone.
    pub fn copy(&self, alloc: Global) -> OrMemory<ComponentRow>
        ensures { IfOk result (λ copy. copy ≡ self.now) }
    {
        Ok(ComponentRow {
            id: self.id.try_clone(alloc)?,
            bytes: self.bytes.try_clone(alloc)?,
            digest: copy_digest(alloc, &self.digest)?,
        })
    }

    /// The component with the length of its image in place of it. Refused for want of memory alone.
    fn head(&self, alloc: Global) -> OrMemory<PartHead>
        ensures { IfOk result (λ head. head ≡ part_head self.now) }
    {
        Ok(PartHead {
            id: self.id.try_clone(alloc)?,
            length: self.bytes.len() as u64,
            digest: copy_digest(alloc, &self.digest)?,
        })
    }
}

impl ManifestRow {
    /// A copy, with those of its components. Refused for want of memory alone.
    pub fn copy(&self, alloc: Global) -> OrMemory<ManifestRow>
        ensures { IfOk result (λ copy. copy ≡ self.now) }
    {
        let mut components = List::new(alloc);
        for component in self.components.as_slice() {
            components.push(component.copy(alloc)?)?;
        }
        Ok(ManifestRow {
            id: self.id.try_clone(alloc)?,
            sequence: self.sequence,
            present: self.present,
            components,
        })
    }

    /// The manifest without the bytes of its components. Refused for want of memory alone.
    pub fn head(&self, alloc: Global) -> OrMemory<RowHead>
        ensures { IfOk result (λ head. head ≡ row_head self.now) }
    {
        let mut components = List::new(alloc);
        for component in self.components.as_slice() {
            components.push(component.head(alloc)?)?;
        }
        Ok(RowHead {
            id: self.id.try_clone(alloc)?,
            sequence: self.sequence,
            present: self.present,
            components,
        })
    }
}
