// A store whose state is in memory, and whose changes are the bodies of a journal.
ghost use Rattle.std.specs.Prelude.{◌≡◌, nat_eq, IfOk};
ghost use Rattle.std.specs.Option.{option_copied};
ghost use Rattle.std.specs.List.{find};
ghost use Rattle.std.specs.Cmp.Lexicographic.{pointwise};
ghost use Rattle.device_state.specs.Heads.{heads};
ghost use Rattle.device_image.specs.Held.{IsSafe};
ghost use Rattle.component_store.specs.Keeping.{image_in};

use base_types::{List, Octets, OrMemory};
use device_image::Held;
use device_state::{ComponentRow, ManifestRow, RowHead, heads_weight};
use std::alloc::Global;
use std::marker::Model;

/// A store of layout 1. The images of all components are kept in memory.
#[derive(Drop)]
pub struct LogStore {
    pub(crate) held: Held,
    /// The rows without the bytes of their components.
    pub(crate) heads: List<RowHead>,
    /// What the rows weigh.
    pub(crate) weight: u64,
    /// The length of the image.
    pub(crate) size: u64,
}

impl Model for LogStore {
    ghost use Rattle.component_store.specs.Keeping.{Log, IsKept};

    ghost Value = { Log };

    ghost view = { λ it. record { held = it.held; size = it.size } };

    ghost invariant = { λ it. IsKept it.held it.size it.heads it.weight };
}

/// The heads of rows.
pub(crate) fn heads_of(alloc: Global, rows: &[ManifestRow]) -> OrMemory<List<RowHead>>
    ensures { IfOk result (λ it. it ≡ heads rows.now) }
{
    let mut all = List::new(alloc);
    for row in rows {
        all.push(row.head(alloc)?)?;
    }
    Ok(all)
}

/// The component of a manifest that has the identifier.
fn component_of<'a>(row: &'a ManifestRow, id: &[u8]) -> Option<&'a ComponentRow>
    ensures { option_copied result ≡ find (λ c. pointwise nat_eq c.id id.now) row.now.components }
{
    row.components
        .iter()
        .find(|component| component.id.as_slice() == id)
}

impl LogStore {
    /// A store of what is held of an image of that length. Refused for want of memory alone.
    pub(crate) fn of(alloc: Global, held: Held, size: u64) -> OrMemory<LogStore>
        requires { IsSafe held size }
        ensures { IfOk result (λ store. store ≡ record { held = held; size = size }) }
    {
        let heads = heads_of(alloc, held.rows.as_slice())?;
        let weight = heads_weight(heads.as_slice());
        Ok(LogStore {
            held,
            heads,
            weight,
            size,
        })
    }

    /// The image of the component that has the identifier, copied.
    pub(crate) fn image_of(&self, alloc: Global, id: &[u8]) -> OrMemory<Option<Octets>>
        ensures { IfOk result (λ image. image ≡ image_in id.now self.now.held.rows.items) }
    {
        for row in self.held.rows.as_slice() {
            if let Some(component) = component_of(row, id) {
                return Ok(Some(component.bytes.try_clone(alloc)?));
            }
        }
        Ok(None)
    }
}
