// The components that a run built.
ghost use Rattle.std.specs.Prelude.{◌≡◌, ◌↔◌, length, IsTrue, IfOk, IfSome};
ghost use Rattle.manifest_judge.specs.Stages.{Finds};
ghost use Rattle.manifest_judge.specs.Claims.{IsWhole, IsMade, AreMade};

use base_types::{List, Octets, OrMemory};
use device_state::ComponentRow;
use std::alloc::Global;
use suit_commands::Digest;
use suit_engine::Built;

/// Whether there are so many bytes, where a size is set.
fn is_sized(bytes: &[u8], size: Option<u64>) -> bool
    ensures { IsTrue result ↔ IfSome size (λ n. length bytes.now ≡ n) }
{
    match size {
        Some(size) => bytes.len() as u64 == size,
        None => true,
    }
}

/// Whether bytes have a digest, and a size where one is set.
fn is_whole(bytes: &[u8], digest: &Digest, size: Option<u64>) -> bool
    ensures { IsTrue result ↔ IsWhole bytes.now digest.now size }
{
    is_sized(bytes, size) && digest.matches(bytes)
}

/// The component of bytes and a digest, and none where they are not whole.
fn with_digest(
    alloc: Global,
    id: &Octets,
    bytes: Octets,
    digest: Digest,
    size: Option<u64>,
) -> OrMemory<Option<ComponentRow>>
    ensures { IfOk result (Finds (IsMade id.now (record { bytes = Some bytes; digest = Some digest; size = size }))) }
{
    if !is_whole(bytes.as_slice(), &digest, size) {
        return Ok(None);
    }
    Ok(Some(ComponentRow {
        id: id.try_clone(alloc)?,
        bytes,
        digest: Some(digest),
    }))
}

/// The component of bytes, and none where no digest is set or they are not whole.
fn with_bytes(
    alloc: Global,
    id: &Octets,
    bytes: Octets,
    digest: Option<Digest>,
    size: Option<u64>,
) -> OrMemory<Option<ComponentRow>>
    ensures { IfOk result (Finds (IsMade id.now (record { bytes = Some bytes; digest = digest; size = size }))) }
{
    match digest {
        Some(digest) => with_digest(alloc, id, bytes, digest, size),
        None => Ok(None),
    }
}

/// A component that is listed, of what was built of it, moved; none where it has no bytes, no digest, or
/// they are not whole.
fn component_of(alloc: Global, id: &Octets, built: Built) -> OrMemory<Option<ComponentRow>>
    ensures { IfOk result (Finds (IsMade id.now built)) }
{
    let Built {
        bytes,
        digest,
        size,
    } = built;
    match bytes {
        Some(bytes) => with_bytes(alloc, id, bytes, digest, size),
        None => Ok(None),
    }
}

/// The components that are listed, of what was built of them, moved; none where one of them is none.
pub(crate) fn components_of(
    alloc: Global,
    ids: &[Octets],
    built: List<Built>,
) -> OrMemory<Option<List<ComponentRow>>>
    ensures { IfOk result (Finds (AreMade ids.now built)) }
{
    if ids.len() != built.len() {
        return Ok(None);
    }
    let mut components = List::new(alloc);
    let mut place = 0;
    for built in built.into_vec() {
        match component_of(alloc, &ids[place], built)? {
            Some(component) => components.push(component)?,
            None => return Ok(None),
        }
        place += 1;
    }
    Ok(Some(components))
}
