ghost use Rattle.std.specs.Prelude.{◌≡◌, ◌↔◌, IsTrue, nat_eq};
ghost use Rattle.std.specs.Option.{option_copied};
ghost use Rattle.std.specs.Cmp.Lexicographic.{pointwise};
ghost use Rattle.cbor_core.specs.declared.item.Item.{out-Item};
ghost use Rattle.item_codec.specs.Answers.{Answers};
ghost use Rattle.item_codec.specs.Fields.{in_map, needed_at};
ghost use Rattle.item_codec.specs.Wrapped.{wrapped};
ghost use Rattle.suit_envelope.specs.Each.{each_read};
ghost use Rattle.suit_envelope.specs.Manifests.{identifier, are_distinct, is_one_of, components_in, components_of, common_in, common_of, is_version_by, versioned_in, manifest_in, manifest_of};
ghost use Rattle.suit_envelope.specs.Manifests as Manifests;

use crate::fault::EnvelopeFault;
use crate::labels::{
    COMMON, COMMON_FAULT, COMPONENTS, ID, ID_FAULT, MANIFEST, SEQUENCE, SEQUENCE_FAULT, SHARED,
    VERSION,
};
use crate::manifest::{Common, Manifest};
use base_types::{COMPONENT_ID_LIMIT, COMPONENTS_LIMIT, List, Octets};
use cbor_core::{Item, Pair, field};
use cbor_fields::{ByteString, Id, Unsigned, other_pairs};
use item_codec::{read_known, read_part, read_required, unwrap_item};
use std::alloc::Global;

/// The encoding of an identifier, of at most 128 bytes.
fn read_identifier(
    alloc: Global,
    item: &Item,
    fault: EnvelopeFault,
) -> Result<Octets, EnvelopeFault>
    ensures { Answers EnvelopeFault.NoMemory (identifier fault item.now) result }
{
    let id = read_part::<_, _, Id>(alloc, item, fault)?;
    if id.len() <= COMPONENT_ID_LIMIT {
        Ok(id)
    } else {
        Err(fault)
    }
}

/// The identifiers of components.
fn read_identifiers(alloc: Global, items: &[Item]) -> Result<List<Octets>, EnvelopeFault>
    ensures { Answers EnvelopeFault.NoMemory (each_read (identifier (EnvelopeFault.Shape 13)) items.now) result }
{
    let mut identifiers = List::new(alloc);
    for item in items {
        let fault = EnvelopeFault::Shape {
            member: COMMON_FAULT,
        };
        identifiers.push(read_identifier(alloc, item, fault)?)?;
    }
    Ok(identifiers)
}

/// Whether bytes are one of these.
fn is_among(bytes: &Octets, others: &[Octets]) -> bool
    ensures { result ≡ is_one_of bytes.now others.now }
{
    for other in others {
        if other == bytes {
            return true;
        }
    }
    false
}

/// Whether no two are the same bytes.
fn distinct(ids: &[Octets]) -> bool
    ensures { result ≡ are_distinct ids.now }
{
    for (at, id) in ids.iter().enumerate() {
        if is_among(id, &ids[at + 1..]) {
            return false;
        }
    }
    true
}

/// The components of an array's members.
fn read_components(alloc: Global, items: &[Item]) -> Result<List<Octets>, EnvelopeFault>
    ensures { Answers EnvelopeFault.NoMemory (components_in items.now) result }
{
    let fault = EnvelopeFault::Shape {
        member: COMMON_FAULT,
    };
    if items.is_empty() || COMPONENTS_LIMIT < items.len() {
        return Err(fault);
    }
    let components = read_identifiers(alloc, items)?;
    if distinct(components.as_slice()) {
        Ok(components)
    } else {
        Err(fault)
    }
}

/// The components of an item.
fn read_component_array(alloc: Global, item: Option<&Item>) -> Result<List<Octets>, EnvelopeFault>
    ensures { Answers EnvelopeFault.NoMemory (needed_at components_of (EnvelopeFault.Shape 13) (option_copied item.entry)) result }
{
    let fault = EnvelopeFault::Shape {
        member: COMMON_FAULT,
    };
    match item {
        Some(item) => match item.as_array() {
            Some(members) => read_components(alloc, members),
            None => Err(fault),
        },
        None => Err(fault),
    }
}

/// The common part of a map's pairs.
fn read_common_pairs(alloc: Global, pairs: &[Pair]) -> Result<Common, EnvelopeFault>
    ensures { Answers EnvelopeFault.NoMemory (common_in pairs.now) result }
{
    let fault = EnvelopeFault::Shape {
        member: COMMON_FAULT,
    };
    let components = read_component_array(alloc, field(pairs, COMPONENTS))?;
    let shared = read_known::<_, _, ByteString>(alloc, pairs, SHARED, fault)?;
    let other = other_pairs(alloc, &[COMPONENTS, SHARED], pairs)?;
    Ok(Common {
        components,
        shared,
        other,
    })
}

/// The common part that a map is.
fn read_common_map(alloc: Global, item: &Item) -> Result<Common, EnvelopeFault>
    ensures { Answers EnvelopeFault.NoMemory (in_map (EnvelopeFault.Shape 13) common_in item.now) result }
{
    match item.as_map() {
        Some(pairs) => read_common_pairs(alloc, pairs),
        None => Err(EnvelopeFault::Shape {
            member: COMMON_FAULT,
        }),
    }
}

/// The common part that a byte string wraps.
fn read_wrapped_common(alloc: Global, item: &Item) -> Result<Common, EnvelopeFault>
    ensures { Answers EnvelopeFault.NoMemory (common_of item.now) result }
{
    let fault = EnvelopeFault::Shape {
        member: COMMON_FAULT,
    };
    let content = unwrap_item(alloc, item, fault)?;
    read_common_map(alloc, &content)
}

/// The common part, which must be there.
fn read_common(alloc: Global, item: Option<&Item>) -> Result<Common, EnvelopeFault>
    ensures { Answers EnvelopeFault.NoMemory (needed_at common_of (EnvelopeFault.Shape 13) (option_copied item.entry)) result }
{
    match item {
        Some(item) => read_wrapped_common(alloc, item),
        None => Err(EnvelopeFault::Shape {
            member: COMMON_FAULT,
        }),
    }
}

/// The identifier of a manifest, which must be there.
fn read_id(alloc: Global, item: Option<&Item>) -> Result<Octets, EnvelopeFault>
    ensures { Answers EnvelopeFault.NoMemory (needed_at (identifier (EnvelopeFault.Shape 15)) (EnvelopeFault.Shape 15) (option_copied item.entry)) result }
{
    let fault = EnvelopeFault::Shape { member: ID_FAULT };
    match item {
        Some(item) => read_identifier(alloc, item, fault),
        None => Err(fault),
    }
}

/// Whether the version is there, and is 1.
fn is_version(item: Option<&Item>) -> bool
    ensures { result ≡ Manifests.is_version (option_copied item.entry) }
{
    match item {
        Some(Item::Unsigned(n)) => *n == 1,
        _ => false,
    }
}

/// What stands behind the version.
fn read_versioned(alloc: Global, pairs: &[Pair]) -> Result<Manifest, EnvelopeFault>
    ensures { Answers EnvelopeFault.NoMemory (versioned_in pairs.now) result }
{
    let fault = EnvelopeFault::Shape {
        member: SEQUENCE_FAULT,
    };
    let sequence = read_required::<_, _, Unsigned>(alloc, field(pairs, SEQUENCE), fault, fault)?;
    let common = read_common(alloc, field(pairs, COMMON))?;
    let id = read_id(alloc, field(pairs, ID))?;
    let members = other_pairs(alloc, &[VERSION, SEQUENCE, COMMON, ID], pairs)?;
    Ok(Manifest {
        id,
        sequence,
        components: common.components,
        shared: common.shared,
        members,
        common_other: common.other,
    })
}

/// The manifest of a map's pairs.
fn read_manifest_pairs(alloc: Global, pairs: &[Pair]) -> Result<Manifest, EnvelopeFault>
    ensures { Answers EnvelopeFault.NoMemory (manifest_in pairs.now) result }
{
    if is_version(field(pairs, VERSION)) {
        read_versioned(alloc, pairs)
    } else {
        Err(EnvelopeFault::Shape { member: MANIFEST })
    }
}

/// The manifest that a map is.
#[tactic(auto, unfolding(crate::specs::Manifests::manifest_of))]
fn read_manifest_map(alloc: Global, item: &Item) -> Result<Manifest, EnvelopeFault>
    ensures { Answers EnvelopeFault.NoMemory (manifest_of item.now) result }
{
    match item.as_map() {
        Some(pairs) => read_manifest_pairs(alloc, pairs),
        None => Err(EnvelopeFault::Shape { member: MANIFEST }),
    }
}

/// The manifest that a byte string wraps.
pub fn read_manifest(alloc: Global, item: &Item) -> Result<Manifest, EnvelopeFault>
    ensures { Answers EnvelopeFault.NoMemory (wrapped (EnvelopeFault.Shape 3) manifest_of item.now) result }
{
    let fault = EnvelopeFault::Shape { member: MANIFEST };
    let content = unwrap_item(alloc, item, fault)?;
    read_manifest_map(alloc, &content)
}
