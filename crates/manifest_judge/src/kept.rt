// A manifest among those that are kept.
ghost use Rattle.std.specs.Prelude.{◌↔◌, ◌≢◌, IsTrue};
ghost use Rattle.std.specs.List.{AllByRecursion};
ghost use Rattle.manifest_judge.specs.Claims.{IsAbove, IsNewer, IsNoneOf, LeavesFree, IsFree};

use base_types::Octets;
use device_state::{PartHead, RowHead};
use suit_envelope::Manifest;

/// Whether what is kept is another manifest, or an older one.
fn is_above(manifest: &Manifest, row: &RowHead) -> bool
    ensures { IsTrue result ↔ IsAbove manifest.now row.now }
{
    row.id != manifest.id || row.sequence < manifest.sequence
}

/// Whether each number that is kept for the manifest is below its own.
pub(crate) fn is_newer(rows: &[RowHead], manifest: &Manifest) -> bool
    ensures { IsTrue result ↔ IsNewer rows.now manifest.now }
{
    for row in rows {
        if !is_above(manifest, row) {
            return false;
        }
    }
    true
}

/// Whether two identifiers are not the same.
fn are_apart(other: &Octets, id: &Octets) -> bool
    ensures { IsTrue result ↔ (other.now ≢ id.now) }
{
    *other != *id
}

/// Whether an identifier is none of these.
fn is_none_of(ids: &[Octets], id: &Octets) -> bool
    ensures { IsTrue result ↔ IsNoneOf ids.now id.now }
{
    for other in ids {
        if !are_apart(other, id) {
            return false;
        }
    }
    true
}

/// Whether none of these components is one of the identifiers.
fn are_others(ids: &[Octets], parts: &[PartHead]) -> bool
    ensures { IsTrue result ↔ AllByRecursion (λ part. IsNoneOf ids.now part.id) parts.now }
{
    for part in parts {
        if !is_none_of(ids, &part.id) {
            return false;
        }
    }
    true
}

/// Whether what is kept is the same manifest, or has none of these components.
fn leaves_free(manifest: &Manifest, row: &RowHead) -> bool
    ensures { IsTrue result ↔ LeavesFree manifest.now.id manifest.now.components row.now }
{
    !are_apart(&row.id, &manifest.id)
        || are_others(manifest.components.as_slice(), row.components.as_slice())
}

/// Whether no component that the manifest lists belongs to another manifest.
pub(crate) fn is_free(rows: &[RowHead], manifest: &Manifest) -> bool
    ensures { IsTrue result ↔ IsFree rows.now manifest.now }
{
    for row in rows {
        if !leaves_free(manifest, row) {
            return false;
        }
    }
    true
}
