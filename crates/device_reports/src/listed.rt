// The listing of what a device keeps.
ghost use Rattle.std.specs.Prelude.{◌≡◌, ◌++◌, string_bytes, Err, IfOk, OnOk};
ghost use Rattle.std.specs.List.{flat_map};
ghost use Rattle.board_core.specs.Contents.{Same};
ghost use Rattle.board_core.specs.Calls.{DiskCausedBy};
ghost use Rattle.board_core.specs.Moments.{Passes, NoMoment};
ghost use Rattle.device_reports.specs.Looking.{Looks};
ghost use Rattle.device_reports.specs.Listing.{manifest_line, presence, part_line, part_of, head_of, heads_of, listing_of};
ghost use Rattle.device_state.specs.Heads as Heads;

use crate::images::image_of;
use crate::lines::{push_hex, push_number};
use base_types::{OrMemory, Utf8};
use board_core::Board;
use component_store::{LoadFault, Store};
use device_state::{PartHead, RowHead};
use sha2::{Digest, Sha256};
use std::alloc::Global;

/// Whether a manifest is installed, as a word.
fn presence_word(present: bool) -> &'static str
    ensures { result.now ≡ presence present }
{
    if present { "present" } else { "removed" }
}

/// Writes the line of a manifest.
fn push_manifest(alloc: Global, out: &mut String, row: &RowHead) -> OrMemory<()>
    ensures { OnOk result (string_bytes out.new ≡ string_bytes out.old ++ manifest_line row.now.id row.now.sequence row.now.present) }
{
    push_hex(alloc, out, row.id.as_slice())?;
    out.push_str(" ")?;
    push_number(out, row.sequence)?;
    out.push_str(" ")?;
    out.push_str(presence_word(row.present))?;
    out.push_str("\n")?;
    Ok(())
}

/// Writes the line of a component that has this image.
fn push_component(alloc: Global, out: &mut String, part: &PartHead, image: &[u8]) -> OrMemory<()>
    ensures { OnOk result (string_bytes out.new ≡ string_bytes out.old ++ part_line part.now.id part.now.length image.now) }
{
    out.push_str("  ")?;
    push_hex(alloc, out, part.id.as_slice())?;
    out.push_str(" ")?;
    push_number(out, part.length)?;
    out.push_str(" ")?;
    push_hex(alloc, out, Sha256::digest(image).as_slice())?;
    out.push_str("\n")?;
    Ok(())
}

/// Writes the line of a component, whose image the store has.
fn list_component<S: Store, B: Board>(
    alloc: Global,
    store: &S,
    board: &mut B,
    part: &PartHead,
    out: &mut String,
) -> Result<(), LoadFault>
    requires { (B.view board.old).extent ≡ S.extent store.now }
    ensures text { B.told → S.keeps store.now (B.view board.old).now.disk.bytes →
        OnOk result (string_bytes out.new ≡ string_bytes out.old ++ part_of (S.state store.now).rows part.now) }
    ensures looks { Looks B.told (result ≡ Err LoadFault.DiskFault) (B.view board.old) (B.view board.new) }
{
    let image = image_of(alloc, store, board, part.id.as_slice())?;
    push_component(alloc, out, part, image.as_slice())?;
    Ok(())
}

/// Writes the line of a manifest and those of its components.
fn list_manifest<S: Store, B: Board>(
    alloc: Global,
    store: &S,
    board: &mut B,
    row: &RowHead,
    out: &mut String,
) -> Result<(), LoadFault>
    requires { (B.view board.old).extent ≡ S.extent store.now }
    ensures text { B.told → S.keeps store.now (B.view board.old).now.disk.bytes →
        OnOk result (string_bytes out.new ≡ string_bytes out.old ++ head_of (S.state store.now).rows row.now) }
    ensures looks { Looks B.told (result ≡ Err LoadFault.DiskFault) (B.view board.old) (B.view board.new) }
{
    push_manifest(alloc, out, row)?;
    for part in row.components.as_slice() {
        list_component(alloc, store, board, part, out)?;
    }
    Ok(())
}

/// The lines of all manifests.
fn list_manifests<S: Store, B: Board>(
    alloc: Global,
    store: &S,
    board: &mut B,
) -> Result<Utf8, LoadFault>
    requires { (B.view board.old).extent ≡ S.extent store.now }
    ensures text { B.told → S.keeps store.now (B.view board.old).now.disk.bytes →
        IfOk result (λ text. text ≡ heads_of (S.state store.now).rows (Heads.heads (S.state store.now).rows)) }
    ensures looks { Looks B.told (result ≡ Err LoadFault.DiskFault) (B.view board.old) (B.view board.new) }
{
    let mut out = String::new(alloc);
    for row in store.rows().as_slice() {
        list_manifest(alloc, store, board, row, &mut out)?;
    }
    Ok(Utf8::from_string(out))
}

/// The listing of what a device keeps: for each manifest, in ascending order of their identifiers, a line
/// with its identifier, its sequence number and the word `present` or `removed`, and behind it for each of
/// its components, in ascending order too, a line of two spaces, the identifier, the number of its bytes
/// and their SHA-256. Identifiers and hashes are in lower-case hexadecimal, numbers in decimals, and each
/// line ends with a line feed. A device that keeps nothing has the empty listing.
///
/// `DiskFault` exactly where the count of failed disk calls rose in this call. `NoMemory` may come for any
/// state. The store and all that the board holds stay as they were, whatever it answers.
///
/// The identifiers and the numbers are those of SUIT manifests (draft-ietf-suit-manifest,
/// "SUIT_Component_Identifier" and "suit-manifest-sequence-number").
pub fn listing<S: Store, B: Board>(
    alloc: Global,
    store: &S,
    board: &mut B,
) -> Result<Utf8, LoadFault>
    requires { (B.view board.old).extent ≡ S.extent store.now }
    ensures text { B.told → S.keeps store.now (B.view board.old).now.disk.bytes → IfOk result (λ text. text ≡ listing_of (S.state store.now)) }
    ensures cause { DiskCausedBy (result ≡ Err LoadFault.DiskFault) (B.view board.old) (B.view board.new) }
    ensures same { B.told → Same (B.view board.old) (B.view board.new) }
    ensures moments { B.told → Passes (B.view board.old) (B.view board.new) NoMoment }
{
    // The store says with its weight that a device may be in its state, so each component stands once.
    let _weight = store.weight();
    list_manifests(alloc, store, board)
}
