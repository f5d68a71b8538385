// The audit of the images that a device keeps.
ghost use Rattle.std.specs.Prelude.{◌≡◌, Err, IfOk, OnOk, [], map};
ghost use Rattle.board_core.specs.Contents.{Same};
ghost use Rattle.board_core.specs.Calls.{DiskCausedBy};
ghost use Rattle.board_core.specs.Moments.{Passes, NoMoment};
ghost use Rattle.device_state.specs.Heads as Heads;
ghost use Rattle.device_state.specs.Places.{Ascend};
ghost use Rattle.device_reports.specs.Looking.{Looks};
ghost use Rattle.device_reports.specs.Audit.{part_audited, head_audited, heads_audited, placed, audit_of};

use crate::findings::{Audited, Finding, keep, report};
use crate::images::image_of;
use base_types::Utf8;
use board_core::Board;
use component_store::{LoadFault, Store};
use device_state::{PartHead, RowHead};
use std::alloc::Global;

/// Audits a component, whose image the store has.
fn audit_component<S: Store, B: Board>(
    alloc: Global,
    store: &S,
    board: &mut B,
    part: &PartHead,
) -> Result<Audited, LoadFault>
    requires { (B.view board.old).extent ≡ S.extent store.now }
    ensures audited { B.told → S.keeps store.now (B.view board.old).now.disk.bytes →
        IfOk result (λ audited. audited ≡ part_audited (S.state store.now).rows part.now) }
    ensures looks { Looks B.told (result ≡ Err LoadFault.DiskFault) (B.view board.old) (B.view board.new) }
{
    let image = image_of(alloc, store, board, part.id.as_slice())?;
    let id = part.id.try_clone(alloc)?;
    let finding = Finding::of(&part.digest, image.as_slice());
    Ok(Audited { id, finding })
}

/// Audits the components of a manifest, and puts each in its place.
fn audit_manifest<S: Store, B: Board>(
    alloc: Global,
    store: &S,
    board: &mut B,
    row: &RowHead,
    all: &mut Vec<Audited>,
) -> Result<(), LoadFault>
    requires extent { (B.view board.old).extent ≡ S.extent store.now }
    requires ascend { Ascend (λ a. a.id) all.old.items }
    ensures audited { B.told → S.keeps store.now (B.view board.old).now.disk.bytes →
        OnOk result (all.new.items ≡ placed (head_audited (S.state store.now).rows row.now) all.old.items) }
    ensures ascend { Ascend (λ a. a.id) all.new.items }
    ensures looks { Looks B.told (result ≡ Err LoadFault.DiskFault) (B.view board.old) (B.view board.new) }
{
    for part in row.components.as_slice() {
        let audited = audit_component(alloc, store, board, part)?;
        keep(all, audited)?;
    }
    Ok(())
}

/// Audits all components.
fn audit_all<S: Store, B: Board>(
    alloc: Global,
    store: &S,
    board: &mut B,
) -> Result<Vec<Audited>, LoadFault>
    requires { (B.view board.old).extent ≡ S.extent store.now }
    ensures audited { B.told → S.keeps store.now (B.view board.old).now.disk.bytes →
        IfOk result (λ all. all.items ≡ placed (heads_audited (S.state store.now).rows (Heads.heads (S.state store.now).rows)) []) }
    ensures looks { Looks B.told (result ≡ Err LoadFault.DiskFault) (B.view board.old) (B.view board.new) }
{
    let mut all = Vec::new(alloc);
    for row in store.rows().as_slice() {
        audit_manifest(alloc, store, board, row, &mut all)?;
    }
    Ok(all)
}

/// The audit of the images that a device keeps: for each component, in ascending order of their
/// identifiers, a line with its identifier in lower-case hexadecimal and a word, and then a line
/// `audited N bad M`, with the number of components and the number of bad ones in decimals. Each line ends
/// with a line feed.
///
/// The word is `ok` exactly where a kept digest is matched by the stored bytes, `bad` exactly where it is
/// not, and `unknown` exactly where none is kept (`findings_are_exact`). Each component stands once
/// (`audits_are_whole`).
///
/// `DiskFault` exactly where the count of failed disk calls rose in this call. `NoMemory` may come for any
/// state. The store and all that the board holds stay as they were, whatever it answers.
///
/// The digests are those of SUIT manifests (draft-ietf-suit-manifest, "SUIT_Digest"), by which the images
/// were verified when they were installed.
pub fn audit<S: Store, B: Board>(alloc: Global, store: &S, board: &mut B) -> Result<Utf8, LoadFault>
    requires { (B.view board.old).extent ≡ S.extent store.now }
    ensures text { B.told → S.keeps store.now (B.view board.old).now.disk.bytes → IfOk result (λ text. text ≡ audit_of (S.state store.now)) }
    ensures cause { DiskCausedBy (result ≡ Err LoadFault.DiskFault) (B.view board.old) (B.view board.new) }
    ensures same { B.told → Same (B.view board.old) (B.view board.new) }
    ensures moments { B.told → Passes (B.view board.old) (B.view board.new) NoMoment }
{
    // The store says with its weight that a device may be in its state, so each component stands once.
    let _weight = store.weight();
    let all = audit_all(alloc, store, board)?;
    Ok(report(alloc, all.as_slice())?)
}
