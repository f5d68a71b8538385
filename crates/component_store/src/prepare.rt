// A change is made ready.
ghost use Rattle.std.specs.Prelude.{◌≡◌, ◌↔◌, ◌+◌, ◌<◌, ◌≤◌, ◌^◌, ◌∷◌, [], IfOk, IsTrue, List, length};
ghost use Rattle.commit_records.specs.Changes.{IsProperChange};
ghost use Rattle.device_state.specs.declared.rows.ManifestRow.{ManifestRow};
ghost use Rattle.device_state.specs.State.{changed, put_rows, rows_weight, capped};
ghost use Rattle.device_state.specs.Valid.{IsValid};
ghost use Rattle.device_state.specs.Law.{AreInOrder};
ghost use Rattle.device_image.specs.Held.{state_of};
ghost use Rattle.component_store.specs.Preparing.{MayFollow, FramedFor, HasRoomFor, IsReady, HeadsFor};
ghost use Rattle.component_store.specs.declared.prepared.Framing.TheVariants.{Append};
ghost use Rattle.component_store.specs.Outcome.{HasRoom};
ghost use Rattle.component_store.specs.Keeping.{IsSameLog};

use crate::bodies::bodies_for;
use crate::change::copied_change;
use crate::fault::PrepareFault;
use crate::log_store::{LogStore, heads_of};
use crate::prepared::{Framing, Prepared};
use base_types::{List, Octets, OrMemory};
use commit_records::write_change;
use device_config::journal_of;
use device_state::{Change, ManifestRow, RowHead, heads_weight, put};
use journal_core::Framed;
use std::alloc::Global;

/// What a body takes beside its own bytes: its gate, its length, and the closed gate behind it.
const FRAME: u64 = 6;

/// The heads of the rows behind a change, where any row changes.
fn heads_behind(
    alloc: Global,
    rows: &[ManifestRow],
    more: &[ManifestRow],
) -> OrMemory<Option<List<RowHead>>>
    requires { AreInOrder rows.now }
    ensures { IfOk result (HeadsFor rows.now more.now) }
{
    if more.is_empty() {
        return Ok(None);
    }
    let mut behind = heads_of(alloc, rows)?.into_vec();
    behind.reserve(more.len())?;
    for row in more {
        put(&mut behind, row.copy(alloc)?.order().head(alloc)?);
    }
    Ok(Some(List::from_vec(behind)))
}

/// A framed body.
fn framed(alloc: Global, body: Octets) -> OrMemory<Framed>
    requires { length body < 2 ^ 32 }
    ensures { IfOk result (λ it. it ≡ body ∷ []) }
{
    let mut bodies = List::new(alloc);
    bodies.push(body)?;
    Framed::of(alloc, &bodies)
}

impl LogStore {
    /// Whether the journal has room for one body more of so many bytes.
    fn fits(&self, size: usize) -> bool
        ensures { IsTrue result ↔ (self.now.held.journal.used + size + FRAME ≤ self.now.held.journal.region.half) }
    {
        let taken = self.held.journal.used().saturating_add(size as u64);
        taken.saturating_add(FRAME) <= journal_of(self.held.config.quota).half
    }

    /// A body, framed to go behind those of the journal, which has a place for it then.
    fn appending(&mut self, alloc: Global, body: Octets) -> OrMemory<Framing>
        requires { self.old.held.journal.used + length body + FRAME ≤ self.old.held.journal.region.half }
        ensures framed { IfOk result (λ framing. framing ≡ Append (body ∷ [])) }
        ensures room { IfOk result (HasRoomFor self.new.held.journal) }
        ensures rows { self.new.held.rows ≡ self.old.held.rows }
        ensures same { IsSameLog self.old self.new }
    {
        self.held.journal.reserve(1)?;
        Ok(Framing::Append(framed(alloc, body)?))
    }

    /// The bodies of the whole changed state, framed; the journal has places for them then.
    fn replacing(&mut self, alloc: Global, change: &Change) -> OrMemory<Framing>
        requires { IsValid (changed change.now (state_of self.old.held)) }
        ensures framed { IfOk result (FramedFor self.new.held change.now) }
        ensures rows { self.new.held.rows ≡ self.old.held.rows }
        ensures same { IsSameLog self.old self.new }
    {
        let bodies = bodies_for(alloc, &self.held, change)?;
        self.held.journal.reserve(bodies.len() as u64)?;
        Ok(Framing::Replace(Framed::of(alloc, &bodies)?))
    }

    /// A change, framed; the journal has room for it then.
    fn framing(&mut self, alloc: Global, change: &Change) -> OrMemory<Framing>
        requires proper { IsProperChange change.now }
        requires valid { IsValid (changed change.now (state_of self.old.held)) }
        ensures framed { IfOk result (FramedFor self.new.held change.now) }
        ensures rows { self.new.held.rows ≡ self.old.held.rows }
        ensures same { IsSameLog self.old self.new }
    {
        let body = write_change(alloc, change)?;
        if self.fits(body.len()) {
            self.appending(alloc, body)
        } else {
            self.replacing(alloc, change)
        }
    }

    /// What the rows behind a change weigh, in bytes, and at most 2^64 - 1.
    fn weight_with(&self, heads: &Option<List<RowHead>>) -> u64
        ensures { (more : List ManifestRow) → HeadsFor self.now.held.rows.items more heads.now → result ≡ capped (rows_weight (put_rows more self.now.held.rows.items)) }
    {
        match heads {
            Some(heads) => heads_weight(heads.as_slice()),
            None => self.weight,
        }
    }

    /// All that a commit of a change needs.
    fn gathered(
        &mut self,
        alloc: Global,
        change: &Change,
        heads: Option<List<RowHead>>,
        weight: u64,
    ) -> OrMemory<Prepared>
        requires may { MayFollow change.now (state_of self.old.held) }
        requires valid { IsValid (changed change.now (state_of self.old.held)) }
        requires heads { HeadsFor self.old.held.rows.items change.now.rows heads }
        requires weight { weight ≡ rows_weight (put_rows change.now.rows self.old.held.rows.items) }
        ensures change { IfOk result (λ p. p.change ≡ change.now) }
        ensures ready { IfOk result (IsReady self.new) }
        ensures same { IsSameLog self.old self.new }
    {
        self.held.reserve(change.rows.len())?;
        let framing = self.framing(alloc, change)?;
        let change = copied_change(alloc, change)?;
        Ok(Prepared {
            change,
            heads,
            weight,
            framing,
        })
    }

    /// Makes a change ready.
    pub(crate) fn make_ready(
        &mut self,
        alloc: Global,
        change: &Change,
    ) -> Result<Prepared, PrepareFault>
        requires { MayFollow change.now (state_of self.old.held) }
        ensures change { IfOk result (λ p. p.change ≡ change.now) }
        ensures ready { IfOk result (IsReady self.new) }
        ensures room { HasRoom (changed change.now (state_of self.old.held)) result }
        ensures same { IsSameLog self.old self.new }
    {
        let heads = heads_behind(alloc, self.held.rows.as_slice(), change.rows.as_slice())?;
        let weight = self.weight_with(&heads);
        if self.held.config.quota < weight {
            return Err(PrepareFault::Room);
        }
        Ok(self.gathered(alloc, change, heads, weight)?)
    }
}
