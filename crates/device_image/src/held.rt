ghost use Rattle.std.specs.Prelude.{◌≡◌, ◌+◌, ◌<◌, ◌≤◌, [], ◌∷◌, Some, length, vec_len, vec_capacity, OnOk};
ghost use Rattle.device_state.specs.State.{changed, put_rows, with_anchors};
ghost use Rattle.device_state.specs.Law.{AreInOrder};
ghost use Rattle.device_image.specs.Held.{state_of, head_of, SameButRoom};

use base_types::{List, OrMemory};
use device_config::Config;
use device_state::{Change, ManifestRow, put};
use journal_core::Journal;
use trust_anchors::Anchors;

/// What an image holds. Nothing of it is printed, since the seed of the key is a secret.
#[derive(Drop)]
pub struct Held {
    /// The configuration, with the anchors of the present.
    pub config: Config,
    /// The anchors that the device was made with, which the head of its image keeps, where they changed
    /// since.
    pub first_anchors: Option<Anchors>,
    /// How many leaves of the key are used.
    pub leaf: u64,
    /// The manifests, in ascending order of their identifiers.
    pub rows: Vec<ManifestRow>,
    /// Where the bodies lie.
    pub journal: Journal,
}

/// Puts a row where it belongs, with its components in order.
fn put_ordered(rows: &mut Vec<ManifestRow>, row: ManifestRow)
    requires room { vec_len rows.old < vec_capacity rows.old }
    requires order { AreInOrder rows.old.items }
    ensures put { rows.new.items ≡ put_rows (row ∷ []) rows.old.items }
    ensures order { AreInOrder rows.new.items }
    ensures len { vec_len rows.new ≤ vec_len rows.old + 1 }
    ensures room { vec_capacity rows.old ≤ vec_capacity rows.new }
{
    put(rows, row.order());
}

/// Puts each of the rows where it belongs.
fn put_all(rows: &mut Vec<ManifestRow>, more: List<ManifestRow>)
    requires room { vec_len rows.old + length more ≤ vec_capacity rows.old }
    requires order { AreInOrder rows.old.items }
    ensures put { rows.new.items ≡ put_rows more rows.old.items }
    ensures order { AreInOrder rows.new.items }
{
    for row in more.into_vec() {
        put_ordered(rows, row);
    }
}

impl Held {
    /// Makes room for so many manifests more, so that a change of as many rows takes no memory. Refused
    /// for want of memory alone, and what is held is as before whatever it answers.
    pub fn reserve(&mut self, rows: usize) -> OrMemory<()>
        ensures room { OnOk result (vec_len self.new.rows + rows ≤ vec_capacity self.new.rows) }
        ensures same { SameButRoom self.old self.new }
    {
        self.rows.reserve(rows)?;
        Ok(())
    }

    /// Makes the change. There is room for its rows, so it takes no memory. The journal is not touched.
    pub fn apply(&mut self, change: Change)
        requires room { vec_len self.old.rows + length change.rows ≤ vec_capacity self.old.rows }
        requires order { AreInOrder self.old.rows.items }
        ensures state { state_of self.new ≡ changed change (state_of self.old) }
        ensures order { AreInOrder self.new.rows.items }
        ensures head { head_of self.new ≡ head_of self.old }
        ensures journal { self.new.journal ≡ self.old.journal }
    {
        let Change {
            leaf,
            rows,
            anchors,
        } = change;
        put_all(&mut self.rows, rows);
        self.leaf = leaf;
        if let Some(anchors) = anchors {
            self.change_anchors(anchors);
        }
    }

    // Other anchors than so far. The first ones are kept, since the head of the image has them.
    fn change_anchors(&mut self, anchors: Anchors)
        ensures state { state_of self.new ≡ record (state_of self.old) { config = with_anchors (Some anchors) self.old.config } }
        ensures head { head_of self.new ≡ head_of self.old }
        ensures journal { self.new.journal ≡ self.old.journal }
    {
        let last = std::mem::replace(&mut self.config.anchors, anchors);
        if self.first_anchors.is_none() {
            self.first_anchors = Some(last);
        }
    }
}
