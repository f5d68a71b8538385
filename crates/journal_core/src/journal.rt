ghost use Rattle.std.specs.Prelude.{◌≡◌, ◌+◌, ◌<◌, ◌≤◌, ◌^◌, ℕ, List, length, OnOk, OnErr, slice_get, Some, not};
ghost use Rattle.journal_core.specs.declared.place.Place.{Place};
ghost use Rattle.journal_core.specs.Region.{half_at, is_second, region_size};
ghost use Rattle.journal_core.specs.Kept.{Kept, Fits, IsBodyAt, SameBut};
ghost use Rattle.journal_core.specs.Scanning.{IsEmpty, TakesIn};

use crate::place::Place;
use crate::region::Region;
use base_types::OrMemory;
use std::marker::Model;

/// A mounted journal: where the bodies of its region lie.
///
/// It keeps places and no bodies. What it says is true of the image that it was mounted from, and stays
/// true through its own changes.
#[derive(Debug, Drop)]
pub struct Journal {
    pub(crate) region: Region,
    pub(crate) second: bool,
    pub(crate) places: Vec<Place>,
    pub(crate) used: u64,
}

impl Model for Journal {
    ghost use Rattle.std.specs.Prelude.{◌-◌, ◌+◌, ◌*◌, ◌<◌, ◌≤◌, ◌^◌};
    ghost use Rattle.std.specs.Vec.{vec_len, vec_capacity};
    ghost use Rattle.journal_core.specs.Place.{AllLieIn};
    ghost use Rattle.journal_core.specs.Region.{half_at};
    ghost use Rattle.journal_core.specs.Kept.{Kept};

    ghost Value = { Kept };

    ghost view = { λ it. record { region = it.region; second = it.second; places = it.places.items; used = it.used; spare = vec_capacity it.places - vec_len it.places } };

    ghost invariant = { λ it. (it.region.at + 16 + 2 * it.region.half < 2 ^ 64) × (it.used ≤ it.region.half) × AllLieIn (half_at it.region it.second) it.used it.places.items };
}

impl Journal {
    // Where the half that counts begins.
    pub(crate) fn half_at(&self) -> u64
        ensures { result ≡ half_at self.now.region self.now.second }
    {
        self.region.half_at(self.second)
    }

    // Where the gate behind the bodies is.
    pub(crate) fn gate_at(&self) -> u64
        ensures at { result ≡ half_at self.now.region self.now.second + self.now.used }
        ensures below { result + self.now.region.half ≤ self.now.region.at + region_size self.now.region + self.now.used }
        ensures fits { self.now.region.at + region_size self.now.region < 2 ^ 64 }
    {
        self.half_at() + self.used
    }

    // Where the half begins that does not count.
    pub(crate) fn other_at(&self) -> u64
        ensures at { result ≡ half_at self.now.region (not self.now.second) }
        ensures fits { self.now.region.at + region_size self.now.region < 2 ^ 64 }
    {
        self.region.half_at(!self.second)
    }

    // Where the selector is.
    pub(crate) fn selector_at(&self) -> u64
        ensures { result ≡ self.now.region.at }
    {
        self.region.at
    }

    // The selector by which the other half counts.
    pub(crate) fn other_selector(&self) -> u8
        ensures { is_second result ≡ not self.now.second }
    {
        if self.second { 0 } else { 1 }
    }

    // How many bytes a half has.
    pub(crate) fn half(&self) -> u64
        ensures { result ≡ self.now.region.half }
    {
        self.region.half
    }

    // How many bytes of the half the bodies leave.
    pub(crate) fn room(&self) -> u64
        ensures { result + self.now.used ≡ self.now.region.half }
    {
        self.region.half - self.used
    }

    /// The number of bodies.
    pub fn count(&self) -> u64
        ensures places { result ≡ length self.now.places }
        // Of each list for which its region stands.
        ensures bodies { (image : List ℕ) (bodies : List (List ℕ)) → Fits self.now image bodies → result ≡ length bodies }
    {
        self.places.len() as u64
    }

    /// Where the body of an index lies in the image, and its length in bytes. The index is below the
    /// count. The range is within the region, and the body is what a load of it gives.
    pub fn place(&self, index: u64) -> (u64, u64)
        requires { index < length self.now.places }
        ensures place { slice_get self.now.places index ≡ Some (record { at = result.0; length = result.1 }) }

        // It is behind the selector and within the region, whatever the image is.
        ensures after { self.now.region.at + 16 ≤ result.0 }
        ensures within { result.0 + result.1 ≤ self.now.region.at + region_size self.now.region }

        // The body is there, in each image and of each list that the journal fits.
        ensures body { (image : List ℕ) (bodies : List (List ℕ)) → Fits self.now image bodies → IsBodyAt index result.0 result.1 image bodies }
    {
        let place = self.places[index as usize];
        (place.at, place.length)
    }

    /// How many bytes of the half the bodies take, each with its gate and its length. The closed gate
    /// behind them is not counted.
    pub fn used(&self) -> u64
        ensures { result ≡ self.now.used }
    {
        self.used
    }

    /// Makes room for `more` bodies in the list of places, so that they need no memory later. Refused
    /// for want of memory alone, and the list is as before whatever it answers.
    pub fn reserve(&mut self, more: u64) -> OrMemory<()>
        ensures room { OnOk result (more ≤ self.new.spare) }
        ensures never_less { self.old.spare ≤ self.new.spare }
        ensures same { SameBut self.old self.new }
    {
        self.places.reserve(more as usize)?;
        Ok(())
    }

    // One body more, whose frame and a gate behind it lie within the half.
    pub(crate) fn take_in(&mut self, length: u32) -> OrMemory<()>
        requires { self.old.used + 6 + length ≤ self.old.region.half }
        ensures { OnOk result (TakesIn length self.old self.new) }
    {
        self.places.reserve(1)?;
        self.take_in_reserved(length);
        Ok(())
    }

    // The same where a place is reserved for it.
    pub(crate) fn take_in_reserved(&mut self, length: u32)
        requires fits { self.old.used + 6 + length ≤ self.old.region.half }
        requires room { 0 < self.old.spare }
        ensures taken { TakesIn length self.old self.new }
        ensures spare { self.old.spare ≤ self.new.spare + 1 }
    {
        let place = Place {
            at: self.half_at() + self.used + 5,
            length: u64::from(length),
        };
        let Ok(()) = self.places.push(place) else {
            unreachable!()
        };
        self.used += 5 + u64::from(length);
    }

    // The other half counts, and has no body yet. The places' room stays.
    pub(crate) fn begin_other(&mut self)
        ensures empty { IsEmpty self.new }
        ensures region { self.new.region ≡ self.old.region }
        ensures second { self.new.second ≡ not self.old.second }
        ensures room { self.old.spare + length self.old.places ≤ self.new.spare }
    {
        self.places.clear();
        self.second = !self.second;
        self.used = 0;
    }
}
