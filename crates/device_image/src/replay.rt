// The bodies of a journal are gone through, one by one.
ghost use Rattle.std.specs.Prelude.{◌≡◌, ◌≢◌, ◌+◌, ◌<◌, ◌≤◌, ℕ, List as ListOf, Err, IfOk, OnOk, Some, length, take, drop, slice_get};
ghost use Rattle.base_types.specs.declared.limits.TheConstants.{QUOTA_LIMIT};
ghost use Rattle.board_core.specs.Contents.{Same};
ghost use Rattle.board_core.specs.Calls.{DiskCausedBy};
ghost use Rattle.board_core.specs.Moments.{Passes, NoMoment};
ghost use Rattle.journal_core.specs.Kept.{IsWithin, Fits};
ghost use Rattle.device_config.specs.Image.{journal_region};
ghost use Rattle.device_state.specs.Law.{AreInOrder};
ghost use Rattle.device_state.specs.State.{new_state};
ghost use Rattle.device_state.specs.Valid.{IsValid};
ghost use Rattle.device_image.specs.Held.{state_of, head_of};
ghost use Rattle.device_image.specs.Replay.{IsNew, MountedAs, BegunAs, ReadAs, IsOf, TakenAs, ReplayedAs, JudgedAs, SettledAs, FinishedAs};

use crate::held::Held;
use base_types::zeros;
use board_core::Board;
use commit_records::{ChangeFault, read_change};
use device_config::{Config, MountFault, journal_of};
use device_state::{Change, is_sound, rows_weight};
use journal_core::{Journal, JournalFault, Region, one_list};
use std::alloc::Global;

// The journal of a region of the board's image.
fn mount<B: Board>(alloc: Global, board: &mut B, region: Region) -> Result<Journal, MountFault>
    requires { IsWithin region (B.view board.old).extent }
    ensures mounted { B.told → MountedAs region (B.view board.old).now.disk.bytes result }
    ensures region { IfOk result (λ journal. journal.region ≡ region) }
    ensures cause { DiskCausedBy (result ≡ Err MountFault.DiskFault) (B.view board.old) (B.view board.new) }
    ensures same { B.told → Same (B.view board.old) (B.view board.new) }
    ensures moments { B.told → Passes (B.view board.old) (B.view board.new) NoMoment }
{
    // A region stands for one list at most.
    one_list();
    match Journal::mount(alloc, board, region) {
        Ok(journal) => Ok(journal),
        Err(JournalFault::NoJournal) => Err(MountFault::BadImage),
        Err(JournalFault::DiskFault) => Err(MountFault::DiskFault),
        Err(JournalFault::NoMemory) => Err(MountFault::NoMemory),
    }
}

// A new device of this configuration, and the journal of the board's image.
pub(crate) fn begin<B: Board>(
    alloc: Global,
    board: &mut B,
    config: Config,
) -> Result<Held, MountFault>
    requires quota { config.quota ≤ QUOTA_LIMIT }
    requires within { IsWithin (journal_region config.quota) (B.view board.old).extent }
    ensures begun { B.told → BegunAs config (B.view board.old).now.disk.bytes result }
    ensures new { IfOk result (IsNew config) }
    ensures cause { DiskCausedBy (result ≡ Err MountFault.DiskFault) (B.view board.old) (B.view board.new) }
    ensures same { B.told → Same (B.view board.old) (B.view board.new) }
    ensures moments { B.told → Passes (B.view board.old) (B.view board.new) NoMoment }
{
    match mount(alloc, board, journal_of(config.quota)) {
        Ok(journal) => Ok(Held {
            config,
            first_anchors: None,
            leaf: 0,
            rows: Vec::new(alloc),
            journal,
        }),
        Err(fault) => Err(fault),
    }
}

// So many bytes of the image from a place on.
fn load_body<B: Board>(
    alloc: Global,
    board: &mut B,
    at: u64,
    size: u64,
) -> Result<Vec<u8>, MountFault>
    requires { at + size ≤ (B.view board.old).extent }
    ensures body { B.told → IfOk result (λ body. body.items ≡ take size (drop at (B.view board.old).now.disk.bytes)) }
    ensures other { result ≢ Err MountFault.BadImage }
    ensures cause { DiskCausedBy (result ≡ Err MountFault.DiskFault) (B.view board.old) (B.view board.new) }
    ensures same { B.told → Same (B.view board.old) (B.view board.new) }
    ensures moments { B.told → Passes (B.view board.old) (B.view board.new) NoMoment }
{
    let mut body = zeros(alloc, size as usize)?;
    board.load(at, &mut body)?;
    Ok(body)
}

// The change that a body is, whose leaf is not below this one.
fn read_behind(alloc: Global, leaf: u64, body: &[u8]) -> Result<Change, MountFault>
    ensures read { ReadAs leaf body.now result }
    ensures disk { result ≢ Err MountFault.DiskFault }
{
    match read_change(alloc, body) {
        Ok(change) => {
            if change.leaf < leaf {
                Err(MountFault::BadImage)
            } else {
                Ok(change)
            }
        }
        Err(ChangeFault::BadChange) => Err(MountFault::BadImage),
        Err(ChangeFault::NoMemory) => Err(MountFault::NoMemory),
    }
}

impl Held {
    // Takes in one body more.
    fn take_in(&mut self, alloc: Global, body: &[u8]) -> Result<(), MountFault>
        requires { AreInOrder self.old.rows.items }
        ensures taken { TakenAs self.old body.now self.new result }
        ensures is_of { OnOk result (IsOf self.old self.new) }
        ensures disk { result ≢ Err MountFault.DiskFault }
    {
        let change = read_behind(alloc, self.leaf, body)?;
        self.reserve(change.rows.len())?;
        self.apply(change);
        Ok(())
    }

    // Takes in the body of an index, which the journal keeps.
    fn take_in_at<B: Board>(
        &mut self,
        alloc: Global,
        board: &mut B,
        index: u64,
    ) -> Result<(), MountFault>
        requires index { index < length self.old.journal.places }
        requires within { IsWithin self.old.journal.region (B.view board.old).extent }
        requires order { AreInOrder self.old.rows.items }
        ensures taken { B.told → (bodies : ListOf (ListOf ℕ)) (body : ListOf ℕ) → Fits self.old.journal (B.view board.old).now.disk.bytes bodies
            → slice_get bodies index ≡ Some body → TakenAs self.old body self.new result }
        ensures is_of { OnOk result (IsOf self.old self.new) }
        ensures cause { DiskCausedBy (result ≡ Err MountFault.DiskFault) (B.view board.old) (B.view board.new) }
        ensures same { B.told → Same (B.view board.old) (B.view board.new) }
        ensures moments { B.told → Passes (B.view board.old) (B.view board.new) NoMoment }
    {
        let (at, size) = self.journal.place(index);
        let body = load_body(alloc, board, at, size)?;
        self.take_in(alloc, &body)
    }

    // Takes in each body of the journal.
    fn replay<B: Board>(&mut self, alloc: Global, board: &mut B) -> Result<(), MountFault>
        requires new { state_of self.old ≡ new_state (head_of self.old) }
        requires within { IsWithin self.old.journal.region (B.view board.old).extent }
        ensures replayed { B.told → (bodies : ListOf (ListOf ℕ)) → Fits self.old.journal (B.view board.old).now.disk.bytes bodies
            → ReplayedAs (head_of self.old) bodies (state_of self.new) result }
        ensures is_of { OnOk result (IsOf self.old self.new) }
        ensures cause { DiskCausedBy (result ≡ Err MountFault.DiskFault) (B.view board.old) (B.view board.new) }
        ensures same { B.told → Same (B.view board.old) (B.view board.new) }
        ensures moments { B.told → Passes (B.view board.old) (B.view board.new) NoMoment }
    {
        let count = self.journal.count();
        for index in 0..count {
            self.take_in_at(alloc, board, index)?;
        }
        Ok(())
    }

    // Judges whether a device may be in the state.
    fn judge(&self, alloc: Global) -> Result<(), MountFault>
        requires { self.now.config.quota ≤ QUOTA_LIMIT }
        ensures judged { JudgedAs (state_of self.now) result }
        ensures disk { result ≢ Err MountFault.DiskFault }
    {
        let rows = self.rows.as_slice();
        if rows_weight(rows) > self.config.quota
            || !is_sound(alloc, &self.config, self.leaf, rows)?
        {
            return Err(MountFault::BadImage);
        }
        Ok(())
    }

    // Takes in each body, and judges the state.
    fn settle<B: Board>(&mut self, alloc: Global, board: &mut B) -> Result<(), MountFault>
        requires new { state_of self.old ≡ new_state (head_of self.old) }
        requires within { IsWithin self.old.journal.region (B.view board.old).extent }
        requires quota { (head_of self.old).quota ≤ QUOTA_LIMIT }
        ensures settled { B.told → (bodies : ListOf (ListOf ℕ)) → Fits self.old.journal (B.view board.old).now.disk.bytes bodies
            → SettledAs (head_of self.old) bodies (state_of self.new) result }
        ensures valid { OnOk result (IsValid (state_of self.new)) }
        ensures is_of { OnOk result (IsOf self.old self.new) }
        ensures cause { DiskCausedBy (result ≡ Err MountFault.DiskFault) (B.view board.old) (B.view board.new) }
        ensures same { B.told → Same (B.view board.old) (B.view board.new) }
        ensures moments { B.told → Passes (B.view board.old) (B.view board.new) NoMoment }
    {
        self.replay(alloc, board)?;
        self.judge(alloc)
    }

    // A new device with the bodies of its journal taken in, where a device may be in the state.
    pub(crate) fn finish<B: Board>(
        mut self,
        alloc: Global,
        board: &mut B,
    ) -> Result<Held, MountFault>
        requires new { state_of self ≡ new_state (head_of self) }
        requires within { IsWithin self.journal.region (B.view board.old).extent }
        requires quota { (head_of self).quota ≤ QUOTA_LIMIT }
        ensures finished { B.told → (bodies : ListOf (ListOf ℕ)) → Fits self.journal (B.view board.old).now.disk.bytes bodies → FinishedAs (head_of self) bodies result }
        ensures valid { IfOk result (λ held. IsValid (state_of held)) }
        ensures is_of { IfOk result (IsOf self) }
        ensures cause { DiskCausedBy (result ≡ Err MountFault.DiskFault) (B.view board.old) (B.view board.new) }
        ensures same { B.told → Same (B.view board.old) (B.view board.new) }
        ensures moments { B.told → Passes (B.view board.old) (B.view board.new) NoMoment }
    {
        match self.settle(alloc, board) {
            Ok(()) => Ok(self),
            Err(fault) => Err(fault),
        }
    }
}
