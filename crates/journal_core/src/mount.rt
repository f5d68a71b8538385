ghost use Rattle.std.specs.Prelude.{◌≡◌, ◌≤◌, ◌-◌, Err, IfOk};
ghost use Rattle.board_core.specs.Contents.{Same};
ghost use Rattle.board_core.specs.Moments.{Passes, NoMoment};
ghost use Rattle.board_core.specs.Calls.{DiskCause, DiskCausedBy};
ghost use Rattle.journal_core.specs.Region.{selected};
ghost use Rattle.journal_core.specs.Kept.{IsWithin, IsOf};
ghost use Rattle.journal_core.specs.Scanning.{IsEmpty, Scans, GateIs, FitsIn, behind};
ghost use Rattle.journal_core.specs.Outcome.{Mounts};

use crate::fault::JournalFault;
use crate::framed::OPEN;
use crate::journal::Journal;
use crate::place::Place;
use crate::region::Region;
use base_types::{Failed, OrMemory};
use board_core::Board;
use std::alloc::Global;

// An open gate, the length of a body of no bytes, and the gate behind it.
const FRAME_LEAST: u64 = 6;

/// What stands at a gate of a half.
#[derive(Clone, Copy, Debug, Eq, PartialEq)]
pub enum Gate {
    /// It is not open: the list ends here.
    Closed,
    /// It is open, and a body of this length stands behind it, with room for a gate.
    Body(u32),
    /// It is open, and its length, its body or the next gate reaches past the half.
    Overrun,
}

impl Journal {
    /// Finds the list of the region, which lies within the image. It loads, and changes nothing.
    ///
    /// It does not sync: a list that stands in bytes which are pending is not durable, and a crash may
    /// leave another or none. `NoJournal` exactly where the region stands for no list and no load failed;
    /// `DiskFault` exactly where the count of failed disk calls rose in this call.
    pub fn mount<B: Board>(
        alloc: Global,
        board: &mut B,
        region: Region,
    ) -> Result<Journal, JournalFault>
        requires { IsWithin region (B.view board.old).extent }
        ensures mounts { B.told → Mounts region (B.view board.old).now.disk.bytes result }
        ensures region { IfOk result (λ journal. journal.region ≡ region) }
        ensures cause { DiskCausedBy (result ≡ Err JournalFault.DiskFault) (B.view board.old) (B.view board.new) }
        ensures same { B.told → Same (B.view board.old) (B.view board.new) }
        ensures moments { B.told → Passes (B.view board.old) (B.view board.new) NoMoment }
    {
        let size = board.size();
        prove!(region.at <= size);
        let second = selects_second(board, region)?;
        let journal = Journal {
            region,
            second,
            places: Vec::new(alloc),
            used: 0,
        };
        journal.scan(board)
    }

    // Takes in every body of the half, from its first gate to the one that is not open.
    fn scan<B: Board>(mut self, board: &mut B) -> Result<Journal, JournalFault>
        requires within { IsWithin self.region (B.view board.old).extent }
        requires empty { IsEmpty self }
        ensures mounts { B.told → Scans self (B.view board.old).now.disk.bytes result }
        ensures is_of { IfOk result (IsOf self) }
        ensures cause { DiskCausedBy (result ≡ Err JournalFault.DiskFault) (B.view board.old) (B.view board.new) }
        ensures same { B.told → Same (B.view board.old) (B.view board.new) }
        ensures moments { B.told → Passes (B.view board.old) (B.view board.new) NoMoment }
    {
        loop {
            match self.next_gate(board)? {
                Gate::Closed => return Ok(self),
                Gate::Body(length) => self.take_in(length)?,
                Gate::Overrun => return Err(JournalFault::NoJournal),
            }
        }
    }

    // What stands at the gate behind the bodies so far.
    fn next_gate<B: Board>(&self, board: &mut B) -> Result<Gate, Failed>
        requires { IsWithin self.now.region (B.view board.old).extent }
        ensures gate { B.told → IfOk result (GateIs (self.now.region.half - self.now.used) (behind self.now (B.view board.old).now.disk.bytes)) }
        ensures fits { IfOk result (FitsIn (self.now.region.half - self.now.used)) }
        ensures cause { DiskCause (B.view board.old) (B.view board.new) result }
        ensures same { B.told → Same (B.view board.old) (B.view board.new) }
        ensures moments { B.told → Passes (B.view board.old) (B.view board.new) NoMoment }
    {
        let at = self.half_at() + self.used;
        let room = self.region.half - self.used;
        if room == 0 {
            return Ok(Gate::Overrun);
        }
        if room < FRAME_LEAST {
            let mut gate = [0u8; 1];
            board.load(at, &mut gate)?;
            return Ok(if gate[0] == OPEN {
                Gate::Overrun
            } else {
                Gate::Closed
            });
        }
        let mut opening = [0u8; 5];
        board.load(at, &mut opening)?;
        Ok(gate_of(opening, room))
    }
}

// What five bytes at a gate say, where so many bytes of the half are left, the gate's included.
fn gate_of(opening: [u8; 5], room: u64) -> Gate
    requires { 6 ≤ room }
    ensures gate { GateIs room opening result }
    ensures fits { FitsIn room result }
{
    let [gate, a, b, c, d] = opening;
    if gate != OPEN {
        return Gate::Closed;
    }
    let length = u32::from_be_bytes([a, b, c, d]);
    if room - FRAME_LEAST < u64::from(length) {
        return Gate::Overrun;
    }
    Gate::Body(length)
}

// Whether the second half counts.
fn selects_second<B: Board>(board: &mut B, region: Region) -> Result<bool, Failed>
    requires { IsWithin region (B.view board.old).extent }
    ensures second { B.told → IfOk result (λ second. second ≡ selected region (B.view board.old).now.disk.bytes) }
    ensures cause { DiskCause (B.view board.old) (B.view board.new) result }
    ensures same { B.told → Same (B.view board.old) (B.view board.new) }
    ensures moments { B.told → Passes (B.view board.old) (B.view board.new) NoMoment }
{
    let mut selector = [0u8; 1];
    board.load(region.at, &mut selector)?;
    Ok(selector[0] % 2 == 1)
}
