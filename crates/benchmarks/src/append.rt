//! Bodies put at the end of a journal in memory.
ghost use Rattle.std.specs.Prelude.{◌≡◌, ◌+◌, ◌<◌, ◌^◌, length, IfOk};

use base_types::{List, Octets, OrMemory};
use board_core::{Board, MemoryBoard};
use journal_core::{Framed, Journal, Region};
use std::alloc::Global;

/// What each body is.
const BODY: [u8; 100] = [7; 100];

/// How many bytes of a half one takes: its own, its gate and its length.
const FRAME: u64 = 105;

/// The most bodies that are put.
const MOST: u64 = 1_000_000;

/// How many bodies were put, one by one, into a journal that has room for just so many.
pub fn appends(alloc: Global, bodies: u64) -> u64 {
    if bodies > MOST {
        return 0;
    }
    let region = Region {
        at: 0,
        half: bodies * FRAME + 1,
    };
    appended(alloc, region, bodies).unwrap_or(0)
}

fn appended(alloc: Global, region: Region, bodies: u64) -> Option<u64>
    requires { region.at + region.half < 2 ^ 32 }
{
    let mut board = blank_board(alloc, region.at + 16 + 2 * region.half).ok()?;
    if board.size() < region.at + 16 + 2 * region.half {
        return None;
    }
    let framed = framed_body(alloc).ok()?;
    let mut journal = Journal::mount(alloc, &mut board, region).ok()?;
    journal.reserve(bodies).ok()?;
    for _ in 0..bodies {
        journal.append(&mut board, &framed).ok()?;
    }
    Some(journal.count())
}

// A board whose image is so many zeros.
fn blank_board(alloc: Global, size: u64) -> OrMemory<MemoryBoard> {
    let image = Octets::from_vec(vec![in alloc; 0; size as usize]?);
    MemoryBoard::new(alloc, Octets::new(alloc), image, 1, List::new(alloc))
}

fn framed_body(alloc: Global) -> OrMemory<Framed>
    ensures { IfOk result (λ framed. length framed ≡ 1) }
{
    let mut bodies = List::new(alloc);
    bodies.push(Octets::from_slice(alloc, &BODY)?)?;
    Framed::of(alloc, &bodies)
}
