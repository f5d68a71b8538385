// What a stop inside a call leaves: the bytes sent by then, and the image.
ghost use Rattle.std.specs.Prelude.{◌≡◌, ◌+◌, ◌≤◌, ◌++◌, [], ◌∷◌, length, take, drop, true, false, IfOk, OnOk, fold, replicate};
ghost use Rattle.std.specs.List.{flat_map, list_any};
ghost use Rattle.board_core.specs.Moments.{written};
ghost use Rattle.board_core.specs.Replay.{fresh, replay, all_fit, fits, done};
ghost use Rattle.board_core.specs.Stops.{left_in, left_in_put, sent_by, begun_by, let_out, is_good_sync, EndsSynced, StopLeaves};

use crate::call::Call;
use crate::history::{part_done, write};
use crate::stop::Stop;
use base_types::{Octets, OrMemory};
use std::alloc::Global;

/// What the calls have sent. Refused for want of memory alone.
pub fn all_sent(alloc: Global, calls: &[Call]) -> OrMemory<Octets>
    ensures { IfOk result (λ sent. sent ≡ flat_map sent_by calls.now) }
{
    let mut sent = Octets::new(alloc);
    for call in calls {
        if let Call::Send { bytes, ok } = call {
            sent.extend(part_done(bytes.as_slice(), *ok))?;
        }
    }
    Ok(sent)
}

// Adds what a stopped call has sent.
fn begin(sent: &mut Octets, call: &Call, stop: Stop) -> OrMemory<()>
    ensures { OnOk result (sent.new ≡ sent.old ++ begun_by stop call.now) }
{
    if let Call::Send { bytes, .. } = call {
        let bytes = bytes.as_slice();
        match stop {
            Stop::AsSynced | Stop::FilledA5 => {}
            Stop::AsPut | Stop::Filled5A => sent.extend(&bytes[..bytes.len() - bytes.len() / 2])?,
        }
    }
    Ok(())
}

fn is_synced(call: &Call) -> bool
    ensures { result ≡ is_good_sync call.now }
{
    matches!(call, Call::Sync { ok: true })
}

// How many calls there are up to the last good sync; 0 where there is none.
fn up_to_sync(calls: &[Call]) -> usize
    ensures within { result ≤ length calls.now }
    ensures last { EndsSynced (take result calls.now) }
    ensures none_since { list_any is_good_sync (drop result calls.now) ≡ false }
{
    let mut count = calls.len();
    while count > 0 && !is_synced(&calls[count - 1]) {
        count -= 1;
    }
    count
}

// Fills a part of the image with one byte.
fn fill(image: &mut Vec<u8>, at: usize, count: usize, byte: u8)
    requires { at + count ≤ length image.old.items }
    ensures { image.new.items ≡ written image.old.items at (replicate count byte) }
{
    image[at..at + count].fill(byte);
}

// Does to the image what a stop leaves of one call.
fn overlay(image: &mut Vec<u8>, call: &Call, stop: Stop)
    requires { fits (length image.old.items) call.now ≡ true }
    ensures { image.new.items ≡ left_in stop image.old.items call.now }
{
    if let Call::Put { at, bytes, ok } = call {
        let bytes = bytes.as_slice();
        let at = *at as usize;
        match stop {
            Stop::AsSynced => {}
            Stop::AsPut => write(image, at, part_done(bytes, *ok)),
            Stop::FilledA5 => fill(image, at, bytes.len(), 0xa5),
            Stop::Filled5A => fill(image, at, bytes.len(), 0x5a),
        }
    }
}

// Does so for each of the calls in order.
fn overlay_all(image: &mut Vec<u8>, calls: &[Call], stop: Stop)
    requires { all_fit (length image.old.items) calls.now ≡ true }
    ensures image { image.new.items ≡ fold (left_in stop) image.old.items calls.now }
    ensures long { length image.new.items ≡ length image.old.items }
{
    for call in calls {
        overlay(image, call, stop);
    }
}

/// What a stop inside a call leaves, behind these calls on a board with this first image.
pub fn stopped(
    alloc: Global,
    first: &[u8],
    calls: &[Call],
    call: &Call,
    stop: Stop,
) -> OrMemory<(Octets, Octets)>
    requires fit { all_fit (length first.now) calls.now ≡ true }
    requires call_fits { fits (length first.now) call.now ≡ true }
    ensures { IfOk result (λ pair. StopLeaves stop first.now calls.now call.now pair.0 pair.1) }
{
    let mut sent = all_sent(alloc, calls)?;
    begin(&mut sent, call, stop)?;

    let mut image = Vec::from_slice(alloc, first)?;
    let synced = up_to_sync(calls);
    overlay_all(&mut image, &calls[..synced], Stop::AsPut);
    overlay_all(&mut image, &calls[synced..], stop);
    overlay(&mut image, call, stop);
    Ok((sent, Octets::from_vec(image)))
}
