//! Where a byte of a recorded guest changes.

ghost use Rattle.std.specs.Prelude.{◌≤◌, ◌<◌, IfOk};
ghost use Rattle.std.specs.Thread.{IsSync};
ghost use Rattle.rrv_model.specs.StateAt.{total};
ghost use Rattle.replayer.specs.Changes.{IsLastIn};
ghost use Rattle.reverse_step.specs.Changes.{IsFirstIn};

use replayer::Verified;
use rrv_model::refusal::Memory;
use std::alloc::Global;
use std::thread::{Threads, join};

/// How many instructions are watched at once, of which the first that changes a byte is then looked for one by one.
const STRETCH: u64 = 4096;

/// Who is told how far a search is.
pub trait SearchWatch {
    /// It has come to this place.
    fn reached(&mut self, place: u64);
}

/// The last place from a start on, and below an end, whose instruction changes the byte at an address.
pub(crate) fn last_in(
    alloc: Global,
    verified: &Verified,
    start: u64,
    end: u64,
    address: u32,
) -> Result<Option<u64>, Memory>
    requires low { start ≤ end }
    requires high { end ≤ total verified.now.frames }
    ensures { IfOk result (IsLastIn verified.now.opening verified.now.frames address start end) }
{
    let mut place = verified.place_at(alloc, start)?;
    let mut found = None;
    while place.at() < end {
        let (next, changed) = place.watch(alloc, end, address)?;
        place = next;
        found = changed.or(found);
    }
    Ok(found)
}

/// Where so many spans before a place begin, each at a checkpoint, or the first at the start.
pub(crate) fn spans_before(verified: &Verified, end: u64, count: usize) -> u64
    requires { 0 < end }
    ensures { result < end }
{
    let mut start = verified.checkpoint_before(end - 1);
    let mut left = count;
    while 1 < left && 0 < start {
        start = verified.checkpoint_before(start - 1);
        left -= 1;
    }
    start
}

/// Where to part the way from a start to an end, so that the first so many of all workers have about their share: the last
/// checkpoint before half a share more.
fn parting(verified: &Verified, start: u64, end: u64, first: usize, workers: usize) -> u64
    requires low { start ≤ end }
    requires some { 1 ≤ workers }
    ensures { result ≤ end }
{
    let share = (end - start) / workers as u64;
    let place = start
        .saturating_add(share.saturating_mul(first as u64))
        .saturating_add(share / 2);
    verified.checkpoint_before(place.min(end))
}

/// What [`last_in`] finds, looked for in spans between checkpoints side by side. So many workers at most take part, each in a
/// thread of its own if one can be made, and each with a guest of its own.
#[cycle(spans)]
pub(crate) fn last_in_spans<R: Threads + Sync>(
    rt: &R,
    alloc: Global,
    verified: &Verified,
    start: u64,
    end: u64,
    address: u32,
    workers: usize,
) -> Result<Option<u64>, Memory>
    requires low { start ≤ end }
    requires high { end ≤ total verified.now.frames }
    ensures { IfOk result (IsLastIn verified.now.opening verified.now.frames address start end) }
{
    if workers < 2 {
        return last_in(alloc, verified, start, end, address);
    }
    let half = workers / 2;
    let rest = workers - half;
    let middle = parting(verified, start, end, half, workers);
    if middle <= start {
        return last_in(alloc, verified, start, end, address);
    }
    let first = move || -> Result<Option<u64>, Memory>
        requires { IsSync R.row × (start ≤ middle) × (middle ≤ total verified.now.frames) }
        ensures { IfOk result (IsLastIn verified.entry.now.opening verified.entry.now.frames address start middle) }
    { last_in_spans(rt, alloc, verified, start, middle, address, half) };
    let second = move || -> Result<Option<u64>, Memory>
        requires { IsSync R.row × (middle ≤ end) × (end ≤ total verified.now.frames) }
        ensures { IfOk result (IsLastIn verified.entry.now.opening verified.entry.now.frames address middle end) }
    { last_in_spans(rt, alloc, verified, middle, end, address, rest) };
    let (early, late) = join(rt, first, second);
    match late? {
        Some(t) => Ok(Some(t)),
        None => early,
    }
}

/// The first place from a start on, and below an end, whose instruction changes the byte at an address: each is looked at.
fn first_of(
    alloc: Global,
    verified: &Verified,
    start: u64,
    end: u64,
    address: u32,
) -> Result<Option<u64>, Memory>
    requires low { start ≤ end }
    requires high { end ≤ total verified.now.frames }
    ensures { IfOk result (IsFirstIn verified.now.opening verified.now.frames address start end) }
{
    let mut place = verified.place_at(alloc, start)?;
    while place.at() < end {
        let at = place.at();
        let (next, changed) = place.watch(alloc, at + 1, address)?;
        match changed {
            Some(t) => return Ok(Some(t)),
            None => place = next,
        }
    }
    Ok(None)
}

/// The same, of which those before a stretch with such an instruction are passed over. How far it is goes to `watch`.
pub(crate) fn first_in<V: SearchWatch>(
    alloc: Global,
    verified: &Verified,
    start: u64,
    end: u64,
    address: u32,
    watch: &mut V,
) -> Result<Option<u64>, Memory>
    requires low { start ≤ end }
    requires high { end ≤ total verified.now.frames }
    ensures { IfOk result (IsFirstIn verified.now.opening verified.now.frames address start end) }
{
    let mut place = verified.place_at(alloc, start)?;
    while place.at() < end {
        let from = place.at();
        let stretch = STRETCH.min(end - from);
        let (next, changed) = place.watch(alloc, from + stretch, address)?;
        let stop = next.at();
        watch.reached(stop);
        match changed {
            Some(_) => {
                let found = first_of(alloc, verified, from, stop, address)?;
                return Ok(found);
            }
            None => place = next,
        }
    }
    Ok(None)
}
