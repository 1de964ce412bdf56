//! The changes of some bytes, one before the other.

ghost use Rattle.std.specs.Prelude.{◌≡◌, ◌+◌, ◌<◌, ◌≤◌, IfOk, OnOk, length};
ghost use Rattle.rrv_model.specs.StateAt.{total};
ghost use Rattle.reverse_step.specs.Changes.{IsLastChange};
ghost use Rattle.changes.specs.Changes.{AreKnown, AreLasts, GoesTo, IsKnown, IsLatest, later};

use command_line::Watched;
use reverse_step::{Cursor, SearchWatch, SeekFault};
use rrv_model::refusal::Memory;
use std::alloc::Global;
use std::thread::Threads;

/// Goes to a place of the recording.
pub(crate) fn go_to(alloc: Global, cursor: &mut Cursor<'_>, place: u64) -> Result<(), Memory>
    requires { place ≤ total cursor.old.verified.frames }
    ensures verified { cursor.new.verified ≡ cursor.old.verified }
    ensures at { OnOk result (cursor.new.place ≡ place) }
{
    match cursor.seek(alloc, place) {
        Ok(()) => Ok(()),
        Err(SeekFault::Memory) => Err(Memory),
        Err(SeekFault::BeforeStart | SeekFault::PastEnd) => unreachable!(),
    }
}

/// Goes on by an instruction.
pub(crate) fn step_on(alloc: Global, cursor: &mut Cursor<'_>) -> Result<(), Memory>
    requires { cursor.old.place < total cursor.old.verified.frames }
    ensures verified { cursor.new.verified ≡ cursor.old.verified }
    ensures at { OnOk result (cursor.new.place ≡ cursor.old.place + 1) }
{
    match cursor.forward(alloc, 1) {
        Ok(()) => Ok(()),
        Err(SeekFault::Memory) => Err(Memory),
        Err(SeekFault::BeforeStart | SeekFault::PastEnd) => unreachable!(),
    }
}

/// The last change, below a place, of the byte at an address, if this is the last one that is known: it is looked for if that is the place
/// itself, since else it lies below it already.
fn last_below<R: Threads + Sync, V: SearchWatch>(
    rt: &R,
    alloc: Global,
    workers: usize,
    cursor: &mut Cursor<'_>,
    place: u64,
    address: u32,
    known: Option<u64>,
    watch: &mut V,
) -> Result<Option<u64>, Memory>
    requires within { place ≤ total cursor.old.verified.frames }
    requires known { IsKnown cursor.old.verified.opening cursor.old.verified.frames address place known }
    ensures verified { cursor.new.verified ≡ cursor.old.verified }
    ensures last { IfOk result (IsLastChange cursor.old.verified.opening cursor.old.verified.frames address place) }
{
    if known != Some(place) {
        return Ok(known);
    }
    go_to(alloc, cursor, place)?;
    cursor.last_change_in_spans(rt, alloc, workers, address, watch)
}

/// Looks for the last changes, below a place, of the watched bytes.
fn look<R: Threads + Sync, V: SearchWatch>(
    rt: &R,
    alloc: Global,
    workers: usize,
    cursor: &mut Cursor<'_>,
    place: u64,
    watched: Watched,
    lasts: &mut [Option<u64>],
    watch: &mut V,
) -> Result<(), Memory>
    requires within { place ≤ total cursor.old.verified.frames }
    requires count { length lasts.old ≡ watched.count }
    requires known { AreKnown cursor.old.verified.opening cursor.old.verified.frames watched.address place lasts.old }
    ensures verified { cursor.new.verified ≡ cursor.old.verified }
    ensures count { length lasts.new ≡ watched.count }
    ensures lasts { OnOk result
        (AreLasts cursor.old.verified.opening cursor.old.verified.frames watched.address place lasts.new) }
{
    for k in 0..watched.count {
        let known = lasts[k as usize];
        let address = watched.address + k;
        lasts[k as usize] = last_below(rt, alloc, workers, cursor, place, address, known, watch)?;
    }
    Ok(())
}

/// The later of two places.
fn later(one: Option<u64>, other: Option<u64>) -> Option<u64>
    ensures { result ≡ later one other }
{
    match (one, other) {
        (Some(t), Some(u)) if t < u => other,
        (Some(_), _) => one,
        (None, _) => other,
    }
}

/// The latest of some places.
fn latest(places: &[Option<u64>]) -> Option<u64>
    ensures { IsLatest places.now result }
{
    let mut latest = None;
    for place in places {
        latest = later(latest, *place);
    }
    latest
}

/// Goes to the last change, below a place, of some of the watched bytes, and returns it, if there is one. How far it is goes to `watch`.
pub(crate) fn previous<R: Threads + Sync, V: SearchWatch>(
    rt: &R,
    alloc: Global,
    workers: usize,
    cursor: &mut Cursor<'_>,
    place: u64,
    watched: Watched,
    lasts: &mut [Option<u64>],
    watch: &mut V,
) -> Result<Option<u64>, Memory>
    requires within { place ≤ total cursor.old.verified.frames }
    requires count { length lasts.old ≡ watched.count }
    requires known { AreKnown cursor.old.verified.opening cursor.old.verified.frames watched.address place lasts.old }
    ensures verified { cursor.new.verified ≡ cursor.old.verified }
    ensures count { length lasts.new ≡ watched.count }
    ensures goes { IfOk result (GoesTo cursor.old.verified watched place cursor.new.place lasts.new) }
{
    look(rt, alloc, workers, cursor, place, watched, lasts, watch)?;
    let Some(found) = latest(lasts) else {
        return Ok(None);
    };
    go_to(alloc, cursor, found)?;
    Ok(Some(found))
}
