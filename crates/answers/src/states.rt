//! The state at a place of a verified recording.

ghost use Rattle.std.specs.Prelude.{◌≡◌, ◌+◌, List, OnOk, ℕ};
ghost use Rattle.std.specs.Io.KnownBytes.{Appends};
ghost use Rattle.rrv_model.specs.StateAt.{total};
ghost use Rattle.asking.specs.Places.{place_in};
ghost use Rattle.changes.specs.Printed.{IsStateText, PrintsChanges};
ghost use Rattle.answers.specs.Refused.{GoesBack, Reaches};

use crate::search_progress::SearchProgress;
use asking::place_in;
use changes::{Shown, print_changes, print_state};
use command_line::{MemoryRange, Place};
use line_io::{Refusal, finish, in_blocks};
use replayer::Verified;
use reverse_step::{Cursor, SearchWatch};
use std::alloc::Global;
use std::io::Write;
use std::thread::Threads;
use std::time::Clock;
use stored_guests::workers;

/// A cursor at a place.
pub(crate) fn cursor_at<'a>(
    alloc: Global,
    verified: &'a Verified,
    place: u64,
) -> Result<Cursor<'a>, Refusal>
    ensures { GoesBack verified.now result place 0 }
{
    let mut cursor = Cursor::new(alloc, verified)?;
    cursor.seek(alloc, place)?;
    Ok(cursor)
}

/// A cursor at so many instructions before a place.
fn cursor_back<'a>(
    alloc: Global,
    verified: &'a Verified,
    from: u64,
    count: u64,
) -> Result<Cursor<'a>, Refusal>
    ensures { GoesBack verified.now result from count }
{
    let mut cursor = cursor_at(alloc, verified, from)?;
    cursor.back(alloc, count)?;
    Ok(cursor)
}

/// Prints the state so many instructions before a place.
fn print_back<W: Write>(
    alloc: Global,
    verified: &Verified,
    from: Place,
    count: u64,
    ranges: &[MemoryRange],
    out: &mut W,
) -> Result<(), Refusal>
    ensures printed { OnOk result ((place : ℕ) × (place + count ≡ place_in (total verified.now.frames) from)
        × (text : List ℕ) × IsStateText verified.now.opening verified.now.frames ranges.now place text
        × Appends (W.contents out.old) (W.contents out.new) text) }
    ensures reaches { Reaches result (total verified.now.frames) (place_in (total verified.now.frames) from) count }
{
    let cursor = cursor_back(alloc, verified, place_in(from, verified), count)?;
    print_state(&cursor, ranges, out)?;
    Ok(())
}

/// Prints the last changes, below a place, of some bytes, so many at most, the last first; or that there is none.
fn print_last<W: Write, V: SearchWatch, R: AllocGlobal + Threads + Sync>(
    rt: &R,
    verified: &Verified,
    from: Place,
    shown: Shown<'_>,
    times: u64,
    watch: &mut V,
    out: &mut W,
) -> Result<(), Refusal>
    ensures printed { OnOk result
        (PrintsChanges verified.now shown.entry times (place_in (total verified.now.frames) from)
        (W.contents out.old) (W.contents out.new)) }
    ensures reaches { Reaches result (total verified.now.frames) (place_in (total verified.now.frames) from) 0 }
{
    let alloc = rt.alloc();
    let mut cursor = cursor_at(alloc, verified, place_in(from, verified))?;
    print_changes(
        rt,
        alloc,
        workers(rt),
        &mut cursor,
        shown,
        times,
        watch,
        out,
    )?;
    Ok(())
}

/// Prints the state so many instructions before a place, in blocks.
pub(crate) fn show_back<O: Write>(
    alloc: Global,
    verified: &Verified,
    from: Place,
    count: u64,
    ranges: &[MemoryRange],
    out: &mut O,
) -> Result<(), Refusal> {
    let mut out = in_blocks(alloc, out)?;
    print_back(alloc, verified, from, count, ranges, &mut out)?;
    finish(&mut out)
}

/// Prints the last changes of some bytes, in blocks. How far the search is goes to `watch`.
pub(crate) fn show_last<O: Write, E: Write + Drop, R: AllocGlobal + Threads + Sync + Clock>(
    rt: &R,
    verified: &Verified,
    from: Place,
    shown: Shown<'_>,
    times: u64,
    watch: &mut SearchProgress<'_, R, E>,
    out: &mut O,
) -> Result<(), Refusal> {
    let mut out = in_blocks(rt.alloc(), out)?;
    let printed = print_last(rt, verified, from, shown, times, watch, &mut out);
    watch.clear();
    printed?;
    finish(&mut out)
}
