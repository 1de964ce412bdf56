//! What is printed of a place, and of changes.

ghost use Rattle.std.specs.Prelude.{◌≡◌, ◌<◌, ◌+◌, IfErr, IfOk, List, OnOk, string_bytes, ℕ};
ghost use Rattle.std.specs.Io.KnownBytes.{Appends};
ghost use Rattle.guest_calls.specs.Guest.{state_of};
ghost use Rattle.rrv_model.specs.StateAt.{total};
ghost use Rattle.line_io.specs.Stores.{RefusesPrint};
ghost use Rattle.changes.specs.Changes.{AfterIs};
ghost use Rattle.changes.specs.Printed.{IsLineText, IsShownText, IsStateText, PrintsChanges, PrintsEach, ranges_lines};

use crate::change_line::{ChangeLine, ValueText};
use crate::searching::{go_to, previous, step_on};
use crate::shown::Shown;
use asking::first_thread;
use command_line::{MemoryRange, Watched};
use guest_calls::Guest;
use line_io::{Refusal, print_text};
use reverse_step::{Cursor, SearchWatch};
use rrv_model::refusal::Memory;
use std::alloc::Global;
use std::io::Write;
use std::thread::Threads;
use trace_text::{MemoryLines, StateLines};

/// Prints the bytes of some ranges of a guest's memory.
fn print_ranges<W: Write>(guest: &Guest, ranges: &[MemoryRange], out: &mut W) -> Result<(), Refusal>
    ensures printed { OnOk result (Appends (W.contents out.old) (W.contents out.new)
        (ranges_lines (state_of guest.now).memory ranges.now)) }
    ensures refused { IfErr result (λ e. e ≡ Refusal.OutputFailed) }
{
    for range in ranges {
        let lines = MemoryLines::new(guest.space(), range.address, range.length);
        print_text(out, &lines)?;
    }
    Ok(())
}

/// Prints the state at a cursor's place, and the bytes of some ranges of its memory.
pub fn print_state<W: Write>(
    cursor: &Cursor<'_>,
    ranges: &[MemoryRange],
    out: &mut W,
) -> Result<(), Refusal>
    ensures printed { OnOk result ((text : List ℕ)
        × IsStateText cursor.now.verified.opening cursor.now.verified.frames ranges.now cursor.now.place text
        × Appends (W.contents out.old) (W.contents out.new) text) }
    ensures refused { IfErr result (λ e. e ≡ Refusal.OutputFailed) }
{
    let guest = cursor.guest();
    let lines = StateLines::new(guest, cursor.place(), cursor.verified().total());
    print_text(out, &lines)?;
    print_ranges(guest, ranges, out)
}

/// The value of watched bytes after the next instruction. The cursor stays.
fn value_after(alloc: Global, cursor: &mut Cursor<'_>, watched: Watched) -> Result<String, Memory>
    requires { cursor.old.place < total cursor.old.verified.frames }
    ensures verified { cursor.new.verified ≡ cursor.old.verified }
    ensures at { OnOk result (cursor.new.place ≡ cursor.old.place) }
    ensures after { IfOk result (λ text. AfterIs cursor.old.verified watched cursor.old.place (string_bytes text)) }
{
    let place = cursor.place();
    step_on(alloc, cursor)?;
    let value = ValueText::new(cursor.guest().space(), watched);
    let text = value.to_string(alloc)?;
    go_to(alloc, cursor, place)?;
    Ok(text)
}

/// Prints the line of the change at a cursor's place, and the bytes of some ranges of the memory there. The cursor stays.
fn print_line<W: Write>(
    alloc: Global,
    cursor: &mut Cursor<'_>,
    watched: Watched,
    ranges: &[MemoryRange],
    out: &mut W,
) -> Result<(), Refusal>
    requires { cursor.old.place < total cursor.old.verified.frames }
    ensures verified { cursor.new.verified ≡ cursor.old.verified }
    ensures at { OnOk result (cursor.new.place ≡ cursor.old.place) }
    ensures printed { OnOk result ((text : List ℕ)
        × IsLineText cursor.old.verified.opening cursor.old.verified.frames watched ranges.now cursor.old.place text
        × Appends (W.contents out.old) (W.contents out.new) text) }
    ensures refused { IfErr result RefusesPrint }
{
    let after = value_after(alloc, cursor, watched)?;
    let place = cursor.place();
    let tid = first_thread(cursor.verified(), place);
    let guest = cursor.guest();
    let line = ChangeLine::new(guest, place, tid, watched, after.as_str());
    print_text(out, &line)?;
    print_ranges(guest, ranges, out)
}

/// Prints what is shown of the change at a cursor's place. The cursor stays.
fn print_change<W: Write>(
    alloc: Global,
    cursor: &mut Cursor<'_>,
    shown: Shown<'_>,
    out: &mut W,
) -> Result<(), Refusal>
    requires { cursor.old.place < total cursor.old.verified.frames }
    ensures verified { cursor.new.verified ≡ cursor.old.verified }
    ensures printed { OnOk result ((text : List ℕ)
        × IsShownText cursor.old.verified.opening cursor.old.verified.frames shown.entry cursor.old.place text
        × Appends (W.contents out.old) (W.contents out.new) text) }
    ensures refused { IfErr result RefusesPrint }
{
    if shown.is_short {
        return print_line(alloc, cursor, shown.watched, shown.ranges, out);
    }
    print_state(cursor, shown.ranges, out)
}

/// Prints the last changes before a cursor's place, so many at most, the last first, and returns how many there were.
fn print_each<R: Threads + Sync, V: SearchWatch, W: Write>(
    rt: &R,
    alloc: Global,
    workers: usize,
    cursor: &mut Cursor<'_>,
    shown: Shown<'_>,
    times: u64,
    watch: &mut V,
    out: &mut W,
) -> Result<u64, Refusal>
    ensures printed { IfOk result (PrintsEach cursor.old.verified shown.entry times cursor.old.place
        (W.contents out.old) (W.contents out.new)) }
    ensures refused { IfErr result RefusesPrint }
{
    let watched = shown.watched;
    let mut place = cursor.place();
    let mut lasts = Vec::from_elem(alloc, Some(place), watched.count as usize)?;
    let lasts = lasts.as_mut_slice();
    for count in 0..times {
        match previous(rt, alloc, workers, cursor, place, watched, lasts, watch)? {
            Some(found) => place = found,
            None => return Ok(count),
        }
        print_change(alloc, cursor, shown, out)?;
    }
    Ok(times)
}

/// Prints the last changes before a cursor's place, so many at most, the last first; or that there is none. Searches have so many workers
/// at most, and how far they are goes to `watch`.
pub fn print_changes<R: Threads + Sync, V: SearchWatch, W: Write>(
    rt: &R,
    alloc: Global,
    workers: usize,
    cursor: &mut Cursor<'_>,
    shown: Shown<'_>,
    times: u64,
    watch: &mut V,
    out: &mut W,
) -> Result<(), Refusal>
    ensures printed { OnOk result (PrintsChanges cursor.old.verified shown.entry times cursor.old.place
        (W.contents out.old) (W.contents out.new)) }
    ensures refused { IfErr result RefusesPrint }
{
    match print_each(rt, alloc, workers, cursor, shown, times, watch, out)? {
        0 => Ok(print_text(out, &"unchanged\n")?),
        _ => Ok(()),
    }
}
