//! The records of a guest, with what replaying them tells.

ghost use Rattle.std.specs.Prelude.{◌≡◌, ◌≤◌, IfErr, OnOk, length};
ghost use Rattle.std.specs.Io.KnownBytes.{Appends};
ghost use Rattle.rrv_model.specs.Recovered.{of_guest};
ghost use Rattle.guest_calls.specs.Guest.{state_of};
ghost use Rattle.recover.specs.Spots.{records_of, StandOn};
ghost use Rattle.listings.specs.Turns.{IsDumped, PrintsTurns, RefusesTurns, dump_end, turn_text};

use command_line::DumpForm;
use line_io::{
    OutputFailed, Refusal, Shows, Store, finish, guest_in, in_blocks, print_line, print_text,
    record_in,
};
use progress::{Clearing, Count};
use recover::Lists;
use replayer::{Following, Watch};
use rrv_model::record::Record;
use std::alloc::Global;
use std::io::Write;
use std::sync::atomic::AtomicBool;
use std::time::Clock;
use stored_guests::VerifyProgress;
use trace_disk::Disk;
use trace_text::RecordLine;
use turn_text::{EVENTS_END, EventText, PlacesLine};

/// Prints a record, before which so many instructions ran, and which is the last that was followed.
fn print_turn<W: Write>(
    form: DumpForm,
    entry: &Record,
    from: u64,
    following: &Following,
    out: &mut W,
) -> Result<(), OutputFailed>
    ensures printed { OnOk result (Appends (W.contents out.old) (W.contents out.new)
        (turn_text form entry.now from following.now.total (state_of following.now.guest))) }
{
    let guest = following.guest();
    match form {
        DumpForm::Lines => print_line(out, &RecordLine::new(entry)),
        DumpForm::Places => {
            let line = PlacesLine::new(entry, from, following.total(), guest);
            print_line(out, &line)
        }
        DumpForm::TraceEvents => print_text(out, &EventText::new(entry, from, guest)),
    }
}

/// Prints what ends the text of all records.
fn print_dump_end<W: Write>(form: DumpForm, out: &mut W) -> Result<(), OutputFailed>
    ensures printed { OnOk result (Appends (W.contents out.old) (W.contents out.new) (dump_end form)) }
{
    match form {
        DumpForm::Lines | DumpForm::Places => Ok(()),
        DumpForm::TraceEvents => print_text(out, &EVENTS_END),
    }
}

/// Prints each record of a guest, which is verified as it is replayed. One record is held at a time. After a refusal those before
/// the one that is refused are printed.
fn print_turns_of<D: Disk, W: Write, V: Watch>(
    alloc: Global,
    lists: &Lists,
    disk: &mut D,
    guest: u32,
    form: DumpForm,
    watch: &mut V,
    out: &mut W,
) -> Result<(), Refusal>
    requires { 1 ≤ length (of_guest guest (records_of lists.now)) }
    ensures printed { StandOn D.honest D.state disk.old lists.now
        → OnOk result (PrintsTurns form (of_guest guest (records_of lists.now))
        (length (of_guest guest (records_of lists.now))) (W.contents out.old) (W.contents out.new)) }
    ensures refused { StandOn D.honest D.state disk.old lists.now
        → IfErr result (λ e. RefusesTurns e (of_guest guest (records_of lists.now))) }
{
    let first = record_in(alloc, lists, disk, guest, 0)?;
    let mut following = Following::begin(alloc, &first)?;
    print_turn(form, &first, 0, &following, out)?;
    for index in 1..lists.len(guest) {
        let entry = record_in(alloc, lists, disk, guest, index)?;
        let from = following.total();
        following.follow(alloc, &entry)?;
        watch.verified(index as usize + 1, following.total());
        print_turn(form, &entry, from, &following, out)?;
    }
    Ok(())
}

/// Prints the records of the guest of this number, and what ends their text.
fn print_turns<D: Disk, W: Write, V: Watch>(
    alloc: Global,
    lists: &Lists,
    disk: &mut D,
    number: u64,
    form: DumpForm,
    watch: &mut V,
    out: &mut W,
) -> Result<(), Refusal>
    ensures printed { StandOn D.honest D.state disk.old lists.now
        → OnOk result (IsDumped form (of_guest number (records_of lists.now)) (W.contents out.old) (W.contents out.new)) }
    ensures refused { StandOn D.honest D.state disk.old lists.now
        → IfErr result (λ e. RefusesTurns e (of_guest number (records_of lists.now))) }
{
    let guest = guest_in(lists, number)?;
    print_turns_of(alloc, lists, disk, guest, form, watch, out)?;
    print_dump_end(form, out)?;
    Ok(())
}

/// How many records the guest of this number has, and how many instructions these count; none where there is no such guest.
fn extent_of(lists: &Lists, number: u64) -> Count {
    match u32::try_from(number) {
        Ok(guest) => Count {
            records: u64::from(lists.len(guest)),
            instructions: lists.count(guest).instructions,
        },
        Err(_) => Count {
            records: 0,
            instructions: 0,
        },
    }
}

/// Prints the records of a guest in blocks, each of which is replayed. Where one is refused, those before it are printed.
pub fn dump_turns<R: Clock, D: Disk + Drop, O: Write, E: Write + Drop>(
    rt: &R,
    alloc: Global,
    store: &mut Store<D>,
    number: u64,
    form: DumpForm,
    shows: Shows,
    out: &mut O,
    err: &mut E,
) -> Result<(), Refusal> {
    let line = AtomicBool::new(false);
    let all = extent_of(&store.lists, number);
    let mut watch = VerifyProgress::new(rt, err, &line, all, shows.is_shown);
    let mut out = in_blocks(alloc, Clearing::new(out, &line, shows.clears))?;
    let printed = print_turns(
        alloc,
        &store.lists,
        &mut store.disk,
        number,
        form,
        &mut watch,
        &mut out,
    );
    watch.end();
    printed?;
    finish(&mut out)
}
