//! The list of a store's guests, and of a guest's records.

ghost use Rattle.std.specs.Prelude.{◌≡◌, ◌≤◌, [], IfErr, IfOk, List, OnOk, length, ℕ};
ghost use Rattle.std.specs.Io.KnownBytes.{Appends};
ghost use Rattle.rrv_model.specs.Recording.{items_of};
ghost use Rattle.rrv_model.specs.Recovered.{of_guest};
ghost use Rattle.recover.specs.Spots.{records_of, StandOn};
ghost use Rattle.listings.specs.Printed.{IsList, dump_lines, name_in, named_line};
ghost use Rattle.line_io.specs.Printed.{with_newline};
ghost use Rattle.line_io.specs.Stores.{ReadsStore, RefusesList};
ghost use Rattle.listings.specs.Refused.{RefusesDump};

use line_io::{OutputFailed, Refusal, Store, finish, guest_in, in_blocks, print_line, record_in};
use recover::Lists;
use std::alloc::Global;
use std::io::Write;
use trace_disk::Disk;
use trace_text::{ListLine, RecordLine};

/// The name in a guest's opening: none where it has no records.
pub fn name_of<D: Disk>(
    alloc: Global,
    lists: &Lists,
    disk: &mut D,
    guest: u32,
) -> Result<Vec<u8>, Refusal>
    ensures { ReadsStore D.Disk lists.now result disk.old disk.new
        (λ name. name.items ≡ name_in [] (items_of (of_guest guest (records_of lists.now)))) }
{
    if lists.len(guest) == 0 {
        return Ok(Vec::new(alloc));
    }
    let entry = record_in(alloc, lists, disk, guest, 0)?;
    match entry.item.into_opening() {
        Some(opening) => Ok(opening.into_name().into_vec()),
        None => Ok(Vec::new(alloc)),
    }
}

/// Prints the line of a guest, which has this name, under a number.
pub fn print_guest<W: Write>(
    lists: &Lists,
    guest: u32,
    number: u32,
    name: &[u8],
    out: &mut W,
) -> Result<(), OutputFailed>
    ensures printed { OnOk result (Appends (W.contents out.old) (W.contents out.new)
        (with_newline (named_line number name.now (of_guest guest (records_of lists.now))))) }
{
    let records = u64::from(lists.len(guest));
    let count = lists.count(guest);
    let line = ListLine::new(number, name, records, count.frames, count.instructions);
    print_line(out, &line)
}

/// Prints a line for each guest, by rising number.
fn print_guests<D: Disk, W: Write>(
    alloc: Global,
    lists: &Lists,
    disk: &mut D,
    out: &mut W,
) -> Result<(), Refusal>
    ensures printed { StandOn D.honest D.state disk.old lists.now
        → OnOk result ((text : List ℕ) × IsList (records_of lists.now) text
        × Appends (W.contents out.old) (W.contents out.new) text) }
    ensures refused { StandOn D.honest D.state disk.old lists.now → IfErr result RefusesList }
{
    for guest in lists.guests() {
        let name = name_of(alloc, lists, disk, *guest)?;
        print_guest(lists, *guest, *guest, name.as_slice(), out)?;
    }
    Ok(())
}

/// Prints a line for each record of the guest of this number. One record is held at a time.
fn print_records<D: Disk, W: Write>(
    alloc: Global,
    lists: &Lists,
    disk: &mut D,
    number: u64,
    out: &mut W,
) -> Result<(), Refusal>
    ensures printed { StandOn D.honest D.state disk.old lists.now
        → OnOk result (Appends (W.contents out.old) (W.contents out.new)
        (dump_lines (of_guest number (records_of lists.now)))) }
    ensures some { OnOk result (1 ≤ length (of_guest number (records_of lists.now))) }
    ensures refused { StandOn D.honest D.state disk.old lists.now
        → IfErr result (λ e. RefusesDump e (of_guest number (records_of lists.now))) }
{
    let guest = guest_in(lists, number)?;
    for index in 0..lists.len(guest) {
        let entry = record_in(alloc, lists, disk, guest, index)?;
        print_line(out, &RecordLine::new(&entry))?;
    }
    Ok(())
}

/// Prints the list of a store's guests in blocks.
pub fn list<D: Disk + Drop, O: Write>(
    alloc: Global,
    store: &mut Store<D>,
    out: &mut O,
) -> Result<(), Refusal> {
    let mut out = in_blocks(alloc, out)?;
    print_guests(alloc, &store.lists, &mut store.disk, &mut out)?;
    finish(&mut out)
}

/// Prints a line for each record of a guest in blocks.
pub fn dump<D: Disk + Drop, O: Write>(
    alloc: Global,
    store: &mut Store<D>,
    number: u64,
    out: &mut O,
) -> Result<(), Refusal> {
    let mut out = in_blocks(alloc, out)?;
    print_records(alloc, &store.lists, &mut store.disk, number, &mut out)?;
    finish(&mut out)
}
