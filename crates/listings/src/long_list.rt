//! The long list of a store's guests, for which each of them is replayed.

ghost use Rattle.std.specs.Prelude.{◌≡◌, ◌++◌, ◌≤◌, IfErr, IfOk, List, OnOk, Some, length, ℕ};
ghost use Rattle.std.specs.Fmt.{WritesOnOk};
ghost use Rattle.std.specs.Io.KnownBytes.{Appends};
ghost use Rattle.std.specs.Int.{w32, from_be_bytes};
ghost use Rattle.sha2.specs.Sha256.{sha256};
ghost use Rattle.rrv_model.specs.Recovered.{of_guest};
ghost use Rattle.recover.specs.Spots.{records_of, StandOn};
ghost use Rattle.trace_text.specs.Lines.{list_line};
ghost use Rattle.listings.specs.LongList.{IsLongList, IsSummary, IsTold, RefusesSummary, end_number, end_value, summary_text, told_text};
ghost use Rattle.listings.specs.Printed.{file_in, named_line};
ghost use Rattle.line_io.specs.Printed.{with_newline};
ghost use Rattle.line_io.specs.Stores.{ReadsStore, RefusesList};

use crate::guests::name_of;
use crate::tally::Tally;
use line_io::{OutputFailed, Refusal, Shows, Store, finish, in_blocks, print_line, record_in};
use progress::{Clearing, Count};
use recover::Lists;
use replayer::{Following, Watch};
use rrv_model::machine::GuestEnd;
use rrv_model::record::{Item, Record};
use sha2::{Digest, Sha256};
use std::alloc::Global;
use std::fmt;
use std::io::Write;
use std::sync::atomic::AtomicBool;
use std::time::Clock;
use stored_guests::VerifyProgress;
use trace_disk::Disk;
use trace_text::{ListLine, write_word};

/// A guest's program: how many bytes its file has, and the first four of its digest, the first of them the highest.
#[derive(Clone, Copy, Debug, PartialEq, Eq)]
struct Program {
    length: u64,
    digest: u32,
}

/// What a guest's records tell of it.
#[derive(Clone, Copy, Debug, PartialEq, Eq)]
struct Summary {
    end: Option<GuestEnd>,
    /// How many threads were made, the first one too.
    threads: u32,
    tally: Tally,
    program: Program,
}

impl fmt::Display for Summary {
    ghost output = { λ summary. Some (summary_text summary) };

    fn fmt<W: fmt::Write>(&self, f: &mut fmt::Formatter<W>) -> fmt::Result {
        let Summary {
            end,
            threads,
            tally,
            program,
        } = *self;
        f.write_str(" end=")?;
        write_end(f, end)?;
        write!(
            f,
            " threads={threads} turns={} input={} elf={}:",
            tally.turns, tally.input, program.length
        )?;
        write_word(f, program.digest)
    }
}

/// How a guest ended, as in `exited:5`.
fn write_end<W: fmt::Write>(f: &mut fmt::Formatter<W>, end: Option<GuestEnd>) -> fmt::Result
    ensures { WritesOnOk W.write_str_gives f.old result (end_value end) f.new }
{
    match end {
        None => f.write_str("none"),
        Some(end) => {
            f.write_str(end.name())?;
            write_number(f, end)
        }
    }
}

/// The number behind the word of an end: the status of an exit, that of a fault's kind.
fn write_number<W: fmt::Write>(f: &mut fmt::Formatter<W>, end: GuestEnd) -> fmt::Result
    ensures { WritesOnOk W.write_str_gives f.old result (end_number end) f.new }
{
    match end {
        GuestEnd::Exited(status) => write!(f, ":{status}"),
        GuestEnd::Faulted(kind) => {
            let number = kind.number();
            write!(f, ":{number}")
        }
        _ => Ok(()),
    }
}

/// What is told of a guest.
#[derive(Clone, Copy, Debug, PartialEq, Eq)]
enum Told {
    Whole(Summary),
    /// Its records are no recording.
    Refused,
}

impl fmt::Display for Told {
    ghost output = { λ tells. Some (told_text tells) };

    fn fmt<W: fmt::Write>(&self, f: &mut fmt::Formatter<W>) -> fmt::Result {
        match self {
            Told::Whole(summary) => write!(f, "{summary}"),
            Told::Refused => f.write_str(" refused"),
        }
    }
}

/// The line of a guest in the long list, without the newline.
#[derive(Drop)]
struct LongLine<'a> {
    line: ListLine<'a>,
    tells: Told,
}

impl<'a> fmt::Display for LongLine<'a> {
    ghost output = { λ l. Some (list_line l.line.guest l.line.name.now l.line.records l.line.frames l.line.instructions
        ++ told_text l.tells) };

    fn fmt<W: fmt::Write>(&self, f: &mut fmt::Formatter<W>) -> fmt::Result {
        let line = &self.line;
        let tells = &self.tells;
        write!(f, "{line}{tells}")
    }
}

/// The first four bytes of a file's digest, as a number whose highest byte is the first.
fn digest_word(file: &[u8]) -> u32
    ensures { result ≡ from_be_bytes w32 (sha256 file.now) }
{
    let mut hasher = Sha256::new();
    hasher.update(file);
    let digest = hasher.finalize();
    u32::from_be_bytes([digest[0], digest[1], digest[2], digest[3]])
}

/// The program of a guest whose first record this is.
fn program_of(first: &Record) -> Program
    ensures length { result.length ≡ length (file_in first.now.item) }
    ensures digest { result.digest ≡ from_be_bytes w32 (sha256 (file_in first.now.item)) }
{
    let file: &[u8] = match &first.item {
        Item::Opening(opening) => opening.elf.as_slice(),
        Item::Frame(_) | Item::Part(_) => &[],
    };
    Program {
        length: file.len() as u64,
        digest: digest_word(file),
    }
}

/// Who watches how far a command is that replays several guests: it is told of those before, too.
#[derive(Drop)]
struct Beyond<'a, W: Watch> {
    watch: &'a mut W,
    before: Count,
}

impl<W: Watch> Beyond<'_, W> {
    /// A guest more is passed, which has so many records and instructions.
    fn pass(&mut self, records: u32, instructions: u64) {
        self.before = Count {
            records: self.before.records.saturating_add(u64::from(records)),
            instructions: self.before.instructions.saturating_add(instructions),
        };
    }
}

impl<W: Watch> Watch for Beyond<'_, W> {
    fn verified(&mut self, records: usize, instructions: u64) {
        let records = self.before.records.saturating_add(records as u64);
        let instructions = self.before.instructions.saturating_add(instructions);
        self.watch.verified(records as usize, instructions);
    }
}

/// What a guest's records tell of it, each of which is verified as it is replayed. One record is held at a time.
fn summary_of<D: Disk, W: Watch>(
    alloc: Global,
    lists: &Lists,
    disk: &mut D,
    guest: u32,
    watch: &mut W,
) -> Result<Summary, Refusal>
    requires { 1 ≤ length (of_guest guest (records_of lists.now)) }
    ensures read { StandOn D.honest D.state disk.old lists.now
        → IfOk result (IsSummary (of_guest guest (records_of lists.now))) }
    ensures refused { StandOn D.honest D.state disk.old lists.now
        → IfErr result (λ e. RefusesSummary e (of_guest guest (records_of lists.now))) }
    ensures on { StandOn D.honest D.state disk.old lists.now → StandOn D.honest D.state disk.new lists.now }
{
    let first = record_in(alloc, lists, disk, guest, 0)?;
    let mut following = Following::begin(alloc, &first)?;
    let mut tally = Tally::new();
    for index in 1..lists.len(guest) {
        let entry = record_in(alloc, lists, disk, guest, index)?;
        following.follow(alloc, &entry)?;
        tally = tally.with(&entry, following.guest());
        watch.verified(index as usize + 1, following.total());
    }
    Ok(Summary {
        end: following.guest().ended(),
        threads: following.guest().threads().next_tid().saturating_sub(1),
        tally,
        program: program_of(&first),
    })
}

/// The same, or that its records are no recording.
fn told_of<D: Disk, W: Watch>(
    alloc: Global,
    lists: &Lists,
    disk: &mut D,
    guest: u32,
    watch: &mut W,
) -> Result<Told, Refusal>
    requires { 1 ≤ length (of_guest guest (records_of lists.now)) }
    ensures { ReadsStore D.Disk lists.now result disk.old disk.new
        (IsTold (of_guest guest (records_of lists.now))) }
{
    match summary_of(alloc, lists, disk, guest, watch) {
        Ok(summary) => Ok(Told::Whole(summary)),
        Err(Refusal::Verify { .. }) => Ok(Told::Refused),
        Err(refusal) => Err(refusal),
    }
}

/// Prints the line of a guest, which has this name.
fn print_long<W: Write>(
    lists: &Lists,
    guest: u32,
    name: &[u8],
    tells: Told,
    out: &mut W,
) -> Result<(), OutputFailed>
    ensures printed { OnOk result (Appends (W.contents out.old) (W.contents out.new)
        (with_newline (named_line guest name.now (of_guest guest (records_of lists.now)) ++ told_text tells))) }
{
    let records = u64::from(lists.len(guest));
    let count = lists.count(guest);
    let line = LongLine {
        line: ListLine::new(guest, name, records, count.frames, count.instructions),
        tells,
    };
    print_line(out, &line)
}

/// Prints a line for each guest, by rising number.
fn print_all_long<D: Disk, W: Write, V: Watch>(
    alloc: Global,
    lists: &Lists,
    disk: &mut D,
    watch: &mut V,
    out: &mut W,
) -> Result<(), Refusal>
    ensures printed { StandOn D.honest D.state disk.old lists.now
        → OnOk result ((text : List ℕ) × IsLongList (records_of lists.now) text
        × Appends (W.contents out.old) (W.contents out.new) text) }
    ensures refused { StandOn D.honest D.state disk.old lists.now → IfErr result RefusesList }
{
    let mut watch = Beyond {
        watch,
        before: Count {
            records: 0,
            instructions: 0,
        },
    };
    for guest in lists.guests() {
        let name = name_of(alloc, lists, disk, *guest)?;
        let tells = told_of(alloc, lists, disk, *guest, &mut watch)?;
        print_long(lists, *guest, name.as_slice(), tells, out)?;
        watch.pass(lists.len(*guest), lists.count(*guest).instructions);
    }
    Ok(())
}

/// How many records a store has, and how many instructions these count.
fn extent_of(lists: &Lists) -> Count {
    let mut all = Count {
        records: 0,
        instructions: 0,
    };
    for guest in lists.guests() {
        let instructions = lists.count(*guest).instructions;
        all.records = all.records.saturating_add(u64::from(lists.len(*guest)));
        all.instructions = all.instructions.saturating_add(instructions);
    }
    all
}

/// Prints the long list of a store's guests in blocks.
pub fn list_long<R: Clock, D: Disk + Drop, O: Write, E: Write + Drop>(
    rt: &R,
    alloc: Global,
    store: &mut Store<D>,
    shows: Shows,
    out: &mut O,
    err: &mut E,
) -> Result<(), Refusal> {
    let line = AtomicBool::new(false);
    let all = extent_of(&store.lists);
    let mut progress = VerifyProgress::new(rt, err, &line, all, shows.is_shown);
    let mut out = in_blocks(alloc, Clearing::new(out, &line, shows.clears))?;
    let printed = print_all_long(
        alloc,
        &store.lists,
        &mut store.disk,
        &mut progress,
        &mut out,
    );
    progress.end();
    printed?;
    finish(&mut out)
}
