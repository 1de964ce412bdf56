//! Where records are cut in spans.

ghost use Rattle.std.specs.Prelude.{◌≡◌, ◌↔◌, ◌<◌, ◌≤◌, IfSome, IsTrue, length};
ghost use Rattle.replayer.specs.Refusals.{IsLastPart};
ghost use Rattle.spans.specs.Spans.{IsCut};

use rrv_model::record::{CallRecord, Item, Record};

/// What a frame costs beside its instructions, and a page of a checkpoint, in instructions.
const FRAME_COST: u64 = 512;

/// The most bytes that a page of a checkpoint holds.
const PAGE_BYTES: u64 = 4096;

/// What a byte that is held costs, in instructions: so that records of 16 MB are read at a time at most.
const BYTE_COST: u64 = 16;

/// Whether a record is the last part of a checkpoint.
fn ends_checkpoint(entry: &Record) -> bool
    ensures { IsTrue result ↔ IsLastPart entry.now.item }
{
    match &entry.item {
        Item::Opening(_) => false,
        Item::Frame(_) => false,
        Item::Part(part) => part.rest.is_some(),
    }
}

/// About what it takes to follow a record, in instructions.
fn work_of(entry: &Record) -> u64 {
    match &entry.item {
        Item::Opening(_) => 0,
        Item::Frame(frame) => u64::from(frame.count).saturating_add(FRAME_COST),
        Item::Part(part) => (part.pages.as_slice().len() as u64).saturating_mul(FRAME_COST),
    }
}

/// How many bytes a call wrote into its guest's memory.
fn written_len(call: &CallRecord) -> u64 {
    let mut len: u64 = 0;
    for written in call.written.as_slice() {
        len = len.saturating_add(written.bytes.as_slice().len() as u64);
    }
    len
}

/// About how many bytes a record holds.
fn bytes_of(entry: &Record) -> u64 {
    match &entry.item {
        Item::Opening(opening) => opening.elf.as_slice().len() as u64,
        Item::Frame(frame) => match frame.end.call() {
            Some(call) => written_len(call),
            None => 0,
        },
        Item::Part(part) => (part.pages.as_slice().len() as u64).saturating_mul(PAGE_BYTES),
    }
}

/// What a record counts of what is read at a time: about what it takes to follow it, or what its bytes cost, if that is more.
pub(crate) fn load_of(entry: &Record) -> u64 {
    work_of(entry).max(bytes_of(entry).saturating_mul(BYTE_COST))
}

/// About what it takes to follow all of the records.
fn work_of_all(records: &[Record]) -> u64 {
    let mut work: u64 = 0;
    for entry in records {
        work = work.saturating_add(work_of(entry));
    }
    work
}

/// The place if the record before it ends a checkpoint, else the last one that was found.
fn cut_at(records: &[Record], place: usize, last: Option<usize>) -> Option<usize>
    requires some { 1 ≤ place }
    requires within { place < length records.now }
    requires last { IfSome last (IsCut records.now) }
    ensures { IfSome result (IsCut records.now) }
{
    let before = place - 1;
    if ends_checkpoint(&records[before]) {
        Some(place)
    } else {
        last
    }
}

/// Where to cut records so that the first takes about the share of so many workers: the first place where they can be cut
/// behind the share, else the last one before it. None if they can't be cut.
pub(crate) fn cut_of(records: &[Record], workers: usize) -> Option<usize>
    requires { 2 ≤ workers }
    ensures { IfSome result (IsCut records.now) }
{
    let share = (work_of_all(records) / workers as u64).saturating_mul((workers / 2) as u64);
    let mut done: u64 = 0;
    let mut last = None;
    for place in 1..records.len() {
        done = done.saturating_add(work_of(&records[place - 1]));
        last = cut_at(records, place, last);
        if share <= done && last == Some(place) {
            return last;
        }
    }
    last
}
