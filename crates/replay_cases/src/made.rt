//! Recordings that are made here.

use crate::lists::numbered;
use rrv_model::machine::Version;
use rrv_model::record::{Choice, Item, Part, Record};
use serial_sched::{expire, slice};
use std::alloc::Global;
use test_guests::outsides::Nothing;
use test_guests::recorded::{Recorded, opening_of};

/// The choice that a word says: a quantum of the first thread, or `TID:QUANTUM`.
fn choice_in(word: &str) -> Option<Choice> {
    let (tid, quantum) = match word.split_once(":") {
        Some((tid, quantum)) => (tid.parse().ok()?, quantum),
        None => (1, word),
    };
    Some(Choice {
        tid,
        quantum: quantum.parse().ok()?,
    })
}

/// The slice of a choice.
fn slice_of(alloc: Global, recorded: &mut Recorded, choice: Choice) -> Option<Item> {
    let frame = slice(alloc, &mut recorded.guest, choice, &mut Nothing).ok()?;
    Some(Item::Frame(frame))
}

/// The end of the timed wait of a thread.
fn expiry_of(recorded: &mut Recorded, tid: u32) -> Option<Item> {
    let frame = expire(&mut recorded.guest, tid).ok()?;
    Some(Item::Frame(frame))
}

/// The frame that a word says: `!TID` for the end of a timed wait, else a slice.
fn frame_of(alloc: Global, recorded: &mut Recorded, word: &str) -> Option<Item> {
    match word.strip_prefix("!") {
        Some(tid) => expiry_of(recorded, tid.parse().ok()?),
        None => slice_of(alloc, recorded, choice_in(word)?),
    }
}

/// Adds the parts of a checkpoint.
fn add_parts(items: &mut Vec<Item>, parts: Vec<Part>) -> Option<()> {
    for part in parts {
        items.push(Item::Part(part)).ok()?;
    }
    Some(())
}

/// Adds what words say of a guest: its frames; a `+` is a checkpoint.
fn add_said(
    alloc: Global,
    recorded: &mut Recorded,
    items: &mut Vec<Item>,
    words: &[&str],
) -> Option<()> {
    for word in words {
        match *word {
            "+" => add_parts(items, recorded.checkpoint(alloc)?)?,
            frame => items.push(frame_of(alloc, recorded, frame)?).ok()?,
        }
    }
    Some(())
}

/// Records a guest of a version and a file, as words say: its frames; a `+` is a checkpoint.
pub fn record(alloc: Global, version: Version, elf: &[u8], words: &[&str]) -> Option<Vec<Record>> {
    let mut recorded = Recorded::start(alloc, version, elf)?;
    let mut items = Vec::new(alloc);
    items.push(opening_of(alloc, version, elf)?).ok()?;
    add_said(alloc, &mut recorded, &mut items, words)?;
    numbered(alloc, items)
}
