//! What a guest of many pages is asked.

ghost use Rattle.std.specs.List.{AllByRecursion};
ghost use Rattle.rrv_model.specs.RecordText.{HasPartText};

use crate::filled::{Stores, filled_guest, store};
use checkpoint::make;
use frames::write_record;
use guest_calls::Guest;
use rrv_model::record::{Item, Part, Record};
use std::alloc::Global;

/// How many pages change before a checkpoint.
const CHANGED: u32 = 10;

/// What a guest is asked, and how often.
#[derive(Clone, Copy, Debug)]
pub enum Asked {
    /// To take a snapshot, and to drop it.
    Snapshots(u32),
    /// Which pages changed since a snapshot, after one store.
    Changed(u32),
    /// To make a checkpoint against a snapshot, after a store in each of ten pages.
    Checkpoints(u32),
    /// How many bytes the records of a checkpoint take, after so many stores over one page.
    Bytes(u32),
}

/// What words ask; None where that is nothing.
pub fn asked_of(kind: &str, count: &str) -> Option<Asked> {
    let count = count.parse().ok()?;
    match kind {
        "snapshot" => Some(Asked::Snapshots(count)),
        "changed" => Some(Asked::Changed(count)),
        "make" => Some(Asked::Checkpoints(count)),
        "bytes" => Some(Asked::Bytes(count)),
        _ => None,
    }
}

/// Takes snapshots, each dropped before the next, and answers how many.
fn take_snapshots(guest: &mut Guest, count: u32) -> Option<u64> {
    let mut taken = 0u64;
    for _ in 0..count {
        let base = guest.snapshot().ok()?;
        guest.drop_snapshot(base);
        taken = taken.saturating_add(1);
    }
    Some(taken)
}

/// Asks what changed, and answers how many pages that was in all.
fn ask_changed(guest: &mut Guest, count: u32) -> Option<u64> {
    let mut changed = 0u64;
    for _ in 0..count {
        let base = guest.snapshot().ok()?;
        store(guest, 1)?;
        let numbers = guest.space().changed_since(&base).ok()?;
        changed = changed.saturating_add(numbers.len() as u64);
        guest.drop_snapshot(base);
    }
    Some(changed)
}

/// Makes checkpoints, and answers how many pages they name in all.
fn make_checkpoints(alloc: Global, guest: &mut Guest, count: u32) -> Option<u64> {
    let mut named = 0u64;
    for _ in 0..count {
        let base = guest.snapshot().ok()?;
        store(guest, CHANGED)?;
        for part in &make(alloc, guest, &base).ok()? {
            named = named.saturating_add(part.pages.as_slice().len() as u64);
        }
        guest.drop_snapshot(base);
    }
    Some(named)
}

/// Adds the text of a part's record, whose length is the same for each guest and index.
fn put_part(texts: &mut Vec<u8>, part: Part) -> Option<()>
    requires { HasPartText part }
{
    let record = Record {
        guest: 0,
        index: 0,
        item: Item::Part(part),
    };
    write_record(&record, texts).ok()
}

/// How many bytes the records of parts take.
fn text_len(alloc: Global, parts: Vec<Part>) -> Option<u64>
    requires { AllByRecursion HasPartText parts.items }
{
    let mut texts = Vec::new(alloc);
    for part in parts {
        put_part(&mut texts, part)?;
    }
    Some(texts.len() as u64)
}

/// Makes a checkpoint after so many stores, and answers how many bytes its records take.
fn count_bytes(alloc: Global, guest: &mut Guest, stores: u32) -> Option<u64> {
    let base = guest.snapshot().ok()?;
    store(guest, stores)?;
    let parts = make(alloc, guest, &base).ok()?;
    guest.drop_snapshot(base);
    text_len(alloc, parts)
}

/// Asks a guest of so many pages, and answers how many snapshots, pages or bytes there were.
pub fn answer(alloc: Global, asked: Asked, pages: u32) -> Option<u64> {
    let stores = match asked {
        Asked::Checkpoints(_) => Stores::OverPages,
        Asked::Snapshots(_) | Asked::Changed(_) | Asked::Bytes(_) => Stores::OverOnePage,
    };
    let mut guest = filled_guest(alloc, stores, pages)?;
    match asked {
        Asked::Snapshots(count) => take_snapshots(&mut guest, count),
        Asked::Changed(count) => ask_changed(&mut guest, count),
        Asked::Checkpoints(count) => make_checkpoints(alloc, &mut guest, count),
        Asked::Bytes(stores) => count_bytes(alloc, &mut guest, stores),
    }
}
