//! A guest of one thread, recorded with checkpoints.

use crate::limits::{CHOICE, SLICES};
use rrv_model::machine::Version;
use rrv_model::record::{Item, Record};
use serial_sched::slice;
use std::alloc::Global;
use test_guests::outsides::Nothing;
use test_guests::recorded::{Recorded, opening_of};

/// Adds an item, as the next record of guest 0.
fn add(records: &mut Vec<Record>, item: Item) -> Option<()> {
    let index = u32::try_from(records.len()).ok()?;
    let record = Record {
        guest: 0,
        index,
        item,
    };
    records.push(record).ok()
}

/// Adds the parts of a checkpoint of the guest.
fn add_checkpoint(alloc: Global, recorded: &mut Recorded, records: &mut Vec<Record>) -> Option<()> {
    for part in recorded.checkpoint(alloc)? {
        add(records, Item::Part(part))?;
    }
    Some(())
}

/// Records a program's slices up to its end, with checkpoints so many instructions apart at the least, or none where that is 0.
pub fn record_with_checkpoints(alloc: Global, elf: &[u8], every: u64) -> Option<Vec<Record>> {
    let mut recorded = Recorded::start(alloc, Version::One, elf)?;
    let mut records = Vec::new(alloc);
    add(&mut records, opening_of(alloc, Version::One, elf)?)?;
    let mut last = 0;
    for _ in 0..SLICES {
        let frame = slice(alloc, &mut recorded.guest, CHOICE, &mut Nothing).ok()?;
        add(&mut records, Item::Frame(frame))?;
        if recorded.guest.ended().is_some() {
            return Some(records);
        }
        if every != 0 && every <= recorded.guest.ran().saturating_sub(last) {
            add_checkpoint(alloc, &mut recorded, &mut records)?;
            last = recorded.guest.ran();
        }
    }
    None
}
