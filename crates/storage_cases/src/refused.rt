//! Openings and reads of which a growth is refused.

use crate::calls::record_at;
use crate::stores::bytes_on;
use recover::{Lists, OpenFault, open};
use std::alloc::Global;
use std::fmt::Write;
use trace_disk::{Disk, MemDisk};

/// A disk with these bytes and with room, all synced.
fn disk_with_room(alloc: Global, bytes: &[u8]) -> Option<MemDisk> {
    let mut disk = MemDisk::with_room(alloc, 2_000, 100).ok()?;
    disk.write_at(0, bytes).ok()?;
    disk.sync().ok()?;
    Some(disk)
}

/// Opens a store of these bytes. If it finds no memory they are as before, and it is opened again.
fn opened_at_last(alloc: Global, disk: MemDisk, bytes: &[u8]) -> Option<(MemDisk, Lists)> {
    let mut disk = match open(alloc, disk) {
        Ok((log, lists)) => return Some((log.close(), lists)),
        Err((disk, OpenFault::Memory)) => disk,
        Err(_) => return None,
    };
    if bytes_on(alloc, &mut disk)?.as_slice() != bytes {
        return None;
    }
    let (log, lists) = open(alloc, disk).ok()?;
    Some((log.close(), lists))
}

/// What the records of guest 0 tell, with a bar between them; None if there is no memory.
fn records_text(alloc: Global, lists: &Lists, disk: &mut MemDisk) -> Option<String> {
    let guests = lists.guests().len();
    let mut text = format!(in alloc; "guests {guests}").ok()?;
    for index in 0..lists.len(0) {
        let found = record_at(alloc, lists, disk, 0, index)?;
        write!(text, " | {found}").ok()?;
    }
    Some(text)
}

/// What the records tell of the store that these bytes are. If one of its growths is refused, that is asked for again.
pub fn text_at_last(alloc: Global, bytes: &[u8]) -> Option<String> {
    let disk = disk_with_room(alloc, bytes)?;
    let (mut disk, lists) = opened_at_last(alloc, disk, bytes)?;
    match records_text(alloc, &lists, &mut disk) {
        None => records_text(alloc, &lists, &mut disk),
        found => found,
    }
}
