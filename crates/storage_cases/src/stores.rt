//! Stores as text.

use crate::changes::Change;
use recover::{Lists, OpenFault, open, read};
use std::alloc::Global;
use trace_disk::{Disk, MemDisk};

/// All the bytes.
pub fn bytes_on(alloc: Global, disk: &mut MemDisk) -> Option<Vec<u8>> {
    let mut bytes = Vec::new(alloc);
    bytes.resize(disk.len() as usize, 0).ok()?;
    disk.read_at(0, &mut bytes).ok()?;
    Some(bytes)
}

/// A disk with these bytes, all synced.
pub fn disk_of(alloc: Global, bytes: &[u8]) -> Option<MemDisk> {
    let mut disk = MemDisk::new(alloc);
    disk.write_at(0, bytes).ok()?;
    disk.sync().ok()?;
    Some(disk)
}

/// An opened store: how many guests and records of guest 0 it has, how many bytes, and its last byte.
fn opened_text(alloc: Global, disk: MemDisk, lists: &Lists) -> Option<String> {
    let mut disk = disk;
    let bytes = bytes_on(alloc, &mut disk)?;
    let guests = lists.guests().len();
    let records = lists.len(0);
    let len = bytes.len();
    let last = bytes.last()?;
    format!(in alloc; "guests {guests} records {records} bytes {len} last {last}").ok()
}

/// Why bytes are refused, which stay as they are.
fn refused_text(alloc: Global, disk: MemDisk, fault: OpenFault, bytes: &[u8]) -> Option<String> {
    let mut disk = disk;
    let left = bytes_on(alloc, &mut disk)?;
    if left.as_slice() != bytes {
        return format!(in alloc; "{fault:?}, and other bytes are left").ok();
    }
    format!(in alloc; "{fault:?}").ok()
}

/// How many guests and records of guest 0 a store has, or why its bytes are refused, and whether they stay, if they are only read.
fn read_text(alloc: Global, bytes: &[u8]) -> Option<String> {
    let mut disk = disk_of(alloc, bytes)?;
    let seen = read(alloc, &mut disk);
    if bytes_on(alloc, &mut disk)?.as_slice() != bytes {
        return format!(in alloc; "read, and other bytes are left").ok();
    }
    match seen {
        Ok(lists) => {
            let guests = lists.guests().len();
            let records = lists.len(0);
            format!(in alloc; "guests {guests} records {records} ").ok()
        }
        Err(fault) => format!(in alloc; "{fault:?}").ok(),
    }
}

/// What opening the bytes gives, if reading them gives the same.
pub fn store_text(alloc: Global, bytes: &[u8]) -> Option<String> {
    let opened = match open(alloc, disk_of(alloc, bytes)?) {
        Ok((log, lists)) => opened_text(alloc, log.close(), &lists)?,
        Err((disk, fault)) => refused_text(alloc, disk, fault, bytes)?,
    };
    let seen = read_text(alloc, bytes)?;
    if !opened.starts_with(seen.as_str()) {
        return format!(in alloc; "{opened}, and if it is only read {seen}").ok();
    }
    Some(opened)
}

/// What is wanted where opening the bytes gives it after each of the changes; else what it gives first. None where there are none.
pub fn changed_stores_text(
    alloc: Global,
    bytes: &[u8],
    changes: &[Change],
    want: &str,
) -> Option<String> {
    if changes.is_empty() {
        return None;
    }
    for change in changes {
        let changed = change.of(alloc, bytes)?;
        let found = store_text(alloc, &changed)?;
        if found.as_str() != want {
            return format!(in alloc; "{found} after {change:?}").ok();
        }
    }
    format!(in alloc; "{want}").ok()
}
