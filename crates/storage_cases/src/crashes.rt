//! What crashes of a disk in memory leave.

use crate::stores::{bytes_on, store_text};
use recover::{OpenFault, open};
use std::alloc::Global;
use trace_disk::{Disk, FailOnce, MemDisk};

/// What a crash puts wherever it may change a byte: a closed gate, one that is neither, an open one.
const FILLS: [u8; 3] = [0x00, 0x37, 0xA5];

/// What a crash of this length leaves, with the byte wherever it may change one.
pub fn crashed(alloc: Global, disk: &MemDisk, len: u64, fill: u8) -> Option<MemDisk> {
    if len < disk.least() || disk.greatest() < len {
        return None;
    }
    disk.crash(alloc, len, fill).ok()
}

/// What is opened after a crash of each length that one may leave, if that is the same of all; else what two lengths leave.
pub fn crashes_text(alloc: Global, disk: &MemDisk, fill: u8) -> Option<String> {
    let mut text = String::new(alloc);
    for len in disk.least()..disk.greatest().saturating_add(1) {
        let mut crash = crashed(alloc, disk, len, fill)?;
        let found = store_text(alloc, &bytes_on(alloc, &mut crash)?)?;
        if !text.is_empty() && text.as_str() != found.as_str() {
            return format!(in alloc; "{text}, but {found} at {len}").ok();
        }
        text = found;
    }
    Some(text)
}

/// Crashes: of the least and the greatest length that one may leave, and one between, with each byte of `FILLS`.
fn crashes_of(disk: &MemDisk) -> [(u64, u8); 9] {
    let (least, greatest) = (disk.least(), disk.greatest());
    let between = least.midpoint(greatest);
    let [closed, neither, open] = FILLS;
    [
        (least, closed),
        (least, neither),
        (least, open),
        (greatest, closed),
        (greatest, neither),
        (greatest, open),
        (between, closed),
        (between, neither),
        (between, open),
    ]
}

/// Whether each of the crashes leaves so many records of guest 0, and then, once it is marked, these bytes. Marking it writes them
/// only if the crash left no Mark.
pub fn marks(alloc: Global, disk: &MemDisk, records: u32, want: &[u8]) -> Option<()> {
    for (len, fill) in crashes_of(disk) {
        let (mut log, lists) = open(alloc, crashed(alloc, disk, len, fill)?).ok()?;
        let was_marked = log.marked();
        let made = log.mark(alloc).ok()?;
        let mut left = log.close();
        if lists.len(0) != records || made == was_marked {
            return None;
        }
        if bytes_on(alloc, &mut left)?.as_slice() != want {
            return None;
        }
    }
    Some(())
}

/// Whether each crash leaves what was told, with one record more at most, and just what an opening told.
fn holds(alloc: Global, disk: &MemDisk, told: u32, opening: Option<u32>) -> Option<bool> {
    for (len, fill) in crashes_of(disk) {
        let (_, lists) = open(alloc, crashed(alloc, disk, len, fill)?).ok()?;
        let records = lists.len(0);
        if records < told || records - told > 1 || opening.unwrap_or(records) != records {
            return Some(false);
        }
    }
    Some(true)
}

/// Opens what a crash left, with this device call of that failing, and a crash after it. Whether no call failed; None where
/// another was found than was told.
fn reopened(alloc: Global, disk: &MemDisk, told: u32, call: u64) -> Option<bool> {
    let copy = crashed(alloc, disk, disk.len(), 0)?;
    let (device, opening) = match open(alloc, FailOnce::new(copy, call)) {
        Ok((log, lists)) => (log.close(), Some(lists.len(0))),
        Err((device, OpenFault::DeviceFailed)) => (device, None),
        Err(_) => return None,
    };
    if !holds(alloc, &device.into_inner(), told, opening)? {
        return None;
    }
    Some(opening.is_some())
}

/// The number of the first device call that no opening makes. Each of those before it fails in turn.
fn first_unmade(alloc: Global, disk: &MemDisk, told: u32) -> Option<u64> {
    for call in 1..100 {
        if reopened(alloc, disk, told, call)? {
            return Some(call);
        }
    }
    None
}

/// Whether each of the crashes leaves so many records, or one more: also where each device call of its opening fails in turn, and
/// another crash follows.
pub fn survives(alloc: Global, disk: &MemDisk, told: u32) -> Option<()> {
    for (len, fill) in crashes_of(disk) {
        first_unmade(alloc, &crashed(alloc, disk, len, fill)?, told)?;
    }
    Some(())
}
