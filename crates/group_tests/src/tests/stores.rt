//! What is on a disk once a group was recorded.

use super::same;
use recover::open;
use std::alloc::Global;
use std::process::Abort;
use std::test::Fail;
use trace_disk::{Disk, MemDisk};

/// The store has so many bytes, and these at these places.
pub(crate) fn has_bytes(
    rt: &impl Abort,
    disk: &mut MemDisk,
    len: u64,
    bytes: &[(u64, u8)],
) -> Result<(), Fail> {
    same(rt, &"length", disk.len(), len);
    for (place, want) in bytes {
        let mut byte = [0];
        if *place >= disk.len() {
            return Err(Fail::new("no such byte"));
        }
        disk.read_at(*place, &mut byte)?;
        same(rt, place, byte[0], *want);
    }
    Ok(())
}

/// A crash of this length leaves so many records of each guest.
fn crash_leaves(
    rt: &impl Abort,
    alloc: Global,
    disk: &MemDisk,
    len: u64,
    records: &[u32],
) -> Result<(), Fail> {
    if len < disk.least() || disk.greatest() < len {
        return Err(Fail::new("no crash of this length"));
    }
    let Ok((_, lists)) = open(alloc, disk.crash(alloc, len, 0x37)?) else {
        return Err(Fail::new("not opened"));
    };
    same(rt, &len, lists.guests().len(), records.len());
    let mut guest = 0u32;
    for want in records {
        same(rt, &guest, lists.len(guest), *want);
        guest = guest.saturating_add(1);
    }
    Ok(())
}

/// The shortest and the longest crash now leave so many records of each guest.
pub(crate) fn crashes_leave(
    rt: &impl Abort,
    alloc: Global,
    disk: &MemDisk,
    records: &[u32],
) -> Result<(), Fail> {
    crash_leaves(rt, alloc, disk, disk.least(), records)?;
    crash_leaves(rt, alloc, disk, disk.greatest(), records)
}
