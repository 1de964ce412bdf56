//! Sessions one after another in one store.

use super::listed::listed_jobs;
use super::same;
use super::store::Store;
use recover::open;
use rrv_model::machine::GuestEnd;
use session::{GuestReport, OpenGate, record_all};
use std::process::Abort;
use std::sync::Wait;
use std::test::Fail;
use std::thread::Threads;
use test_guests::files::EXIT_FIVE;
use trace_disk::MemDisk;
use trace_log::Log;

/// Records a guest that exits with 5 to a store that is opened for it, and tells what is reported of it.
fn recorded<R>(rt: &R, disk: MemDisk) -> Result<(MemDisk, GuestReport), Fail>
where
    R: Abort + AllocGlobal + Threads + Wait + Sync,
{
    let alloc = rt.alloc();
    let jobs = listed_jobs(alloc, &[&EXIT_FIVE])?;
    let (log, _) = open(alloc, disk).ok().ok_or("not opened")?;
    let (log, _, result) = record_all(rt, alloc, log, jobs, &OpenGate);
    let report = result?;
    let guest = report.guests.first().ok_or("no report")?;
    Ok((log.close(), *guest))
}

#[test]
fn each_guest_has_the_next_number(rt: HostRuntime) -> Result<(), Fail> {
    let alloc = rt.alloc();
    let exited = Some(GuestEnd::Exited(5));
    let log = Log::create(MemDisk::new(alloc)).ok().ok_or("not made")?;
    let mut disk = log.close();
    for number in 0..3 {
        let (left, found) = recorded(&rt, disk)?;
        disk = left;
        let want = GuestReport {
            number,
            records: 2,
            end: exited,
        };
        same(&rt, &number, found, want);
    }
    let (log, _) = open(alloc, disk).ok().ok_or("not opened")?;
    same(&rt, &"next guest", log.next_guest(), 3);
    let mut store = Store::of(alloc, log.close())?;
    same(&rt, &"guests", store.guests(), 3);
    for number in 0..3 {
        let kept = store.replayed(&rt, number)?;
        same(&rt, &number, (kept.records, kept.end), (2, exited));
    }
    Ok(())
}
