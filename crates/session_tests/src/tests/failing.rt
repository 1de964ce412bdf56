//! Sessions of four guests of which the disk or the output of one fails.

ghost use Rattle.std.specs.Prelude.{◌≡◌, false, IfOk};

use super::fail_sink::FailSink;
use super::listed::{FOUR, listed_jobs, says_hi};
use super::same;
use super::store::Store;
use session::{OpenGate, SessionFault, record_all};
use std::alloc::Global;
use std::test::Fail;
use trace_disk::{Disk, FailOnce, MemDisk};
use trace_log::Log;

/// The first sync of a commit: its body is written before it.
const FIRST_SYNC: u64 = 2;

/// The log of a new store whose disk fails at this call from here on, counted from 1.
fn failing_log(alloc: Global, call: u64) -> Result<Log<FailOnce<MemDisk>>, Fail>
    ensures { IfOk result (λ log. log.is_broken ≡ false) }
{
    let made = Log::create(MemDisk::new(alloc)).ok().ok_or("not made")?;
    let disk = FailOnce::new(made.close(), call);
    if disk.len() != 17 {
        return Err(Fail::new("no empty store"));
    }
    Ok(Log::adopt(disk, 16, 0, false))
}

#[test]
fn a_first_sync_that_fails_leaves_no_guest(rt: HostRuntime) -> Result<(), Fail> {
    let alloc = rt.alloc();
    let log = failing_log(alloc, FIRST_SYNC)?;
    let jobs = listed_jobs(alloc, &FOUR)?;
    let (log, jobs, result) = record_all(&rt, alloc, log, jobs, &OpenGate);
    let want = Some(SessionFault::DeviceFailed);
    same(&rt, &"fault", result.err(), want);
    same(&rt, &"jobs", jobs.len(), 4);
    for (place, job) in jobs.iter().enumerate() {
        same(&rt, &place, job.sink.puts().len(), 0);
    }
    let store = Store::of(alloc, log.close().into_inner())?;
    same(&rt, &"guests", store.guests(), 0);
    Ok(())
}

#[test]
fn a_sink_that_fails_once_stops_its_guest_alone(rt: HostRuntime) -> Result<(), Fail> {
    let alloc = rt.alloc();
    let log = Log::create(MemDisk::new(alloc)).ok().ok_or("not made")?;
    let mut jobs = listed_jobs(alloc, &FOUR)?;
    if let Some(job) = jobs.get_mut(1) {
        job.sink = FailSink::new(alloc, 1);
    }
    let (log, jobs, result) = record_all(&rt, alloc, log, jobs, &OpenGate);
    let want = Some(SessionFault::SinkFailed { guest: 1 });
    same(&rt, &"fault", result.err(), want);
    for (place, job) in jobs.iter().enumerate() {
        same(&rt, &place, says_hi(&rt, job.sink.puts()), false);
    }
    let mut store = Store::of(alloc, log.close())?;
    for (guest, records) in [(0, 2), (2, 11), (3, 11)] {
        same(&rt, &guest, store.kinds(alloc, guest)?.len(), records);
    }
    Ok(())
}
