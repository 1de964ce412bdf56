//! A session that comes to its end, and what it has to leave.

use super::jobs::{MemJob, begin_output, jobs};
use super::same;
use super::store::Store;
use rrv_model::machine::GuestEnd;
use session::{Gate, GuestReport, record_all};
use std::process::Abort;
use std::sync::Wait;
use std::test::Fail;
use std::thread::Threads;
use trace_disk::MemDisk;
use trace_log::Log;

/// A guest is reported and put out to its end, and its records are a recording of just that. Of its records the first is its
/// opening, and the last its exit.
fn is_whole<R: Abort + AllocGlobal + Wait>(
    rt: &R,
    store: &mut Store,
    told: &GuestReport,
    job: &MemJob,
    times: u32,
) -> Result<(), Fail> {
    let place = told.number;
    let records = times.saturating_add(2);
    let exited = Some(GuestEnd::Exited(5));
    same(rt, &place, (told.records, told.end), (records, exited));
    same(rt, &place, job.sink.puts().len(), times as usize);
    begin_output(rt, job.sink.puts(), place, times);
    let kept = store.replayed(rt, place)?;
    same(
        rt,
        &place,
        (kept.records, kept.end),
        (records as usize, exited),
    );
    same(rt, &place, kept.output.puts().len(), times as usize);
    begin_output(rt, kept.output.puts(), place, times);
    Ok(())
}

/// Records so many guests at once, each of which puts a letter out so often, and finds them again.
pub(super) fn whole_session<G, R>(rt: &R, guests: u32, times: u32, gate: &G) -> Result<(), Fail>
where
    G: Gate + Sync,
    R: Abort + AllocGlobal + Threads + Wait + Sync,
{
    let alloc = rt.alloc();
    let log = Log::create(MemDisk::new(alloc)).ok().ok_or("not made")?;
    let (log, jobs, result) = record_all(rt, alloc, log, jobs(alloc, guests, times)?, gate);
    let report = result?;
    let mut store = Store::of(alloc, log.close())?;
    let counts = (jobs.len(), report.guests.len(), store.guests());
    let count = guests as usize;
    same(rt, &"guests", counts, (count, count, count));
    let mut place = 0u32;
    for (told, job) in report.guests.iter().zip(&jobs) {
        same(rt, &"number", told.number, place);
        is_whole(rt, &mut store, told, job, times)?;
        place = place.wrapping_add(1);
    }
    Ok(())
}
