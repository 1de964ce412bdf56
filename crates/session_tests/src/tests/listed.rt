//! Guests by lists of choices, of which one never steps, or the sink of one fails.

use super::fail_sink::FailSink;
use super::gates::Behind;
use super::same;
use super::store::{Kind, Store};
use guest_calls::Put;
use rrv_model::machine::Version;
use rrv_model::record::Choice;
use serial_sched::Listed;
use session::{Every, Job, OpenGate, SessionFault, record_all};
use std::alloc::Global;
use std::process::Abort;
use std::sync::Wait;
use std::test::Fail;
use std::thread::Threads;
use test_guests::files::{EXIT_FIVE, HELLO, file_of};
use test_guests::outsides::Nothing;
use trace_disk::MemDisk;
use trace_log::Log;

/// A job by a list of choices.
pub(super) type ListedJob = Job<Listed, Nothing, FailSink>;

/// It jumps to itself: `j .`.
pub(super) const SPIN: [u32; 1] = [0x0000_006F];

/// One exits with 5, one writes `hi` and a newline, and two jump to themselves.
pub(super) const FOUR: [&[u32]; 4] = [&EXIT_FIVE, &HELLO, &SPIN, &SPIN];

/// A job for each of these programs, by ten choices of 64 instructions of thread 1.
pub(super) fn listed_jobs(alloc: Global, programs: &[&[u32]]) -> Result<Vec<ListedJob>, Fail> {
    let choice = Choice {
        tid: 1,
        quantum: 64,
    };
    let mut jobs = Vec::new(alloc);
    for program in programs {
        jobs.push(Job {
            version: Version::One,
            elf: file_of(alloc, program)?,
            name: Vec::from_slice(alloc, b"listed")?,
            random: [0; 16],
            every: Every::Instructions(0),
            chooser: Listed::new(Vec::from_elem(alloc, choice, 10)?),
            outside: Nothing,
            sink: FailSink::new(alloc, 0),
        })?;
    }
    Ok(jobs)
}

/// Whether `hi` and a newline were output, or nothing.
pub(super) fn says_hi(rt: &impl Abort, puts: &[Put]) -> bool {
    let Some(put) = puts.first() else {
        return false;
    };
    let found = (puts.len(), put.descriptor, put.bytes.as_slice());
    same(rt, &"hi", found, (1, 1, b"hi\n" as &[u8]));
    true
}

/// The records of a guest that jumps to itself.
pub(super) const SPINS: [Kind; 11] = [
    ("opening", 88),
    ("preempt", 64),
    ("preempt", 64),
    ("preempt", 64),
    ("preempt", 64),
    ("preempt", 64),
    ("preempt", 64),
    ("preempt", 64),
    ("preempt", 64),
    ("preempt", 64),
    ("preempt", 64),
];

// The one that would exit with 5 is held.
#[test]
fn a_guest_that_is_held_leaves_its_opening(rt: HostRuntime) -> Result<(), Fail> {
    let alloc = rt.alloc();
    let jobs = listed_jobs(alloc, &FOUR)?;
    let log = Log::create(MemDisk::new(alloc)).ok().ok_or("not made")?;
    // No guest sends so many frames.
    let gate = Behind::holding(0, u32::MAX);
    let (log, jobs, result) = record_all(&rt, alloc, log, jobs, &gate);
    let want = Some(SessionFault::Held { guest: 0 });
    same(&rt, &"fault", result.err(), want);
    let mut store = Store::of(alloc, log.close())?;
    let kinds: [&[Kind]; 4] = [
        &[("opening", 96)],
        &[("opening", 128), ("end", 8), ("end", 3)],
        &SPINS,
        &SPINS,
    ];
    same(&rt, &"jobs", jobs.len(), kinds.len());
    for (place, (want, job)) in kinds.iter().zip(&jobs).enumerate() {
        let number = u32::try_from(place)?;
        let found = store.kinds(alloc, number)?;
        same(&rt, &number, found.as_slice(), *want);
        let kept = store.replayed(&rt, number)?;
        let said = (
            says_hi(&rt, kept.output.puts()),
            says_hi(&rt, job.sink.puts()),
        );
        same(&rt, &number, said, (place == 1, place == 1));
    }
    Ok(())
}

/// Each of three guests writes `hi` and a newline, and the sink of the one at a place refuses that. It is told by its place, and the
/// others write it.
fn is_told_by_its_place<R>(rt: &R, failing: usize) -> Result<(), Fail>
where
    R: Abort + AllocGlobal + Threads + Wait + Sync,
{
    let alloc = rt.alloc();
    let mut jobs = listed_jobs(alloc, &[&HELLO, &HELLO, &HELLO])?;
    if let Some(job) = jobs.get_mut(failing) {
        job.sink = FailSink::new(alloc, 1);
    }
    let log = Log::create(MemDisk::new(alloc)).ok().ok_or("not made")?;
    let (_, jobs, result) = record_all(rt, alloc, log, jobs, &OpenGate);
    let guest = u32::try_from(failing)?;
    let want = Some(SessionFault::SinkFailed { guest });
    same(rt, &"fault", result.err(), want);
    same(rt, &"jobs", jobs.len(), 3);
    for (place, job) in jobs.iter().enumerate() {
        let has_taken = says_hi(rt, job.sink.puts());
        same(rt, &(failing, place), has_taken, place != failing);
    }
    Ok(())
}

#[test]
fn a_sink_that_fails_is_told(rt: HostRuntime) -> Result<(), Fail> {
    for failing in 0..3 {
        is_told_by_its_place(&rt, failing)?;
    }
    Ok(())
}
