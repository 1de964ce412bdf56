//! Sessions that are refused before a guest starts, or by a full store.

use super::jobs::MemJob;
use super::listed::listed_jobs;
use super::same;
use super::store::{Store, contents};
use recorder::MemSink;
use rrv_model::machine::Version;
use serial_sched::RoundRobin;
use session::{Every, Job, OpenGate, SessionFault, record_all};
use std::alloc::Global;
use std::process::Abort;
use std::sync::Wait;
use std::test::Fail;
use std::thread::Threads;
use test_guests::files::{EXIT_FIVE, HELLO, file_of};
use test_guests::outsides::Nothing;
use trace_disk::{Disk, MemDisk};
use trace_log::Log;

/// A store with no bodies.
const NO_BODIES: [u8; 17] = [
    0x52, 0x52, 0x56, 0x54, 0x52, 0x43, 0x31, 0x0A, 0, 0, 0, 0, 0, 0, 0, 0, 0,
];

/// Jobs that are to be refused: one of each of these names.
#[derive(Clone, Copy)]
struct Refused<'a> {
    names: &'a [&'a [u8]],
    /// The files of those from this place on are cut short.
    cut_from: usize,
    /// Those from this place on are of version 2.
    new_from: usize,
}

impl<'a> Refused<'a> {
    fn of_version_one(names: &'a [&'a [u8]], cut_from: usize) -> Refused<'a> {
        Refused {
            names,
            cut_from,
            new_from: usize::MAX,
        }
    }
}

fn refused_jobs(alloc: Global, refused: Refused<'_>) -> Result<Vec<MemJob>, Fail> {
    let mut jobs = Vec::new(alloc);
    for (place, name) in refused.names.iter().enumerate() {
        let mut elf = file_of(alloc, &EXIT_FIVE)?;
        if refused.cut_from <= place {
            elf.truncate(40);
        }
        jobs.push(Job {
            version: if refused.new_from <= place {
                Version::Two
            } else {
                Version::One
            },
            elf,
            name: Vec::from_slice(alloc, name)?,
            random: [3; 16],
            every: Every::Instructions(64),
            chooser: RoundRobin::new(1000),
            outside: Nothing,
            sink: MemSink::new(alloc),
        })?;
    }
    Ok(jobs)
}

/// A job is as one that was never recorded.
fn is_untouched(rt: &impl Abort, found: &MemJob, want: &MemJob) {
    same(rt, &"version", found.version, want.version);
    same(rt, &"file", found.elf.as_slice(), want.elf.as_slice());
    same(rt, &"name", found.name.as_slice(), want.name.as_slice());
    same(rt, &"random", found.random, want.random);
    same(rt, &"every", found.every, want.every);
    let chooser = (found.chooser.quantum, found.chooser.last);
    same(rt, &"chooser", chooser, (1000, 0));
    same(rt, &"puts", found.sink.puts().len(), 0);
}

/// A session of such jobs is refused so, and leaves its log and its jobs as they were.
fn is_refused<R>(rt: &R, refused: Refused<'_>, want: SessionFault) -> Result<(), Fail>
where
    R: Abort + AllocGlobal + Threads + Wait + Sync,
{
    let alloc = rt.alloc();
    let mut log = Log::create(MemDisk::new(alloc)).ok().ok_or("not made")?;
    log.raise_guest(7);
    let given = refused_jobs(alloc, refused)?;
    let (log, back, result) = record_all(rt, alloc, log, given, &OpenGate);
    same(rt, &want, result.err(), Some(want));
    same(rt, &want, back.len(), refused.names.len());
    let jobs = refused_jobs(alloc, refused)?;
    for (found, want) in back.iter().zip(&jobs) {
        is_untouched(rt, found, want);
    }
    same(rt, &want, log.next_guest(), 7);
    let mut disk = log.close();
    let bytes = contents(alloc, &mut disk)?;
    same(rt, &want, bytes.as_slice(), &NO_BODIES as &[u8]);
    same(rt, &want, Store::of(alloc, disk)?.guests(), 0);
    Ok(())
}

// A name has 1 to 32 bytes, each from 0x21 to 0x7E. The first bad job is told, whether its name is bad or its file. Seventeen guests are
// too many.
#[test]
fn sessions_that_start_no_guest(rt: HostRuntime) -> Result<(), Fail> {
    let rows: &[(&[&[u8]], usize, SessionFault)] = &[
        (&[b""], 1, SessionFault::BadOpening { guest: 0 }),
        (&[b"a b"], 1, SessionFault::BadOpening { guest: 0 }),
        (&[&[0x61; 33]], 1, SessionFault::BadOpening { guest: 0 }),
        (&[&[0x7F]], 1, SessionFault::BadOpening { guest: 0 }),
        (&[b"a", b""], 2, SessionFault::BadOpening { guest: 1 }),
        (&[b"a", b"b\n"], 2, SessionFault::BadOpening { guest: 1 }),
        (&[b"", b" "], 2, SessionFault::BadOpening { guest: 0 }),
        (&[b"", b"b"], 1, SessionFault::BadOpening { guest: 0 }),
        (
            &[b"a", b" ", b"c"],
            2,
            SessionFault::BadOpening { guest: 1 },
        ),
        (&[b"a", b"b", b""], 1, SessionFault::BadOpening { guest: 1 }),
        (
            &[b"a", b"b", b"c"],
            2,
            SessionFault::BadOpening { guest: 2 },
        ),
        (&[b"a" as &[u8]; 17], 17, SessionFault::TooManyGuests),
    ];
    for (names, cut_from, want) in rows {
        is_refused(&rt, Refused::of_version_one(names, *cut_from), *want)?;
    }
    Ok(())
}

// The store doesn't hold the Mark. The first job of version 2 is told, whatever jobs start no guest, unless there are too many.
#[test]
fn sessions_that_need_the_mark(rt: HostRuntime) -> Result<(), Fail> {
    let rows: &[(&[&[u8]], usize, usize, SessionFault)] = &[
        (
            &[b"a", b"b", b"c"],
            3,
            1,
            SessionFault::NeedsMark { guest: 1 },
        ),
        (&[b"a"], 1, 0, SessionFault::NeedsMark { guest: 0 }),
        (&[b"", b"b"], 0, 1, SessionFault::NeedsMark { guest: 1 }),
        (&[b"a" as &[u8]; 17], 17, 16, SessionFault::TooManyGuests),
    ];
    for (names, cut_from, new_from, want) in rows {
        let refused = Refused {
            names,
            cut_from: *cut_from,
            new_from: *new_from,
        };
        is_refused(&rt, refused, *want)?;
    }
    Ok(())
}

// The log has as many segments as a store may have: nothing is recorded, and nothing leaves.
#[test]
fn a_full_store(rt: HostRuntime) -> Result<(), Fail> {
    let alloc = rt.alloc();
    let made = Log::create(MemDisk::new(alloc));
    let disk = made.ok().ok_or("not made")?.close();
    if disk.len() != 17 {
        return Err(Fail::new("no empty store"));
    }
    let log = Log::adopt(disk, 16, u32::MAX, false);
    let jobs = listed_jobs(alloc, &[&HELLO, &EXIT_FIVE])?;
    let (log, jobs, result) = record_all(&rt, alloc, log, jobs, &OpenGate);
    same(&rt, &"fault", result.err(), Some(SessionFault::StoreFull));
    same(&rt, &"jobs", jobs.len(), 2);
    for job in &jobs {
        same(&rt, &"puts", job.sink.puts().len(), 0);
    }
    let mut disk = log.close();
    let bytes = contents(alloc, &mut disk)?;
    same(&rt, &"bytes", bytes.as_slice(), &NO_BODIES as &[u8]);
    Ok(())
}
