//! Records a program by several guests at once, to a disk in memory.

use crate::limits::QUANTUM;
use crate::words::number_and_file;
use recorder::MemSink;
use rrv_model::machine::Version;
use serial_sched::RoundRobin;
use session::{Every, Job, OpenGate, SessionReport, record_all};
use std::alloc::Global;
use std::io;
use std::rt::Files;
use std::sync::Wait;
use std::thread::Threads;
use test_guests::outsides::Nothing;
use trace_disk::MemDisk;
use trace_log::Log;

/// How many guests run the long countdown.
const GUESTS: u32 = 2;

/// What was recorded.
#[derive(Clone, Copy, Debug)]
struct Outcome {
    guests: usize,
    records: u64,
    /// How many bytes the store has.
    bytes: u64,
}

/// So many guests of a file.
fn jobs_of(
    alloc: Global,
    elf: &[u8],
    guests: u32,
) -> Option<Vec<Job<RoundRobin, Nothing, MemSink>>> {
    let mut jobs = Vec::new(alloc);
    for _ in 0..guests {
        let job = Job {
            version: Version::One,
            elf: Vec::from_slice(alloc, elf).ok()?,
            name: Vec::from_slice(alloc, b"g").ok()?,
            random: [0; 16],
            every: Every::Instructions(0),
            chooser: RoundRobin::new(QUANTUM),
            outside: Nothing,
            sink: MemSink::new(alloc),
        };
        jobs.push(job).ok()?;
    }
    Some(jobs)
}

/// How many records there are of all guests; None where one has not ended.
fn records_of(report: &SessionReport) -> Option<u64> {
    let mut records = 0u64;
    for guest in &report.guests {
        guest.end?;
        records = records.saturating_add(u64::from(guest.records));
    }
    Some(records)
}

/// Records so many guests of a file, each to its end; None where that was refused.
fn run_session<R: AllocGlobal + Threads + Wait + Sync>(
    rt: &R,
    elf: &[u8],
    guests: u32,
) -> Option<Outcome> {
    let alloc = rt.alloc();
    let log = Log::create(MemDisk::new(alloc)).ok()?;
    let (log, _, result) = record_all(rt, alloc, log, jobs_of(alloc, elf, guests)?, &OpenGate);
    let report = result.ok()?;
    Some(Outcome {
        guests: report.guests.len(),
        records: records_of(&report)?,
        bytes: log.close().greatest(),
    })
}

/// How many bytes the records took depends on which of them were committed together, and so on how the threads met: it is told of
/// a file alone.
fn print_outcome(rt: &impl Print, outcome: Outcome, of_file: bool) -> io::Result<()> {
    let guests = outcome.guests;
    let records = outcome.records;
    print!(rt; "{guests} guests, {records} records")?;
    if of_file {
        let bytes = outcome.bytes;
        print!(rt; ", {bytes} bytes")?;
    }
    println!(rt; "")
}

/// Records the program that the words name, by as many guests as they say; None where something is refused.
pub fn measure<R: AllocGlobal + Files + Print + Threads + Wait + Sync>(
    rt: &R,
    words: &[String],
) -> Option<()> {
    let (guests, elf) = number_and_file(rt, words, GUESTS)?;
    let outcome = run_session(rt, &elf, guests)?;
    print_outcome(rt, outcome, !words.is_empty()).ok()
}
