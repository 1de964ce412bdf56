//! Guests of both versions behind the Mark, also such as wait for a time.

ghost use Rattle.std.specs.Prelude.{◌≡◌, false, IfOk};

use super::fail_sink::FailSink;
use super::listed::{ListedJob, SPIN, SPINS, listed_jobs};
use super::same;
use super::store::{Kind, Store, marked_log};
use guest_calls::Outside;
use recover::open;
use rrv_model::machine::{GuestEnd, Version};
use rrv_model::record::Choice;
use serial_sched::Listed;
use session::{Every, GuestReport, Job, OpenGate, record_all};
use std::alloc::Global;
use std::process::Abort;
use std::sync::Wait;
use std::test::Fail;
use std::thread::Threads;
use test_guests::files::{EXIT_FIVE, HELLO, ONE_WAIT, file_of};
use trace_disk::MemDisk;
use trace_log::Log;

/// The four guests: one exits with 5, one writes `hi`, and two jump to themselves.
const FOUR: [&[u32]; 4] = [&EXIT_FIVE, &HELLO, &SPIN, &SPIN];

/// Their versions, and that of the guest that was there before.
const VERSIONS: [Version; 5] = [
    Version::One,
    Version::One,
    Version::Two,
    Version::Two,
    Version::Two,
];

/// The records of all five.
const KINDS: [&[Kind]; 5] = [
    &[("opening", 96), ("end", 3)],
    &[("opening", 96), ("end", 3)],
    &[("opening", 128), ("end", 8), ("end", 3)],
    &SPINS,
    &SPINS,
];

/// The jobs of the four.
fn four_jobs(alloc: Global) -> Result<Vec<ListedJob>, Fail> {
    let mut jobs = listed_jobs(alloc, &FOUR)?;
    for (place, version) in VERSIONS.iter().skip(1).enumerate() {
        jobs.get_mut(place).ok_or("no such job")?.version = *version;
    }
    Ok(jobs)
}

/// Records jobs to a log; what is reported of them.
fn recorded<R: AllocGlobal + Threads + Wait + Sync>(
    rt: &R,
    log: Log<MemDisk>,
    jobs: Vec<ListedJob>,
) -> Result<(Log<MemDisk>, Vec<GuestReport>), Fail>
    requires { log.is_broken ≡ false }
    ensures { IfOk result (λ r. r.0.is_broken ≡ false) }
{
    let (log, _, result) = record_all(rt, rt.alloc(), log, jobs, &OpenGate);
    Ok((log, result?.guests))
}

/// A store has the five guests, each of its version, and replays them.
fn has_five<R: Abort + AllocGlobal + Wait>(rt: &R, disk: MemDisk) -> Result<(), Fail> {
    let alloc = rt.alloc();
    let mut store = Store::of(alloc, disk)?;
    same(rt, &"guests", store.guests(), KINDS.len());
    for (place, (kinds, version)) in KINDS.iter().zip(&VERSIONS).enumerate() {
        let number = u32::try_from(place)?;
        same(rt, &number, store.version(alloc, number)?, *version);
        let found = store.kinds(alloc, number)?;
        same(rt, &number, found.as_slice(), *kinds);
        let kept = store.replayed(rt, number)?;
        same(rt, &number, kept.records, kinds.len());
    }
    Ok(())
}

// A guest of version 1 is there before the Mark. The Mark is no guest. A guest of version 1 and three
// of version 2 get the numbers behind it.
#[test]
fn both_versions_stand_behind_the_mark(rt: HostRuntime) -> Result<(), Fail> {
    let alloc = rt.alloc();
    let log = Log::create(MemDisk::new(alloc)).ok().ok_or("not made")?;
    let (mut log, _) = recorded(&rt, log, listed_jobs(alloc, &[&EXIT_FIVE])?)?;
    same(&rt, &"made", log.mark(alloc)?, true);
    let (log, _) = open(alloc, log.close()).ok().ok_or("not opened")?;
    same(&rt, &"next guest", log.next_guest(), 1);
    let (log, reports) = recorded(&rt, log, four_jobs(alloc)?)?;
    let mut number = 1u32;
    for report in &reports {
        same(&rt, &"number", report.number, number);
        number = number.saturating_add(1);
    }
    same(&rt, &"reports", number, 5);
    has_five(&rt, log.close())
}

/// A clock that goes on by a millisecond each time that it is asked, up to a second.
#[derive(Drop)]
struct Ticking {
    asked: u32,
}

impl Outside for Ticking {
    ghost gives = { λ _ _ _ _. Unit {0} };

    fn read(&mut self, _into: &mut [u8]) -> usize {
        0
    }

    fn random(&mut self, _into: &mut [u8]) {}

    fn now(&mut self, _clock: u32) -> (u64, u32) {
        self.asked = self.asked.saturating_add(1);
        (0, self.asked.saturating_mul(1_000_000).min(999_999_999))
    }
}

/// Two jobs of a guest that waits for 5 milliseconds, and exits with what it finds, by ten choices.
fn waiting_jobs(alloc: Global) -> Result<Vec<Job<Listed, Ticking, FailSink>>, Fail> {
    let choice = Choice {
        tid: 1,
        quantum: 64,
    };
    let mut jobs = Vec::new(alloc);
    for _ in 0..2 {
        jobs.push(Job {
            version: Version::Two,
            elf: file_of(alloc, &ONE_WAIT)?,
            name: Vec::from_slice(alloc, b"waits")?,
            random: [0; 16],
            every: Every::Instructions(0),
            chooser: Listed::new(Vec::from_elem(alloc, choice, 10)?),
            outside: Ticking { asked: 0 },
            sink: FailSink::new(alloc, 0),
        })?;
    }
    Ok(jobs)
}

// Nothing else runs while such a guest waits. Its worker asks again and again until the time is over, which one record says: ETIMEDOUT, whose low
// byte is 0x92.
#[test]
fn guests_whose_only_thread_waits(rt: HostRuntime) -> Result<(), Fail> {
    let alloc = rt.alloc();
    let jobs = waiting_jobs(alloc)?;
    let (log, _, result) = record_all(&rt, alloc, marked_log(alloc)?, jobs, &OpenGate);
    same(&rt, &"reports", result?.guests.len(), 2);
    let mut store = Store::of(alloc, log.close())?;
    let want: &[Kind] = &[("opening", 132), ("end", 10), ("end", 0), ("end", 2)];
    for number in 0..2 {
        let found = store.kinds(alloc, number)?;
        same(&rt, &number, found.as_slice(), want);
        let end = store.replayed(&rt, number)?.end;
        same(&rt, &number, end, Some(GuestEnd::Exited(0x92)));
    }
    Ok(())
}
