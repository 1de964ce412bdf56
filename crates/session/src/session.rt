//! A session, from its jobs to its report.

ghost use Rattle.std.specs.Prelude.{◌≡◌, ◌<◌, ◌≤◌, ◌+◌, ℕ, [], false, length, IfErr, OnErr, OnOk, Err};
ghost use Rattle.std.specs.List.{AllByRecursion};
ghost use Rattle.session.specs.Openings.{AreOld, IsFirstBad, IsFirstNew, StartsGuest};
ghost use Rattle.session.specs.Sessions.{AreTooMany, AreUntouched, HasEnded, RefusesSession, TellsBadJob, TellsDevice, TellsNewJob, TellsSinks};

use crate::fault::SessionFault;
use crate::gate::Gate;
use crate::hand_over::{give, take_back};
use crate::job::Job;
use crate::lowest::lowest_fault;
use crate::opening::{check_jobs, first_unmarked};
use crate::report::SessionReport;
use crate::room::{SessionRoom, make_room};
use crate::run::run;
use commit_group::end;
use guest_calls::Outside;
use rrv_model::limits::MAX_GUESTS;
use rrv_model::sink::Sink;
use serial_sched::Chooser;
use std::alloc::Global;
use std::sync::Wait;
use std::thread::Threads;
use trace_disk::Disk;
use trace_log::Log;

/// Records some guests, [`MAX_GUESTS`] at most.
fn record_some<
    D: Disk + Drop,
    C: Chooser + Drop + Send,
    O: Outside + Drop + Send,
    S: Sink + Drop + Send,
    G: Gate + Sync,
    R: Threads + Wait + Sync,
>(
    rt: &R,
    alloc: Global,
    log: Log<D>,
    jobs: Vec<Job<C, O, S>>,
    gate: &G,
) -> (
    Log<D>,
    Vec<Job<C, O, S>>,
    Result<SessionReport, SessionFault>,
)
    requires starts { AllByRecursion StartsGuest jobs.items }
    requires some { (0 < length jobs.items) × (length jobs.items ≤ 16) }
    requires whole { log.is_broken ≡ false }
    requires numbers { log.next_guest + length jobs.items ≤ 4294967295 }
    requires marked { log.marked ≡ false → AreOld jobs.items }
    ensures recorded { HasEnded C.Chooser S.Sink D.Disk log result.0 jobs.items result.1.items result.2 }
    ensures whole { OnOk result.2 (result.0.is_broken ≡ false) }
    ensures refused { IfErr result.2 (RefusesSession log result.0 jobs result.1) }
    ensures disk { TellsDevice result.2 (D.faults log.disk) (D.faults result.0.disk) }
    ensures sinks { TellsSinks S.Sink result.2 jobs.items result.1.items }
{
    let first = log.next_guest();
    let Ok(room) = make_room(alloc, jobs.len()) else {
        return (log, jobs, Err(SessionFault::Memory));
    };
    let SessionRoom {
        seats,
        flusher,
        mut tasks,
        workers,
        done,
        mut seats_back,
        mut jobs_back,
        mut reports,
        mut states,
    } = room;
    give(seats, jobs, &mut tasks);
    let (done, flusher, log, flushed) = run(rt, alloc, tasks, flusher, log, gate, workers, done);
    let lowest = lowest_fault(flushed, &done);
    take_back(
        first,
        done,
        &mut seats_back,
        &mut jobs_back,
        &mut reports,
        &mut states,
    );
    let _ = end(seats_back, flusher);
    if let Some(fault) = lowest {
        return (log, jobs_back, Err(fault));
    }
    let report = SessionReport {
        guests: reports,
        states,
    };
    (log, jobs_back, Ok(report))
}

/// Records a guest for each job, each by a worker in a thread of its own, and commits what they send by a flusher in this one. The
/// jobs come back in their order. The guests' numbers go on from the log's next one.
pub fn record_all<
    D: Disk + Drop,
    C: Chooser + Drop + Send,
    O: Outside + Drop + Send,
    S: Sink + Drop + Send,
    G: Gate + Sync,
    R: Threads + Wait + Sync,
>(
    rt: &R,
    alloc: Global,
    log: Log<D>,
    jobs: Vec<Job<C, O, S>>,
    gate: &G,
) -> (
    Log<D>,
    Vec<Job<C, O, S>>,
    Result<SessionReport, SessionFault>,
)
    requires whole { log.is_broken ≡ false }
    ensures recorded { HasEnded C.Chooser S.Sink D.Disk log result.0 jobs.items result.1.items result.2 }
    ensures whole { OnOk result.2 (result.0.is_broken ≡ false) }
    ensures starts { OnOk result.2 (AllByRecursion StartsGuest jobs.items) }
    ensures refused { IfErr result.2 (RefusesSession log result.0 jobs result.1) }
    ensures many { AreTooMany log jobs.items → result.2 ≡ Err SessionFault.TooManyGuests }
    ensures none { jobs.items ≡ [] → AreUntouched log result.0 jobs result.1 × OnErr result.2 ⊥ }
    ensures disk { TellsDevice result.2 (D.faults log.disk) (D.faults result.0.disk) }
    ensures sinks { TellsSinks S.Sink result.2 jobs.items result.1.items }
    ensures unmarked { (guest : ℕ) → log.marked ≡ false → IsFirstNew jobs.items guest
        → AreUntouched log result.0 jobs result.1 × TellsNewJob result.2 log jobs.items guest }
    ensures bad { (guest : ℕ) → IsFirstBad jobs.items guest
        → AreUntouched log result.0 jobs result.1 × TellsBadJob result.2 log jobs.items guest }
{
    let count = jobs.len();
    if count > MAX_GUESTS as usize || log.next_guest() > u32::MAX - count as u32 {
        return (log, jobs, Err(SessionFault::TooManyGuests));
    }
    if count == 0 {
        let report = SessionReport {
            guests: Vec::new(alloc),
            states: Vec::new(alloc),
        };
        return (log, jobs, Ok(report));
    }
    if let Some(guest) = first_unmarked(&jobs, log.marked()) {
        return (log, jobs, Err(SessionFault::NeedsMark { guest }));
    }
    if let Err(fault) = check_jobs(alloc, &jobs) {
        return (log, jobs, Err(fault));
    }
    record_some(rt, alloc, log, jobs, gate)
}
