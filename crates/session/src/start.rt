//! How the workers are started.

ghost use Rattle.std.specs.Prelude.{◌≡◌, ◌≤◌, [], length, true, vec_capacity};
ghost use Rattle.std.specs.List.{AllByRecursion};
ghost use Rattle.std.specs.Thread.{IsSync};
ghost use Rattle.session.specs.Pairs.{ArePairs};
ghost use Rattle.session.specs.Works.{HasWorked, IsFresh};
ghost use Rattle.session.specs.Workers.{HaltsFor, WorksOn};

use crate::gate::Gate;
use crate::pace::Pace;
use crate::task::{Begun, Task, Worked};
use crate::work::work;
use crate::worker::Worker;
use commit_group::FlusherSeat;
use guest_calls::Outside;
use rrv_model::sink::Sink;
use serial_sched::Chooser;
use std::alloc::Global;
use std::snapshot::Snapshot;
use std::sync::Wait;
use std::thread::{Scope, Threads};

/// Starts a worker. Where no thread can be made the group is halted, and the work is done here: it ends at once.
pub(crate) fn start<
    's,
    E: 's,
    C: Chooser + Drop + Send + 's,
    O: Outside + Drop + Send + 's,
    S: Sink + Drop + Send + 's,
    G: Gate + Sync,
    R: Threads + Wait + Sync,
>(
    scope: &'s Scope<'s, E>,
    rt: &'s R,
    alloc: Global,
    task: Task<C, O, S>,
    gate: &'s G,
    pace: &'s Pace,
    flusher: &mut FlusherSeat,
) -> Worker<C, O, S>
    requires sync { IsSync R.row × IsSync G.row }
    requires fresh { IsFresh task }
    ensures works { WorksOn C.Chooser S.Sink task result }
    ensures same { flusher.new ≡ record flusher.old { halted = flusher.new.halted } }
    ensures halted { HaltsFor flusher.new result }
    ensures stays { flusher.old.halted ≡ true → flusher.new.halted ≡ true }
{
    let promise = Begun(Snapshot::of(&task));
    let job = move || -> Worked<C, O, S>
        requires { IsSync R.row × IsSync G.row × IsFresh task }
        ensures { HasWorked C.Chooser S.Sink task result }
    { work(rt, alloc, task, gate, pace) };
    match scope.spawn_with(promise, job) {
        Ok(handle) => Worker::Running(handle),
        Err(refused) => {
            flusher.halt();
            Worker::Ended((refused.value)())
        }
    }
}

/// Starts a worker for each task.
pub(crate) fn start_all<
    's,
    E: 's,
    C: Chooser + Drop + Send + 's,
    O: Outside + Drop + Send + 's,
    S: Sink + Drop + Send + 's,
    G: Gate + Sync,
    R: Threads + Wait + Sync,
>(
    scope: &'s Scope<'s, E>,
    rt: &'s R,
    alloc: Global,
    tasks: Vec<Task<C, O, S>>,
    workers: &mut Vec<Worker<C, O, S>>,
    gate: &'s G,
    pace: &'s Pace,
    flusher: &mut FlusherSeat,
)
    requires sync { IsSync R.row × IsSync G.row }
    requires fresh { AllByRecursion IsFresh tasks.items }
    requires room { (workers.old.items ≡ []) × (length tasks.items ≤ vec_capacity workers.old) }
    ensures works { ArePairs (WorksOn C.Chooser S.Sink) tasks.items workers.new.items }
    ensures count { length workers.new.items ≡ length tasks.items }
    ensures halted { AllByRecursion (HaltsFor flusher.new) workers.new.items }
    ensures same { flusher.new ≡ record flusher.old { halted = flusher.new.halted } }
{
    for task in tasks {
        workers.push_reserved(start(scope, rt, alloc, task, gate, pace, flusher));
    }
}
