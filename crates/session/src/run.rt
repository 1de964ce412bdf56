//! The threads of a session.

ghost use Rattle.std.specs.Prelude.{◌≡◌, ◌≤◌, ◌+◌, false, [], length, vec_capacity};
ghost use Rattle.std.specs.Thread.{IsSync};
ghost use Rattle.session.specs.Gains.{HasFlushed};
ghost use Rattle.session.specs.Pairs.{ArePairs};
ghost use Rattle.session.specs.Works.{HasWorked};
ghost use Rattle.session.specs.Workers.{CanRun};

use crate::flush::flush;
use crate::gate::Gate;
use crate::pace::Pace;
use crate::start::start_all;
use crate::task::{Task, Worked};
use crate::worker::{Worker, finish_all};
use commit_group::{FlushFault, FlusherSeat};
use guest_calls::Outside;
use rrv_model::sink::Sink;
use serial_sched::Chooser;
use std::alloc::Global;
use std::sync::Wait;
use std::thread;
use std::thread::Threads;
use trace_disk::Disk;
use trace_log::Log;

/// Runs a worker for each task, in a thread of its own, and the flusher in this one, and waits for all.
pub(crate) fn run<
    D: Disk + Drop,
    C: Chooser + Drop + Send,
    O: Outside + Drop + Send,
    S: Sink + Drop + Send,
    G: Gate + Sync,
    R: Threads + Wait + Sync,
>(
    rt: &R,
    alloc: Global,
    tasks: Vec<Task<C, O, S>>,
    flusher: FlusherSeat,
    log: Log<D>,
    gate: &G,
    workers: Vec<Worker<C, O, S>>,
    done: Vec<Worked<C, O, S>>,
) -> (
    Vec<Worked<C, O, S>>,
    FlusherSeat,
    Log<D>,
    Result<(), FlushFault>,
)
    requires { CanRun tasks workers done flusher log }
    ensures works { ArePairs (HasWorked C.Chooser S.Sink) tasks.items result.0.items }
    ensures flushed { HasFlushed D.Disk flusher result.1 log result.2 result.3 }
{
    let pace = Pace::new();
    let pace = &pace;
    thread::scope(
        thread::scope_env(),
        rt,
        move |scope| -> (
            Vec<Worked<C, O, S>>,
            FlusherSeat,
            Log<D>,
            Result<(), FlushFault>,
        )
            requires { IsSync R.row × IsSync G.row × CanRun tasks workers done flusher log }
            ensures works { ArePairs (HasWorked C.Chooser S.Sink) tasks.items result.0.items }
            ensures flushed { HasFlushed D.Disk flusher result.1 log result.2 result.3 }
        {
            let mut workers = workers;
            let mut done = done;
            let mut flusher = flusher;
            let mut log = log;
            start_all(
                scope,
                rt,
                alloc,
                tasks,
                &mut workers,
                gate,
                pace,
                &mut flusher,
            );
            let flushed = flush(rt, alloc, &mut flusher, &mut log, pace);
            finish_all(rt, workers, &mut done);
            (done, flusher, log, flushed)
        },
    )
}
