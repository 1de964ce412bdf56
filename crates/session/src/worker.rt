//! The workers of a session.

ghost use Rattle.std.specs.Prelude.{length, ◌≡◌, ◌≤◌, [], vec_capacity};
ghost use Rattle.session.specs.Pairs.{ArePairs};
ghost use Rattle.session.specs.Works.{HasWorked};
ghost use Rattle.session.specs.Workers.{WorksOn};

use crate::task::{Begun, Task, Worked};
use guest_calls::Outside;
use rrv_model::sink::Sink;
use serial_sched::Chooser;
use std::thread::{PromisedHandle, Threads};

/// A worker in a thread, or one that has ended, since no thread could be made for it.
#[derive(Drop)]
pub enum Worker<C: Chooser + Drop, O: Outside + Drop, S: Sink + Drop> {
    Running(PromisedHandle<Worked<C, O, S>, Begun<C, O, S>>),
    Ended(Worked<C, O, S>),
}

impl<C: Chooser + Drop, O: Outside + Drop, S: Sink + Drop> Worker<C, O, S> {
    /// Waits for the thread.
    pub(crate) fn finish<R: Threads>(self, rt: &R) -> Worked<C, O, S>
        ensures { (task : _) → WorksOn C.Chooser S.Sink task self → HasWorked C.Chooser S.Sink task result }
    {
        match self {
            Worker::Running(handle) => handle.join(rt),
            Worker::Ended(worked) => worked,
        }
    }
}

/// Waits for all.
pub(crate) fn finish_all<C: Chooser + Drop, O: Outside + Drop, S: Sink + Drop, R: Threads>(
    rt: &R,
    workers: Vec<Worker<C, O, S>>,
    done: &mut Vec<Worked<C, O, S>>,
)
    requires room { (done.old.items ≡ []) × (length workers.items ≤ vec_capacity done.old) }
    ensures { (tasks : _) → ArePairs (WorksOn C.Chooser S.Sink) tasks workers.items
        → ArePairs (HasWorked C.Chooser S.Sink) tasks done.new.items }
{
    for worker in workers {
        done.push_reserved(worker.finish(rt));
    }
}
