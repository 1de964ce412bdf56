//! What a worker is given, and what it gives back.

ghost use Rattle.session.specs.Works.{HasWorked};

use crate::fault::SessionFault;
use crate::job::Job;
use commit_group::RecorderSeat;
use guest_calls::{Guest, Outside};
use rrv_model::machine::GuestEnd;
use rrv_model::sink::Sink;
use serial_sched::Chooser;
use std::snapshot::Snapshot;
use std::thread::Promise;

/// A guest's seat and its job.
#[derive(Drop)]
pub struct Task<C: Chooser + Drop, O: Outside + Drop, S: Sink + Drop> {
    pub seat: RecorderSeat,
    pub job: Job<C, O, S>,
}

/// The seat and the job again, the guest behind all that was made of it, how it ended, and the fault that its worker met.
#[derive(Drop)]
pub struct Worked<C: Chooser + Drop, O: Outside + Drop, S: Sink + Drop> {
    pub seat: RecorderSeat,
    pub job: Job<C, O, S>,
    /// None where there was no memory for its recorder.
    pub guest: Option<Guest>,
    pub end: Option<GuestEnd>,
    pub fault: Option<SessionFault>,
}

/// What comes back is the task that began, worked on.
#[derive(Drop)]
pub struct Begun<C: Chooser + Drop, O: Outside + Drop, S: Sink + Drop>(pub Snapshot<Task<C, O, S>>);

impl<C: Chooser + Drop, O: Outside + Drop, S: Sink + Drop> Promise<Worked<C, O, S>>
    for Begun<C, O, S> {
    ghost kept_by = { λ p r. HasWorked C.Chooser S.Sink p.0.value r };
}
