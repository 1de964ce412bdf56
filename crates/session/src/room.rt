//! What a session needs memory for.

ghost use Rattle.std.specs.Prelude.{◌<◌, ◌≤◌, IfOk};
ghost use Rattle.session.specs.Rooms.{HasRoom};

use crate::job::Job;
use crate::report::GuestReport;
use crate::task::{Task, Worked};
use crate::worker::Worker;
use commit_group::{FlusherSeat, Group, RecorderSeat};
use guest_calls::{Guest, Outside};
use rrv_model::refusal::Memory;
use rrv_model::sink::Sink;
use serial_sched::Chooser;
use std::alloc::Global;

/// All of it is taken before a thread starts, so that no seat and no job is lost.
#[derive(Drop)]
pub(crate) struct SessionRoom<C: Chooser + Drop, O: Outside + Drop, S: Sink + Drop> {
    pub(crate) seats: Vec<RecorderSeat>,
    pub(crate) flusher: FlusherSeat,
    pub(crate) tasks: Vec<Task<C, O, S>>,
    pub(crate) workers: Vec<Worker<C, O, S>>,
    pub(crate) done: Vec<Worked<C, O, S>>,
    pub(crate) seats_back: Vec<RecorderSeat>,
    pub(crate) jobs_back: Vec<Job<C, O, S>>,
    pub(crate) reports: Vec<GuestReport>,
    pub(crate) states: Vec<Guest>,
}

/// A group of so many guests, and room for them.
pub(crate) fn make_room<C: Chooser + Drop, O: Outside + Drop, S: Sink + Drop>(
    alloc: Global,
    guests: usize,
) -> Result<SessionRoom<C, O, S>, Memory>
    requires { (0 < guests) × (guests ≤ 16) }
    ensures { IfOk result (λ r. HasRoom guests r) }
{
    let (seats, flusher) = Group::make(alloc, guests as u32)?;
    Ok(SessionRoom {
        seats,
        flusher,
        tasks: Vec::with_capacity(alloc, guests)?,
        workers: Vec::with_capacity(alloc, guests)?,
        done: Vec::with_capacity(alloc, guests)?,
        seats_back: Vec::with_capacity(alloc, guests)?,
        jobs_back: Vec::with_capacity(alloc, guests)?,
        reports: Vec::with_capacity(alloc, guests)?,
        states: Vec::with_capacity(alloc, guests)?,
    })
}
