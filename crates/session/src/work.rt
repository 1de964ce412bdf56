//! What a worker does.

ghost use Rattle.std.specs.Prelude.{◌≡◌, ◌⊎◌, [], true, IfErr, IfOk, None};
ghost use Rattle.guest_calls.specs.Guest.{state_of};
ghost use Rattle.recorder.specs.RecorderCalls.{KeepsMade};
ghost use Rattle.session.specs.Chosen.{IsAtStart, LeavesChooser, MakesChosen};
ghost use Rattle.session.specs.Drives.{Drives, GoesOn, HasHalted, HasSent, IsDone, IsDriven, LeavesWith, fault_told};
ghost use Rattle.session.specs.Works.{AreMet, FaultTellsSink, HasWorked, IsFresh, IsSameJob, opening_for};

use crate::copying::copy_opening;
use crate::fault::SessionFault;
use crate::gate::Gate;
use crate::job::Job;
use crate::pace::Pace;
use crate::post::Post;
use crate::rounds::{WorkFault, drive, send_rest};
use crate::task::{Task, Worked};
use commit_group::RecorderSeat;
use guest_calls::Outside;
use recorder::Recorder;
use rrv_model::sink::Sink;
use serial_sched::Chooser;
use std::alloc::Global;
use std::sync::Wait;

/// A recorder of the job's guest; for want of memory the seat comes back.
fn open<C: Chooser + Drop, O: Outside + Drop, S: Sink + Drop>(
    alloc: Global,
    seat: RecorderSeat,
    job: &Job<C, O, S>,
) -> Result<Recorder, RecorderSeat>
    requires { IsFresh (record { seat = seat; job = job.now }) }
    ensures seat { IfOk result (λ r. r.seat ≡ seat) }
    ensures driven { IfOk result (λ r. IsDriven (opening_for seat.guest job.now) r []) }
    ensures start { IfOk result (IsAtStart job.now) }
    ensures every { IfOk result (λ r. r.every ≡ job.now.every) }
    ensures back { IfErr result (λ e. e ≡ seat) }
{
    let Ok(opening) = copy_opening(alloc, job.version, &job.elf, &job.name, &job.random) else {
        return Err(seat);
    };
    match Recorder::new(alloc, seat, opening, job.every) {
        Ok(recorder) => Ok(recorder),
        Err((seat, _)) => Err(seat),
    }
}

/// How a worker's fault is told. That the group has halted is none of its own.
fn told(fault: WorkFault, guest: u32) -> Option<SessionFault>
    ensures told { result ≡ fault_told guest fault }
    ensures met { AreMet guest result }
    ensures none { result ≡ None → fault ≡ WorkFault.Halted }
{
    match fault {
        WorkFault::Halted => None,
        WorkFault::SinkFailed => Some(SessionFault::SinkFailed { guest }),
        WorkFault::Held => Some(SessionFault::Held { guest }),
        WorkFault::Memory => Some(SessionFault::Memory),
    }
}

/// Ends a recording that met this: it makes no more frames, and sends what waits while it can.
fn end_early<G: Gate, R: Wait>(
    rt: &R,
    recorder: &mut Recorder,
    post: &Post<G>,
    fault: WorkFault,
) -> Option<SessionFault>
    ensures goes { GoesOn recorder.old recorder.new [] }
    ensures keeps { KeepsMade recorder.old recorder.new }
    ensures told { result ≡ fault_told post.now.guest fault }
    ensures met { AreMet post.now.guest result }
    ensures none { result ≡ None → (fault ≡ WorkFault.Halted) × (recorder.new ≡ recorder.old) }
    ensures rest { (result ≡ None) ⊎ HasSent recorder.new }
{
    match told(fault, post.guest) {
        Some(fault) => {
            send_rest(rt, recorder, post);
            Some(fault)
        }
        None => None,
    }
}

/// Records the guest to its end, and answers the fault that it met. None comes also where the group has halted.
fn record<C: Chooser + Drop, O: Outside + Drop, S: Sink + Drop, G: Gate, R: Wait>(
    rt: &R,
    alloc: Global,
    recorder: &mut Recorder,
    job: &mut Job<C, O, S>,
    post: &Post<G>,
) -> Option<SessionFault>
    ensures drives { Drives S.Sink recorder.old recorder.new job.old.sink job.new.sink }
    ensures job { IsSameJob job.old job.new }
    ensures met { AreMet post.now.guest result }
    ensures done { result ≡ None → HasHalted recorder.new ⊎ IsDone C.Chooser recorder.new job.new.chooser }
    ensures chosen { MakesChosen C.chooses recorder.old job.old.chooser recorder.new
        (LeavesChooser C.chooses result job.new.chooser (state_of recorder.new.guest)) }
    ensures rest { HasSent recorder.new }
    ensures sink { FaultTellsSink result (S.faults job.old.sink) (S.faults job.new.sink) }
{
    let driven = drive(
        rt,
        alloc,
        recorder,
        &mut job.chooser,
        &mut job.outside,
        &mut job.sink,
        post,
    );
    match driven {
        Ok(()) => None,
        Err(fault) => end_early(rt, recorder, post, fault),
    }
}

/// The seat, which has left, the guest, and what else a worker gives back.
fn leave<C: Chooser + Drop, O: Outside + Drop, S: Sink + Drop>(
    recorder: Recorder,
    job: Job<C, O, S>,
    fault: Option<SessionFault>,
) -> Worked<C, O, S>
    ensures left { LeavesWith recorder job fault result }
{
    let (seat, guest) = recorder.finish();
    let end = guest.ended();
    Worked {
        seat,
        job,
        guest: Some(guest),
        end,
        fault,
    }
}

/// Records the job's guest to its end, leaves, and wakes the flusher.
pub(crate) fn work<C: Chooser + Drop, O: Outside + Drop, S: Sink + Drop, G: Gate, R: Wait>(
    rt: &R,
    alloc: Global,
    task: Task<C, O, S>,
    gate: &G,
    pace: &Pace,
) -> Worked<C, O, S>
    requires { IsFresh task }
    ensures { HasWorked C.Chooser S.Sink task result }
{
    let Task { seat, mut job } = task;
    let guest = seat.guest();
    match open(alloc, seat, &job) {
        Ok(mut recorder) => {
            let post = Post::new(guest, gate, pace);
            let fault = record(rt, alloc, &mut recorder, &mut job, &post);
            let worked = leave(recorder, job, fault);
            pace.hurry();
            worked
        }
        Err(mut seat) => {
            seat.leave();
            pace.hurry();
            Worked {
                seat,
                job,
                guest: None,
                end: None,
                fault: Some(SessionFault::Memory),
            }
        }
    }
}
