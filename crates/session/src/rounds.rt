//! The rounds of a worker: it sends and releases what it can, and makes a frame where the gate lets it.

ghost use Rattle.std.specs.Prelude.{◌≡◌, ◌≢◌, ◌↔◌, ◌<◌, [], length, true, Err, IfErr, IfOk, IsTrue, None, OnErr, OnOk};
ghost use Rattle.guest_calls.specs.Guest.{state_of};
ghost use Rattle.serial_sched.specs.Chosen.{Picks};
ghost use Rattle.serial_sched.specs.Slices.{IsAsleep};
ghost use Rattle.recorder.specs.RecorderCalls.{KeepsMade};
ghost use Rattle.recorder.specs.Recorders.{IsSettled, made};
ghost use Rattle.session.specs.Chosen.{IsAskedOnce, MakesChosen, TurnLeaves, WorkLeaves};
ghost use Rattle.session.specs.Drives.{CallTellsSink, Drives, GoesOn, HasHalted, HasSent, IsOver, WorkTellsSink, next_held, work_told};
ghost use Rattle.session.specs.declared.rounds.WorkFault.TheVariants as work_faults;

use crate::gate::Gate;
use crate::post::Post;
use guest_calls::{Guest, Outside};
use recorder::{Pause, Recorder, RecorderFault};
use rrv_model::limits::MIN_QUANTUM;
use rrv_model::record::Choice;
use rrv_model::refusal::Memory;
use rrv_model::sink::Sink;
use serial_sched::{Chooser, SliceFault};
use std::alloc::Global;
use std::sync::Wait;
use std::thread;

/// How often in a row the gate may refuse a step.
const MOST_REFUSALS: u32 = 10_000_000;

/// Why a worker makes no more frames.
#[derive(Clone, Copy, Debug, PartialEq, Eq)]
pub(crate) enum WorkFault {
    /// The flusher has halted.
    Halted,
    /// The sink refused output.
    SinkFailed,
    /// The gate refused too often.
    Held,
    /// A growth was refused.
    Memory,
}

impl From<RecorderFault> for WorkFault {
    ghost from_gives = { λ fault e. e ≡ work_told fault };

    fn from(fault: RecorderFault) -> Self {
        match fault {
            RecorderFault::Halted => WorkFault::Halted,
            RecorderFault::SinkFailed { .. } => WorkFault::SinkFailed,
            // A step with a place for its frame, by a choice that fits, is refused for want of memory alone, or since all threads wait
            // for a time, which a turn tells otherwise.
            RecorderFault::Memory
            | RecorderFault::Full
            | RecorderFault::Refused(_)
            | RecorderFault::TooManyRecords
            | RecorderFault::BadOpening => WorkFault::Memory,
        }
    }
}

impl From<Memory> for WorkFault {
    ghost from_gives = { λ _ e. e ≡ work_faults.Memory };

    fn from(_: Memory) -> Self {
        WorkFault::Memory
    }
}

/// What a turn came to.
#[derive(Clone, Copy, Debug, PartialEq, Eq)]
enum Step {
    /// A frame was made.
    Stepped,
    /// The gate lets no step.
    Held,
    /// A record waits to be sent.
    Waits,
    /// No thread of the guest runs, and the time of no wait is over.
    Asleep,
    /// There is no frame to make.
    Over,
}

/// What runs next: None where the chooser has no choice left. Where no thread runs, a slice ignores the choice.
fn choose<C: Chooser>(
    alloc: Global,
    guest: &Guest,
    chooser: &mut C,
) -> Result<Option<Choice>, Memory>
    ensures done { IfOk result (λ choice. choice ≡ None → C.is_done chooser.new) }
    ensures picks { IfOk result (λ choice.
        Picks C.chooses (state_of guest.now) chooser.old choice chooser.new) }
    ensures same { OnErr result (chooser.new ≡ chooser.old) }
{
    let runnable = guest.running(alloc)?;
    if runnable.is_empty() {
        return Ok(Some(Choice {
            tid: 1,
            quantum: MIN_QUANTUM,
        }));
    }
    Ok(chooser.next(&runnable))
}

/// Tests whether there is no frame to make.
fn is_over<C: Chooser>(recorder: &Recorder, chooser: &C) -> bool
    ensures { IsTrue result ↔ IsOver C.Chooser recorder.now chooser.now }
{
    recorder.guest().ended().is_some() || chooser.done() || recorder.made() == u32::MAX
}

/// Makes a frame, where none waits and the gate lets it.
fn take_turn<C: Chooser, O: Outside, G: Gate>(
    alloc: Global,
    recorder: &mut Recorder,
    chooser: &mut C,
    outside: &mut O,
    post: &Post<G>,
) -> Result<Step, WorkFault>
    ensures goes { GoesOn recorder.old recorder.new [] }
    ensures over { IfOk result (λ turn. turn ≡ Step.Over → IsOver C.Chooser recorder.new chooser.new) }
    ensures waits { IfOk result (λ turn. turn ≡ Step.Waits
        → length recorder.new.seat.sent ≢ length (made recorder.new)) }
    ensures held { IfOk result (λ turn. turn ≡ Step.Held
        → (recorder.new ≡ recorder.old) × (chooser.new ≡ chooser.old)) }
    ensures asleep { IfOk result (λ turn. turn ≡ Step.Asleep → IsAsleep (state_of recorder.new.guest)) }
    ensures stepped { IfOk result (λ turn. turn ≡ Step.Stepped
        → length (made recorder.old) < length (made recorder.new)) }
    ensures memory { IfErr result (λ e. e ≡ WorkFault.Memory) }
    ensures chosen { OnErr result (MakesChosen C.chooses recorder.old chooser.old recorder.new
        (IsAskedOnce C.chooses chooser.new (state_of recorder.new.guest))) }
    ensures turn { IfOk result (λ turn. MakesChosen C.chooses recorder.old chooser.old recorder.new
        (TurnLeaves C.chooses turn chooser.new (state_of recorder.new.guest))) }
{
    if recorder.sent() != recorder.made() {
        return Ok(Step::Waits);
    }
    if is_over(recorder, chooser) {
        return Ok(Step::Over);
    }
    if !post.may_step() {
        return Ok(Step::Held);
    }
    let Some(choice) = choose(alloc, recorder.guest(), chooser)? else {
        return Ok(Step::Over);
    };
    let before = recorder.guest().ran();
    match recorder.step(alloc, choice, outside) {
        Ok(_) => {}
        Err(RecorderFault::Refused(SliceFault::Waiting)) => return Ok(Step::Asleep),
        Err(fault) => return Err(WorkFault::from(fault)),
    }
    post.look_for_output(recorder.guest(), choice, before);
    Ok(Step::Stepped)
}

/// Sends what waits, as long as the queue has room, and tells what it sent.
fn send<G: Gate, R: Wait>(
    rt: &R,
    recorder: &mut Recorder,
    post: &Post<G>,
) -> Result<(), RecorderFault>
    ensures goes { GoesOn recorder.old recorder.new [] }
    ensures keeps { KeepsMade recorder.old recorder.new }
    ensures halted { IfErr result (λ e. (e ≡ RecorderFault.Halted) × (recorder.new.seat.knows_halt ≡ true)) }
{
    let before = recorder.sent();
    let result = recorder.send(rt);
    post.tell_sent(before, recorder.sent(), recorder.guest().ran());
    result
}

/// Sends what it can, and puts out what may leave, also where the flusher has halted.
fn send_and_release<S: Sink, G: Gate, R: Wait>(
    rt: &R,
    recorder: &mut Recorder,
    sink: &mut S,
    post: &Post<G>,
) -> Result<(), RecorderFault>
    ensures drives { Drives S.Sink recorder.old recorder.new sink.old sink.new }
    ensures keeps { KeepsMade recorder.old recorder.new }
    ensures halted { result ≡ Err RecorderFault.Halted → HasHalted recorder.new }
    ensures sink { CallTellsSink result (S.faults sink.old) (S.faults sink.new) }
{
    let sent = send(rt, recorder, post);
    recorder.release(rt, sink)?;
    sent
}

/// Lets others run if the gate let no step. It returns how often in a row it has refused.
fn rest(turn: Step, held: u32) -> Result<u32, WorkFault>
    requires { held < MOST_REFUSALS }
    ensures few { IfOk result (λ count. count < MOST_REFUSALS) }
    ensures held { IfOk result (λ count. count ≡ next_held turn held) }
    ensures refused { IfErr result (λ e. (e ≡ WorkFault.Held) × (next_held turn held ≡ MOST_REFUSALS)) }
{
    match turn {
        Step::Stepped | Step::Over => Ok(0),
        Step::Asleep | Step::Waits => Ok(held),
        Step::Held if held + 1 == MOST_REFUSALS => Err(WorkFault::Held),
        Step::Held => {
            thread::yield_now();
            Ok(held + 1)
        }
    }
}

/// Goes round until there is no frame to make.
fn make_frames<C: Chooser, O: Outside, S: Sink, G: Gate, R: Wait>(
    rt: &R,
    alloc: Global,
    recorder: &mut Recorder,
    chooser: &mut C,
    outside: &mut O,
    sink: &mut S,
    post: &Post<G>,
) -> Result<(), WorkFault>
    ensures drives { Drives S.Sink recorder.old recorder.new sink.old sink.new }
    ensures over { OnOk result (IsOver C.Chooser recorder.new chooser.new) }
    ensures chosen { MakesChosen C.chooses recorder.old chooser.old recorder.new
        (WorkLeaves C.chooses result chooser.new (state_of recorder.new.guest)) }
    ensures halted { result ≡ Err WorkFault.Halted → HasHalted recorder.new }
    ensures sink { WorkTellsSink result (S.faults sink.old) (S.faults sink.new) }
{
    let mut held = 0;
    for _ in rt.forever() {
        send_and_release(rt, recorder, sink, post)?;
        let turn = take_turn(alloc, recorder, chooser, outside, post)?;
        if turn == Step::Over {
            break;
        }
        if turn == Step::Asleep {
            post.sleep(rt, recorder.time_left());
        }
        if turn == Step::Waits {
            post.pause(rt);
        }
        held = rest(turn, held)?;
    }
    Ok(())
}

/// Makes frames until there is none to make, and sends and releases until all is durable and has left.
pub(crate) fn drive<C: Chooser, O: Outside, S: Sink, G: Gate, R: Wait>(
    rt: &R,
    alloc: Global,
    recorder: &mut Recorder,
    chooser: &mut C,
    outside: &mut O,
    sink: &mut S,
    post: &Post<G>,
) -> Result<(), WorkFault>
    ensures drives { Drives S.Sink recorder.old recorder.new sink.old sink.new }
    ensures over { OnOk result (IsOver C.Chooser recorder.new chooser.new) }
    ensures chosen { MakesChosen C.chooses recorder.old chooser.old recorder.new
        (WorkLeaves C.chooses result chooser.new (state_of recorder.new.guest)) }
    ensures settled { OnOk result (IsSettled recorder.new) }
    ensures halted { result ≡ Err WorkFault.Halted → HasHalted recorder.new }
    ensures sink { WorkTellsSink result (S.faults sink.old) (S.faults sink.new) }
{
    make_frames(rt, alloc, recorder, chooser, outside, sink, post)?;
    post.hurry();
    recorder.settle(rt, sink, post)?;
    Ok(())
}

/// Sends what waits, while that may be.
pub(crate) fn send_rest<G: Gate, R: Wait>(rt: &R, recorder: &mut Recorder, post: &Post<G>)
    ensures goes { GoesOn recorder.old recorder.new [] }
    ensures keeps { KeepsMade recorder.old recorder.new }
    ensures rest { HasSent recorder.new }
{
    for _ in rt.forever() {
        if send(rt, recorder, post).is_err() || recorder.sent() == recorder.made() {
            break;
        }
        post.pause(rt);
    }
}
