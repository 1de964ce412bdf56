//! The slice of a choice.

ghost use Rattle.std.specs.Prelude.{◌≡◌, ◌↔◌, ◌≤◌, None, IsSome, IfErr, IfOk, OnOk, OnErr, IsErrOf, IsOkAnd};
ghost use Rattle.rrv_model.specs.State.{thread_at, IsRunning};
ghost use Rattle.rrv_model.specs.Step.{ThreadMayTakeMemory};
ghost use Rattle.rrv_model.specs.FrameStep.{closed};
ghost use Rattle.guest_calls.specs.Carries.{Becomes, BecomesOrStays};
ghost use Rattle.guest_calls.specs.Guest.{state_of, HasRunning, HasTimed};
ghost use Rattle.serial_sched.specs.Slices.{CanRun, IsAsleep, IsFrameOf, IsLive, IsQuantum, IsSliceOf, IsUntouched};
ghost use Rattle.serial_sched.specs.Slices.{NextMayGrow, RefusesExpiry};

use crate::fault::SliceFault;
use guest_calls::{Guest, Outside, RunEnd};
use rrv_model::limits::{MAX_QUANTUM, MIN_QUANTUM};
use rrv_model::machine::GuestEnd;
use rrv_model::record::{Choice, End, Frame};
use rrv_model::refusal::Memory;
use std::alloc::Global;

/// Runs the chosen thread until it has run the quantum, makes a call or faults, or its next instruction finds no
/// memory. If no thread runs, whatever the choice, the guest is stuck, which ends it, or sleeps until a wait expires. The
/// environment is asked by calls alone, and its answer is what the frame tells. A refusal changes nothing.
pub fn slice<O: Outside>(
    alloc: Global,
    guest: &mut Guest,
    choice: Choice,
    outside: &mut O,
) -> Result<Frame, SliceFault>
    ensures is_slice { IfOk result (λ f. IsSliceOf O.gives guest.old choice f guest.new outside.old outside.new) }
    ensures ended { IsErrOf result SliceFault.Ended ↔ IsSome (state_of guest.old).ended }
    ensures stuck { (state_of guest.old).ended ≡ None → ¬ HasRunning (state_of guest.old)
        → ¬ HasTimed (state_of guest.old) → IsOkAnd result (λ f. f.end ≡ End.Stuck) }
    ensures waiting { IsErrOf result SliceFault.Waiting ↔ IsAsleep (state_of guest.old) }
    ensures bad_quantum { IsErrOf result SliceFault.BadQuantum
        ↔ (IsLive (state_of guest.old) × ¬ IsQuantum choice.quantum) }
    ensures not_runnable { IsErrOf result SliceFault.NotRunnable
        ↔ (IsLive (state_of guest.old) × IsQuantum choice.quantum
        × ¬ IsRunning (thread_at (state_of guest.old) choice.tid)) }
    ensures memory { IsErrOf result SliceFault.Memory → ThreadMayTakeMemory (state_of guest.old) choice.tid }
    ensures grows { IsErrOf result SliceFault.Memory → NextMayGrow (state_of guest.old) choice.tid }
    ensures not_timed { ¬ IsErrOf result SliceFault.NotTimed }
    ensures refused { OnErr result (IsUntouched guest.old guest.new outside.old outside.new) }
{
    if guest.ended().is_some() {
        return Err(SliceFault::Ended);
    }
    if !guest.has_running() {
        if guest.has_timed() {
            return Err(SliceFault::Waiting);
        }
        return Ok(get_stuck(guest));
    }
    if choice.quantum < MIN_QUANTUM || MAX_QUANTUM < choice.quantum {
        return Err(SliceFault::BadQuantum);
    }
    if !guest.is_running(choice.tid) {
        return Err(SliceFault::NotRunnable);
    }
    Ok(run_slice(alloc, guest, choice, outside)?)
}

/// The time of a thread's wait is over: it runs again. That it is over is the caller's to see, for no frame tells of time. It takes
/// no memory, and asks nobody.
pub fn expire(guest: &mut Guest, tid: u32) -> Result<Frame, SliceFault>
    ensures expires { IfOk result (λ f. f ≡ record { tid = tid; count = 0; end = End.Expire }) }
    ensures is_frame { IfOk result (λ f. IsFrameOf guest.old f guest.new) }
    ensures refused { IfErr result (RefusesExpiry (state_of guest.old) tid) }
    ensures stays { OnErr result (guest.new ≡ guest.old) }
    ensures ran { guest.new.ran ≡ guest.old.ran }
    ensures put { guest.new.put ≡ guest.old.put }
{
    // No instruction is counted; the count fits 64 bits, which this line tells the proof.
    let _ran = guest.ran();
    let None = guest.ended() else {
        return Err(SliceFault::Ended);
    };
    let Ok(()) = guest.expire(tid) else {
        return Err(SliceFault::NotTimed);
    };
    Ok(closed_frame(guest, tid, 0, End::Expire))
}

/// Ends a guest of which no thread runs, and none waits with a timeout.
fn get_stuck(guest: &mut Guest) -> Frame
    requires runs { (state_of guest.old).ended ≡ None }
    requires none { ¬ HasRunning (state_of guest.old) }
    requires none_timed { ¬ HasTimed (state_of guest.old) }
    ensures stuck { result ≡ record { tid = 0; count = 0; end = End.Stuck } }
    ensures is_frame { IsFrameOf guest.old result guest.new }
{
    // No instruction is counted; the count fits 64 bits, which this line tells the proof.
    let _ran = guest.ran();
    guest.close_slice(Some(GuestEnd::Stuck));
    Frame {
        tid: 0,
        count: 0,
        end: End::Stuck,
    }
}

/// The slice of a thread that runs.
fn run_slice<O: Outside>(
    alloc: Global,
    guest: &mut Guest,
    choice: Choice,
    outside: &mut O,
) -> Result<Frame, Memory>
    requires { CanRun (state_of guest.old) choice }
    ensures is_slice { IfOk result (λ f. IsSliceOf O.gives guest.old choice f guest.new outside.old outside.new) }
    ensures memory { OnErr result (ThreadMayTakeMemory (state_of guest.old) choice.tid) }
    ensures grows { OnErr result (NextMayGrow (state_of guest.old) choice.tid) }
    ensures refused { OnErr result (IsUntouched guest.old guest.new outside.old outside.new) }
{
    // The count fits 64 bits, which this line tells the proof of a refusal.
    let _ran = guest.ran();
    let tid = choice.tid;
    let run = guest.run_thread(tid, choice.quantum);
    match run.end {
        RunEnd::Limit => Ok(closed_frame(guest, tid, run.count, End::Preempt)),
        RunEnd::Call => match guest.call(alloc, tid, outside) {
            Ok(told) => Ok(closed_frame(guest, tid, run.count, End::Call(told))),
            Err(Memory) => {
                guest.take_back(tid);
                stop_short(guest, tid, run.count - 1)
            }
        },
        RunEnd::Fault(kind) => {
            guest.close_slice(Some(GuestEnd::Faulted(kind)));
            Ok(Frame {
                tid,
                count: run.count,
                end: End::Fault(kind),
            })
        }
        RunEnd::Memory => stop_short(guest, tid, run.count),
    }
}

/// Ends a slice before an instruction that found no memory. There is no slice where none has run.
fn stop_short(guest: &mut Guest, tid: u32, count: u32) -> Result<Frame, Memory>
    ensures some { OnOk result (1 ≤ count) }
    ensures frame { IfOk result (λ f. f ≡ record { tid = tid; count = count; end = End.Preempt }) }
    ensures none { OnErr result (count ≡ 0) }
    ensures closes { BecomesOrStays result (closed (state_of guest.old)) guest.old guest.new }
{
    if count == 0 {
        return Err(Memory);
    }
    Ok(closed_frame(guest, tid, count, End::Preempt))
}

/// Ends a slice that doesn't itself end the guest.
fn closed_frame(guest: &mut Guest, tid: u32, count: u32, end: End) -> Frame
    ensures frame { result ≡ record { tid = tid; count = count; end = end } }
    ensures closes { Becomes (closed (state_of guest.old)) guest.old guest.new }
{
    guest.close_slice(None);
    Frame { tid, count, end }
}
