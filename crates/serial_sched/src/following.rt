//! Frames that are followed from a state on.

ghost use Rattle.std.specs.Prelude.{◌≡◌, false, None, IfOk, OnOk, IsErrOf};
ghost use Rattle.rrv_model.specs.State.{State};
ghost use Rattle.rrv_model.specs.Ends.{runs_thread, is_expiry};
ghost use Rattle.rrv_model.specs.FrameStep.{FrameStep, Steps};
ghost use Rattle.rv_machine.specs.declared.run.RunEnd.{RunEnd};
ghost use Rattle.guest_calls.specs.Snapshots.{guest_snapshots};
ghost use Rattle.guest_calls.specs.Guest.{state_of, counted, chunks_of};
ghost use Rattle.guest_calls.specs.Runs.{RunsTo, Watched};
ghost use Rattle.serial_sched.specs.Slices.{CallPuts, KeepsPut};
ghost use Rattle.serial_sched.specs.Following.{CountsSteps, FollowsEnd};
ghost use Rattle.serial_sched.specs.Follows.{FrameMeetsNoMemory, MeetsNoMemory, Reaches};

use crate::comparison::is_same_call;
use crate::fault::FollowFault;
use crate::recorded::Recorded;
use guest_calls::{Guest, RunEnd};
use rrv_model::limits::MAX_QUANTUM;
use rrv_model::machine::{FaultKind, GuestEnd};
use rrv_model::record::{CallRecord, End, Frame};
use std::alloc::Global;

/// Follows a frame: runs its instructions, and gives a call the answers that the frame tells.
/// After a refusal the guest is fit only to be dropped.
pub fn follow(alloc: Global, guest: &mut Guest, frame: &Frame) -> Result<(), FollowFault>
    ensures follows { OnOk result (FrameStep (state_of guest.old) frame.now (state_of guest.new)) }
    ensures puts { OnOk result (CallPuts frame.now.end (state_of guest.old) frame.now (chunks_of guest.new.put)) }
    ensures keeps { OnOk result (KeepsPut frame.now.end guest.old.put guest.new.put) }
    ensures ran { OnOk result (guest.new.ran ≡ counted guest.old.ran frame.now.count) }
    ensures snapshots { guest_snapshots guest.new ≡ guest_snapshots guest.old }
    ensures nowhere { IsErrOf result FollowFault.GoesNowhere
        → (new : State) → FrameStep (state_of guest.old) frame.now new → ⊥ }
    ensures memory { IsErrOf result FollowFault.Memory → FrameMeetsNoMemory (state_of guest.old) frame.now }
{
    if guest.ended().is_some() {
        return Err(FollowFault::GoesNowhere);
    }
    if MAX_QUANTUM < frame.count {
        return Err(FollowFault::GoesNowhere);
    }
    follow_to_end(alloc, guest, frame)
}

fn follow_to_end(alloc: Global, guest: &mut Guest, frame: &Frame) -> Result<(), FollowFault>
    requires { (state_of guest.old).ended ≡ None }
    ensures { FollowsEnd frame.now.end guest.old frame.now.tid frame.now.count result guest.new }
{
    match &frame.end {
        End::Preempt => follow_preempt(guest, frame.tid, frame.count),
        End::Call(told) => follow_call(alloc, guest, frame.tid, frame.count, told),
        End::Fault(kind) => follow_fault(guest, frame.tid, frame.count, *kind),
        End::Expire => follow_expire(guest, frame.tid, frame.count),
        end => follow_threadless(guest, end, frame.tid, frame.count),
    }
}

/// Runs just so many plain steps of a thread. After a refusal the guest is fit only to be dropped.
pub fn steps(guest: &mut Guest, tid: u32, count: u32) -> Result<(), FollowFault>
    ensures follows { OnOk result (Steps count tid (state_of guest.old) (state_of guest.new)) }
    ensures counts { CountsSteps result count guest.old guest.new }
    ensures nowhere { IsErrOf result FollowFault.GoesNowhere
        → (new : State) → Steps count tid (state_of guest.old) new → ⊥ }
    ensures memory { IsErrOf result FollowFault.Memory → MeetsNoMemory (state_of guest.old) tid count }
{
    match run_whole(guest, tid, count)? {
        RunEnd::Limit => Ok(()),
        _ => Err(FollowFault::GoesNowhere),
    }
}

/// Runs just so many plain steps of a thread as [`steps`] does, and tells how many there are up to the last that changes the byte at
/// an address; 0 if none does. After a refusal the guest is fit only to be dropped.
pub fn watched_steps(
    guest: &mut Guest,
    tid: u32,
    count: u32,
    address: u32,
) -> Result<u32, FollowFault>
    ensures watched { IfOk result (λ changed.
        Watched address count tid (state_of guest.old) changed (state_of guest.new)) }
    ensures counts { CountsSteps result count guest.old guest.new }
    ensures nowhere { IsErrOf result FollowFault.GoesNowhere
        → (new : State) → Steps count tid (state_of guest.old) new → ⊥ }
    ensures memory { IsErrOf result FollowFault.Memory → MeetsNoMemory (state_of guest.old) tid count }
{
    let runs = guest.is_running(tid);
    if count == 0 {
        // No instruction is counted; the count fits 64 bits, which this line tells the proof.
        let _ran = guest.ran();
        return Ok(0);
    }
    if !runs {
        return Err(FollowFault::GoesNowhere);
    }
    let watched = guest.watch_thread(tid, count, address);
    match watched.run.end {
        RunEnd::Limit => Ok(watched.changed),
        RunEnd::Memory => Err(FollowFault::Memory),
        _ => Err(FollowFault::GoesNowhere),
    }
}

fn follow_preempt(guest: &mut Guest, tid: u32, count: u32) -> Result<(), FollowFault>
    ensures { FollowsEnd End.Preempt guest.old tid count result guest.new }
{
    if count == 0 {
        return Err(FollowFault::GoesNowhere);
    }
    steps(guest, tid, count)?;
    guest.close_slice(None);
    Ok(())
}

/// Follows a frame in which the time of a wait is over.
fn follow_expire(guest: &mut Guest, tid: u32, count: u32) -> Result<(), FollowFault>
    ensures { FollowsEnd End.Expire guest.old tid count result guest.new }
{
    // No instruction is counted; the count fits 64 bits, which this line tells the proof.
    let _ran = guest.ran();
    if count != 0 || guest.expire(tid).is_err() {
        return Err(FollowFault::GoesNowhere);
    }
    guest.close_slice(None);
    Ok(())
}

/// Follows a frame of no thread, which ends a guest of which no thread runs and none waits with a timeout.
fn follow_threadless(guest: &mut Guest, end: &End, tid: u32, count: u32) -> Result<(), FollowFault>
    requires none { runs_thread end.now ≡ false }
    requires still { is_expiry end.now ≡ false }
    ensures { FollowsEnd end.now guest.old tid count result guest.new }
{
    // No instruction is counted; the count fits 64 bits, which this line tells the proof.
    let _ran = guest.ran();
    if tid != 0 || count != 0 || guest.has_running() || guest.has_timed() {
        return Err(FollowFault::GoesNowhere);
    }
    guest.close_slice(end.guest_end());
    Ok(())
}

fn follow_call(
    alloc: Global,
    guest: &mut Guest,
    tid: u32,
    count: u32,
    told: &CallRecord,
) -> Result<(), FollowFault>
    requires { (state_of guest.old).ended ≡ None }
    ensures { FollowsEnd (End.Call told.now) guest.old tid count result guest.new }
{
    match run_whole(guest, tid, count)? {
        RunEnd::Call => {
            let mut outside = Recorded::of(told);
            let found = guest.call(alloc, tid, &mut outside)?;
            if !is_same_call(&found, told) {
                return Err(FollowFault::GoesNowhere);
            }
            guest.close_slice(None);
            Ok(())
        }
        _ => Err(FollowFault::GoesNowhere),
    }
}

fn follow_fault(guest: &mut Guest, tid: u32, count: u32, kind: FaultKind) -> Result<(), FollowFault>
    ensures { FollowsEnd (End.Fault kind) guest.old tid count result guest.new }
{
    match run_whole(guest, tid, count)? {
        RunEnd::Fault(found) => {
            if found != kind {
                return Err(FollowFault::GoesNowhere);
            }
            guest.close_slice(Some(GuestEnd::Faulted(kind)));
            Ok(())
        }
        _ => Err(FollowFault::GoesNowhere),
    }
}

/// Runs just so many instructions of a thread, of which only the last may be a call or a fault.
fn run_whole(guest: &mut Guest, tid: u32, count: u32) -> Result<RunEnd, FollowFault>
    ensures runs { IfOk result (λ end. RunsTo end count tid count (state_of guest.old) (state_of guest.new)) }
    ensures counts { CountsSteps result count guest.old guest.new }
    ensures nowhere { IsErrOf result FollowFault.GoesNowhere
        → (end : RunEnd) (new : State) → Reaches end count tid (state_of guest.old) new → ⊥ }
    ensures memory { IsErrOf result FollowFault.Memory → MeetsNoMemory (state_of guest.old) tid count }
{
    if count == 0 {
        // No instruction is counted; the count fits 64 bits, which this line tells the proof.
        let _ran = guest.ran();
        return Ok(RunEnd::Limit);
    }
    if !guest.is_running(tid) {
        return Err(FollowFault::GoesNowhere);
    }
    let run = guest.run_thread(tid, count);
    if let RunEnd::Memory = run.end {
        return Err(FollowFault::Memory);
    }
    if run.count != count {
        return Err(FollowFault::GoesNowhere);
    }
    Ok(run.end)
}
