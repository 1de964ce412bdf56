//! A guest that goes forward along frames that are known to be its own.

ghost use Rattle.std.specs.Prelude.{◌≡◌, ◌↔◌, ◌<◌, ◌^◌, IfOk, IsTrue, OnOk};
ghost use Rattle.rrv_model.specs.FrameStep.{FrameStep, Steps};
ghost use Rattle.rrv_model.specs.State.{State};
ghost use Rattle.guest_calls.specs.Guest.{chunks_of, counted, state_of};
ghost use Rattle.guest_calls.specs.Runs.{Watched};
ghost use Rattle.serial_sched.specs.Slices.{CallPuts};
ghost use Rattle.replayer.specs.Changes.{byte_at};
ghost use Rattle.replayer.specs.Places.{with_count};

use guest_calls::Guest;
use rrv_model::record::Frame;
use rrv_model::refusal::Memory;
use serial_sched::{follow, steps, watched_steps};
use std::alloc::Global;

/// Runs so many plain steps, which the thread can take.
pub(crate) fn run_plain(guest: &mut Guest, tid: u32, count: u32) -> Result<(), Memory>
    requires { (new : State) × Steps count tid (state_of guest.old) new }
    ensures steps { OnOk result (Steps count tid (state_of guest.old) (state_of guest.new)) }
    ensures ran { OnOk result (guest.new.ran ≡ counted guest.old.ran count) }
{
    // The thread can take them, so only memory can be short.
    let Ok(()) = steps(guest, tid, count) else {
        return Err(Memory);
    };
    Ok(())
}

/// Runs so many plain steps, which the thread can take, and tells how many there are up to the last that changes the byte at an
/// address; 0 if none does.
pub(crate) fn watch_plain(
    guest: &mut Guest,
    tid: u32,
    count: u32,
    address: u32,
) -> Result<u32, Memory>
    requires { (new : State) × Steps count tid (state_of guest.old) new }
    ensures watched { IfOk result (λ changed.
        Watched address count tid (state_of guest.old) changed (state_of guest.new)) }
    ensures ran { OnOk result (guest.new.ran ≡ counted guest.old.ran count) }
{
    // The thread can take them, so only memory can be short.
    let Ok(changed) = watched_steps(guest, tid, count, address) else {
        return Err(Memory);
    };
    Ok(changed)
}

/// The byte at an address, if there is one.
pub(crate) fn byte_of(guest: &Guest, address: u32) -> Option<u8>
    ensures { result ≡ byte_at (state_of guest.now) address }
{
    guest.space().byte(u64::from(address))
}

pub(crate) fn is_same(one: Option<u8>, other: Option<u8>) -> bool
    ensures { IsTrue result ↔ (one ≡ other) }
{
    one == other
}

/// Follows a frame, which leads on.
pub(crate) fn follow_whole(alloc: Global, guest: &mut Guest, frame: &Frame) -> Result<(), Memory>
    requires { (new : State) × FrameStep (state_of guest.old) frame.now new }
    ensures follows { OnOk result (FrameStep (state_of guest.old) frame.now (state_of guest.new)) }
    ensures puts { OnOk result (CallPuts frame.now.end (state_of guest.old) frame.now (chunks_of guest.new.put)) }
    ensures ran { OnOk result (guest.new.ran ≡ counted guest.old.ran frame.now.count) }
{
    // The frame leads on, so only memory can be short.
    let Ok(()) = follow(alloc, guest, frame) else {
        return Err(Memory);
    };
    Ok(())
}

/// The count of a frame, a word.
pub(crate) fn count_of(frame: &Frame) -> u32
    ensures value { result ≡ frame.now.count }
    ensures low { result < 2 ^ 32 }
{
    frame.count
}

/// What is left of a frame of which so many instructions are left.
pub(crate) fn rest_of(frame: &Frame, left: u32) -> Result<Frame, Memory>
    ensures { IfOk result (λ rest. rest ≡ with_count left frame.now) }
{
    Ok(Frame {
        tid: frame.tid,
        count: left,
        end: frame.end.clone()?,
    })
}
