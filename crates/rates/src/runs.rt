//! Runs of a guest of one thread.

ghost use Rattle.std.specs.Prelude.{◌≡◌, ◌⊎◌, IfSome, IsSome, OnOk, length};
ghost use Rattle.rrv_model.specs.StateAt.{StateAtFrom, total};
ghost use Rattle.guest_calls.specs.Guest.{state_of};

use crate::limits::{CHOICE, SLICES};
use guest_calls::Guest;
use rrv_model::record::Frame;
use serial_sched::{FollowFault, follow, slice};
use std::alloc::Global;
use test_guests::outsides::Nothing;

/// Records slices of a guest up to its end, or a million, and returns their frames; None where a slice is refused or
/// there is no memory.
pub fn record_frames(alloc: Global, guest: &mut Guest) -> Option<Vec<Frame>>
    ensures leads { IfSome result (λ frames.
        StateAtFrom (state_of guest.old) frames.items (total frames.items) (state_of guest.new)) }
    ensures whole { IfSome result (λ frames. IsSome (state_of guest.new).ended ⊎ (length frames.items ≡ 1000000)) }
{
    let mut frames = Vec::new(alloc);
    for _ in 0..SLICES {
        if guest.ended().is_some() {
            return Some(frames);
        }
        let Ok(frame) = slice(alloc, guest, CHOICE, &mut Nothing) else {
            return None;
        };
        let Ok(()) = frames.push(frame) else {
            return None;
        };
    }
    Some(frames)
}

/// Follows frames, one after the other.
pub fn follow_all(alloc: Global, guest: &mut Guest, frames: &[Frame]) -> Result<(), FollowFault>
    ensures { OnOk result (StateAtFrom (state_of guest.old) frames.now (total frames.now) (state_of guest.new)) }
{
    for frame in frames {
        follow(alloc, guest, frame)?;
    }
    Ok(())
}
