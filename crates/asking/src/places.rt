//! Places of a recording, and the threads that come next at them.

ghost use Rattle.std.specs.Prelude.{◌≡◌, ◌<◌, ◌≤◌, IfSome, None};
ghost use Rattle.rrv_model.specs.StateAt.{total};
ghost use Rattle.asking.specs.Places.{RunsNext, place_in, shown_place};

use command_line::Place;
use replayer::Verified;
use rrv_model::record::Frame;

/// The place that a line names, in instructions.
pub fn place_in(place: Place, verified: &Verified) -> u64
    ensures { result ≡ place_in (total verified.now.frames) place }
{
    match place {
        Place::At(place) => place,
        Place::End => verified.total(),
    }
}

/// The thread whose instruction comes after t others.
fn thread_after(frames: &[Frame], t: u64) -> Option<u32>
    ensures next { IfSome result (RunsNext frames.now t) }
    ensures none { result ≡ None → total frames.now ≤ t }
{
    let mut left = t;
    for frame in frames {
        let count = u64::from(frame.count);
        if left < count {
            return Some(frame.tid);
        }
        left -= count;
    }
    None
}

/// The thread that comes first at a place: the one whose instruction comes next, and at the end that of the last one; 0 if there is
/// no instruction.
pub fn first_thread(verified: &Verified, place: u64) -> u32
    requires { place ≤ total verified.now.frames }
    ensures shown { 0 < total verified.now.frames
        → RunsNext verified.now.frames (shown_place (total verified.now.frames) place) result }
    ensures none { total verified.now.frames ≡ 0 → result ≡ 0 }
{
    let steps = verified.total();
    let at = if place < steps {
        place
    } else {
        steps.saturating_sub(1)
    };
    thread_after(verified.frames(), at).unwrap_or(0)
}
