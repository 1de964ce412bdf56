//! The text of frames with their places.

ghost use Rattle.std.specs.Fmt.{WritesOnOk};
ghost use Rattle.rrv_model.specs.State.{thread_at};
ghost use Rattle.guest_calls.specs.Guest.{state_of};
ghost use Rattle.turn_text.specs.Turns.{next_text, places_text};

use guest_calls::Guest;
use rrv_model::machine::Thread;
use rrv_model::record::Frame;
use std::fmt;
use trace_text::write_word;

/// Writes the places of a frame, after a space and without a newline, as in ` from=3716 to=3723 pc=0001012c`: how many
/// instructions ran before it and up to its end, and the address of its thread's next instruction, which is `none` if
/// the thread is gone. It is left out where no thread ran. Behind the frame the guest is this one.
pub(crate) fn write_places<W: fmt::Write>(
    f: &mut fmt::Formatter<W>,
    frame: &Frame,
    from: u64,
    to: u64,
    guest: &Guest,
) -> fmt::Result
    ensures { WritesOnOk W.write_str_gives f.old result (places_text frame.now.end from to
        (thread_at (state_of guest.now) frame.now.tid)) f.new }
{
    write!(f, " from={from} to={to}")?;
    if !frame.end.runs_thread() {
        return Ok(());
    }
    write_next(f, guest.thread(frame.tid))
}

/// Where a thread goes on.
fn write_next<W: fmt::Write>(f: &mut fmt::Formatter<W>, thread: Option<Thread>) -> fmt::Result
    ensures { WritesOnOk W.write_str_gives f.old result (next_text thread) f.new }
{
    match thread {
        None => f.write_str(" pc=none"),
        Some(thread) => {
            f.write_str(" pc=")?;
            write_word(f, thread.regs.pc)
        }
    }
}
