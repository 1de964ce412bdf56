//! What is printed of a place.

ghost use Rattle.std.specs.Prelude.{◌≡◌, OnOk};
ghost use Rattle.std.specs.Io.KnownBytes.{Appends};
ghost use Rattle.guest_calls.specs.Guest.{state_of};
ghost use Rattle.rrv_model.specs.StateAt.{StateAt, total};
ghost use Rattle.asking.specs.Answers.{found_text, printed_for, text_at};

use command_line::Inquiry;
use end_text::WhereLine;
use guest_calls::Guest;
use line_io::{OutputFailed, print_text};
use reverse_step::Cursor;
use std::io::Write;
use trace_text::{MemoryLines, StateLines, ThreadLines};

/// The question whose text is printed for one. It is the same one, or if moves are quiet, `where` for a move.
pub(crate) fn printed_for(inquiry: Inquiry, is_quiet: bool) -> Inquiry
    ensures { result ≡ printed_for is_quiet inquiry }
{
    if !is_quiet {
        return inquiry;
    }
    match inquiry {
        Inquiry::Memory(_) | Inquiry::Threads | Inquiry::Where => inquiry,
        _ => Inquiry::Where,
    }
}

/// Prints what is asked about a guest at a place, of so many, where the thread of this tid comes next.
fn print_at<W: Write>(
    guest: &Guest,
    place: u64,
    steps: u64,
    tid: u32,
    inquiry: Inquiry,
    out: &mut W,
) -> Result<(), OutputFailed>
    ensures { OnOk result (Appends (W.contents out.old) (W.contents out.new)
        (text_at place steps tid (state_of guest.now) inquiry)) }
{
    match inquiry {
        Inquiry::Memory(range) => {
            let lines = MemoryLines::new(guest.space(), range.address, range.length);
            print_text(out, &lines)
        }
        Inquiry::Threads => print_text(out, &ThreadLines::new(guest)),
        Inquiry::Where => print_text(out, &WhereLine::new(guest, place, steps, tid)),
        _ => print_text(out, &StateLines::new(guest, place, steps)),
    }
}

/// Prints what is asked about a cursor's place, where the thread of this tid comes next; or that no change was found.
pub(crate) fn print_found<W: Write>(
    cursor: &Cursor<'_>,
    tid: u32,
    inquiry: Inquiry,
    is_found: bool,
    out: &mut W,
) -> Result<(), OutputFailed>
    ensures state { StateAt cursor.now.verified.opening cursor.now.verified.frames cursor.now.place
        (state_of cursor.now.guest) }
    ensures printed { OnOk result (Appends (W.contents out.old) (W.contents out.new)
        (found_text is_found cursor.now.place (total cursor.now.verified.frames) tid (state_of cursor.now.guest) inquiry)) }
{
    let guest = cursor.guest();
    if !is_found {
        return print_text(out, &"unchanged\n");
    }
    let steps = cursor.verified().total();
    print_at(guest, cursor.place(), steps, tid, inquiry, out)
}
