//! The printed line of a place.

ghost use Rattle.std.specs.Prelude.{◌≡◌, Some};
ghost use Rattle.std.specs.Fmt.{WritesOnOk};
ghost use Rattle.rrv_model.specs.State.{thread_at};
ghost use Rattle.guest_calls.specs.Guest.{state_of};
ghost use Rattle.end_text.specs.Ends.{next_text, where_line};

use crate::end_lines::{write_instruction, write_place};
use crate::faulting::mapped_word;
use guest_calls::Guest;
use std::fmt;

/// The line of a place, of so many, with its newline: the place, and the address and the word of a thread's next instruction, if
/// the thread is there.
#[derive(Drop)]
pub struct WhereLine<'a> {
    guest: &'a Guest,
    place: u64,
    total: u64,
    tid: u32,
}

impl<'a> WhereLine<'a> {
    /// The line of this guest, which ran so many instructions, and of its thread of this tid.
    pub fn new(guest: &'a Guest, place: u64, total: u64, tid: u32) -> Self
        ensures guest { result.guest.now ≡ guest.now }
        ensures place { result.place ≡ place }
        ensures total { result.total ≡ total }
        ensures tid { result.tid ≡ tid }
    {
        WhereLine {
            guest,
            place,
            total,
            tid,
        }
    }
}

impl<'a> fmt::Display for WhereLine<'a> {
    ghost output = { λ line. Some (where_line line.place line.total line.tid (state_of line.guest.now)) };

    fn fmt<W: fmt::Write>(&self, f: &mut fmt::Formatter<W>) -> fmt::Result {
        let place = self.place;
        let total = self.total;
        write!(f, "at {place} of {total}")?;
        write_next(f, self.guest, self.tid)?;
        f.write_str("\n")
    }
}

/// The address of a thread's next instruction, and that one's word, if the thread is there.
fn write_next<W: fmt::Write>(f: &mut fmt::Formatter<W>, guest: &Guest, tid: u32) -> fmt::Result
    ensures { WritesOnOk W.write_str_gives f.old result
        (next_text tid (thread_at (state_of guest.now) tid) (state_of guest.now).memory) f.new }
{
    let Some(thread) = guest.threads().get(tid) else {
        return Ok(());
    };
    let word = mapped_word(guest.space(), thread.regs.pc);
    write_place(f, tid, thread.regs.pc)?;
    write_instruction(f, word)
}
