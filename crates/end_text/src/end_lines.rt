//! The printed lines of how a guest ended.

ghost use Rattle.std.specs.Prelude.{◌≡◌, Some};
ghost use Rattle.std.specs.Fmt.{WritesOnOk};
ghost use Rattle.rrv_model.specs.State.{thread_at};
ghost use Rattle.guest_calls.specs.Guest.{state_of};
ghost use Rattle.end_text.specs.Ends.{address_text, cause_text, end_lines, exit_line, fault_line};
ghost use Rattle.end_text.specs.Ends.{faulting_text, instruction_text, last_text, place_text, wait_line};

use crate::faulting::{fault_address, instruction_of, mapped_word};
use guest_calls::Guest;
use rrv_model::machine::{FaultKind, FutexWait, GuestEnd, Regs, Thread};
use std::fmt;
use trace_text::{ThreadText, fault_name, write_each, write_word};

/// The lines that tell how a guest ended behind so many instructions, each with its newline. A fault: its kind, the
/// thread that ran last, its instruction and the address of the fault. An exit: the thread. An end for want of a thread that
/// runs: where each thread waits, by rising tid. A guest that has not ended: none.
#[derive(Drop)]
pub struct EndLines<'a> {
    guest: &'a Guest,
    place: u64,
    last: u32,
}

impl<'a> EndLines<'a> {
    /// The lines of this guest, which ran so many instructions, those of the thread of tid `last` at the end; 0 where
    /// none ran.
    pub fn new(guest: &'a Guest, place: u64, last: u32) -> Self
        ensures guest { result.guest.now ≡ guest.now }
        ensures place { result.place ≡ place }
        ensures last { result.last ≡ last }
    {
        EndLines { guest, place, last }
    }
}

impl<'a> fmt::Display for EndLines<'a> {
    ghost output = { λ lines. Some (end_lines lines.place lines.last (state_of lines.guest.now)) };

    fn fmt<W: fmt::Write>(&self, f: &mut fmt::Formatter<W>) -> fmt::Result {
        match self.guest.ended() {
            None => Ok(()),
            Some(GuestEnd::Exited(_)) => write_exit(f, self.place, self.last),
            Some(GuestEnd::Faulted(kind)) => {
                write_fault(f, self.guest, kind, self.place, self.last)
            }
            Some(_) => write_each::<Wait, W>(f, self.guest.threads()),
        }
    }
}

/// The line of an exit.
fn write_exit<W: fmt::Write>(f: &mut fmt::Formatter<W>, place: u64, last: u32) -> fmt::Result
    ensures { WritesOnOk W.write_str_gives f.old result (exit_line place last) f.new }
{
    write!(f, "exit at {place}")?;
    write_last(f, last)?;
    f.write_str("\n")
}

/// The thread that ran last, if one ran.
fn write_last<W: fmt::Write>(f: &mut fmt::Formatter<W>, last: u32) -> fmt::Result
    ensures { WritesOnOk W.write_str_gives f.old result (last_text last) f.new }
{
    if last == 0 {
        return Ok(());
    }
    write!(f, " thread {last}")
}

/// The line of a thread that waits.
struct Wait;

impl ThreadText for Wait {
    ghost text = { λ tid thread. wait_line tid thread.wait };

    fn write<W: fmt::Write>(f: &mut fmt::Formatter<W>, tid: u32, thread: &Thread) -> fmt::Result {
        write_wait(f, tid, thread.wait)
    }
}

/// The line of a thread that waits here, if it does.
fn write_wait<W: fmt::Write>(
    f: &mut fmt::Formatter<W>,
    tid: u32,
    wait: Option<FutexWait>,
) -> fmt::Result
    ensures { WritesOnOk W.write_str_gives f.old result (wait_line tid wait) f.new }
{
    let Some(wait) = wait else {
        return Ok(());
    };
    write!(f, "thread {tid} waits at ")?;
    write_word(f, wait.address)?;
    f.write_str("\n")
}

/// The line of a fault.
fn write_fault<W: fmt::Write>(
    f: &mut fmt::Formatter<W>,
    guest: &Guest,
    kind: FaultKind,
    place: u64,
    last: u32,
) -> fmt::Result
    ensures { WritesOnOk W.write_str_gives f.old result (fault_line kind place last (state_of guest.now)) f.new }
{
    f.write_str("fault ")?;
    f.write_str(fault_name(kind))?;
    write!(f, " at {place}")?;
    write_faulting(f, guest, kind, last)?;
    f.write_str("\n")
}

/// The thread whose instruction faulted, its instruction and the address of the fault.
fn write_faulting<W: fmt::Write>(
    f: &mut fmt::Formatter<W>,
    guest: &Guest,
    kind: FaultKind,
    last: u32,
) -> fmt::Result
    ensures { WritesOnOk W.write_str_gives f.old result
        (faulting_text kind last (thread_at (state_of guest.now) last) (state_of guest.now).memory) f.new }
{
    let Some(thread) = guest.threads().get(last) else {
        return Ok(());
    };
    let word = mapped_word(guest.space(), thread.regs.pc);
    write_place(f, last, thread.regs.pc)?;
    write_cause(f, kind, &thread.regs, word)
}

/// A thread's tid and the address of its next instruction.
#[tactic(auto, unfolding(crate::specs::Ends::place_text))]
pub(crate) fn write_place<W: fmt::Write>(
    f: &mut fmt::Formatter<W>,
    tid: u32,
    pc: u32,
) -> fmt::Result
    ensures { WritesOnOk W.write_str_gives f.old result (place_text tid pc) f.new }
{
    write!(f, " thread {tid} pc ")?;
    write_word(f, pc)
}

/// The word of an instruction, and the address of its fault.
#[tactic(auto, unfolding(crate::specs::Ends::cause_text))]
fn write_cause<W: fmt::Write>(
    f: &mut fmt::Formatter<W>,
    kind: FaultKind,
    regs: &Regs,
    word: Option<u32>,
) -> fmt::Result
    ensures { WritesOnOk W.write_str_gives f.old result (cause_text kind regs.now word) f.new }
{
    write_instruction(f, word)?;
    write_address(f, fault_address(kind, regs, instruction_of(word)))
}

/// The word of an instruction.
pub(crate) fn write_instruction<W: fmt::Write>(
    f: &mut fmt::Formatter<W>,
    word: Option<u32>,
) -> fmt::Result
    ensures { WritesOnOk W.write_str_gives f.old result (instruction_text word) f.new }
{
    match word {
        None => f.write_str(" word none"),
        Some(word) => {
            f.write_str(" word ")?;
            write_word(f, word)
        }
    }
}

/// The address of a fault, if there is one.
fn write_address<W: fmt::Write>(f: &mut fmt::Formatter<W>, address: Option<u32>) -> fmt::Result
    ensures { WritesOnOk W.write_str_gives f.old result (address_text address) f.new }
{
    let Some(address) = address else {
        return Ok(());
    };
    f.write_str(" address ")?;
    write_word(f, address)
}
