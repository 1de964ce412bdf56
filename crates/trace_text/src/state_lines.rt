//! The printed lines of a state.

ghost use Rattle.std.specs.Prelude.{◌≡◌, ◌+◌, ◌<◌, Some, flat_map};
ghost use Rattle.std.specs.Fmt.{WritesOnOk};
ghost use Rattle.guest_calls.specs.Guest.{state_of};
ghost use Rattle.trace_text.specs.States.{addresses_text, break_line, byte_text, pages_line, register_text};
ghost use Rattle.trace_text.specs.States.{registers_line, registers_lines, reservation_line, state_lines};
ghost use Rattle.trace_text.specs.States.{thread_line, thread_lines, threads_lines, timed_text, wait_text};

use crate::each_thread::{ThreadText, write_each};
use crate::memory_digest::digest_of;
use crate::text::{EndText, write_word};
use guest_calls::Guest;
use rrv_model::machine::{FutexWait, Regs, Reservation, Thread, Timeout};
use std::fmt;

/// The lines of a guest's state at a place of so many, each with its newline: the place, the end, the break, the
/// reservation, the threads by rising tid, each with its registers, and the pages with their digest.
#[derive(Drop)]
pub struct StateLines<'a> {
    guest: &'a Guest,
    place: u64,
    total: u64,
}

impl<'a> StateLines<'a> {
    /// The lines of this guest's state.
    pub fn new(guest: &'a Guest, place: u64, total: u64) -> Self
        ensures guest { result.guest.now ≡ guest.now }
        ensures place { result.place ≡ place }
        ensures total { result.total ≡ total }
    {
        StateLines {
            guest,
            place,
            total,
        }
    }
}

impl<'a> fmt::Display for StateLines<'a> {
    ghost output = { λ lines. Some (state_lines lines.place lines.total (state_of lines.guest.now)) };

    fn fmt<W: fmt::Write>(&self, f: &mut fmt::Formatter<W>) -> fmt::Result {
        let place = self.place;
        let total = self.total;
        let end = EndText::new(self.guest.ended());
        writeln!(f, "at {place} of {total}")?;
        writeln!(f, "{end}")?;
        write_break(f, self.guest.program_break())?;
        write_reservation(f, self.guest.reservation())?;
        write_each::<Whole, W>(f, self.guest.threads())?;
        write_pages(f, self.guest)
    }
}

/// The lines of a guest's threads by rising tid, each with its registers.
#[derive(Drop)]
pub struct ThreadLines<'a> {
    guest: &'a Guest,
}

impl<'a> ThreadLines<'a> {
    /// The lines of this guest's threads.
    pub fn new(guest: &'a Guest) -> Self
        ensures { result.guest.now ≡ guest.now }
    {
        ThreadLines { guest }
    }
}

impl<'a> fmt::Display for ThreadLines<'a> {
    ghost output = { λ lines. Some (threads_lines (state_of lines.guest.now)) };

    fn fmt<W: fmt::Write>(&self, f: &mut fmt::Formatter<W>) -> fmt::Result {
        write_each::<Whole, W>(f, self.guest.threads())
    }
}

fn write_break<W: fmt::Write>(f: &mut fmt::Formatter<W>, address: u32) -> fmt::Result
    ensures { WritesOnOk W.write_str_gives f.old result (break_line address) f.new }
{
    f.write_str("break ")?;
    write_word(f, address)?;
    f.write_str("\n")
}

fn write_reservation<W: fmt::Write>(
    f: &mut fmt::Formatter<W>,
    reservation: Reservation,
) -> fmt::Result
    ensures { WritesOnOk W.write_str_gives f.old result (reservation_line reservation) f.new }
{
    f.write_str("reservation ")?;
    match reservation {
        None => f.write_str("none")?,
        Some(address) => write_word(f, address)?,
    }
    f.write_str("\n")
}

/// All lines of a thread.
struct Whole;

impl ThreadText for Whole {
    ghost text = { thread_lines };

    fn write<W: fmt::Write>(f: &mut fmt::Formatter<W>, tid: u32, thread: &Thread) -> fmt::Result {
        write_thread(f, tid, thread)
    }
}

/// A thread's line, and those of its registers.
fn write_thread<W: fmt::Write>(f: &mut fmt::Formatter<W>, tid: u32, thread: &Thread) -> fmt::Result
    ensures { WritesOnOk W.write_str_gives f.old result (thread_lines tid thread.now) f.new }
{
    write_thread_line(f, tid, thread)?;
    write_registers(f, &thread.regs)
}

/// The line of a thread's tid, wait, next instruction and clear address.
#[tactic(auto, unfolding(crate::specs::States::thread_line))]
fn write_thread_line<W: fmt::Write>(
    f: &mut fmt::Formatter<W>,
    tid: u32,
    thread: &Thread,
) -> fmt::Result
    ensures { WritesOnOk W.write_str_gives f.old result (thread_line tid thread.now) f.new }
{
    write!(f, "thread {tid} ")?;
    write_wait(f, thread.wait)?;
    f.write_str(" ")?;
    write_addresses(f, thread)?;
    f.write_str("\n")
}

/// The address of a thread's next instruction, and its clear address.
#[tactic(auto, unfolding(crate::specs::States::addresses_text))]
fn write_addresses<W: fmt::Write>(f: &mut fmt::Formatter<W>, thread: &Thread) -> fmt::Result
    ensures { WritesOnOk W.write_str_gives f.old result (addresses_text thread.now) f.new }
{
    f.write_str("pc ")?;
    write_word(f, thread.regs.pc)?;
    f.write_str(" clear ")?;
    write_word(f, thread.clear)
}

/// Whether a thread runs, or where it waits, and whether for a time.
fn write_wait<W: fmt::Write>(f: &mut fmt::Formatter<W>, wait: Option<FutexWait>) -> fmt::Result
    ensures { WritesOnOk W.write_str_gives f.old result (wait_text wait) f.new }
{
    match wait {
        None => f.write_str("running"),
        Some(wait) => {
            f.write_str("waiting ")?;
            write_word(f, wait.address)?;
            write_timed(f, wait.timeout)
        }
    }
}

/// That a wait has a timeout, if it has one.
fn write_timed<W: fmt::Write>(f: &mut fmt::Formatter<W>, timeout: Option<Timeout>) -> fmt::Result
    ensures { WritesOnOk W.write_str_gives f.old result (timed_text timeout) f.new }
{
    match timeout {
        None => Ok(()),
        Some(_) => f.write_str(" timed"),
    }
}

/// The eight lines of a thread's registers.
fn write_registers<W: fmt::Write>(f: &mut fmt::Formatter<W>, regs: &Regs) -> fmt::Result
    ensures { WritesOnOk W.write_str_gives f.old result (registers_lines 8 regs.now) f.new }
{
    for line in 0..8 {
        write_registers_line(f, regs, 4 * line)?;
    }
    Ok(())
}

/// A line of four registers, from this one on.
fn write_registers_line<W: fmt::Write>(
    f: &mut fmt::Formatter<W>,
    regs: &Regs,
    first: usize,
) -> fmt::Result
    requires { first + 3 < 32 }
    ensures { WritesOnOk W.write_str_gives f.old result (registers_line regs.now first) f.new }
{
    f.write_str(" ")?;
    write_register(f, regs, first)?;
    write_register(f, regs, first + 1)?;
    write_register(f, regs, first + 2)?;
    write_register(f, regs, first + 3)?;
    f.write_str("\n")
}

/// A register behind a space.
#[tactic(auto, unfolding(crate::specs::States::register_text))]
fn write_register<W: fmt::Write>(
    f: &mut fmt::Formatter<W>,
    regs: &Regs,
    register: usize,
) -> fmt::Result
    requires { register < 32 }
    ensures { WritesOnOk W.write_str_gives f.old result (register_text regs.now register) f.new }
{
    write!(f, " x{register} ")?;
    write_word(f, regs.registers[register])
}

/// How many pages are mapped, and their digest.
fn write_pages<W: fmt::Write>(f: &mut fmt::Formatter<W>, guest: &Guest) -> fmt::Result
    ensures { WritesOnOk W.write_str_gives f.old result (pages_line (state_of guest.now).memory) f.new }
{
    let pages = guest.page_count();
    write!(f, "pages {pages} digest ")?;
    write_bytes(f, &digest_of(guest.space()))?;
    f.write_str("\n")
}

/// Bytes as two hexadecimal digits each.
fn write_bytes<W: fmt::Write>(f: &mut fmt::Formatter<W>, bytes: &[u8]) -> fmt::Result
    ensures { WritesOnOk W.write_str_gives f.old result (flat_map byte_text bytes.now) f.new }
{
    for byte in bytes {
        write_byte(f, *byte)?;
    }
    Ok(())
}

/// Two hexadecimal digits.
pub(crate) fn write_byte<W: fmt::Write>(f: &mut fmt::Formatter<W>, byte: u8) -> fmt::Result
    ensures { WritesOnOk W.write_str_gives f.old result (byte_text byte) f.new }
{
    write!(f, "{byte:02x}")
}
