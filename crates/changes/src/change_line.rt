//! The printed line of a change.

ghost use Rattle.std.specs.Prelude.{◌≡◌, ◌+◌, ◌-◌, ◌<◌, Some};
ghost use Rattle.std.specs.Fmt.{WritesOnOk};
ghost use Rattle.guest_calls.specs.Guest.{state_of};
ghost use Rattle.guest_pages.specs.Space.{memory_of};
ghost use Rattle.rrv_model.specs.State.{thread_at};
ghost use Rattle.trace_text.specs.MemoryText.{cell_text};
ghost use Rattle.trace_text.specs.States.{byte_text};
ghost use Rattle.changes.specs.Texts.{change_line, pc_text, value_text, values_text};

use command_line::Watched;
use guest_calls::Guest;
use guest_pages::Space;
use rrv_model::machine::Thread;
use std::fmt;
use trace_text::write_word;

/// The value of watched bytes: two hexadecimal digits a byte, or two dashes if it isn't mapped, the last byte first.
#[derive(Drop)]
pub(crate) struct ValueText<'a> {
    space: &'a Space,
    watched: Watched,
}

impl<'a> ValueText<'a> {
    /// The value in this memory.
    pub(crate) fn new(space: &'a Space, watched: Watched) -> Self
        ensures space { result.space.now ≡ space.now }
        ensures watched { result.watched ≡ watched }
    {
        ValueText { space, watched }
    }
}

impl<'a> fmt::Display for ValueText<'a> {
    ghost output = { λ value. Some (value_text (memory_of value.space.now) value.watched) };

    fn fmt<W: fmt::Write>(&self, f: &mut fmt::Formatter<W>) -> fmt::Result {
        write_value(f, self.space, self.watched)
    }
}

/// The value of watched bytes.
fn write_value<W: fmt::Write>(
    f: &mut fmt::Formatter<W>,
    space: &Space,
    watched: Watched,
) -> fmt::Result
    ensures { WritesOnOk W.write_str_gives f.old result (value_text (memory_of space.now) watched) f.new }
{
    for k in 0..watched.count {
        write_cell(f, space, watched.address + (watched.count - 1 - k))?;
    }
    Ok(())
}

/// The byte at an address in two digits, or two dashes.
fn write_cell<W: fmt::Write>(f: &mut fmt::Formatter<W>, space: &Space, address: u32) -> fmt::Result
    ensures { WritesOnOk W.write_str_gives f.old result (cell_text (memory_of space.now address)) f.new }
{
    match space.byte(u64::from(address)) {
        Some(byte) => write_byte(f, byte),
        None => f.write_str("--"),
    }
}

/// Two hexadecimal digits.
fn write_byte<W: fmt::Write>(f: &mut fmt::Formatter<W>, byte: u8) -> fmt::Result
    ensures { WritesOnOk W.write_str_gives f.old result (byte_text byte) f.new }
{
    write!(f, "{byte:02x}")
}

/// The line of the change by a thread's next instruction, with its newline: the place, the thread, the address of the instruction,
/// and the value of the watched bytes before and after it.
#[derive(Drop)]
pub(crate) struct ChangeLine<'a> {
    guest: &'a Guest,
    place: u64,
    tid: u32,
    watched: Watched,
    after: &'a str,
}

impl<'a> ChangeLine<'a> {
    /// The line of a change of this guest, which ran so many instructions, by its thread of this tid, where the value is this one after it.
    pub(crate) fn new(
        guest: &'a Guest,
        place: u64,
        tid: u32,
        watched: Watched,
        after: &'a str,
    ) -> Self
        ensures guest { result.guest.now ≡ guest.now }
        ensures place { result.place ≡ place }
        ensures tid { result.tid ≡ tid }
        ensures watched { result.watched ≡ watched }
        ensures after { result.after.now ≡ after.now }
    {
        ChangeLine {
            guest,
            place,
            tid,
            watched,
            after,
        }
    }
}

impl<'a> fmt::Display for ChangeLine<'a> {
    ghost output = { λ line. Some (change_line line.place line.tid (thread_at (state_of line.guest.now) line.tid)
        (value_text (memory_of line.guest.now.space) line.watched) line.after.now) };

    fn fmt<W: fmt::Write>(&self, f: &mut fmt::Formatter<W>) -> fmt::Result {
        let place = self.place;
        let tid = self.tid;
        write!(f, "at={place} tid={tid}")?;
        write_pc(f, self.guest.thread(tid))?;
        write_values(f, self.guest.space(), self.watched, self.after)?;
        f.write_str("\n")
    }
}

/// The value of the watched bytes before a change, and after it.
#[tactic(auto, unfolding(crate::specs::Texts::values_text))]
fn write_values<W: fmt::Write>(
    f: &mut fmt::Formatter<W>,
    space: &Space,
    watched: Watched,
    after: &str,
) -> fmt::Result
    ensures { WritesOnOk W.write_str_gives f.old result
        (values_text (value_text (memory_of space.now) watched) after.now) f.new }
{
    f.write_str(" old=")?;
    write_value(f, space, watched)?;
    f.write_str(" new=")?;
    f.write_str(after)
}

/// The address of a thread's next instruction.
fn write_pc<W: fmt::Write>(f: &mut fmt::Formatter<W>, thread: Option<Thread>) -> fmt::Result
    ensures { WritesOnOk W.write_str_gives f.old result (pc_text thread) f.new }
{
    match thread {
        None => f.write_str(" pc=none"),
        Some(thread) => {
            f.write_str(" pc=")?;
            write_word(f, thread.regs.pc)
        }
    }
}
