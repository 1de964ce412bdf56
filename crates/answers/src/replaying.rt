//! The end of a verified recording, told, and its output, put out again.

ghost use Rattle.std.specs.Prelude.{◌≡◌, [], OnOk};
ghost use Rattle.std.specs.Io.KnownBytes.{Appends};
ghost use Rattle.guest_calls.specs.Guest.{state_of};
ghost use Rattle.trace_text.specs.Lines.{verify_line};
ghost use Rattle.line_io.specs.Printed.{with_newline};
ghost use Rattle.answers.specs.Ends.{end_told};

use end_text::EndLines;
use line_io::{OutputFailed, Refusal, finish, in_blocks, print_line, print_put, print_text};
use replayer::{Verified, VerifiedEnd};
use rrv_model::sink::{Sink, SinkError};
use std::alloc::Global;
use std::io::Write;
use std::sync::Wait;
use trace_text::VerifyLine;

/// Prints how many records and instructions a recording has, and how it ends.
fn print_end<W: Write>(end: &VerifiedEnd, out: &mut W) -> Result<(), OutputFailed>
    ensures printed { OnOk result (Appends (W.contents out.old) (W.contents out.new)
        (with_newline (verify_line end.now.len end.now.total (state_of end.now.guest).ended))) }
{
    let line = VerifyLine::new(end.len as u64, end.total, end.guest.ended());
    print_line(out, &line)
}

/// Prints the same and, where `is_long` says so, what ended the guest.
fn print_told<W: Write>(end: &VerifiedEnd, is_long: bool, out: &mut W) -> Result<(), OutputFailed>
    ensures printed { OnOk result (Appends (W.contents out.old) (W.contents out.new)
        (end_told is_long end.now.len end.now.total end.now.last (state_of end.now.guest))) }
{
    print_end(end, out)?;
    if !is_long {
        return Ok(());
    }
    let lines = EndLines::new(&end.guest, end.total, end.last);
    print_text(out, &lines)
}

/// Prints the same in blocks.
pub fn tell<O: Write>(
    alloc: Global,
    end: &VerifiedEnd,
    is_long: bool,
    out: &mut O,
) -> Result<(), Refusal> {
    let mut out = in_blocks(alloc, out)?;
    print_told(end, is_long, &mut out)?;
    finish(&mut out)
}

/// Where the output of a replay goes.
#[derive(Drop)]
struct Printed<O: Write + Drop, E: Write + Drop> {
    out: O,
    err: E,
    failures: u64,
}

/// A put is written whole. At an `Err` a part of it may be.
impl<O: Write + Drop, E: Write + Drop> Sink for Printed<O, E> {
    ghost tells = { λ _. ⊥ };

    ghost taken = { λ _. [] };

    ghost faults = { λ s. s.failures };

    fn put(&mut self, _rt: &impl Wait, descriptor: u32, bytes: &[u8]) -> Result<usize, SinkError> {
        match print_put(descriptor, bytes, &mut self.out, &mut self.err) {
            Ok(()) => Ok(bytes.len()),
            Err(_) => {
                self.failures = self.failures.saturating_add(1);
                Err(SinkError)
            }
        }
    }

    fn failures(&self) -> u64 {
        self.failures
    }
}

/// Puts the output of a recording out again.
pub(crate) fn put_out<R: Wait, O: Write, E: Write>(
    rt: &R,
    alloc: Global,
    verified: &Verified,
    out: &mut O,
    err: &mut E,
) -> Result<(), Refusal> {
    let mut sink = Printed {
        out: in_blocks(alloc, out)?,
        err,
        failures: 0,
    };
    verified.output(alloc, rt, &mut sink)?;
    finish(&mut sink.out)
}
