//! The choices of a recording.

ghost use Rattle.std.specs.Prelude.{◌≡◌, OnOk};
ghost use Rattle.std.specs.Io.KnownBytes.{Appends};
ghost use Rattle.choices.specs.Recorded.{choices_text, ended_line, line_of};

use choices::line_of;
use line_io::{OutputFailed, Refusal, finish, in_blocks, print_line};
use replayer::Verified;
use rrv_model::record::Frame;
use std::alloc::Global;
use std::io::Write;

/// Prints the line of a frame's choice, where it has one.
fn print_choice<W: Write>(frame: &Frame, out: &mut W) -> Result<(), OutputFailed>
    ensures printed { OnOk result (Appends (W.contents out.old) (W.contents out.new) (ended_line (line_of frame.now))) }
{
    match line_of(frame) {
        Some(line) => print_line(out, &line),
        None => Ok(()),
    }
}

/// Prints the choices of frames, a line each.
pub(crate) fn print_choices<W: Write>(frames: &[Frame], out: &mut W) -> Result<(), OutputFailed>
    ensures printed { OnOk result (Appends (W.contents out.old) (W.contents out.new) (choices_text frames.now)) }
{
    for frame in frames {
        print_choice(frame, out)?;
    }
    Ok(())
}

/// Prints the choices of a recording in blocks.
pub(crate) fn show_choices<O: Write>(
    alloc: Global,
    verified: &Verified,
    out: &mut O,
) -> Result<(), Refusal> {
    let mut out = in_blocks(alloc, out)?;
    print_choices(verified.frames(), &mut out)?;
    finish(&mut out)
}
