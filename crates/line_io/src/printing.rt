//! What is printed.

ghost use Rattle.std.specs.Prelude.{◌≡◌, ◌≢◌, [], ◌∷◌, IfSome, OnOk, if◌then◌else◌};
ghost use Rattle.std.specs.Io.KnownBytes.{Appends, Keeps};
ghost use Rattle.line_io.specs.Printed.{with_newline};

use crate::refusal::Refusal;
use std::alloc::Global;
use std::fmt::Display;
use std::io::{BufWriter, Write};

/// The writer did not take what was printed.
#[derive(Clone, Copy, Debug)]
pub struct OutputFailed;

/// A writer that collects what it is given, and writes it in blocks.
pub fn in_blocks<W: Write + Drop>(alloc: Global, out: W) -> Result<BufWriter<W>, Refusal> {
    BufWriter::new(alloc, out).map_err(|_| Refusal::Memory)
}

/// Prints a text.
pub fn print_text<W: Write, T: Display>(out: &mut W, text: &T) -> Result<(), OutputFailed>
    ensures printed { OnOk result (IfSome (T.output text.now) (Appends (W.contents out.old) (W.contents out.new))) }
{
    write!(out, "{text}").map_err(|_| OutputFailed)
}

/// Prints a text in one write, so that nothing of another program comes between its parts. Where there is no memory to put it together,
/// it is printed in parts.
pub fn print_whole<W: Write, T: Display>(
    alloc: Global,
    text: &T,
    out: &mut W,
) -> Result<(), OutputFailed>
    ensures printed { OnOk result (IfSome (T.output text.now) (Appends (W.contents out.old) (W.contents out.new))) }
{
    match text.to_string(alloc) {
        Ok(whole) => out.write_all(whole.as_bytes()).map_err(|_| OutputFailed),
        Err(_) => print_text(out, text),
    }
}

/// Prints a text and a newline.
pub fn print_line<W: Write, T: Display>(out: &mut W, line: &T) -> Result<(), OutputFailed>
    ensures printed { OnOk result (IfSome (T.output line.now)
        (λ text. Appends (W.contents out.old) (W.contents out.new) (with_newline text))) }
{
    writeln!(out, "{line}").map_err(|_| OutputFailed)
}

/// Ends a line, if one was left open.
pub fn end_open_line<W: Write>(is_open: bool, out: &mut W) -> Result<(), OutputFailed>
    ensures ended { OnOk result (Appends (W.contents out.old) (W.contents out.new) (if is_open then 10 ∷ [] else [])) }
{
    if is_open {
        return print_line(out, &"");
    }
    Ok(())
}

/// Writes what was collected.
pub fn finish<W: Write>(out: &mut W) -> Result<(), Refusal>
    ensures kept { Keeps (W.contents out.old) (W.contents out.new) }
{
    out.flush().map_err(|_| Refusal::OutputFailed)
}

/// Prints bytes that a guest put out. What goes to descriptor 2 is printed as errors, once all before it is printed.
pub fn print_put<O: Write, E: Write>(
    descriptor: u32,
    bytes: &[u8],
    out: &mut O,
    err: &mut E,
) -> Result<(), Refusal>
    ensures output { OnOk result (descriptor ≢ 2
        → Appends (O.contents out.old) (O.contents out.new) bytes.now) }
    ensures errors { OnOk result (descriptor ≡ 2
        → Appends (E.contents err.old) (E.contents err.new) bytes.now) }
    ensures no_output { OnOk result (descriptor ≡ 2
        → Keeps (O.contents out.old) (O.contents out.new)) }
    ensures no_errors { descriptor ≢ 2 → err.new ≡ err.old }
{
    if descriptor == 2 {
        out.flush().map_err(|_| Refusal::OutputFailed)?;
        return err.write_all(bytes).map_err(|_| Refusal::OutputFailed);
    }
    out.write_all(bytes).map_err(|_| Refusal::OutputFailed)
}
