//! Whether a file is a program that a guest can run.

ghost use Rattle.std.specs.Prelude.{◌≡◌, IfErr, IfOk, OnOk, Some};
ghost use Rattle.std.specs.Io.KnownBytes.{Appends};
ghost use Rattle.commands.specs.Programs.{pages_at_start, program_line, program_text};
ghost use Rattle.line_io.specs.Printed.{with_newline};
ghost use Rattle.line_io.specs.Stores.{RefusesPrint};

use elf_load::Image;
use guest_calls::Guest;
use line_io::{Refusal, finish, image_in, in_blocks, print_line};
use rrv_model::machine::Version;
use rrv_model::refusal::Memory;
use std::alloc::Global;
use std::fmt;
use std::io::Write;
use std::rt::Files;
use trace_text::write_word;

/// The line of a program: the address of its first instruction, how many pages a guest of it has at its start, and its break there. As in
/// `ok entry=00010054 pages=257 break=00011000`.
#[derive(Clone, Copy)]
struct ProgramLine {
    entry: u32,
    pages: u32,
    end: u32,
}

impl fmt::Display for ProgramLine {
    ghost output = { λ line. Some (program_line line.entry line.pages line.end) };

    fn fmt<W: fmt::Write>(&self, f: &mut fmt::Formatter<W>) -> fmt::Result {
        let pages = self.pages;
        f.write_str("ok entry=")?;
        write_word(f, self.entry)?;
        write!(f, " pages={pages} break=")?;
        write_word(f, self.end)
    }
}

/// How many pages a guest of this program has at its start, its stack's among them.
fn pages_at_start(alloc: Global, image: &Image) -> Result<u32, Memory>
    ensures { IfOk result (λ pages. pages ≡ pages_at_start image.now) }
{
    let guest = Guest::open(alloc, Version::One, image, b"g0", [0; 16])?;
    Ok(guest.page_count())
}

/// Prints what a guest of a program starts with.
fn print_program<W: Write>(alloc: Global, image: &Image, out: &mut W) -> Result<(), Refusal>
    ensures printed { OnOk result (Appends (W.contents out.old) (W.contents out.new)
        (with_newline (program_text image.now))) }
    ensures refused { IfErr result RefusesPrint }
{
    let line = ProgramLine {
        entry: image.entry(),
        pages: pages_at_start(alloc, image)?,
        end: image.end(),
    };
    print_line(out, &line)?;
    Ok(())
}

/// Tells whether `record` takes a file as a program: prints what a guest of it starts with, or refuses it in words.
pub(crate) fn check<R: Files + AllocGlobal, O: Write>(
    rt: &R,
    path: &str,
    out: &mut O,
) -> Result<(), Refusal> {
    let image = image_in(rt, path).map_err(|fault| Refusal::of_checked(rt.alloc(), path, fault))?;
    let mut out = in_blocks(rt.alloc(), out)?;
    print_program(rt.alloc(), &image, &mut out)?;
    finish(&mut out)
}
