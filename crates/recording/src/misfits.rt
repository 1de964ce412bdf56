//! The choices of a recording that didn't fit its run.

ghost use Rattle.std.specs.Prelude.{◌≡◌, IfErr, IfOk, OnOk, Some};
ghost use Rattle.std.specs.Io.KnownBytes.{Appends};
ghost use Rattle.recording.specs.Misfits.{misfit_lines, misfit_text, misfits_from};
ghost use Rattle.recording.specs.Names.{name_by};
ghost use Rattle.line_io.specs.Printed.{with_newline};
ghost use Rattle.line_io.specs.Stores.{RefusesPrint};

use crate::limited::Limited;
use crate::names::{Names, name_of};
use choices::Misfit;
use guest_calls::Outside;
use line_io::{Refusal, print_line};
use rrv_model::sink::Sink;
use session::Job;
use std::alloc::Global;
use std::fmt;
use std::io::Write;

/// A choice that didn't fit, of the guest at this place of the line.
#[derive(Clone, Copy)]
pub(crate) struct GuestMisfit {
    pub(crate) place: usize,
    pub(crate) misfit: Misfit,
}

/// The line of a choice that didn't fit, of the guest of this name.
#[derive(Clone, Copy)]
struct MisfitLine<'a> {
    name: &'a str,
    misfit: Misfit,
}

impl<'a> fmt::Display for MisfitLine<'a> {
    ghost output = { λ line. Some (misfit_text line.name.now line.misfit) };

    fn fmt<W: fmt::Write>(&self, f: &mut fmt::Formatter<W>) -> fmt::Result {
        let name = self.name;
        let index = self.misfit.index;
        let tid = self.misfit.tid;
        write!(
            f,
            "{name}: choice {index} doesn't fit: thread {tid} does not run"
        )
    }
}

/// The choices that didn't fit, by the jobs' order: one of a job at most.
pub(crate) fn misfits_of<O: Outside + Drop, S: Sink + Drop>(
    alloc: Global,
    jobs: &[Job<Limited<'_>, O, S>],
) -> Result<Vec<GuestMisfit>, Refusal>
    ensures misfits { IfOk result (λ misfits. misfits.items ≡ misfits_from 0 jobs.now) }
    ensures refused { IfErr result (λ e. e ≡ Refusal.Memory) }
{
    let mut misfits = Vec::new(alloc);
    for place in 0..jobs.len() {
        if let Some(misfit) = jobs[place].chooser.misfit() {
            misfits.push(GuestMisfit { place, misfit })?;
        }
    }
    Ok(misfits)
}

/// Prints the line of a choice that didn't fit.
fn print_misfit<W: Write>(
    alloc: Global,
    names: Names<'_>,
    misfit: GuestMisfit,
    out: &mut W,
) -> Result<(), Refusal>
    ensures printed { OnOk result (Appends (W.contents out.old) (W.contents out.new)
        (with_newline (misfit_text (name_by names.entry misfit.place) misfit.misfit))) }
    ensures refused { IfErr result RefusesPrint }
{
    let name = name_of(alloc, names, misfit.place)?;
    let line = MisfitLine {
        name: name.as_str(),
        misfit: misfit.misfit,
    };
    print_line(out, &line)?;
    Ok(())
}

/// Prints a line for each choice that didn't fit.
pub(crate) fn print_misfits<W: Write>(
    alloc: Global,
    names: Names<'_>,
    misfits: &[GuestMisfit],
    out: &mut W,
) -> Result<(), Refusal>
    ensures printed { OnOk result (Appends (W.contents out.old) (W.contents out.new)
        (misfit_lines (name_by names.entry) misfits.now)) }
    ensures refused { IfErr result RefusesPrint }
{
    for misfit in misfits {
        print_misfit(alloc, names, *misfit, out)?;
    }
    Ok(())
}
