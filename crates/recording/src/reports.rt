//! The reports of recorded guests.

ghost use Rattle.std.specs.Prelude.{◌≡◌, IfErr, IfOk, OnOk, length, map};
ghost use Rattle.std.specs.FinMap.{len};
ghost use Rattle.std.specs.Io.KnownBytes.{Appends};
ghost use Rattle.guest_calls.specs.Guest.{state_of};
ghost use Rattle.recording.specs.Names.{name_by};
ghost use Rattle.recording.specs.Reports.{guest_told, guests_told, has_left};
ghost use Rattle.line_io.specs.Stores.{RefusesPrint};

use crate::limited::Limited;
use crate::names::{Names, name_of};
use end_text::EndLines;
use guest_calls::{Guest, Outside};
use line_io::{OutputFailed, Refusal, print_line, print_text};
use rrv_model::machine::GuestEnd;
use rrv_model::sink::Sink;
use session::{GuestReport, Job};
use std::alloc::Global;
use std::io::Write;
use trace_text::ReportLine;

/// The tids of the threads that the jobs' choosers chose last, in the jobs' order.
pub(crate) fn lasts_of<O: Outside + Drop, S: Sink + Drop>(
    alloc: Global,
    jobs: &[Job<Limited<'_>, O, S>],
) -> Result<Vec<u32>, Refusal>
    ensures lasts { IfOk result (λ lasts. lasts.items ≡ map (λ job. job.chooser.plan.last) jobs.now) }
    ensures refused { IfErr result (λ e. e ≡ Refusal.Memory) }
{
    let lasts = jobs.iter().map(|job| job.chooser.last()).collect(alloc)?;
    Ok(lasts)
}

/// Tests whether a guest exited when its last thread did, of which its report tells all.
fn has_left(guest: &Guest) -> bool
    ensures { result ≡ has_left (state_of guest.now).ended (len (state_of guest.now).threads) }
{
    match guest.ended() {
        Some(GuestEnd::Exited(_)) => guest.threads().is_empty(),
        _ => false,
    }
}

/// Prints how a guest ended and, unless its last thread exited, where and why.
pub(crate) fn print_report<W: Write>(
    name: &[u8],
    report: &GuestReport,
    guest: &Guest,
    last: u32,
    out: &mut W,
) -> Result<(), OutputFailed>
    ensures printed { OnOk result (Appends (W.contents out.old) (W.contents out.new)
        (guest_told name.now report.now guest.now last)) }
{
    let line = ReportLine::new(name, report.end, u64::from(report.records));
    print_line(out, &line)?;
    if has_left(guest) {
        return Ok(());
    }
    let lines = EndLines::new(guest, guest.ran(), last);
    print_text(out, &lines)
}

/// Prints how each guest ended, in the order of the line.
pub(crate) fn print_reports<W: Write>(
    alloc: Global,
    names: Names<'_>,
    reports: &[GuestReport],
    guests: &[Guest],
    lasts: &[u32],
    out: &mut W,
) -> Result<(), Refusal>
    requires guests { length guests.now ≡ length reports.now }
    requires lasts { length lasts.now ≡ length reports.now }
    ensures printed { OnOk result (Appends (W.contents out.old) (W.contents out.new)
        (guests_told (name_by names.entry) 0 reports.now guests.now lasts.now)) }
    ensures refused { IfErr result RefusesPrint }
{
    for place in 0..reports.len() {
        let name = name_of(alloc, names, place)?;
        print_report(
            name.as_bytes(),
            &reports[place],
            &guests[place],
            lasts[place],
            out,
        )?;
    }
    Ok(())
}
