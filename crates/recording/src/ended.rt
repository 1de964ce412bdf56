//! The guests that ended, of a recording that the output of another stopped.

use crate::names::{Names, name_of};
use crate::reports::print_report;
use guest_calls::Outside;
use line_io::{Refusal, Store, end_open_line, finish, in_blocks, opened};
use replayer::VerifiedEnd;
use rrv_model::sink::Sink;
use serial_sched::Chooser;
use session::{GuestReport, Job, SessionFault};
use std::alloc::Global;
use std::io;
use std::io::Write;
use std::thread::Threads;
use std::time::Clock;
use stored_guests::{StoredGuest, verified};
use trace_disk::Disk;
use trace_log::Log;

/// What the output of a guest leaves that stopped its recording: the log, the number of the first guest, and of each guest whether all
/// of its output was taken; and whether the guests' text left a line open.
#[derive(Drop)]
pub(crate) struct Stopped<D: Disk> {
    log: Log<D>,
    first: u32,
    taken: Vec<bool>,
    is_open: bool,
}

impl<D: Disk + Drop> Stopped<D> {
    /// Of these jobs.
    pub(crate) fn new<C: Chooser + Drop, O: Outside + Drop, S: Sink + Drop>(
        alloc: Global,
        log: Log<D>,
        first: u32,
        jobs: &[Job<C, O, S>],
        is_open: bool,
    ) -> Result<Self, Refusal> {
        let taken = jobs
            .iter()
            .map(|job| job.sink.failures() == 0)
            .collect(alloc)?;
        Ok(Stopped {
            log,
            first,
            taken,
            is_open,
        })
    }
}

/// Why a recording has no reports.
#[derive(Drop)]
pub(crate) enum Unreported<D: Disk> {
    Refused(Refusal),
    /// A guest's output failed.
    Stopped(Stopped<D>),
}

impl<D: Disk> From<Refusal> for Unreported<D> {
    fn from(refusal: Refusal) -> Self {
        Unreported::Refused(refusal)
    }
}

impl<D: Disk + Drop> From<Unreported<D>> for Refusal {
    fn from(unreported: Unreported<D>) -> Self {
        match unreported {
            Unreported::Refused(refusal) => refusal,
            Unreported::Stopped(_) => Refusal::OutputFailed,
        }
    }
}

impl<D: Disk> From<SessionFault> for Unreported<D> {
    fn from(fault: SessionFault) -> Self {
        Unreported::Refused(Refusal::from(fault))
    }
}

/// Prints how each guest ended whose output was taken, in blocks. It is replayed for this, from the store.
pub(crate) fn tell_ended<R: Threads + Sync + Clock, D: Disk + Drop, E: Write>(
    rt: &R,
    alloc: Global,
    names: Names<'_>,
    stopped: Stopped<D>,
    err: &mut E,
) -> Result<(), Refusal> {
    let Stopped {
        log,
        first,
        taken,
        is_open,
    } = stopped;
    let (log, lists) = opened(alloc, log.close())?;
    let mut store = Store {
        lists,
        disk: log.close(),
    };
    let mut err = in_blocks(alloc, err)?;
    end_open_line(is_open, &mut err)?;
    for place in 0..taken.len() {
        if taken[place] {
            let name = name_of(alloc, names, place)?;
            let guest = first.saturating_add(u32::try_from(place).unwrap_or(u32::MAX));
            store = print_ended(rt, alloc, store, guest, name.as_bytes(), &mut err)?;
        }
    }
    finish(&mut err)
}

/// Prints how the guest of this number and name ended, if it did and can be replayed, and hands the store back.
fn print_ended<R: Threads + Sync + Clock, D: Disk + Drop, W: Write>(
    rt: &R,
    alloc: Global,
    store: Store<D>,
    guest: u32,
    name: &[u8],
    out: &mut W,
) -> Result<Store<D>, Refusal> {
    let mut source = StoredGuest::new(store, guest);
    let records = source.lists.len(guest);
    let all = source.extent();
    let end: Result<VerifiedEnd, Refusal> = verified(
        rt,
        alloc,
        &mut source,
        all,
        false,
        &mut io::sink(),
    );
    if let Ok(end) = end {
        let report = GuestReport {
            number: guest,
            records,
            end: end.guest.ended(),
        };
        if report.end.is_some() {
            print_report(name, &report, &end.guest, end.last, out)?;
        }
    }
    let StoredGuest { lists, disk, .. } = source;
    Ok(Store { lists, disk })
}
