//! Which jobs start a guest.

ghost use Rattle.std.specs.Prelude.{◌≡◌, ◌↔◌, ◌≤◌, OnOk, IfErr, IfSome, IsNone, IsTrue, false, length};
ghost use Rattle.std.specs.List.{AllByRecursion};
ghost use Rattle.session.specs.Openings.{AreOld, IsFirstNew, RefusesJob, RefusesJobs, StartsGuest};

use crate::fault::SessionFault;
use crate::job::Job;
use guest_calls::{OpeningFault, Outside, starting_image};
use rrv_model::machine::Version;
use rrv_model::sink::Sink;
use serial_sched::Chooser;
use std::alloc::Global;

/// Tests whether the job at a place starts a guest.
fn check_job<C: Chooser + Drop, O: Outside + Drop, S: Sink + Drop>(
    alloc: Global,
    job: &Job<C, O, S>,
    place: u32,
) -> Result<(), SessionFault>
    ensures starts { OnOk result (StartsGuest job.now) }
    ensures refused { IfErr result (λ fault. RefusesJob place job.now fault) }
{
    match starting_image(alloc, &job.name, &job.elf) {
        Ok(_) => Ok(()),
        Err(OpeningFault::Memory) => Err(SessionFault::Memory),
        Err(OpeningFault::BadOpening) => Err(SessionFault::BadOpening { guest: place }),
    }
}

/// Whether guests of a version stand behind the Mark alone.
fn is_new(version: Version) -> bool
    ensures { IsTrue result ↔ (version ≡ Version.Two) }
{
    matches!(version, Version::Two)
}

/// The place of the first job of a guest of version 2.
fn first_new<C: Chooser + Drop, O: Outside + Drop, S: Sink + Drop>(
    jobs: &[Job<C, O, S>],
) -> Option<u32>
    requires { length jobs.now ≤ 16 }
    ensures found { IfSome result (IsFirstNew jobs.now) }
    ensures none { IsNone result → AreOld jobs.now }
{
    let mut place = 0;
    while place < jobs.len() {
        if is_new(jobs[place].version) {
            return Some(place as u32);
        }
        place += 1;
    }
    None
}

/// The place of the first job of a guest of version 2, for a log that doesn't hold the Mark.
pub(crate) fn first_unmarked<C: Chooser + Drop, O: Outside + Drop, S: Sink + Drop>(
    jobs: &[Job<C, O, S>],
    marked: bool,
) -> Option<u32>
    requires { length jobs.now ≤ 16 }
    ensures found { IfSome result (λ place. (marked ≡ false) × IsFirstNew jobs.now place) }
    ensures none { IsNone result → marked ≡ false → AreOld jobs.now }
{
    if marked {
        return None;
    }
    first_new(jobs)
}

/// Tests whether all jobs start a guest.
pub(crate) fn check_jobs<C: Chooser + Drop, O: Outside + Drop, S: Sink + Drop>(
    alloc: Global,
    jobs: &[Job<C, O, S>],
) -> Result<(), SessionFault>
    requires { length jobs.now ≤ 16 }
    ensures starts { OnOk result (AllByRecursion StartsGuest jobs.now) }
    ensures refused { IfErr result (λ fault. RefusesJobs jobs.now fault) }
{
    let mut place = 0;
    while place < jobs.len() {
        check_job(alloc, &jobs[place], place as u32)?;
        place += 1;
    }
    Ok(())
}
