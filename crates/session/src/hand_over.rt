//! Tasks from seats and jobs, and back.

ghost use Rattle.std.specs.Prelude.{◌≡◌, ◌<◌, ◌≤◌, ◌++◌, [], length, vec_capacity};
ghost use Rattle.std.specs.List.{AllByRecursion};
ghost use Rattle.session.specs.Sessions.{HasNumber, reports_of};
ghost use Rattle.session.specs.Tasks.{jobs_of, jobs_worked, once, seats_of, seats_worked, states_worked};

use crate::job::Job;
use crate::report::GuestReport;
use crate::task::{Task, Worked};
use commit_group::RecorderSeat;
use guest_calls::{Guest, Outside};
use rrv_model::sink::Sink;
use serial_sched::Chooser;

/// A task for each seat.
pub(crate) fn give<C: Chooser + Drop, O: Outside + Drop, S: Sink + Drop>(
    seats: Vec<RecorderSeat>,
    jobs: Vec<Job<C, O, S>>,
    tasks: &mut Vec<Task<C, O, S>>,
)
    requires same { length jobs.items ≡ length seats.items }
    requires room { (tasks.old.items ≡ []) × (length seats.items ≤ vec_capacity tasks.old) }
    ensures seats { seats_of tasks.new.items ≡ seats.items }
    ensures jobs { jobs_of tasks.new.items ≡ jobs.items }
{
    for (seat, job) in seats.into_iter().zip(jobs) {
        tasks.push_reserved(Task { seat, job });
    }
}

/// Keeps a guest, if there is one.
fn keep(guest: Option<Guest>, states: &mut Vec<Guest>)
    requires room { length states.old.items < vec_capacity states.old }
    ensures kept { states.new.items ≡ states.old.items ++ once guest }
    ensures capacity { vec_capacity states.new ≡ vec_capacity states.old }
{
    if let Some(guest) = guest {
        states.push_reserved(guest);
    }
}

/// The seats and the jobs again, what there is to report, and the guests.
pub(crate) fn take_back<C: Chooser + Drop, O: Outside + Drop, S: Sink + Drop>(
    first: u32,
    done: Vec<Worked<C, O, S>>,
    seats: &mut Vec<RecorderSeat>,
    jobs: &mut Vec<Job<C, O, S>>,
    reports: &mut Vec<GuestReport>,
    states: &mut Vec<Guest>,
)
    requires numbers { AllByRecursion (HasNumber first) done.items }
    requires seats { (seats.old.items ≡ []) × (length done.items ≤ vec_capacity seats.old) }
    requires jobs { (jobs.old.items ≡ []) × (length done.items ≤ vec_capacity jobs.old) }
    requires reports { (reports.old.items ≡ []) × (length done.items ≤ vec_capacity reports.old) }
    requires states { (states.old.items ≡ []) × (length done.items ≤ vec_capacity states.old) }
    ensures seats { seats.new.items ≡ seats_worked done.items }
    ensures jobs { jobs.new.items ≡ jobs_worked done.items }
    ensures reports { reports.new.items ≡ reports_of first done.items }
    ensures states { states.new.items ≡ states_worked done.items }
{
    for worked in done {
        let Worked {
            seat,
            job,
            guest,
            end,
            fault: _,
        } = worked;
        reports.push_reserved(GuestReport {
            number: first + seat.guest(),
            records: seat.sent(),
            end,
        });
        seats.push_reserved(seat);
        jobs.push_reserved(job);
        keep(guest, states);
    }
}
