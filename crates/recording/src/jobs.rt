//! The jobs of a recording: one for each program of the line.

ghost use Rattle.std.specs.Prelude.{◌≡◌, ◌≢◌, ◌^◌, ◌≤◌, IfErr, IfOk, length};
ghost use Rattle.recording.specs.Jobs.{AreJobs, IsJob, choices_at, limit_at, list_at, lists_of, plan_at, terms_of};
ghost use Rattle.line_io.specs.Told.{session_told};

use crate::limited::Limited;
use crate::names::name_of;
use crate::shared::Shared;
use choices::Schedule;
use command_line::Then;
use elf_load::Image;
use host::{HostOutside, StreamSink, Streams, opening_random};
use line_io::Refusal;
use rrv_model::record::Choice;
use rrv_model::refusal::Memory;
use session::{Job, SessionFault};
use std::alloc::Global;
use std::io::Write;
use std::sync::Mutex;
use std::time::Clock;

/// A guest whose threads run by choices and then in turns, with the host as its environment, and whose output goes to the two streams.
pub(crate) type HostJob<'a, 's, R, O, E> = Job<
    Limited<'a>,
    HostOutside<'a, R>,
    StreamSink<'s, O, E>,
>;

/// The list of choices at this place; none where there is none.
fn list_at(lists: &[Vec<Choice>], place: usize) -> &[Choice]
    ensures { result.now ≡ list_at (lists_of lists.now) place }
{
    if place < lists.len() {
        return lists[place].as_slice();
    }
    &[]
}

/// The choices of the guest at this place of the line. The only list is everyone's.
fn choices_at(lists: &[Vec<Choice>], place: usize) -> &[Choice]
    ensures { result.now ≡ choices_at (lists_of lists.now) place }
{
    if lists.len() == 1 {
        return list_at(lists, 0);
    }
    list_at(lists, place)
}

/// How the threads of the guest at this place of the line are chosen.
fn schedule_of<R: Clock>(
    alloc: Global,
    shared: &Shared<'_, R>,
    place: usize,
) -> Result<Schedule, Memory>
    ensures schedule { IfOk result (λ schedule. schedule ≡ plan_at (terms_of shared.now) place) }
{
    let choices = Vec::from_slice(alloc, choices_at(shared.choices, place))?;
    match shared.then {
        Then::Turns => Ok(Schedule::then_turns(choices, shared.quantum)),
        Then::Nothing => Ok(Schedule::then_nothing(choices)),
    }
}

/// The same, up to the limit of instructions.
fn chooser_of<'a, R: Clock>(
    alloc: Global,
    shared: &Shared<'a, R>,
    place: u32,
) -> Result<Limited<'a>, Memory>
    ensures chooser { IfOk result (λ chooser. chooser ≡ limit_at (terms_of shared.now) place) }
{
    let schedule = schedule_of(alloc, shared, place as usize)?;
    let ran = shared.counts.get(place as usize);
    Ok(Limited::new(schedule, shared.limit, shared.version, ran))
}

/// The job of the guest at this place of the line.
fn job_of<'a, 's, R: Clock, O: Write + Drop, E: Write + Drop>(
    alloc: Global,
    shared: &Shared<'a, R>,
    streams: &'s Mutex<Streams<O, E>>,
    place: u32,
    image: Image,
) -> Result<HostJob<'a, 's, R, O, E>, Memory>
    ensures job { IfOk result (λ job. IsJob (terms_of shared.now) place image job) }
{
    Ok(Job {
        version: shared.version,
        elf: image.into_file(),
        name: name_of(alloc, shared.names, place as usize)?.into_bytes(),
        random: opening_random(&shared.seed, place),
        every: shared.every,
        chooser: chooser_of(alloc, shared, place)?,
        outside: HostOutside::new(shared.rt, shared.start, shared.input, &shared.seed, place),
        sink: StreamSink::new(streams),
    })
}

/// The jobs of the programs, in the order of the line.
pub(crate) fn jobs_of<'a, 's, R: Clock, O: Write + Drop, E: Write + Drop>(
    alloc: Global,
    shared: &Shared<'a, R>,
    streams: &'s Mutex<Streams<O, E>>,
    images: Vec<Image>,
) -> Result<Vec<HostJob<'a, 's, R, O, E>>, Refusal>
    ensures jobs { IfOk result (λ jobs. AreJobs (terms_of shared.now) 0 images.items jobs.items) }
    ensures refused { IfErr result (λ e. e ≢ Refusal.Memory
        → (e ≡ session_told SessionFault.TooManyGuests) × (2 ^ 32 ≤ length images.items)) }
{
    let mut jobs = Vec::new(alloc);
    for image in images {
        let Ok(place) = u32::try_from(jobs.len()) else {
            return Err(Refusal::from(SessionFault::TooManyGuests));
        };
        jobs.push(job_of(alloc, shared, streams, place, image)?)?;
    }
    Ok(jobs)
}
