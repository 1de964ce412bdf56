//! The recording of programs.

ghost use Rattle.std.specs.Prelude.{◌≡◌, false, true, IfErr, IfOk, List, MatchBool, length, ℕ};
ghost use Rattle.rrv_model.specs.declared.record.Record.{Record};
ghost use Rattle.serial_sched.specs.Slices.{IsQuantum};
ghost use Rattle.session.specs.Sessions.{IsLeft};
ghost use Rattle.recording.specs.Jobs.{distance_of, terms_of, version_in};
ghost use Rattle.recording.specs.Recorded.{HasRecorded};
ghost use Rattle.line_io.specs.Stores.{RefusesMark};
ghost use Rattle.trace_log.specs.Committed.{HasMarked};

use crate::choice_files::choices_in_files;
use crate::ended::{Stopped, Unreported, tell_ended};
use crate::jobs::jobs_of;
use crate::limited::{CountingGate, counts};
use crate::misfits::{GuestMisfit, misfits_of, print_misfits};
use crate::names::Names;
use crate::outcome::Outcome;
use crate::record_progress::RecordProgress;
use crate::reports::{lasts_of, print_reports};
use crate::shared::Shared;
use command_line::{Recording, seed};
use elf_load::Image;
use guest_calls::Guest;
use host::Streams;
use line_io::{
    Refusal, Terminals, end_open_line, finish, images_in, in_blocks, input_in, marked, open_log,
};
use progress::Clearing;
use rrv_model::machine::Version;
use rrv_model::record::Choice;
use session::{Every, GuestReport, SessionFault, record_all};
use std::alloc::Global;
use std::fs::File;
use std::io::Write;
use std::rt::Files;
use std::sync::atomic::AtomicBool;
use std::sync::{Mutex, Wait};
use std::thread::Threads;
use std::time::{Clock, Instant};
use trace_disk::{Disk, FileDisk};
use trace_log::Log;

/// How far apart checkpoints are, by what the line asks for.
fn distance(asked: command_line::Every) -> Every
    ensures { result ≡ distance_of asked }
{
    match asked {
        command_line::Every::Instructions(count) => Every::Instructions(count),
        command_line::Every::Auto => Every::Auto,
    }
}

/// The seed that a line gives, or zeros.
fn seed_of(text: Option<&str>) -> Result<[u8; 16], Refusal> {
    match text {
        Some(text) => Ok(seed(text)?),
        None => Ok([0; 16]),
    }
}

/// Records programs to a store, which is opened once all other files of the line are read, and prints how each guest ended. Output is
/// printed once it is durable. Where the output of a guest fails, that is told behind the ends of the others. Where one failed, the
/// outcome tells it if the line is to.
pub fn record<
    R: Files<File = File> + AllocGlobal + Input + Threads + Wait + Sync + Clock,
    O: Write + Drop + Send,
    E: Write + Drop + Send,
>(
    rt: &R,
    recording: &Recording<'_>,
    terminals: Terminals,
    out: &mut O,
    err: &mut E,
) -> Result<Outcome, Refusal>
    requires { IsQuantum recording.now.quantum }
    ensures failed { IfOk result (λ outcome. outcome ≡ Outcome.GuestFailed → recording.now.fail ≡ true) }
{
    let start = Instant::now(rt).map_err(|_| Refusal::NoClock)?;
    let seed = seed_of(recording.seed)?;
    // A file may be a pipe that is waited for: until then another program may write to the store.
    let inputs = inputs_of(rt, recording, terminals.err)?;
    let log = store_of(rt, recording)?;
    let names = names_of(recording);
    match record_shown(rt, recording, start, seed, log, inputs, terminals, out, err) {
        Ok(recorded) => {
            tell(rt.alloc(), names, &recorded, err)?;
            Ok(Outcome::of_reports(&recorded.reports, recording.fail))
        }
        Err(Unreported::Refused(refusal)) => Err(refusal),
        Err(Unreported::Stopped(stopped)) => {
            // Where they can't be told either, the refusal still is.
            let _ = tell_ended(rt, rt.alloc(), names, stopped, err);
            Err(Refusal::OutputFailed)
        }
    }
}

/// Opens the store of a recording, and marks it if the line asks for that.
fn store_of<R: Files<File = File> + AllocGlobal>(
    rt: &R,
    recording: &Recording<'_>,
) -> Result<Log<FileDisk>, Refusal>
    ensures whole { IfOk result (λ log. log.is_broken ≡ false) }
    ensures marked { IfOk result (λ log. recording.now.upgrade ≡ true → log.marked ≡ true) }
{
    let log = open_log(rt, recording.store)?;
    upgraded(rt.alloc(), log, recording.upgrade)
}

/// The log with the Mark if `upgrade` asks for it, and else as it is.
fn upgraded<D: Disk + Drop>(alloc: Global, log: Log<D>, upgrade: bool) -> Result<Log<D>, Refusal>
    requires { log.is_broken ≡ false }
    ensures whole { IfOk result (λ new. new.is_broken ≡ false) }
    ensures marked { IfOk result (λ new. upgrade ≡ true → new.marked ≡ true) }
    ensures stored { IfOk result (λ new. MatchBool upgrade
        (MatchBool log.marked (new ≡ log) (HasMarked D.Disk log new)) (new ≡ log)) }
    ensures refused { IfErr result (λ e. (upgrade ≡ true) × RefusesMark log e) }
{
    if upgrade {
        return marked(alloc, log);
    }
    Ok(log)
}

/// The version of the guests that are recorded to this log: 2 if its store holds the Mark, and else 1.
fn version_in<D: Disk>(log: &Log<D>) -> Version
    ensures { result ≡ version_in log.now.marked }
{
    if log.marked() {
        return Version::Two;
    }
    Version::One
}

/// How the guests of a recording are named.
fn names_of<'a>(recording: &'a Recording<'a>) -> Names<'a> {
    Names {
        given: &recording.names,
        count: recording.files.len(),
    }
}

/// What the guests of a recording are made of, as the files of its line have it.
struct Inputs {
    input: Vec<u8>,
    choices: Vec<Vec<Choice>>,
    images: Vec<Image>,
}

// Written out: where one goes, a proof has one call, and not one for each of its parts.
impl Drop for Inputs {
    fn drop(self) {
        let Inputs {
            input: _,
            choices: _,
            images: _,
        } = self;
    }
}

impl Inputs {
    fn into_parts(self) -> (Vec<u8>, Vec<Vec<Choice>>, Vec<Image>) {
        let Inputs {
            input,
            choices,
            images,
        } = self;
        (input, choices, images)
    }
}

/// Reads the files of a line, in its order: the input, then the choices, then the programs. Why one isn't taken is told in words too
/// where `in_words` says so.
fn inputs_of<R: Files<File = File> + AllocGlobal + Input>(
    rt: &R,
    recording: &Recording<'_>,
    in_words: bool,
) -> Result<Inputs, Refusal> {
    Ok(Inputs {
        input: input_in(rt, recording.input, in_words)?,
        choices: choices_in_files(rt, &recording.choices, in_words)?,
        images: images_in(rt, &recording.files, in_words)?,
    })
}

/// Records programs to a log, and shows how far it is where standard error is a terminal or the line asks for it.
fn record_shown<
    R: AllocGlobal + Threads + Wait + Sync + Clock,
    O: Write + Drop + Send,
    E: Write + Drop + Send,
>(
    rt: &R,
    recording: &Recording<'_>,
    start: Instant,
    seed: [u8; 16],
    log: Log<FileDisk>,
    inputs: Inputs,
    terminals: Terminals,
    out: &mut O,
    err: &mut E,
) -> Result<Recorded, Unreported<FileDisk>>
    requires quantum { IsQuantum recording.now.quantum }
    requires whole { log.is_broken ≡ false }
    requires marked { recording.now.upgrade ≡ true → log.marked ≡ true }
{
    let (input, choices, images) = inputs.into_parts();
    let counts = counts(rt.alloc()).map_err(Refusal::from)?;
    let shared = Shared {
        rt,
        version: version_in(&log),
        start,
        input: &input,
        seed,
        names: names_of(recording),
        quantum: recording.quantum,
        every: distance(recording.every),
        choices: &choices,
        then: recording.then,
        limit: recording.limit,
        counts: &counts,
        is_one_place: terminals.out && terminals.err,
    };
    let line = AtomicBool::new(false);
    let is_on = recording.progress || terminals.err;
    let output = Clearing::new(out, &line, terminals.out);
    let errors = Clearing::new(&mut *err, &line, true);
    let result = record_images(rt, log, &shared, images, output, errors, &line, is_on);
    Clearing::new(&mut *err, &line, true).clear();
    let (_, recorded) = result?;
    Ok(recorded)
}

/// How each guest of a recording ended, and which choices didn't fit, in the order of the line.
#[derive(Drop)]
pub(crate) struct Recorded {
    reports: Vec<GuestReport>,
    /// Each guest, as it is then.
    guests: Vec<Guest>,
    /// The tids of the threads that ran last, 0 where none did.
    lasts: Vec<u32>,
    misfits: Vec<GuestMisfit>,
    /// Whether the guests' text left a line open.
    is_open: bool,
    ghost guests_are: { length guests.items ≡ length reports.items },
    ghost lasts_are: { length lasts.items ≡ length reports.items },
}

/// Records programs to a log, each as a guest, and returns the log too. What they output goes to the two streams. How far it is goes to
/// the errors' if `is_on` says so, and `line` says whether it is shown.
pub(crate) fn record_images<
    R: AllocGlobal + Threads + Wait + Sync + Clock,
    D: Disk + Drop,
    O: Write + Drop + Send,
    E: Write + Drop + Send,
>(
    rt: &R,
    log: Log<D>,
    shared: &Shared<'_, R>,
    images: Vec<Image>,
    out: O,
    err: E,
    line: &AtomicBool,
    is_on: bool,
) -> Result<(Log<D>, Recorded), Unreported<D>>
    requires whole { log.is_broken ≡ false }
    requires version { shared.now.version ≡ version_in log.marked }
    ensures stored { (bodies : List (List ℕ)) (earlier : List Record) → IsLeft D.Disk log bodies earlier
        → IfOk result (λ recorded. HasRecorded D.Disk (terms_of shared.now) images.items
        log recorded.0 recorded.1.reports.items bodies earlier) }
{
    let streams = Mutex::new(Streams::new(out, err));
    let jobs = jobs_of(rt.alloc(), shared, &streams, images)?;
    let progress = RecordProgress::new(rt, &streams, line, is_on);
    let gate = CountingGate::new(progress, shared.counts);
    let first = log.next_guest();
    let (log, jobs, result) = record_all(rt, rt.alloc(), log, jobs, &gate);
    let is_open = streams.lock(rt).is_open(shared.is_one_place);
    if let Err(SessionFault::SinkFailed { .. }) = &result {
        let Ok(stopped) = Stopped::new(rt.alloc(), log, first, &jobs, is_open) else {
            return Err(Unreported::Refused(Refusal::OutputFailed));
        };
        return Err(Unreported::Stopped(stopped));
    }
    let report = result?;
    let lasts = lasts_of(rt.alloc(), &jobs)?;
    let misfits = misfits_of(rt.alloc(), &jobs)?;
    let recorded = Recorded {
        reports: report.guests,
        guests: report.states,
        lasts,
        misfits,
        is_open,
    };
    Ok((log, recorded))
}

/// Prints how each guest ended, and which choices didn't fit, in blocks; before that it ends a line that the guests left open.
fn tell<E: Write>(
    alloc: Global,
    names: Names<'_>,
    recorded: &Recorded,
    err: &mut E,
) -> Result<(), Refusal> {
    let mut err = in_blocks(alloc, err)?;
    end_open_line(recorded.is_open, &mut err)?;
    print_reports(
        alloc,
        names,
        &recorded.reports,
        &recorded.guests,
        &recorded.lasts,
        &mut err,
    )?;
    print_misfits(alloc, names, &recorded.misfits, &mut err)?;
    finish(&mut err)
}
