//! Doing a line of the program.

ghost use Rattle.std.specs.Prelude.{◌≡◌, ◌≢◌, ◌≤◌, IfOk, OnErr, OnOk, length, map};
ghost use Rattle.std.specs.IoError.{error_kind};
ghost use Rattle.clap.specs.Words.{kind_of};
ghost use Rattle.command_line.specs.Lines.{IsWithinLimits};
ghost use Rattle.commands.specs.Status.{IsOutcomeOf, IsStatus, IsStatusFor, IsStatusOf};

use crate::checking::check;
use crate::copies::copy;
use crate::demonstration::demonstrate;
use crate::piped::Piped;
use answers::{answer, tell};
use clap::error::ErrorKind as LineFault;
use command_line::{DumpForm, GuestOf, Question, Request, help, line};
use line_io::{Refusal, Shows, Terminals, make_store, open_store, print_whole};
use listings::{dump, dump_turns, list, list_long, put_elf};
use recording::{Outcome, record};
use replayer::VerifiedEnd;
use std::alloc::Global;
use std::convert::AsStr;
use std::fs::File;
use std::io;
use std::io::{ErrorKind, Write};
use std::rt::Files;
use std::sync::Wait;
use std::thread::Threads;
use std::time::Clock;
use stored_guests::verified_of;

/// What the version says of the text that the program was built from, where that isn't known.
const UNKNOWN_TEXT: &str = "unknown text";

/// Does what a line of words asks for, which are those after the program's name, and returns the exit status: 0 done (also for
/// a call of help), 1 refused, 2 an invalid line, 3 done, but a guest failed, if the line is to tell that. What is asked for
/// goes to `out`. A refusal's text, after `rrv: `, and the text of a bad line go to `err`, each in one write.
pub fn run<
    R: Files<File = File> + AllocGlobal + Input + Threads + Wait + Sync + Clock,
    S: AsStr,
    O: Write + Drop + Send,
    E: Write + Drop + Send,
>(rt: &R, words: &[S], out: &mut O, err: &mut E) -> u8
    ensures some { 1 ≤ length words.now → IsStatus (map S.text words.now) result }
    ensures none { length words.now ≡ 0 → result ≤ 1 }
{
    run_on(rt, words, UNKNOWN_TEXT, Terminals::none(), out, err)
}

/// The same, where standard output or standard error may be a terminal. The version is printed with `text_sum`, which names the
/// text that the program was built from.
pub fn run_on<
    R: Files<File = File> + AllocGlobal + Input + Threads + Wait + Sync + Clock,
    S: AsStr,
    O: Write + Drop + Send,
    E: Write + Drop + Send,
>(rt: &R, words: &[S], text_sum: &str, terminals: Terminals, out: &mut O, err: &mut E) -> u8
    ensures some { 1 ≤ length words.now → IsStatus (map S.text words.now) result }
    ensures none { length words.now ≡ 0 → result ≤ 1 }
{
    match line(rt.alloc(), words) {
        Ok(request) => run_request(rt, request, terminals, out, err),
        Err(error) => report(rt.alloc(), &error, text_sum, out, err),
    }
}

/// Tells why the words of a line can't be read, and answers the status: 1 where that was out of memory, else 2.
pub fn report_unread<E: Write>(alloc: Global, error: &io::Error, err: &mut E) -> u8
    ensures memory { error_kind error.now ≡ ErrorKind.OutOfMemory → result ≡ 1 }
    ensures other { error_kind error.now ≢ ErrorKind.OutOfMemory → result ≡ 2 }
{
    if error.kind() == ErrorKind::OutOfMemory {
        return report_refusal(alloc, &Refusal::Memory, err);
    }
    let text = format_args!("rrv: cannot read the command line: {error}\n");
    let _ = print_whole(alloc, &text, err);
    2
}

/// Prints the version as the parser has it, and in brackets what names the text that the program was built from.
fn print_version<O: Write>(
    alloc: Global,
    version: &clap::Error,
    text_sum: &str,
    out: &mut O,
) -> Result<(), Refusal> {
    let version = format!(in alloc; "{version}")?;
    let line = format_args!("{} ({text_sum})\n", version.trim_end());
    Ok(print_whole(alloc, &line, out)?)
}

/// Prints what the parser of the line says, where that belongs, and returns the status: 1 also if help or the version can't be
/// printed. The version is printed with `text_sum` after it.
pub fn report<O: Write, E: Write>(
    alloc: Global,
    error: &clap::Error,
    text_sum: &str,
    out: &mut O,
    err: &mut E,
) -> u8
    ensures { IsStatusOf (kind_of error.now) result }
{
    match error.kind() {
        LineFault::OutOfMemory => report_refusal(alloc, &Refusal::Memory, err),
        LineFault::DisplayHelp => {
            let printed = print_whole(alloc, error, out).map_err(Refusal::from);
            report_result(alloc, printed, err)
        }
        LineFault::DisplayVersion => {
            let printed = print_version(alloc, error, text_sum, out);
            report_result(alloc, printed, err)
        }
        _ => {
            let _ = print_whole(alloc, error, err);
            2
        }
    }
}

/// Tells a refusal, and answers its status.
fn report_refusal<E: Write>(alloc: Global, refusal: &Refusal, err: &mut E) -> u8
    ensures { result ≡ 1 }
{
    if matches!(refusal, Refusal::ReaderGone) {
        return 1;
    }
    let text = format_args!("rrv: {refusal}\n");
    let _ = print_whole(alloc, &text, err);
    1
}

/// Tells a refusal, if there is one, and answers the status.
fn report_result<E: Write>(alloc: Global, done: Result<(), Refusal>, err: &mut E) -> u8
    ensures done { OnOk done (result ≡ 0) }
    ensures refused { OnErr done (result ≡ 1) }
{
    match done {
        Ok(()) => 0,
        Err(refusal) => report_refusal(alloc, &refusal, err),
    }
}

/// Does what is asked for, or tells why not, and answers the status.
fn run_request<
    R: Files<File = File> + AllocGlobal + Input + Threads + Wait + Sync + Clock,
    O: Write + Drop + Send,
    E: Write + Drop + Send,
>(rt: &R, request: Request<'_>, terminals: Terminals, out: &mut O, err: &mut E) -> u8
    requires { IsWithinLimits request }
    ensures { IsStatusFor request.entry result }
{
    let ends_quietly = ends_quietly(&request);
    let mut out = Piped::new(out);
    match perform(rt, request, terminals, &mut out, err) {
        Ok(outcome) => outcome.status(),
        Err(refusal) if ends_quietly => report_refusal(rt.alloc(), &out.told(refusal), err),
        Err(refusal) => report_refusal(rt.alloc(), &refusal, err),
    }
}

/// Whether a command is one that ends without a word where the reader of its output goes away.
fn ends_quietly(request: &Request<'_>) -> bool {
    match request {
        Request::List { .. } | Request::Elf { .. } | Request::Dump { .. } => true,
        Request::Ask { question, .. } => {
            matches!(
                question,
                Question::Output | Question::State { .. } | Question::Lines { .. }
            )
        }
        _ => false,
    }
}

/// Prints the help of the program, or of a command.
fn show_help<O: Write>(alloc: Global, command: Option<&str>, out: &mut O) -> Result<(), Refusal> {
    let help = help(alloc, command)?;
    match help.kind() {
        LineFault::OutOfMemory => Err(Refusal::Memory),
        _ => Ok(print_whole(alloc, &help, out)?),
    }
}

/// Prints a line for each guest of a store; a long one if its records are to be replayed.
fn list_guests<
    R: Files<File = File> + AllocGlobal + Threads + Sync + Clock,
    O: Write,
    E: Write + Drop,
>(
    rt: &R,
    path: &str,
    replays: bool,
    shows: Shows,
    out: &mut O,
    err: &mut E,
) -> Result<(), Refusal> {
    let mut store = open_store(rt, path)?;
    if replays {
        return list_long(rt, rt.alloc(), &mut store, shows, out, err);
    }
    list(rt.alloc(), &mut store, out)
}

/// Prints the records of a guest, by themselves or with what replaying them tells.
fn dump_guest<
    R: Files<File = File> + AllocGlobal + Threads + Sync + Clock,
    O: Write,
    E: Write + Drop,
>(
    rt: &R,
    guest: GuestOf<'_>,
    form: DumpForm,
    shows: Shows,
    out: &mut O,
    err: &mut E,
) -> Result<(), Refusal> {
    let mut store = open_store(rt, guest.store)?;
    match form {
        DumpForm::Lines => dump(rt.alloc(), &mut store, guest.number, out),
        form => dump_turns(
            rt,
            rt.alloc(),
            &mut store,
            guest.number,
            form,
            shows,
            out,
            err,
        ),
    }
}

/// Does what each command does.
fn perform<
    R: Files<File = File> + AllocGlobal + Input + Threads + Wait + Sync + Clock,
    O: Write + Drop + Send,
    E: Write + Drop + Send,
>(
    rt: &R,
    request: Request<'_>,
    terminals: Terminals,
    out: &mut O,
    err: &mut E,
) -> Result<Outcome, Refusal>
    requires { IsWithinLimits request }
    ensures { IfOk result (IsOutcomeOf request.entry) }
{
    let alloc = rt.alloc();
    match request {
        Request::Demonstration => demonstrate(rt, out, err)?,
        Request::Help { command } => show_help(alloc, command, out)?,
        Request::New { store } => make_store(rt, store)?,
        Request::Record(recording) => return record(rt, &recording, terminals, out, err),
        Request::Check { file } => check(rt, file, out)?,
        Request::List {
            store,
            replays,
            progress,
        } => {
            let shows = Shows::new(progress, terminals);
            list_guests(rt, store, replays, shows, out, err)?;
        }
        Request::Elf { guest } => {
            let mut store = open_store(rt, guest.store)?;
            put_elf(alloc, &mut store, guest.number, out)?;
        }
        Request::Copy { guest, to } => copy(rt, guest, to, out)?,
        Request::Dump {
            guest,
            form,
            progress,
        } => {
            let shows = Shows::new(progress, terminals);
            dump_guest(rt, guest, form, shows, out, err)?;
        }
        Request::Verify {
            guest,
            long,
            progress,
        } => {
            let end: VerifiedEnd = verified_of(rt, guest, progress || terminals.err, err)?;
            tell(alloc, &end, long, out)?;
        }
        Request::Ask {
            guest,
            question,
            progress,
        } => answer(rt, guest, &question, progress, terminals, out, err)?,
    }
    Ok(Outcome::Done)
}
