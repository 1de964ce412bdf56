//! Lines of input that ask about a guest's recording.

ghost use Rattle.std.specs.Prelude.{◌≡◌, ◌≢◌, IfErr, IfOk, OnOk, false};
ghost use Rattle.std.specs.Io.KnownBytes.{Appends};
ghost use Rattle.command_line.specs.Asked.{IsAsked};
ghost use Rattle.command_line.specs.declared.asked.Asked.TheVariants as asks;
ghost use Rattle.line_io.specs.declared.refusal.Refusal.{Refusal};
ghost use Rattle.answers.specs.Asking.{AnswersAsked, AnswersInput, AnswersLine, GoesOnAfter, GoesOnAfterText, IsRun, PrintsRefusal, RefusesAsked, point_line, quiet_after};

use crate::choosing::print_choices;
use crate::core_files::write_core_of;
use crate::dialogue::Dialogue;
use crate::input_lines::{InputLine, InputLines, MAX_LINE};
use crate::search_progress::SearchProgress;
use asking::answer;
use command_line::{Asked, asked_in};
use line_io::{OutputFailed, Refusal, finish, print_line, print_text};
use replayer::Verified;
use reverse_step::SearchWatch;
use std::alloc::Global;
use std::fmt::Display;
use std::fs::File;
use std::io::{BufWriter, Read, Write};
use std::rt::Files;
use std::thread::Threads;
use std::time::Clock;
use stored_guests::workers;

/// Bytes of an answer that are collected. A state has fewer, so none of it is written before the line of a search is cleared.
const ANSWER: usize = 65_536;

/// What can be asked.
const HELP: &str = "\
    at T             go to a place, a number of instructions or end, and print the state\n\
    back N           go so many instructions back, and print the state\n\
    forward N        go so many instructions forward, and print the state\n\
    last ADDR        go to the last change of a byte before the place, and print the state\n\
    next ADDR        go to the next change of a byte after the place, and print the state\n\
    memory ADDR:LEN  print bytes of memory at the place\n\
    threads          print the threads at the place\n\
    where            print the place, its thread, and the instruction that comes next\n\
    quiet            from here on, print the line of where, not the state\n\
    full             from here on, print the state again\n\
    choices          print the choices of the turns\n\
    core FILE        write the state at the place as a core file\n\
    help             print this\n\
    quit             end\n";

/// Prints why a line has no answer.
fn print_refused<W: Write, T: Display>(
    alloc: Global,
    out: &mut W,
    why: &T,
) -> Result<(), OutputFailed>
    ensures told { OnOk result (PrintsRefusal (T.output why.now) (W.contents out.old) (W.contents out.new)) }
{
    print_text(out, &"rrv: ")?;
    match why.to_string(alloc) {
        Ok(why) => print_line(out, &why),
        // there is no memory for its text
        Err(_) => print_line(out, &"out of memory"),
    }
}

/// Answers what is asked, with so many workers at most. After a refusal the dialogue is as before.
fn answer_asked<R: Files<File = File> + AllocGlobal + Threads + Sync, V: SearchWatch, W: Write>(
    rt: &R,
    workers: usize,
    dialogue: &mut Dialogue<'_>,
    asked: Asked<'_>,
    watch: &mut V,
    out: &mut W,
) -> Result<(), Refusal>
    ensures verified { dialogue.new.cursor.verified ≡ dialogue.old.cursor.verified }
    ensures answered { OnOk result
        (AnswersAsked asked.entry dialogue.old dialogue.new (W.contents out.old) (W.contents out.new)) }
    ensures form { dialogue.new.is_quiet ≡ quiet_after asked.entry dialogue.old.is_quiet }
    ensures refused { IfErr result (RefusesAsked asked.entry dialogue.old.cursor dialogue.new.cursor) }
    ensures quiet { IfErr result (λ e. e ≢ Refusal.OutputFailed → out.new ≡ out.old) }
{
    match asked {
        Asked::Of(inquiry) => {
            let is_quiet = dialogue.is_quiet;
            answer(
                rt,
                workers,
                &mut dialogue.cursor,
                inquiry,
                is_quiet,
                watch,
                out,
            )
        }
        Asked::Core { file } => write_core_of(rt, &dialogue.cursor, file),
        Asked::Choices => Ok(print_choices(dialogue.cursor.verified().frames(), out)?),
        Asked::Quiet => {
            dialogue.is_quiet = true;
            Ok(())
        }
        Asked::Full => {
            dialogue.is_quiet = false;
            Ok(())
        }
        Asked::Help => Ok(print_text(out, &HELP)?),
        Asked::Quit => Ok(()),
    }
}

/// Answers a line, and returns whether more are wanted.
fn answer_line<R: Files<File = File> + AllocGlobal + Threads + Sync, V: SearchWatch, W: Write>(
    rt: &R,
    workers: usize,
    dialogue: &mut Dialogue<'_>,
    line: &str,
    watch: &mut V,
    out: &mut W,
) -> Result<bool, Refusal>
    ensures verified { dialogue.new.cursor.verified ≡ dialogue.old.cursor.verified }
    ensures answered { OnOk result
        (AnswersLine line.now dialogue.old dialogue.new (W.contents out.old) (W.contents out.new)) }
    ensures ends { IfOk result (GoesOnAfterText line.now) }
{
    let asked = match asked_in(line) {
        Ok(asked) => asked,
        Err(bad) => {
            print_refused(rt.alloc(), out, &bad)?;
            return Ok(true);
        }
    };
    match answer_asked(rt, workers, dialogue, asked, watch, out) {
        Ok(()) => Ok(!matches!(asked, Asked::Quit)),
        Err(Refusal::OutputFailed) => Err(Refusal::OutputFailed),
        Err(refusal) => {
            print_refused(rt.alloc(), out, &refusal)?;
            Ok(true)
        }
    }
}

/// Answers a line of input, and returns whether more are wanted.
fn answer_input<R: Files<File = File> + AllocGlobal + Threads + Sync, V: SearchWatch, W: Write>(
    rt: &R,
    workers: usize,
    dialogue: &mut Dialogue<'_>,
    line: &InputLine,
    watch: &mut V,
    out: &mut W,
) -> Result<bool, Refusal>
    ensures verified { dialogue.new.cursor.verified ≡ dialogue.old.cursor.verified }
    ensures answered { OnOk result
        (AnswersInput line.now dialogue.old dialogue.new (W.contents out.old) (W.contents out.new)) }
    ensures ends { IfOk result (GoesOnAfter line.now) }
{
    match line {
        InputLine::Text(text) => { answer_line(rt, workers, dialogue, text.as_str(), watch, out) }
        InputLine::TooLong => {
            let why = format_args!("line is longer than {MAX_LINE} bytes");
            print_refused(rt.alloc(), out, &why)?;
            Ok(true)
        }
        InputLine::NotText => {
            print_refused(rt.alloc(), out, &"line is not UTF-8")?;
            Ok(true)
        }
    }
}

/// Ends an answer by a line of a point, and hands on what was printed.
fn end_answer<W: Write>(out: &mut W) -> Result<(), Refusal>
    ensures ended { OnOk result (Appends (W.contents out.old) (W.contents out.new) point_line) }
{
    print_line(out, &".")?;
    finish(out)
}

/// Shows that a line is wanted, if `prompts` says so.
fn prompt<W: Write>(prompts: bool, text: &str, out: &mut W) -> Result<(), Refusal>
    ensures quiet { prompts ≡ false → out.new ≡ out.old }
{
    if prompts {
        print_text(out, &text)?;
        finish(out)?;
    }
    Ok(())
}

/// Answers lines about a recording, from where a dialogue stands, until one asks for nothing more or there are no more. Each answer
/// ends with a line of a point, and is handed on before the next line is read.
fn answer_lines<
    R: Files<File = File> + AllocGlobal + Threads + Sync + Clock,
    B: Read + Drop,
    E: Write + Drop,
    W: Write,
>(
    rt: &R,
    dialogue: &mut Dialogue<'_>,
    lines: &mut InputLines<B>,
    prompts: bool,
    watch: &mut SearchProgress<'_, R, E>,
    out: &mut W,
) -> Result<(), Refusal>
    ensures verified { dialogue.new.cursor.verified ≡ dialogue.old.cursor.verified }
    ensures answered { OnOk result (prompts ≡ false
        → IsRun dialogue.old dialogue.new (W.contents out.old) (W.contents out.new)) }
{
    let workers = workers(rt);
    for _ in 0..u64::MAX {
        prompt(prompts, "rrv> ", out)?;
        let Some(line) = lines.next_line(rt.alloc())? else {
            return prompt(prompts, "\n", out);
        };
        watch.begin();
        let goes_on = answer_input(rt, workers, dialogue, &line, watch, out)?;
        watch.clear();
        end_answer(out)?;
        if !goes_on {
            return Ok(());
        }
    }
    Ok(())
}

/// Answers the lines of standard input about a verified recording, from its start on. If `is_quiet` says so, moves print the line of their
/// place at first. If `prompts` says so, it is shown that a line is wanted. How far a search is goes to `watch`.
pub(crate) fn ask<
    R: Files<File = File> + AllocGlobal + Input + Threads + Sync + Clock,
    O: Write,
    E: Write + Drop,
>(
    rt: &R,
    verified: &Verified,
    is_quiet: bool,
    prompts: bool,
    watch: &mut SearchProgress<'_, R, E>,
    out: &mut O,
) -> Result<(), Refusal> {
    let alloc = rt.alloc();
    let mut dialogue = Dialogue::new(alloc, verified, is_quiet)?;
    let mut lines = InputLines::new(alloc, rt.reader())?;
    let mut out = BufWriter::with_capacity(alloc, ANSWER, out).map_err(|_| Refusal::Memory)?;
    answer_lines(rt, &mut dialogue, &mut lines, prompts, watch, &mut out)
}
