//! What a line asks of a guest's recording.

use crate::ask::ask;
use crate::choosing::show_choices;
use crate::core_files::write_core;
use crate::replaying::put_out;
use crate::search_progress::SearchProgress;
use crate::states::{show_back, show_last};
use changes::Shown;
use command_line::{GuestOf, Question};
use line_io::{Refusal, Terminals};
use replayer::Verified;
use std::fs::File;
use std::io::Write;
use std::rt::Files;
use std::sync::Wait;
use std::sync::atomic::AtomicBool;
use std::thread::Threads;
use std::time::Clock;
use stored_guests::verified_of;

/// Answers a question of a guest's recording in a store in a file, once that is verified. How far it is goes to `err`, if `progress` says
/// so or that is a terminal.
pub fn answer<
    R: Files<File = File> + AllocGlobal + Input + Threads + Wait + Sync + Clock,
    O: Write + Drop,
    E: Write + Drop,
>(
    rt: &R,
    guest: GuestOf<'_>,
    question: &Question<'_>,
    progress: bool,
    terminals: Terminals,
    out: &mut O,
    err: &mut E,
) -> Result<(), Refusal> {
    let is_shown = progress || terminals.err;
    let verified: Verified = verified_of(rt, guest, is_shown, err)?;
    let alloc = rt.alloc();
    match question {
        Question::Output => put_out(rt, alloc, &verified, out, err),
        Question::State { at, memory } => show_back(alloc, &verified, *at, 0, memory, out),
        Question::Back {
            from,
            count,
            memory,
        } => show_back(alloc, &verified, *from, *count, memory, out),
        Question::Last {
            from,
            watched,
            times,
            short,
            memory,
        } => {
            let shown = Shown {
                watched: *watched,
                is_short: *short,
                ranges: memory,
            };
            let line = AtomicBool::new(false);
            let mut watch = SearchProgress::new(rt, err, &line, verified.total(), is_shown);
            show_last(rt, &verified, *from, shown, *times, &mut watch, out)
        }
        Question::Choices => show_choices(alloc, &verified, out),
        Question::Core { at, file } => write_core(rt, &verified, *at, file),
        Question::Lines { short } => {
            let line = AtomicBool::new(false);
            let mut watch = SearchProgress::new(rt, err, &line, verified.total(), is_shown);
            ask(rt, &verified, *short, terminals.prompts(), &mut watch, out)
        }
    }
}
