//! Goes through cases of slices, which come as lines of text: a line names a guest, or has its instructions in hexadecimal digits behind
//! `guest code`, or `guest two code` for one of version 2, asks for slices of it or for the end of a timed wait, or asks what became of it,
//! and says behind ` = ` what has to be found. Each frame is followed from another guest of the same file, which has to come to the same
//! state.
//! Prints each line of which something else was found, and last how many there were.
#![tactic(auto)]

mod lines;
mod lists;
mod pair;
mod runs;
mod session;
mod wrong;

use session::Session;
use std::alloc::{AllocError, Global};
use std::io;
use std::process::ExitCode;
use wrong::Wrong;

/// How many guests and lines there were, and of how many lines something else was found.
#[derive(Clone, Copy, Debug)]
struct Counts {
    guests: u32,
    lines: u32,
    wrong: u32,
}

/// Tests whether a line asks nothing.
fn is_remark(line: &str) -> bool {
    line.is_empty() || line.starts_with('#')
}

/// What a line asks, and what has to be found, which is nothing where it doesn't say.
fn parts_of(line: &str) -> (&str, &str) {
    match line.split_once(" = ") {
        Some(parts) => parts,
        None => (line, ""),
    }
}

/// What was found, or why nothing was.
fn text_of(alloc: Global, found: Result<String, Wrong>) -> Result<String, AllocError> {
    match found {
        Ok(text) => Ok(text),
        Err(wrong) => format!(in alloc; "{wrong}"),
    }
}

/// Takes a line, and answers the other text that was found.
fn take(rt: &HostRuntime, session: &mut Session, line: &str) -> Result<Option<String>, AllocError> {
    let (asked, want) = parts_of(line);
    let found = text_of(rt.alloc(), session.answer(rt, asked))?;
    if found.as_str() == want {
        return Ok(None);
    }
    Ok(Some(found))
}

fn main(rt: HostRuntime) -> io::Result<ExitCode> {
    let mut session = Session::new(rt.alloc());
    let mut counts = Counts {
        guests: 0,
        lines: 0,
        wrong: 0,
    };
    for line in rt.lines(rt.alloc()) {
        let line = line?;
        if is_remark(line.as_str()) {
            continue;
        }
        counts.lines = counts.lines.saturating_add(1);
        if line.starts_with("guest ") {
            counts.guests = counts.guests.saturating_add(1);
        }
        if let Some(found) = take(&rt, &mut session, line.as_str())? {
            counts.wrong = counts.wrong.saturating_add(1);
            println!(rt; "{}: found {}", line.as_str(), found.as_str())?;
        }
    }
    let Counts {
        guests,
        lines,
        wrong,
    } = counts;
    println!(rt; "{guests} guests, {lines} lines, {wrong} wrong")?;
    if wrong == 0 {
        Ok(ExitCode::SUCCESS)
    } else {
        Ok(ExitCode::FAILURE)
    }
}
