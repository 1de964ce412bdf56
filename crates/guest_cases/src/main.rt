//! Goes through cases of a guest's calls, which come as lines of text: a line asks something of a guest and says what it has to find.
//! Prints each line that finds something else, and last how many cases and lines there were.
//!
//! A line `# TEXT` starts a case, with a guest of no instructions whose outside has four bytes of input. In its place `elf FILE` puts a
//! guest of a file that lies in the folder, as those of data/, which tools/assemble made, and `version two` one of version 2 of no
//! instructions. The other lines are as `line` says.
#![tactic(auto)]

mod answers;
mod line;
mod names;

use answers::find;
use line::line_of;
use rrv_model::machine::Version;
use std::alloc::Global;
use std::process::ExitCode;
use std::rt::Files;
use std::{fs, io};
use test_guests::files::file_of;
use test_guests::trial::{Trial, open, open_version, open_words};

/// The input of each guest.
const INPUT: &[u8] = &[1, 2, 3, 4];

/// What a line came to.
#[derive(Debug, Drop)]
enum Outcome {
    Holds,
    /// It found something else.
    Finds(Option<Vec<u32>>),
    /// It can't be read, its file is none that runs, or there is no guest or no memory.
    CannotBeTaken,
}

/// How far a run is.
#[derive(Drop)]
struct Progress {
    trial: Option<Trial<'static>>,
    cases: u32,
    lines: u32,
    wrong: u32,
}

/// A guest of a file.
fn open_file<R: Files + AllocGlobal>(rt: &R, path: &str) -> Option<Trial<'static>> {
    let elf = fs::read(rt, path).ok()?;
    open(rt.alloc(), &elf, INPUT)
}

/// A guest of version 2 of no instructions.
fn open_two(alloc: Global) -> Option<Trial<'static>> {
    let elf = file_of(alloc, &[0; 8]).ok()?;
    open_version(alloc, Version::Two, &elf, INPUT)
}

/// What a line asked of a guest comes to.
fn outcome_of(alloc: Global, trial: &mut Trial<'static>, text: &str) -> Outcome {
    let Some(line) = line_of(alloc, text) else {
        return Outcome::CannotBeTaken;
    };
    match find(alloc, trial, line.asked) {
        Ok(found) if found == line.want => Outcome::Holds,
        Ok(found) => Outcome::Finds(found),
        Err(_) => Outcome::CannotBeTaken,
    }
}

impl Progress {
    fn new() -> Progress {
        Progress {
            trial: None,
            cases: 0,
            lines: 0,
            wrong: 0,
        }
    }

    /// Goes on with a guest, if there is one.
    fn start(&mut self, trial: Option<Trial<'static>>) -> Outcome {
        self.trial = trial;
        match &self.trial {
            Some(_) => Outcome::Holds,
            None => Outcome::CannotBeTaken,
        }
    }

    /// Takes a line.
    fn take<R: Files + AllocGlobal>(&mut self, rt: &R, text: &str) -> Outcome {
        if text.starts_with('#') {
            self.cases = self.cases.saturating_add(1);
            return self.start(open_words(rt.alloc(), &[0; 8], INPUT));
        }
        self.lines = self.lines.saturating_add(1);
        if let Some(path) = text.strip_prefix("elf ") {
            return self.start(open_file(rt, path));
        }
        if text == "version two" {
            return self.start(open_two(rt.alloc()));
        }
        match &mut self.trial {
            Some(trial) => outcome_of(rt.alloc(), trial, text),
            None => Outcome::CannotBeTaken,
        }
    }

    /// Takes a line, and prints it where it doesn't hold.
    fn go_on<R: Files + AllocGlobal + Print>(&mut self, rt: &R, text: &str) -> io::Result<()> {
        if text.is_empty() {
            return Ok(());
        }
        match self.take(rt, text) {
            Outcome::Holds => return Ok(()),
            Outcome::Finds(found) => println!(rt; "does not hold: {text}, but {found:?}")?,
            Outcome::CannotBeTaken => println!(rt; "can't be taken: {text}")?,
        }
        self.wrong = self.wrong.saturating_add(1);
        Ok(())
    }
}

fn main(rt: HostRuntime) -> io::Result<ExitCode> {
    let mut progress = Progress::new();
    for line in rt.lines(rt.alloc()) {
        let line = line?;
        progress.go_on(&rt, line.as_str())?;
    }
    println!(rt;
        "{} cases, {} lines, {} wrong",
        progress.cases, progress.lines, progress.wrong
    )?;
    if progress.wrong == 0 {
        Ok(ExitCode::SUCCESS)
    } else {
        Ok(ExitCode::FAILURE)
    }
}
