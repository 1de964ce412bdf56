//! Cases that are lines of text, `ASKED = WANT`. An empty line and one that begins with `#` ask nothing.

use std::alloc::AllocError;
use std::fs::File;
use std::io;
use std::process::ExitCode;
use std::rt::Files;

/// What answers such lines.
pub trait Answers {
    /// What is found where a line asks this and wants that; None where it asks nothing, or no memory is left.
    fn answer<R: Files<File = File> + AllocGlobal>(
        &mut self,
        rt: &R,
        asked: &str,
        want: &str,
    ) -> Option<String>;
}

/// What a line finds in place of what it wants; None where it finds that.
fn failure<R: Files<File = File> + AllocGlobal, A: Answers>(
    rt: &R,
    answers: &mut A,
    line: &str,
) -> Result<Option<String>, AllocError> {
    let alloc = rt.alloc();
    let Some((asked, want)) = line.split_once(" = ") else {
        return Ok(Some("no question".to_string(alloc)?));
    };
    match answers.answer(rt, asked, want) {
        Some(found) if found.as_str() == want => Ok(None),
        Some(found) => Ok(Some(found)),
        None => Ok(Some("no answer".to_string(alloc)?)),
    }
}

/// Goes through the lines of the input: prints each that finds something else, and last how many there were.
pub fn go_through<A: Answers>(rt: &HostRuntime, answers: &mut A) -> io::Result<ExitCode> {
    let mut lines = 0u32;
    let mut wrong = 0u32;
    for line in rt.lines(rt.alloc()) {
        let line = line?;
        if line.is_empty() || line.starts_with('#') {
            continue;
        }
        lines = lines.saturating_add(1);
        if let Some(found) = failure(rt, answers, line.as_str())? {
            wrong = wrong.saturating_add(1);
            println!(rt; "{}\n  finds: {found}", line.as_str())?;
        }
    }
    println!(rt; "{lines} lines, {wrong} wrong")?;
    if wrong == 0 {
        Ok(ExitCode::SUCCESS)
    } else {
        Ok(ExitCode::FAILURE)
    }
}
