//! Goes through rows of acts, which come as lines of text, `ACTS = RACES`. Prints each line of which other races are found, and last how
//! many lines there were. An empty line and one that begins with `#` ask nothing.
//!
//! Act k of a line stands at place k, counted from 0. A word is an act: its thread, of one digit, a letter, and what belongs to it. An
//! address has three hex digits, and behind `:` stands how many bytes.
//!
//! | Word | Act |
//! |---|---|
//! | `1r100:4`, `1w100:4` | reads, writes four bytes from 0x100 on |
//! | `1x100` | changes the low byte of a word; `a` behind the x is aq, `l` rl, `0` an AMO into x0, `=` changes nothing |
//! | `1l100` | reserves a word, with `a` and `l` too |
//! | `1fa`, `1fr` | an acquire fence, a release fence |
//! | `1s2`, `1k2` | starts, wakes thread 2 |
//! | `1t100`, `1c100` | sets, clears the word of a tid |
//! | `1g` | leaves |
//! | `1n100:4` | renews four bytes |
//!
//! RACES are words as `1-2@100:4`: acts 1 and 2 race on four bytes from 0x100 on; or `none`. They rise by the later act, then by the earlier
//! one, then by the byte.
//!
//! # What they show
//!
//! - The definitions of `order`, done plainly: each edge of the order, its closure as a table, each pair of acts, byte by byte. What the
//!   rows want was worked out by hand from the rules in words, before anything ran.
#![tactic(auto)]

mod deeds;
mod plain;
mod races;
mod words;

use std::alloc::{AllocError, Global};
use std::io;
use std::process::ExitCode;

/// What a line finds; None where it asks nothing, or no memory is left.
fn answer(alloc: Global, asked: &str) -> Option<String> {
    let acts = words::acts_of(alloc, asked)?;
    races::races_text(alloc, &acts)
}

/// What a line finds in place of what it wants; None where it finds that.
fn failure(alloc: Global, line: &str) -> Result<Option<String>, AllocError> {
    let Some((asked, want)) = line.split_once(" = ") else {
        return Ok(Some("no question".to_string(alloc)?));
    };
    match answer(alloc, asked) {
        Some(found) if found.as_str() == want => Ok(None),
        Some(found) => Ok(Some(found)),
        None => Ok(Some("no answer".to_string(alloc)?)),
    }
}

fn main(rt: HostRuntime) -> io::Result<ExitCode> {
    let mut lines = 0u32;
    let mut wrong = 0u32;
    for line in rt.lines(rt.alloc()) {
        let line = line?;
        if line.is_empty() || line.starts_with('#') {
            continue;
        }
        lines = lines.saturating_add(1);
        if let Some(found) = failure(rt.alloc(), line.as_str())? {
            wrong = wrong.saturating_add(1);
            println!(rt; "{}\n  finds: {found}", line.as_str())?;
        }
    }
    println!(rt; "{lines} lines, {wrong} wrong")?;
    if wrong == 0 {
        Ok(ExitCode::SUCCESS)
    } else {
        Ok(ExitCode::FAILURE)
    }
}
