//! The words of a line, and what they name.

use crate::countdown::{LONG, count_down};
use std::env::{self, Env};
use std::rt::Files;
use std::{fs, io};
use test_guests::files::file_of;

/// The words behind the program's name.
pub fn arguments<R: Env + AllocGlobal>(rt: &R) -> io::Result<Vec<String>> {
    let words = env::args(rt)?.skip(1).collect(rt.alloc())?;
    Ok(words)
}

/// The file that a word names, or one of these instructions where there is no word; None where it can't be read, or no memory is left.
pub fn file_or<R: AllocGlobal + Files>(
    rt: &R,
    word: Option<&String>,
    own: &[u32],
) -> Option<Vec<u8>> {
    match word {
        Some(path) => fs::read(rt, path).ok(),
        None => file_of(rt.alloc(), own).ok(),
    }
}

/// A number and a file, or this number and the long countdown where there are no words; None where they are something else.
pub fn number_and_file<R: AllocGlobal + Files>(
    rt: &R,
    words: &[String],
    own: u32,
) -> Option<(u32, Vec<u8>)> {
    let program = count_down(LONG);
    match words {
        [] => Some((own, file_or(rt, None, &program)?)),
        [number, path] => Some((
            number.parse::<u32>().ok()?,
            file_or(rt, Some(path), &program)?,
        )),
        _ => None,
    }
}
