//! Lines of input.

use line_io::{FileFault, Refusal};
use std::alloc::Global;
use std::io;
use std::io::{BufRead, BufReader, Read, Take};

/// How many bytes a line has at most.
pub(crate) const MAX_LINE: u64 = 8192;

/// A line of input, without its newline.
#[derive(Drop)]
pub(crate) enum InputLine {
    Text(String),
    /// It has more bytes than a line may have, which are passed over.
    TooLong,
    /// Its bytes are not UTF-8.
    NotText,
}

impl InputLine {
    /// The line of these bytes.
    fn of(bytes: Vec<u8>) -> Self {
        match String::from_utf8(bytes) {
            Ok(text) => InputLine::Text(text),
            Err(_) => InputLine::NotText,
        }
    }
}

/// The lines of a reader, of which one is held at a time.
#[derive(Drop)]
pub(crate) struct InputLines<R: Read + Drop> {
    input: Take<BufReader<R>>,
}

/// The refusal of input that can't be read.
fn unread(error: &io::Error) -> Refusal {
    Refusal::of_file(0, FileFault::of_read(error))
}

impl<R: Read + Drop> InputLines<R> {
    /// The lines that a reader has.
    pub(crate) fn new(alloc: Global, reader: R) -> Result<Self, Refusal> {
        let input = BufReader::new(alloc, reader).map_err(|error| unread(&error))?;
        Ok(InputLines {
            input: input.take(0),
        })
    }

    /// The next line, if there is one. The last may have no newline.
    pub(crate) fn next_line(&mut self, alloc: Global) -> Result<Option<InputLine>, Refusal> {
        let mut bytes = Vec::new(alloc);
        self.input.set_limit(MAX_LINE + 1);
        let count = self
            .input
            .read_until(b'\n', &mut bytes)
            .map_err(|error| unread(&error))?;
        if count == 0 {
            return Ok(None);
        }
        if bytes.last() == Some(&b'\n') {
            bytes.pop();
        } else if count as u64 > MAX_LINE {
            self.pass_line()?;
            return Ok(Some(InputLine::TooLong));
        }
        Ok(Some(InputLine::of(bytes)))
    }

    /// Passes over the rest of a line.
    fn pass_line(&mut self) -> Result<(), Refusal> {
        self.input.set_limit(u64::MAX);
        match self.input.skip_until(b'\n') {
            Ok(_) => Ok(()),
            Err(error) => Err(unread(&error)),
        }
    }
}
