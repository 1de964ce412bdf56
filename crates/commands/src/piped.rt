//! Output whose reader may go away.

ghost use Rattle.std.specs.Prelude.{◌≡◌, false, true};
ghost use Rattle.line_io.specs.Told.{gone_told};

use line_io::Refusal;
use std::io;
use std::io::{ErrorKind, Write};

/// A stream that keeps whether its reader went away.
#[derive(Drop)]
pub(crate) struct Piped<'a, W: Write> {
    inner: &'a mut W,
    is_gone: bool,
}

impl<'a, W: Write> Piped<'a, W> {
    /// This stream, whose reader is there.
    pub(crate) fn new(inner: &'a mut W) -> Self
        ensures { result.is_gone ≡ false }
    {
        Piped {
            inner,
            is_gone: false,
        }
    }

    /// How a refusal is told: failed output not at all, where the reader went away.
    pub(crate) fn told(&self, refusal: Refusal) -> Refusal
        ensures gone { self.now.is_gone ≡ true → result ≡ gone_told refusal }
        ensures there { self.now.is_gone ≡ false → result ≡ refusal }
    {
        match refusal {
            Refusal::OutputFailed if self.is_gone => Refusal::ReaderGone,
            other => other,
        }
    }

    /// Keeps what a call came to.
    fn note<T>(&mut self, answer: &io::Result<T>) {
        if let Err(error) = answer {
            if error.kind() == ErrorKind::BrokenPipe {
                self.is_gone = true;
            }
        }
    }
}

impl<W: Write> Write for Piped<'_, W> {
    fn write(&mut self, bytes: &[u8]) -> io::Result<usize> {
        let result = self.inner.write(bytes);
        self.note(&result);
        result
    }

    fn flush(&mut self) -> io::Result<()> {
        let result = self.inner.flush();
        self.note(&result);
        result
    }
}
