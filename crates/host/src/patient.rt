//! A stream that is waited for.

ghost use Rattle.std.specs.Prelude.{◌≡◌};

use std::io::{ErrorKind, Write};
use std::time::{Clock, Duration};
use std::{io, thread};

/// How many milliseconds pass before a stream that takes nothing is asked again.
const PAUSE: u64 = 1;

/// A stream that takes bytes in the end. A write that a signal interrupted is made again, and so is one that would have to wait, where the
/// stream doesn't wait by itself.
#[derive(Drop)]
pub struct Patient<'a, R: Clock, W: Write + Drop> {
    rt: &'a R,
    inner: W,
}

impl<'a, R: Clock, W: Write + Drop> Patient<'a, R, W> {
    /// This stream.
    pub fn new(rt: &'a R, inner: W) -> Self
        ensures { result.inner ≡ inner }
    {
        Patient { rt, inner }
    }
}

impl<R: Clock, W: Write + Drop> Write for Patient<'_, R, W> {
    ghost contents = { λ p. W.contents p.inner };

    fn write(&mut self, bytes: &[u8]) -> io::Result<usize> {
        'tries: for _ in 0..u64::MAX {
            match self.inner.write(bytes) {
                Err(error) if error.kind() == ErrorKind::Interrupted => {}
                Err(error) if error.kind() == ErrorKind::WouldBlock => {
                    thread::sleep(self.rt, Duration::from_millis(PAUSE));
                }
                result => return result,
            }
        }
        Err(ErrorKind::WouldBlock.into())
    }

    fn flush(&mut self) -> io::Result<()> {
        self.inner.flush()
    }
}
