//! A stream before whose bytes a line is cleared.

use std::io;
use std::io::Write;
use std::sync::atomic::{AtomicBool, Ordering};

/// Goes back to the start of a terminal's line, and clears it.
const CLEAR: &[u8] = b"\r\x1b[K";

/// A stream that shares a line with others. Whoever writes first after a line was shown clears it before.
#[derive(Drop)]
pub struct Clearing<'a, W: Write + Drop> {
    inner: W,
    is_shown: &'a AtomicBool,
    clears: bool,
}

impl<'a, W: Write + Drop> Clearing<'a, W> {
    /// This stream, where `is_shown` says whether a line is shown. It clears the line where `clears` says so: so does the stream that
    /// the line was written to, and so may one that leads to the same terminal.
    pub fn new(inner: W, is_shown: &'a AtomicBool, clears: bool) -> Self {
        Clearing {
            inner,
            is_shown,
            clears,
        }
    }

    /// Clears the line, where it is shown. What the stream refuses is dropped.
    pub fn clear(&mut self) {
        if self.clears && self.is_shown.swap(false, Ordering::SeqCst) {
            let _ = self.inner.write_all(CLEAR);
            let _ = self.inner.flush();
        }
    }
}

impl<W: Write + Drop> Write for Clearing<'_, W> {
    fn write(&mut self, bytes: &[u8]) -> io::Result<usize> {
        self.clear();
        self.inner.write(bytes)
    }

    fn flush(&mut self) -> io::Result<()> {
        self.inner.flush()
    }
}
