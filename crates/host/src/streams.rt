//! The two streams that the output of all guests goes to.

ghost use Rattle.std.specs.Prelude.{◌≡◌, ◌≢◌, ◌≤◌, [], length, take, IfOk, OnErr};
ghost use Rattle.host.specs.LastBytes.{KeepsLast, is_open, none_put, with_last};
ghost use Rattle.host.specs.Written.{Gains};

use rrv_model::sink::{Sink, SinkError};
use std::fmt::Display;
use std::io::Write;
use std::sync::{Mutex, Wait};

/// The last bytes that guests put to the errors' stream, and to either; a newline before the first.
#[derive(Clone, Copy, Debug, PartialEq, Eq)]
struct LastBytes {
    error: u8,
    either: u8,
}

impl LastBytes {
    /// With a byte that was put to the stream of a descriptor.
    fn with(self, descriptor: u32, byte: u8) -> Self
        ensures { result ≡ with_last self descriptor byte }
    {
        LastBytes {
            error: if descriptor == 2 { byte } else { self.error },
            either: byte,
        }
    }
}

/// A stream for the output of guests, and one for their errors.
#[derive(Drop)]
pub struct Streams<O: Write + Drop, E: Write + Drop> {
    output: O,
    error: E,
    last: LastBytes,
}

impl<O: Write + Drop, E: Write + Drop> Streams<O, E> {
    /// These two.
    pub fn new(output: O, error: E) -> Self
        ensures output { result.output ≡ output }
        ensures error { result.error ≡ error }
        ensures last { result.last ≡ none_put }
    {
        Streams {
            output,
            error,
            last: LastBytes {
                error: b'\n',
                either: b'\n',
            },
        }
    }

    /// The two again, the output first.
    pub fn into_parts(self) -> (O, E)
        ensures output { result.0 ≡ self.output }
        ensures error { result.1 ≡ self.error }
    {
        let Streams { output, error, .. } = self;
        (output, error)
    }

    /// Whether guests left a line open on the errors' stream, behind which a newline is missing; or, where both streams lead to one place,
    /// on the one that they put to last.
    pub fn is_open(&self, is_one_place: bool) -> bool
        ensures { result ≡ is_open self.now.last is_one_place }
    {
        let last = if is_one_place {
            self.last.either
        } else {
            self.last.error
        };
        last != b'\n'
    }

    /// Writes a text to the errors' stream, and flushes it. What the stream refuses is dropped.
    pub fn note<T: Display>(&mut self, text: &T)
        ensures output { self.new.output ≡ self.old.output }
        ensures last { self.new.last ≡ self.old.last }
    {
        let _ = write!(self.error, "{text}");
        let _ = self.error.flush();
    }

    /// Writes a beginning of the bytes, at least one, to the stream of a descriptor, and answers its length: 2 is the errors' one,
    /// any other the output's. The other stream is left alone.
    fn put(&mut self, descriptor: u32, bytes: &[u8]) -> Result<usize, SinkError>
        requires { 1 ≤ length bytes.now }
        ensures length { IfOk result (λ count. (1 ≤ count) × (count ≤ length bytes.now)) }
        ensures output { descriptor ≢ 2 → (self.new.error ≡ self.old.error)
            × Gains (O.contents self.old.output) (O.contents self.new.output) result bytes.now }
        ensures error { descriptor ≡ 2 → (self.new.output ≡ self.old.output)
            × Gains (E.contents self.old.error) (E.contents self.new.error) result bytes.now }
        ensures last { KeepsLast self.old.last descriptor bytes.now result self.new.last }
    {
        let put = self.write(descriptor, bytes);
        if let Ok(count) = put {
            self.last = self.last.with(descriptor, bytes[count - 1]);
        }
        put
    }

    /// The same, of which the last byte isn't kept.
    fn write(&mut self, descriptor: u32, bytes: &[u8]) -> Result<usize, SinkError>
        requires { 1 ≤ length bytes.now }
        ensures length { IfOk result (λ count. (1 ≤ count) × (count ≤ length bytes.now)) }
        ensures output { descriptor ≢ 2 → (self.new.error ≡ self.old.error)
            × Gains (O.contents self.old.output) (O.contents self.new.output) result bytes.now }
        ensures error { descriptor ≡ 2 → (self.new.output ≡ self.old.output)
            × Gains (E.contents self.old.error) (E.contents self.new.error) result bytes.now }
        ensures last { self.new.last ≡ self.old.last }
    {
        if descriptor == 2 {
            write_out(&mut self.error, bytes)
        } else {
            write_out(&mut self.output, bytes)
        }
    }
}

/// Writes a beginning of the bytes, at least one, flushes, and answers its length. A refused write or flush is an error.
fn write_out<W: Write>(writer: &mut W, bytes: &[u8]) -> Result<usize, SinkError>
    requires { 1 ≤ length bytes.now }
    ensures length { IfOk result (λ count. (1 ≤ count) × (count ≤ length bytes.now)) }
    ensures gains { Gains (W.contents writer.old) (W.contents writer.new) result bytes.now }
{
    let count = match writer.write(bytes) {
        Ok(count) => count,
        Err(_) => return Err(SinkError),
    };
    if count == 0 || writer.flush().is_err() {
        return Err(SinkError);
    }
    Ok(count)
}

/// The sink of one guest, over streams that it shares with others: each put is made alone, under the lock.
#[derive(Drop)]
pub struct StreamSink<'a, O: Write + Drop, E: Write + Drop> {
    streams: &'a Mutex<Streams<O, E>>,
    failures: u64,
}

impl<'a, O: Write + Drop, E: Write + Drop> StreamSink<'a, O, E> {
    /// A sink over these streams, of which no call has failed.
    pub fn new(streams: &'a Mutex<Streams<O, E>>) -> Self
        ensures { result.failures ≡ 0 }
    {
        StreamSink {
            streams,
            failures: 0,
        }
    }
}

/// A put has been written and flushed when it answers how many bytes. It fails where the writer refuses the write, also an
/// interrupted one, takes no byte, or refuses the flush. Of a put that failed at the flush a writer may hold bytes, and they leave
/// twice where they are put again. The standard streams hold none.
impl<O: Write + Drop, E: Write + Drop> Sink for StreamSink<'_, O, E> {
    ghost tells = { λ _. ⊥ };

    ghost taken = { λ _. [] };

    ghost faults = { λ s. s.failures };

    fn put(&mut self, rt: &impl Wait, descriptor: u32, bytes: &[u8]) -> Result<usize, SinkError> {
        let put = self.streams.lock(rt).put(descriptor, bytes);
        if put.is_err() {
            self.failures = self.failures.saturating_add(1);
        }
        put
    }

    fn failures(&self) -> u64 {
        self.failures
    }
}
