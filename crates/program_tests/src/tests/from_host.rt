//! What guests get from the host: clocks, shared streams, and clocks and writers that fail.

ghost use Rattle.std.specs.Prelude.{◌≤◌, length};

use super::same;
use guest_calls::Outside;
use host::{HostOutside, Patient, StreamSink, Streams};
use rrv_model::sink::{Sink, SinkError};
use std::io;
use std::io::{ErrorKind, Write};
use std::process::Abort;
use std::sync::{Mutex, Wait};
use std::test::Fail;
use std::time::{Clock, Duration, Instant};

/// Clocks that stand still. One that is missing fails.
#[derive(Drop)]
struct Still(Option<Duration>, Option<Duration>);

impl Clock for Still {
    fn monotonic(&self) -> io::Result<Duration> {
        self.0.ok_or(io::Error::from(ErrorKind::Other))
    }

    fn since_1970(&self) -> io::Result<Duration> {
        self.1.ok_or(io::Error::from(ErrorKind::Other))
    }
}

/// A writer that takes two bytes at most. Its second write is refused, and its second flush.
#[derive(Drop)]
struct Fitful {
    writes: u32,
    flushes: u32,
}

impl Write for Fitful {
    fn write(&mut self, bytes: &[u8]) -> io::Result<usize> {
        self.writes = self.writes.saturating_add(1);
        if self.writes == 2 {
            return Err(io::Error::from(ErrorKind::Other));
        }
        Ok(bytes.len().min(2))
    }

    fn flush(&mut self) -> io::Result<()> {
        self.flushes = self.flushes.saturating_add(1);
        if self.flushes == 2 {
            return Err(io::Error::from(ErrorKind::Other));
        }
        Ok(())
    }
}

/// A writer that is interrupted, would then have to wait twice, and takes two bytes at most then.
#[derive(Drop)]
struct Slow(u32);

impl Write for Slow {
    fn write(&mut self, bytes: &[u8]) -> io::Result<usize> {
        self.0 = self.0.saturating_add(1);
        match self.0 {
            1 => Err(io::Error::from(ErrorKind::Interrupted)),
            2 | 3 => Err(io::Error::from(ErrorKind::WouldBlock)),
            _ => Ok(bytes.len().min(2)),
        }
    }

    fn flush(&mut self) -> io::Result<()> {
        Ok(())
    }
}

fn put<S: Sink + Drop + Send, R: Abort + Wait>(
    rt: &R,
    sink: &mut S,
    descriptor: u32,
    bytes: &[u8],
    want: Result<usize, SinkError>,
    failures: u64,
)
    requires { 1 ≤ length bytes.now }
{
    same(rt, &descriptor, sink.put(rt, descriptor, bytes), want);
    same(rt, &"failures", sink.failures(), failures);
}

#[test]
fn clocks_count_from_1970_and_from_the_start(rt: HostRuntime) -> Result<(), Fail> {
    let start = Instant::now(&Still(Some(Duration::from_millis(5_000)), None))?;
    let later = Still(
        Some(Duration::from_millis(7_250)),
        Some(Duration::from_millis(1_700_000_000_001)),
    );
    let mut machine = HostOutside::new(&later, start, &[], &[0; 16], 0);
    same(&rt, &"monotonic", machine.now(1), (2, 250_000_000));
    same(&rt, &"real", machine.now(0), (1_700_000_000, 1_000_000));
    let failing = Still(None, None);
    let mut machine = HostOutside::new(&failing, start, &[], &[0; 16], 0);
    same(&rt, &"failing", machine.now(1), (0, 0));
    same(&rt, &"failing", machine.now(0), (0, 0));
    Ok(())
}

#[test]
fn sinks_share_their_streams(rt: HostRuntime) {
    let streams = Mutex::new(Streams::new(Vec::new(rt.alloc()), Vec::new(rt.alloc())));
    let mut first = StreamSink::new(&streams);
    let mut second = StreamSink::new(&streams);
    put(&rt, &mut first, 1, b"ab", Ok(2), 0);
    put(&rt, &mut second, 2, b"w", Ok(1), 0);
    put(&rt, &mut second, 1, b"cde", Ok(3), 0);
    put(&rt, &mut first, 2, b"xyz", Ok(3), 0);
    let (output, error) = streams.into_inner().into_parts();
    same(&rt, &"output", output.as_slice(), b"abcde");
    same(&rt, &"error", error.as_slice(), b"wxyz");
}

#[test]
fn a_slow_stream_is_waited_for(rt: HostRuntime) {
    let patient = Patient::new(&rt, Slow(0));
    let streams = Mutex::new(Streams::new(patient, Vec::new(rt.alloc())));
    let mut sink = StreamSink::new(&streams);
    put(&rt, &mut sink, 1, b"abc", Ok(2), 0);
    put(&rt, &mut sink, 1, b"c", Ok(1), 0);
}

#[test]
fn a_patient_stream_tells_other_errors(rt: HostRuntime) {
    let fitful = Fitful {
        writes: 0,
        flushes: 0,
    };
    let mut patient = Patient::new(&rt, fitful);
    same(&rt, &"first", patient.write(b"abc").ok(), Some(2));
    same(&rt, &"second", patient.write(b"c").ok(), None);
    same(&rt, &"flush", patient.flush().is_ok(), true);
    same(&rt, &"second flush", patient.flush().is_ok(), false);
}

#[test]
fn refused_writes_and_flushes_are_counted(rt: HostRuntime) {
    let fitful = Fitful {
        writes: 0,
        flushes: 0,
    };
    let streams = Mutex::new(Streams::new(fitful, Vec::new(rt.alloc())));
    let mut sink = StreamSink::new(&streams);
    put(&rt, &mut sink, 1, b"abc", Ok(2), 0);
    put(&rt, &mut sink, 1, b"c", Err(SinkError), 1);
    put(&rt, &mut sink, 1, b"c", Err(SinkError), 2);
    put(&rt, &mut sink, 1, b"c", Ok(1), 2);
    put(&rt, &mut sink, 2, b"d", Ok(1), 2);
}
