//! Output that waits for its records, and leaves in parts.

ghost use Rattle.std.specs.Prelude.{[]};

use super::same;
use guest_calls::Put;
use recorder::{MemSink, Outputs};
use rrv_model::sequence::Sequence;
use rrv_model::sink::{Sink, SinkError};
use std::alloc::Global;
use std::process::Abort;
use std::sync::Wait;
use std::test::Fail;

/// A sink that takes two bytes at once at most, and refuses one call, counted from 1.
#[derive(Drop)]
struct Reluctant {
    inner: MemSink,
    calls: u64,
    refuses: u64,
    failures: u64,
}

impl Sink for Reluctant {
    ghost tells = { λ _. ⊥ };

    ghost taken = { λ _. [] };

    ghost faults = { λ s. s.failures };

    fn put(&mut self, rt: &impl Wait, descriptor: u32, bytes: &[u8]) -> Result<usize, SinkError> {
        self.calls = self.calls.saturating_add(1);
        let part = &bytes[..bytes.len().min(2)];
        if self.calls == self.refuses || self.inner.put(rt, descriptor, part).is_err() {
            self.failures = self.failures.saturating_add(1);
            return Err(SinkError);
        }
        Ok(part.len())
    }

    fn failures(&self) -> u64 {
        self.failures
    }
}

fn put_of(alloc: Global, descriptor: u32, bytes: &[u8]) -> Result<Put, Fail> {
    let bytes = Vec::from_slice(alloc, bytes)?;
    Ok(Put {
        descriptor,
        bytes: Sequence::from_vec(bytes),
    })
}

/// The sink took these puts.
fn took(rt: &impl Abort, sink: &MemSink, want: &[(u32, &[u8])]) {
    same(rt, &"puts", sink.puts().len(), want.len());
    for (put, want) in sink.puts().iter().zip(want) {
        same(rt, want, (put.descriptor, put.bytes.as_slice()), *want);
    }
}

// The records have five bytes, none, and two. The sink refuses its second call, and later goes on at the third byte.
#[test]
fn goes_on_at_the_first_byte_not_taken(rt: HostRuntime) -> Result<(), Fail> {
    let alloc = rt.alloc();
    let mut sink = Reluctant {
        inner: MemSink::new(alloc),
        calls: 0,
        refuses: 2,
        failures: 0,
    };
    let mut outputs = Outputs::new(alloc);
    outputs.reserve(1)?;
    outputs.push(put_of(alloc, 1, b"hello")?);
    outputs.reserve(1)?;
    outputs.push(put_of(alloc, 1, b"")?);
    outputs.reserve(1)?;
    outputs.push(put_of(alloc, 2, b"no")?);
    same(
        &rt,
        &"first",
        outputs.release(&rt, &mut sink, 2),
        (2, false),
    );
    same(&rt, &"failures", sink.failures(), 1);
    same(&rt, &"released", outputs.released(), 0);
    took(&rt, &sink.inner, &[(1, b"he")]);
    same(
        &rt,
        &"second",
        outputs.release(&rt, &mut sink, 2),
        (3, true),
    );
    same(&rt, &"released", outputs.released(), 2);
    took(&rt, &sink.inner, &[(1, b"he"), (1, b"ll"), (1, b"o")]);
    same(&rt, &"third", outputs.release(&rt, &mut sink, 3), (2, true));
    took(
        &rt,
        &sink.inner,
        &[(1, b"he"), (1, b"ll"), (1, b"o"), (2, b"no")],
    );
    Ok(())
}
