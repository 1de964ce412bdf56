//! A sink of which one call fails.

ghost use Rattle.std.specs.Prelude.{[]};

use guest_calls::Put;
use recorder::MemSink;
use rrv_model::sink::{Sink, SinkError};
use std::alloc::Global;
use std::sync::Wait;

/// A sink whose k-th call fails and takes nothing; all others pass to a sink in memory. With 0 for k none fails.
#[derive(Drop)]
pub(super) struct FailSink {
    inner: MemSink,
    calls_left: u64,
    failures: u64,
}

impl FailSink {
    /// The k-th call from now on will fail.
    pub(super) fn new(alloc: Global, k: u64) -> FailSink {
        FailSink {
            inner: MemSink::new(alloc),
            calls_left: k,
            failures: 0,
        }
    }

    /// What it took, in order.
    pub(super) fn puts(&self) -> &[Put] {
        self.inner.puts()
    }
}

impl Sink for FailSink {
    ghost tells = { λ _. ⊥ };

    ghost taken = { λ _. [] };

    ghost faults = { λ s. s.failures };

    fn put(&mut self, rt: &impl Wait, descriptor: u32, bytes: &[u8]) -> Result<usize, SinkError> {
        let is_due = self.calls_left == 1;
        self.calls_left = self.calls_left.saturating_sub(1);
        if is_due || self.inner.put(rt, descriptor, bytes).is_err() {
            self.failures = self.failures.saturating_add(1);
            return Err(SinkError);
        }
        Ok(bytes.len())
    }

    fn failures(&self) -> u64 {
        self.failures
    }
}
