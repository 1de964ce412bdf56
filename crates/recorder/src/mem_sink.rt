//! A sink in memory.

ghost use Rattle.std.specs.Prelude.{◌≡◌, ◌∷◌, [], ◌++◌, OnOk, OnErr};
ghost use Rattle.recorder.specs.Owed.{bytes_of};

use guest_calls::Put;
use rrv_model::sequence::Sequence;
use rrv_model::sink::{Sink, SinkError};
use std::alloc::{AllocError, Global};
use std::sync::Wait;

/// A sink that keeps all that it takes, and refuses only what finds no memory.
#[derive(Drop)]
pub struct MemSink {
    puts: Vec<Put>,
    failures: u64,
}

impl MemSink {
    /// A sink that took nothing.
    pub fn new(alloc: Global) -> MemSink
        ensures { (result.puts.items ≡ []) × (result.failures ≡ 0) }
    {
        MemSink {
            puts: Vec::new(alloc),
            failures: 0,
        }
    }

    /// What it took, in order: each put's descriptor and bytes.
    pub fn puts(&self) -> &[Put]
        ensures { result.now ≡ self.now.puts.items }
    {
        &self.puts
    }

    fn keep(&mut self, descriptor: u32, bytes: &[u8]) -> Result<(), AllocError>
        ensures kept { OnOk result (self.new.puts.items
            ≡ self.old.puts.items ++ record { descriptor = descriptor; bytes = bytes.now } ∷ []) }
        ensures same { OnErr result (self.new.puts.items ≡ self.old.puts.items) }
        ensures failures { self.new.failures ≡ self.old.failures }
    {
        let alloc = *self.puts.allocator();
        let kept = Vec::from_slice(alloc, bytes)?;
        self.puts.reserve(1)?;
        self.puts.push_reserved(Put {
            descriptor,
            bytes: Sequence::from_vec(kept),
        });
        Ok(())
    }
}

impl Sink for MemSink {
    ghost use Rattle.std.specs.Prelude.{flat_map};
    ghost use Rattle.recorder.specs.Owed.{bytes_of};

    ghost tells = { λ _. Unit {0} };

    ghost taken = { λ s. flat_map bytes_of s.puts.items };

    ghost faults = { λ s. s.failures };

    fn put(&mut self, _rt: &impl Wait, descriptor: u32, bytes: &[u8]) -> Result<usize, SinkError> {
        match self.keep(descriptor, bytes) {
            Ok(()) => Ok(bytes.len()),
            Err(_) => {
                self.failures = self.failures.saturating_add(1);
                Err(SinkError)
            }
        }
    }

    fn failures(&self) -> u64 {
        self.failures
    }
}
