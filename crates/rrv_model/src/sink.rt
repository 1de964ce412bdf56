//! Where the output of a guest goes.

ghost use Rattle.std.specs.Prelude.{◌≡◌, ◌≤◌, ◌++◌, ◌↔◌, ℕ, List, length, take, IfOk, OnErr};
ghost use Rattle.outcomes.specs.Failures.{IsCounted};
ghost use Rattle.rrv_model.specs.Output.{to_descriptor};

use std::sync::Wait;
use thiserror::Error;

/// A sink took no byte.
#[derive(Clone, Copy, Debug, PartialEq, Eq, Error)]
#[error("output failed")]
pub struct SinkError;

/// A place for bytes, each under the descriptor that a guest wrote it to (1 or 2).
pub trait Sink {
    /// The sink tells which bytes it took, as one in memory does. A terminal tells none.
    ghost tells: { Self → Type 0 };

    /// The bytes that were taken, in order, each with its descriptor.
    ghost taken: { Self → List (ℕ × ℕ) };

    /// How many calls have failed.
    ghost faults: { Self → ℕ };

    /// Takes a beginning of the bytes, at least one, and answers its length. It may wait, for a lock say.
    fn put(&mut self, rt: &impl Wait, descriptor: u32, bytes: &[u8]) -> Result<usize, SinkError>
        requires { 1 ≤ length bytes.now }
        ensures length { IfOk result (λ count. (1 ≤ count) × (count ≤ length bytes.now)) }
        ensures took { tells self.old → IfOk result (λ count.
            taken self.new ≡ taken self.old ++ to_descriptor descriptor (take count bytes.now)) }
        ensures refused { tells self.old → OnErr result (taken self.new ≡ taken self.old) }
        ensures tells { tells self.new ↔ tells self.old }
        ensures counted { IsCounted result (faults self.old) (faults self.new) };

    /// How many calls have failed, up to 2^64 - 1.
    fn failures(&self) -> u64
        ensures { result ≡ faults self.now };
}
