//! Why a recorder didn't go on.

ghost use Rattle.std.specs.Prelude.{◌≡◌};
ghost use Rattle.recorder.specs.Told.{slice_told};
ghost use Rattle.recorder.specs.declared.fault.RecorderFault.TheVariants as faults;

use rrv_model::refusal;
use serial_sched::SliceFault;
use std::alloc::AllocError;
use thiserror::Error;

/// Why a recorder didn't do what it was asked to. What it made and didn't send stays, and so does output that wasn't taken.
#[derive(Clone, Copy, Debug, PartialEq, Eq, Error)]
pub enum RecorderFault {
    /// The flusher has halted: nothing more is sent.
    #[error("the flusher has halted")]
    Halted,
    /// The sink refused, after so many bytes of this call.
    #[error("output failed after {taken} bytes")]
    SinkFailed { taken: u64 },
    /// A record waits to be sent, and there is no place for another.
    #[error("a record waits to be sent")]
    Full,
    /// There was no memory.
    #[error("out of memory")]
    Memory,
    /// The slice was refused.
    #[error("{0}")]
    Refused(SliceFault),
    /// There are as many records as a guest may have.
    #[error("too many records")]
    TooManyRecords,
    /// No guest starts so.
    #[error("bad opening")]
    BadOpening,
}

impl From<AllocError> for RecorderFault {
    ghost from_gives = { λ _ e. e ≡ faults.Memory };

    fn from(_: AllocError) -> Self {
        RecorderFault::Memory
    }
}

impl From<refusal::Memory> for RecorderFault {
    ghost from_gives = { λ _ e. e ≡ faults.Memory };

    fn from(_: refusal::Memory) -> Self {
        RecorderFault::Memory
    }
}

impl From<SliceFault> for RecorderFault {
    ghost from_gives = { λ fault e. e ≡ slice_told fault };

    fn from(fault: SliceFault) -> Self {
        match fault {
            SliceFault::Memory => RecorderFault::Memory,
            other => RecorderFault::Refused(other),
        }
    }
}
