//! Why records were not verified, or their output was not put out.

ghost use Rattle.std.specs.Prelude.{◌≡◌};
ghost use Rattle.faults.specs.declared.replay.ClaimFault.TheVariants as claim_faults;
ghost use Rattle.faults.specs.declared.replay.OutputFault.TheVariants as output_faults;
ghost use Rattle.faults.specs.declared.replay.VerifyFault.TheVariants as verify_faults;

use outcomes::refusal;
use std::alloc::{AllocError, AllocFailed};
use thiserror::Error;

/// Why records are no recording, by the first that is bad or isn't read.
#[derive(Clone, Copy, Debug, PartialEq, Eq, Error)]
pub enum VerifyFault {
    /// A record doesn't follow from those before it.
    #[error("record {index} does not replay")]
    Mismatch { index: usize },
    /// The parts of which this record is the last don't describe the state there.
    #[error("checkpoint {index} is wrong")]
    BadCheckpoint { index: usize },
    /// The first record is no opening of a guest.
    #[error("bad opening")]
    BadOpening,
    /// The source gave no record here.
    #[error("record {index} unreadable")]
    Unreadable { index: usize },
    /// A growth was refused.
    #[error("out of memory")]
    Memory,
}

impl From<AllocError> for VerifyFault {
    ghost from_gives = { λ _ e. e ≡ verify_faults.Memory };

    fn from(_: AllocError) -> Self {
        VerifyFault::Memory
    }
}

impl<T: Drop> From<AllocFailed<T>> for VerifyFault {
    ghost from_gives = { λ _ e. e ≡ verify_faults.Memory };

    fn from(_: AllocFailed<T>) -> Self {
        VerifyFault::Memory
    }
}

impl From<refusal::Memory> for VerifyFault {
    ghost from_gives = { λ _ e. e ≡ verify_faults.Memory };

    fn from(_: refusal::Memory) -> Self {
        VerifyFault::Memory
    }
}

/// Why checkpoints among records claim nothing of where a guest stands behind them.
#[derive(Clone, Copy, Debug, PartialEq, Eq, Error)]
pub enum ClaimFault {
    /// A record can't lead on, whatever the state before it is.
    #[error("record leads nowhere")]
    LeadsNowhere,
    /// A growth was refused.
    #[error("out of memory")]
    Memory,
}

impl<T: Drop> From<AllocFailed<T>> for ClaimFault {
    ghost from_gives = { λ _ e. e ≡ claim_faults.Memory };

    fn from(_: AllocFailed<T>) -> Self {
        ClaimFault::Memory
    }
}

impl From<refusal::Memory> for ClaimFault {
    ghost from_gives = { λ _ e. e ≡ claim_faults.Memory };

    fn from(_: refusal::Memory) -> Self {
        ClaimFault::Memory
    }
}

/// Why not all output was put out.
#[derive(Clone, Copy, Debug, PartialEq, Eq, Error)]
pub enum OutputFault {
    /// The sink took no byte.
    #[error("output failed")]
    SinkFailed,
    /// A growth was refused.
    #[error("out of memory")]
    Memory,
}

impl From<refusal::Memory> for OutputFault {
    ghost from_gives = { λ _ e. e ≡ output_faults.Memory };

    fn from(_: refusal::Memory) -> Self {
        OutputFault::Memory
    }
}
