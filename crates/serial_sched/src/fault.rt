//! Why no slice was run, and why a frame was not followed.

ghost use Rattle.std.specs.Prelude.{◌≡◌};
ghost use Rattle.serial_sched.specs.declared.fault.SliceFault.TheVariants as slice_faults;
ghost use Rattle.serial_sched.specs.declared.fault.FollowFault.TheVariants as follow_faults;

use rrv_model::refusal::Memory;
use thiserror::Error;

/// Why no slice was run. The guest is as before.
#[derive(Clone, Copy, Debug, PartialEq, Eq, Error)]
pub enum SliceFault {
    /// The chosen thread isn't there, or waits.
    #[error("the thread is not runnable")]
    NotRunnable,
    /// The quantum is outside the limits.
    #[error("the quantum is outside the limits")]
    BadQuantum,
    /// The guest has ended.
    #[error("the guest has ended")]
    Ended,
    /// A growth was refused before the first instruction.
    #[error("out of memory")]
    Memory,
    /// No thread runs, and some wait has a timeout.
    #[error("all threads wait, and a wait has a timeout")]
    Waiting,
    /// The thread doesn't wait with a timeout.
    #[error("the thread has no timed wait")]
    NotTimed,
}

/// Why a frame was not followed. The guest is then fit only to be dropped.
#[derive(Clone, Copy, Debug, PartialEq, Eq, Error)]
pub enum FollowFault {
    /// The frame doesn't lead on from this state.
    #[error("the frame leads nowhere")]
    GoesNowhere,
    /// A growth was refused.
    #[error("out of memory")]
    Memory,
}

impl From<Memory> for SliceFault {
    ghost from_gives = { λ _ e. e ≡ slice_faults.Memory };

    fn from(_: Memory) -> Self {
        SliceFault::Memory
    }
}

impl From<Memory> for FollowFault {
    ghost from_gives = { λ _ e. e ≡ follow_faults.Memory };

    fn from(_: Memory) -> Self {
        FollowFault::Memory
    }
}
