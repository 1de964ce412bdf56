//! Why a call of a group was refused.

ghost use Rattle.std.specs.Prelude.{◌≡◌};
ghost use Rattle.commit_group.specs.declared.fault.FlushFault.TheVariants.{Memory};

use rrv_model::refusal::Memory;
use thiserror::Error;

/// Why an item was not sent: of those that apply the greatest.
#[derive(Clone, Copy, Debug, PartialEq, Eq, Error)]
pub enum SubmitFault {
    /// The queue held 256 records.
    #[error("queue is full")]
    Full,
    /// The flusher has halted.
    #[error("halted")]
    Halted,
    /// The seat has left.
    #[error("left")]
    Left,
}

/// Why a turn of the flusher was refused.
#[derive(Clone, Copy, Debug, PartialEq, Eq, Error)]
pub enum FlushFault {
    /// A call of the disk failed. The group is halted.
    #[error("device failed")]
    DeviceFailed,
    /// The group was halted earlier.
    #[error("halted")]
    Halted,
    /// The store or the number of segments would pass its limit. The group is halted.
    #[error("too long")]
    TooLong,
    /// A record of the batch may stand only behind the Mark, and the log doesn't hold it. The group is halted.
    #[error("store needs the mark")]
    NeedsMark,
    /// There was no memory. What was received waits for the next turn.
    #[error("out of memory")]
    Memory,
}

impl From<Memory> for FlushFault {
    ghost from_gives = { λ _ e. e ≡ Memory };

    fn from(_: Memory) -> Self {
        FlushFault::Memory
    }
}
