//! Why a guest was not copied, or not whole.

ghost use Rattle.std.specs.Prelude.{◌≡◌};
ghost use Rattle.copying.specs.declared.fault.CopyFault.TheVariants as faults;

use recover::ReadFault;
use rrv_model::refusal;
use std::alloc::AllocError;
use thiserror::Error;

/// Why a guest was not copied. Only after `TooManyGuests` is it certain that nothing was committed; else a beginning may have been.
#[derive(Clone, Copy, Debug, PartialEq, Eq, Error)]
pub enum CopyFault {
    /// A record of the guest could not be read.
    #[error("record {index}: {fault}")]
    Unread { index: u32, fault: ReadFault },
    /// A call of the log's disk failed. The log is broken from then on.
    #[error("device failed")]
    DeviceFailed,
    /// The log's store is as long as it may be.
    #[error("store full")]
    StoreFull,
    /// The guest has a record that may stand only behind the Mark, and the log doesn't hold it.
    #[error("store needs the mark")]
    NeedsMark,
    /// The guest would have a number past the greatest.
    #[error("too many guests")]
    TooManyGuests,
    /// A growth was refused.
    #[error("out of memory")]
    Memory,
}

impl From<AllocError> for CopyFault {
    ghost from_gives = { λ _ e. e ≡ faults.Memory };

    fn from(_: AllocError) -> Self {
        CopyFault::Memory
    }
}

impl From<refusal::Memory> for CopyFault {
    ghost from_gives = { λ _ e. e ≡ faults.Memory };

    fn from(_: refusal::Memory) -> Self {
        CopyFault::Memory
    }
}
