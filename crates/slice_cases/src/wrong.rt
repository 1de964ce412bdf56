//! Why nothing was found.

use serial_sched::SliceFault;
use std::alloc::AllocError;
use thiserror::Error;

/// Why nothing was found. Frames are counted from 1.
#[derive(Clone, Copy, Debug, PartialEq, Eq, Error)]
pub enum Wrong {
    #[error("out of memory")]
    Memory,
    #[error("the line asks nothing")]
    AsksNothing,
    #[error("the file can't be read")]
    NoFile,
    #[error("the file is no guest")]
    NoGuest,
    #[error("{0}")]
    Refused(SliceFault),
    #[error("frame {0} can't be followed")]
    NotFollowed(usize),
    #[error("frame {0} leads to another thread, count of instructions or output")]
    Differs(usize),
    #[error("another state after {0} frames")]
    EndsDiffer(usize),
    #[error("the guest doesn't end")]
    NoEnd,
    #[error("other slices than the list's")]
    OtherSlices,
    #[error("a choice that fits was left out")]
    LeftOut,
    #[error("the list is done where it has choices, or the other way round")]
    DoneOrNot,
}

impl From<AllocError> for Wrong {
    fn from(_: AllocError) -> Self {
        Wrong::Memory
    }
}
