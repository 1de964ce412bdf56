//! Why a session was not recorded to its end.

use thiserror::Error;

/// Why a session was not recorded to its end: of those that were met the first in this order, and then of the lowest guest. A
/// guest is told by its place among the jobs, from 0.
#[derive(Clone, Copy, Debug, PartialEq, Eq, Error)]
pub enum SessionFault {
    /// A call of the disk failed.
    #[error("device failed")]
    DeviceFailed,
    /// The guest's sink refused output.
    #[error("guest {guest}: output failed")]
    SinkFailed { guest: u32 },
    /// The guest was refused a step 10,000,000 times in a row.
    #[error("guest {guest}: held")]
    Held { guest: u32 },
    /// A growth was refused. Where no thread can be made this is one.
    #[error("out of memory")]
    Memory,
    /// There are more than 16 guests, or their numbers would pass the greatest.
    #[error("too many guests")]
    TooManyGuests,
    /// The store is as long as it may be.
    #[error("store full")]
    StoreFull,
    /// No guest starts so: the file is refused, or the name.
    #[error("guest {guest}: bad opening")]
    BadOpening { guest: u32 },
    /// The guest is of version 2, and the store doesn't hold the Mark.
    #[error("guest {guest}: store needs the mark")]
    NeedsMark { guest: u32 },
}
