//! Why an address space refuses.

use page_tables::PutFault;
use thiserror::Error;

/// Why a call on an address space was refused: the first of these that applies to any byte. All is then as before.
#[derive(Clone, Copy, Debug, PartialEq, Eq, Error)]
pub enum PageFault {
    /// A byte isn't there.
    #[error("not mapped")]
    NotMapped,
    /// The permissions of a byte forbid it.
    #[error("not allowed")]
    NotAllowed,
    /// More pages would be mapped than a guest may have.
    #[error("too many pages")]
    TooManyPages,
    /// A growth was refused.
    #[error("out of memory")]
    Memory,
}

/// A write into a page is refused as a store is.
impl From<PutFault> for PageFault {
    ghost use Rattle.std.specs.Prelude.{◌≡◌};
    ghost use Rattle.guest_pages.specs.Space.{fault_for};

    ghost from_gives = { λ fault e. e ≡ fault_for fault };

    fn from(fault: PutFault) -> PageFault {
        match fault {
            PutFault::NotMapped => PageFault::NotMapped,
            PutFault::NotAllowed => PageFault::NotAllowed,
            PutFault::Memory => PageFault::Memory,
        }
    }
}
