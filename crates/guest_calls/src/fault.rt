//! Why no guest starts, or takes no part of a checkpoint.

ghost use Rattle.std.specs.Prelude.{◌≡◌};
ghost use Rattle.guest_calls.specs.declared.fault.OpeningFault.TheVariants as openings;

use rrv_model::refusal;
use thiserror::Error;

/// Why no guest starts from an opening.
#[derive(Clone, Copy, Debug, PartialEq, Eq, Error)]
pub enum OpeningFault {
    /// No state is its opening state.
    #[error("bad opening")]
    BadOpening,
    /// A growth was refused.
    #[error("out of memory")]
    Memory,
}

impl From<refusal::Memory> for OpeningFault {
    ghost from_gives = { λ _ e. e ≡ openings.Memory };

    fn from(_: refusal::Memory) -> Self {
        OpeningFault::Memory
    }
}

/// Why a page wasn't put into a guest's memory. All is then as before.
#[derive(Clone, Copy, Debug, PartialEq, Eq, Error)]
pub enum SetPageFault {
    /// No state has such a page.
    #[error("no state has this page")]
    NoState,
    /// More pages would be mapped than a guest may have.
    #[error("too many pages")]
    TooManyPages,
    /// A growth was refused.
    #[error("out of memory")]
    Memory,
}

/// Why a guest didn't take the rest of a checkpoint. All is then as before.
#[derive(Clone, Copy, Debug, PartialEq, Eq, Error)]
pub enum SetRestFault {
    /// It makes no state of the guest's memory and opening break.
    #[error("no state has this rest")]
    NoState,
    /// A growth was refused.
    #[error("out of memory")]
    Memory,
}
