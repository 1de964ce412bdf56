//! Why a cursor didn't move.

ghost use Rattle.std.specs.Prelude.{◌≡◌};
ghost use Rattle.faults.specs.declared.seek.SeekFault.TheVariants as faults;

use outcomes::refusal;
use thiserror::Error;

/// Why a cursor didn't move. It is then as before.
#[derive(Clone, Copy, Debug, PartialEq, Eq, Error)]
pub enum SeekFault {
    /// The place lies before the start.
    #[error("before the start")]
    BeforeStart,
    /// The place lies past the end.
    #[error("past the end")]
    PastEnd,
    /// A growth was refused.
    #[error("out of memory")]
    Memory,
}

impl From<refusal::Memory> for SeekFault {
    ghost from_gives = { λ _ e. e ≡ faults.Memory };

    fn from(_: refusal::Memory) -> Self {
        SeekFault::Memory
    }
}
