//! Why parts are not put onto a state.

ghost use Rattle.std.specs.Prelude.{◌≡◌};
ghost use Rattle.checkpoint.specs.Applies.{apply_told};

use guest_calls::SetRestFault;
use thiserror::Error;

/// Why parts are not put onto a state: the first in this order. The guest is as before after `BadPart` alone; after the
/// others it is fit only to be dropped.
#[derive(Clone, Copy, Debug, PartialEq, Eq, Error)]
pub enum ApplyFault {
    /// They describe no state, the limit on its pages aside.
    #[error("the parts describe no state")]
    BadPart,
    /// More pages would be mapped than a guest may have.
    #[error("too many pages")]
    TooManyPages,
    /// A growth was refused.
    #[error("out of memory")]
    Memory,
}

impl From<SetRestFault> for ApplyFault {
    ghost from_gives = { λ fault e. e ≡ apply_told fault };

    fn from(fault: SetRestFault) -> Self {
        match fault {
            SetRestFault::NoState => ApplyFault::BadPart,
            SetRestFault::Memory => ApplyFault::Memory,
        }
    }
}
