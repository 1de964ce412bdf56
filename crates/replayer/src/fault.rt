//! Why records were not verified, or their output was not put out.

ghost use Rattle.std.specs.Prelude.{◌≡◌};
ghost use Rattle.replayer.specs.Refusals.{opening_told};

pub use faults::{ClaimFault, OutputFault, VerifyFault};
use guest_calls::OpeningFault;

/// Why records are no recording from whose first no guest starts.
pub(crate) fn of_opening(fault: OpeningFault) -> VerifyFault
    ensures { result ≡ opening_told fault }
{
    match fault {
        OpeningFault::BadOpening => VerifyFault::BadOpening,
        OpeningFault::Memory => VerifyFault::Memory,
    }
}
