//! What a line came to that was done.

ghost use Rattle.std.specs.Prelude.{◌≡◌};
ghost use Rattle.std.specs.List.{list_any};
ghost use Rattle.recording.specs.Outcomes.{has_failed, has_succeeded, outcome_of};

use rrv_model::machine::GuestEnd;
use session::GuestReport;

/// What a line came to that was done.
#[derive(Clone, Copy, Debug, PartialEq, Eq)]
pub enum Outcome {
    Done,
    /// All was done, and a guest failed, which the status is to tell.
    GuestFailed,
}

impl Outcome {
    /// What a recording with these reports came to, where `tells` says whether a guest that failed is to be told.
    pub(crate) fn of_reports(reports: &[GuestReport], tells: bool) -> Self
        ensures { result ≡ outcome_of tells reports.now }
    {
        if tells && any_failed(reports) {
            Outcome::GuestFailed
        } else {
            Outcome::Done
        }
    }

    /// The exit status.
    pub fn status(self) -> u8
        ensures done { self ≡ Outcome.Done → result ≡ 0 }
        ensures failed { self ≡ Outcome.GuestFailed → result ≡ 3 }
    {
        match self {
            Outcome::Done => 0,
            Outcome::GuestFailed => 3,
        }
    }
}

/// Tests whether some guest ended otherwise than by an exit with 0, or not at all.
fn any_failed(reports: &[GuestReport]) -> bool
    ensures { result ≡ list_any has_failed reports.now }
{
    reports.iter().any(|report| !has_succeeded(report.end))
}

/// Tests whether a guest ended by an exit with 0.
fn has_succeeded(end: Option<GuestEnd>) -> bool
    ensures { result ≡ has_succeeded end }
{
    match end {
        Some(GuestEnd::Exited(status)) => status == 0,
        _ => false,
    }
}
