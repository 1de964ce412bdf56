//! What is told of a session that was recorded to its end.

use guest_calls::Guest;
use rrv_model::machine::GuestEnd;

/// What was recorded of a guest.
#[derive(Clone, Copy, Debug, PartialEq, Eq)]
pub struct GuestReport {
    /// Its number in the store.
    pub number: u32,
    pub records: u32,
    /// None where its chooser had no choice left, or it has as many records as it may have.
    pub end: Option<GuestEnd>,
}

/// What was recorded of each guest, in the order of the jobs.
#[derive(Drop)]
pub struct SessionReport {
    pub guests: Vec<GuestReport>,
    /// Each guest, as it is behind the last of its records.
    pub states: Vec<Guest>,
}
