//! The end of verified records.

use guest_calls::Guest;

/// Where verified records end, of which nothing else is kept.
#[derive(Drop)]
pub struct VerifiedEnd {
    /// The guest behind the last record.
    pub guest: Guest,
    /// The instructions that all frames count.
    pub total: u64,
    /// How many records there are.
    pub len: usize,
    /// The tid of the last frame that has a thread, which is each but a stuck one; 0 if there is none.
    pub last: u32,
}
