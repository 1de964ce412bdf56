//! How guests are cut into slices, and after how many a run is given up.

use rrv_model::record::Choice;

/// The most instructions in a slice.
pub const QUANTUM: u32 = 50_000;

/// What is chosen each time for a guest of one thread.
pub const CHOICE: Choice = Choice {
    tid: 1,
    quantum: QUANTUM,
};

/// At most so many slices are run.
pub const SLICES: u32 = 1_000_000;
