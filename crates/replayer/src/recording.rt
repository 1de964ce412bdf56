//! What is kept of a recording.

ghost use Rattle.std.specs.Prelude.{◌≡◌, ◌≤◌, ◌*◌, ◌^◌};
ghost use Rattle.rrv_model.specs.StateAt.{total};

use rrv_model::record::{Frame, Opening, Part};
use rrv_model::sequence::Sequence;

/// A complete checkpoint, behind so many frames, which take so many instructions.
#[derive(Drop)]
pub(crate) struct Mark {
    pub(crate) frames: usize,
    pub(crate) at: u64,
    pub(crate) parts: Sequence<Part>,
}

/// What leads to each state of a recording.
#[derive(Drop)]
pub(crate) struct Track {
    pub(crate) opening: Opening,
    pub(crate) frames: Sequence<Frame>,
    /// The complete checkpoints.
    pub(crate) marks: Sequence<Mark>,
    /// The instructions of all frames.
    pub(crate) steps: u64,
    ghost sum: { steps ≡ total frames },
}

/// What is kept of a guest's records as they come: the opening, the frames and the complete checkpoints. It verifies nothing.
pub struct Keeper {
    pub(crate) opening: Opening,
    pub(crate) frames: Vec<Frame>,
    pub(crate) marks: Vec<Mark>,
    /// The parts since the last frame or complete checkpoint.
    pub(crate) row: Vec<Part>,
    /// The instructions of all frames.
    pub(crate) steps: u64,
    /// The records.
    pub(crate) len: usize,
    ghost few: { steps ≤ len * 2 ^ 20 },
}

// Written out: where one goes, a proof has one call, and not one for each of its parts.
impl Drop for Keeper {
    fn drop(self) {
        let Keeper {
            opening: _,
            frames: _,
            marks: _,
            row: _,
            steps: _,
            len: _,
        } = self;
    }
}

impl Keeper {
    /// What it has kept, and how many instructions and records there are.
    pub(crate) fn into_parts(self) -> (Opening, Vec<Frame>, Vec<Mark>, u64, usize)
        ensures { result ≡ (self.opening, self.frames, self.marks, self.steps, self.len) }
    {
        let Keeper {
            opening,
            frames,
            marks,
            row: _,
            steps,
            len,
        } = self;
        (opening, frames, marks, steps, len)
    }
}
