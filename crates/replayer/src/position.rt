//! A guest on its way along a track.

ghost use Rattle.std.specs.Prelude.{◌≡◌, List, IfOk};
ghost use Rattle.rrv_model.specs.declared.record.Frame.{Frame};
ghost use Rattle.rrv_model.specs.declared.record.Opening.{Opening};
ghost use Rattle.replayer.specs.Places.{StandsAt};

use guest_calls::Guest;
use rrv_model::refusal::Memory;
use std::alloc::Global;

/// A guest on its way along a track, and how far the frames are behind it.
#[derive(Drop)]
pub(crate) struct Position {
    pub(crate) guest: Guest,
    /// The frames that are whole behind it.
    pub(crate) frames: usize,
    /// The steps of the next one that are behind it.
    pub(crate) steps: u32,
    /// The steps of all frames that are behind it.
    pub(crate) at: u64,
}

impl Position {
    /// The same position once more. Refused where a growth is.
    pub(crate) fn try_clone(&self, alloc: Global) -> Result<Position, Memory>
        ensures stands { (o : Opening) (frames : List Frame) → StandsAt o frames self.now
            → IfOk result (StandsAt o frames) }
        ensures at { IfOk result (λ copy. copy.at ≡ self.now.at) }
        ensures ran { IfOk result (λ copy. copy.guest.ran ≡ self.now.guest.ran) }
    {
        Ok(Position {
            guest: self.guest.try_clone(alloc)?,
            frames: self.frames,
            steps: self.steps,
            at: self.at,
        })
    }

    /// The guest, without its position.
    pub(crate) fn into_guest(self) -> Guest
        ensures { result ≡ self.guest }
    {
        self.guest
    }
}
