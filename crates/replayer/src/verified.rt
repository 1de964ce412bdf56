//! A verified recording, its state at each count of instructions, and its output.

ghost use Rattle.std.specs.Prelude.{◌≡◌, ◌≤◌, IfOk};
ghost use Rattle.rrv_model.specs.StateAt.{StateAt, total};
ghost use Rattle.guest_calls.specs.Guest.{state_of};
ghost use Rattle.replayer.specs.Puts.{PutsOut};
ghost use Rattle.replayer.specs.Verified.{IsLastCheckpoint, IsVerified, RanFromLast};

use crate::fault::OutputFault;
use crate::place::Place;
use crate::recording::Track;
use guest_calls::Guest;
use rrv_model::record::Frame;
use rrv_model::refusal::Memory;
use rrv_model::sink::Sink;
use std::alloc::Global;
use std::marker::Model;
use std::sync::Wait;

/// A recording that was verified.
pub struct Verified {
    pub(crate) track: Track,
    /// The records.
    pub(crate) len: usize,
}

impl Model for Verified {
    ghost use Rattle.replayer.specs.Kept.{IsTrack, verified_of};
    ghost use Rattle.replayer.specs.Verified.{VerifiedValue};

    ghost Value = { VerifiedValue };

    ghost view = { λ v. verified_of v.track v.len };

    ghost invariant = { λ v. IsTrack v.track v.len };
}

// Written out: where one goes, a proof has one call, and not one for each of its parts.
impl Drop for Verified {
    fn drop(self) {
        let Verified { track: _, len: _ } = self;
    }
}

impl Verified {
    /// How many records it has.
    pub fn len(&self) -> usize
        ensures len { result ≡ self.now.len }
        ensures verified { IsVerified self.now }
    {
        self.len
    }

    /// How many instructions it runs.
    pub fn total(&self) -> u64
        ensures { result ≡ total self.now.frames }
    {
        self.track.steps
    }

    /// Its frames, in order.
    pub fn frames(&self) -> &[Frame]
        ensures { result.now ≡ self.now.frames }
    {
        self.track.frames.as_slice()
    }

    /// The guest after t instructions, run from the last complete checkpoint at or before t, else from its start. `Memory` where a
    /// growth is refused.
    pub fn place_at<'a>(&'a self, alloc: Global, t: u64) -> Result<Place<'a>, Memory>
        requires { t ≤ total self.now.frames }
        ensures verified { IfOk result (λ place. place.verified ≡ self.now) }
        ensures at { IfOk result (λ place. place.at ≡ t) }
        ensures ran { IfOk result (λ place. RanFromLast self.now t place.guest.ran) }
    {
        let position = self.track.position_at(alloc, t)?;
        Ok(Place {
            verified: self,
            position,
        })
    }

    /// The state after t instructions, as a guest: run from the last complete checkpoint at or before t, else from its start.
    /// `Memory` where a growth is refused.
    pub fn state_at(&self, alloc: Global, t: u64) -> Result<Guest, Memory>
        requires { t ≤ total self.now.frames }
        ensures state { IfOk result (λ guest. StateAt self.now.opening self.now.frames t (state_of guest)) }
        ensures ran { IfOk result (λ guest. RanFromLast self.now t guest.ran) }
    {
        let position = self.track.position_at(alloc, t)?;
        Ok(position.into_guest())
    }

    /// The place of the last complete checkpoint at or before t, else 0.
    pub fn checkpoint_before(&self, t: u64) -> u64
        ensures { IsLastCheckpoint self.now t result }
    {
        self.track.checkpoint_before(t)
    }

    /// Puts out what the recorded guest put out. `SinkFailed` where the sink refuses, and `Memory` where a growth is refused; a
    /// beginning of it is then out.
    pub fn output<S: Sink, R: Wait>(
        &self,
        alloc: Global,
        rt: &R,
        sink: &mut S,
    ) -> Result<(), OutputFault>
        ensures { PutsOut S.Sink result self.now.opening self.now.frames sink.old sink.new }
    {
        self.track.output(alloc, rt, sink)
    }
}
