//! A guest at a place of a verified recording.

ghost use Rattle.std.specs.Prelude.{◌≡◌, ◌≤◌, ◌<◌, ◌+◌, IfOk};
ghost use Rattle.rrv_model.specs.StateAt.{StateAt, total};
ghost use Rattle.guest_calls.specs.Guest.{state_of};
ghost use Rattle.replayer.specs.Changes.{IsLastIn};
ghost use Rattle.replayer.specs.Verified.{RanFromLast};

use crate::position::Position;
use crate::verified::Verified;
use guest_calls::Guest;
use rrv_model::refusal::Memory;
use std::alloc::Global;
use std::marker::Model;

/// A guest at a place of a verified recording.
#[derive(Drop)]
pub struct Place<'a> {
    pub(crate) verified: &'a Verified,
    pub(crate) position: Position,
}

impl<'a> Model for Place<'a> {
    ghost use Rattle.replayer.specs.Places.{PlaceValue, StandsAt};

    ghost Value = { PlaceValue };

    ghost view = { λ p. record { verified = p.verified.now; at = p.position.at; guest = p.position.guest } };

    ghost invariant = { λ p. StandsAt p.verified.now.opening p.verified.now.frames p.position };
}

impl<'a> Place<'a> {
    /// The recording.
    pub fn verified(&self) -> &'a Verified
        ensures { result.now ≡ self.now.verified }
    {
        self.verified
    }

    /// How many instructions ran before it.
    pub fn at(&self) -> u64
        ensures at { result ≡ self.now.at }
        ensures within { self.now.at ≤ total self.now.verified.frames }
    {
        self.position.at
    }

    /// The guest there.
    pub fn guest(&self) -> &Guest
        ensures guest { result.now ≡ self.now.guest }
        ensures state { StateAt self.now.verified.opening self.now.verified.frames self.now.at (state_of result.now) }
    {
        &self.position.guest
    }

    /// The place one instruction on. `Memory` where a growth is refused; the place is then gone.
    pub fn advance(self, alloc: Global) -> Result<Place<'a>, Memory>
        requires { self.at < total self.verified.frames }
        ensures verified { IfOk result (λ place. place.verified ≡ self.entry.verified) }
        ensures at { IfOk result (λ place. place.at ≡ self.entry.at + 1) }
    {
        let Place {
            verified,
            mut position,
        } = self;
        // The total, a word, is above the place.
        let _ = verified.total();
        let next = position.at + 1;
        verified.track.go_on(alloc, &mut position, next)?;
        Ok(Place { verified, position })
    }

    /// A place further on, one instruction at least and no further than `end`, and the last place on the way whose instruction
    /// changes the byte at an address, or whether there is one. `Memory` where a growth is refused; the place is then gone.
    pub fn watch(
        self,
        alloc: Global,
        end: u64,
        address: u32,
    ) -> Result<(Place<'a>, Option<u64>), Memory>
        requires low { self.at < end }
        requires high { end ≤ total self.verified.frames }
        ensures verified { IfOk result (λ on. on.0.verified ≡ self.entry.verified) }
        ensures on { IfOk result (λ on. self.entry.at < on.0.at) }
        ensures within { IfOk result (λ on. on.0.at ≤ end) }
        ensures change { IfOk result (λ on. IsLastIn self.entry.verified.opening self.entry.verified.frames address
            self.entry.at on.0.at on.1) }
    {
        let Place {
            verified,
            mut position,
        } = self;
        let changed = verified.track.watch_on(alloc, &mut position, end, address)?;
        Ok((Place { verified, position }, changed))
    }

    /// The place at t, which isn't before this one. A copy of the guest goes on from here if no complete checkpoint lies in between;
    /// else one is run from the last of them at or before t. `Memory` where a growth is refused.
    pub fn onward(&self, alloc: Global, t: u64) -> Result<Place<'a>, Memory>
        requires low { self.now.at ≤ t }
        requires high { t ≤ total self.now.verified.frames }
        requires ran { RanFromLast self.now.verified self.now.at self.now.guest.ran }
        ensures verified { IfOk result (λ place. place.verified ≡ self.now.verified) }
        ensures at { IfOk result (λ place. place.at ≡ t) }
        ensures ran { IfOk result (λ place. RanFromLast self.now.verified t place.guest.ran) }
    {
        let verified = self.verified;
        if self.position.at < verified.checkpoint_before(t) {
            return verified.place_at(alloc, t);
        }
        let mut position = self.position.try_clone(alloc)?;
        verified.track.go_on(alloc, &mut position, t)?;
        Ok(Place { verified, position })
    }
}
