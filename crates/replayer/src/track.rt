//! The way along a track, to its state at each count of instructions.

ghost use Rattle.std.specs.Prelude.{◌≡◌, ◌≤◌, ◌<◌, ◌+◌, ◌^◌, IfOk, OnOk, drop, length};
ghost use Rattle.rrv_model.specs.StateAt.{total};
ghost use Rattle.guest_calls.specs.Guest.{state_of};
ghost use Rattle.replayer.specs.Changes.{IsLastIn, place_after};
ghost use Rattle.replayer.specs.Kept.{AreKept, last_place};
ghost use Rattle.replayer.specs.Places.{BeginsAt, GoesOn, StandsAt};

use crate::forward::{byte_of, count_of, follow_whole, is_same, rest_of, run_plain, watch_plain};
use crate::opened::put_parts;
use crate::position::Position;
use crate::recording::Track;
use guest_calls::Guest;
use rrv_model::refusal::Memory;
use std::alloc::Global;

/// The place of the last of some instructions from a place on that changes something, of which so many there are up to it.
fn place_of(from: u64, changed: u32) -> Option<u64>
    requires { from + changed < 2 ^ 64 }
    ensures { result ≡ place_after from changed }
{
    if changed == 0 {
        None
    } else {
        Some(from + u64::from(changed - 1))
    }
}

impl Track {
    /// The guest at its start.
    pub(crate) fn start(&self, alloc: Global) -> Result<Position, Memory>
        requires { AreKept self.now.opening self.now.frames self.now.marks }
        ensures begins { IfOk result (BeginsAt self.now.opening self.now.frames) }
        ensures at { IfOk result (λ p. p.at ≡ 0) }
        ensures frames { IfOk result (λ p. p.frames ≡ 0) }
    {
        // The opening is a recording's, so only memory can be short.
        let Ok(guest) = Guest::start(alloc, &self.opening) else {
            return Err(Memory);
        };
        Ok(Position {
            guest,
            frames: 0,
            steps: 0,
            at: 0,
        })
    }

    /// The guest at the last complete checkpoint at or before t, else at its start.
    fn nearest(&self, alloc: Global, t: u64) -> Result<Position, Memory>
        requires { AreKept self.now.opening self.now.frames self.now.marks }
        ensures begins { IfOk result (BeginsAt self.now.opening self.now.frames) }
        ensures last { IfOk result (λ p. p.at ≡ last_place 0 self.now.marks t) }
        ensures low { IfOk result (λ p. p.at ≤ t) }
    {
        let mut position = self.start(alloc)?;
        let mut left = self.marks.as_slice();
        while let [mark, after @ ..] = left {
            if mark.at > t {
                return Ok(position);
            }
            // The parts describe a state, so only memory can be short.
            let Ok(()) = put_parts(alloc, &mut position.guest, mark.parts.as_slice()) else {
                return Err(Memory);
            };
            position.frames = mark.frames;
            position.at = mark.at;
            left = after;
        }
        Ok(position)
    }

    /// Goes on from between two frames to t. After a refusal the position is fit only to be dropped.
    fn run_to(&self, alloc: Global, position: &mut Position, t: u64) -> Result<(), Memory>
        requires on { GoesOn self.now.opening self.now.frames
            position.old.at (state_of position.old.guest) (drop position.old.frames self.now.frames) }
        requires between { position.old.steps ≡ 0 }
        requires inside { position.old.frames ≤ length self.now.frames }
        requires low { position.old.at ≤ t }
        requires high { t ≤ total self.now.frames }
        ensures stands { OnOk result (StandsAt self.now.opening self.now.frames position.new) }
        ensures at { OnOk result (position.new.at ≡ t) }
        ensures ran { OnOk result (position.new.guest.ran + position.old.at ≤ position.old.guest.ran + t) }
    {
        let mut left = &self.frames.as_slice()[position.frames..];
        while let [frame, after @ ..] = left {
            let count = u64::from(frame.count);
            if t - position.at < count {
                let some = (t - position.at) as u32;
                run_plain(&mut position.guest, frame.tid, some)?;
                position.steps = some;
                position.at = t;
                return Ok(());
            }
            follow_whole(alloc, &mut position.guest, frame)?;
            position.frames += 1;
            position.at += count;
            left = after;
        }
        Ok(())
    }

    /// Goes on to t, from wherever it stands. After a refusal the position is fit only to be dropped.
    pub(crate) fn go_on(&self, alloc: Global, position: &mut Position, t: u64) -> Result<(), Memory>
        requires stands { StandsAt self.now.opening self.now.frames position.old }
        requires low { position.old.at ≤ t }
        requires high { t ≤ total self.now.frames }
        ensures stands { OnOk result (StandsAt self.now.opening self.now.frames position.new) }
        ensures at { OnOk result (position.new.at ≡ t) }
        ensures ran { OnOk result (position.new.guest.ran + position.old.at ≤ position.old.guest.ran + t) }
    {
        if position.at == t {
            return Ok(());
        }
        if position.steps == 0 {
            return self.run_to(alloc, position, t);
        }
        let frame = &self.frames.as_slice()[position.frames];
        let left = count_of(frame) - position.steps;
        if t - position.at < u64::from(left) {
            let some = (t - position.at) as u32;
            run_plain(&mut position.guest, frame.tid, some)?;
            position.steps += some;
            position.at = t;
            return Ok(());
        }
        let rest = rest_of(frame, left)?;
        follow_whole(alloc, &mut position.guest, &rest)?;
        position.frames += 1;
        position.steps = 0;
        position.at += u64::from(left);
        self.run_to(alloc, position, t)
    }

    /// Goes on by one instruction, and tells whether it changes the byte at an address. After a refusal the position is fit only to
    /// be dropped.
    fn watch_one(
        &self,
        alloc: Global,
        position: &mut Position,
        address: u32,
    ) -> Result<Option<u64>, Memory>
        requires stands { StandsAt self.now.opening self.now.frames position.old }
        requires high { position.old.at < total self.now.frames }
        requires room { position.old.at + 1 < 2 ^ 64 }
        ensures stands { OnOk result (StandsAt self.now.opening self.now.frames position.new) }
        ensures at { OnOk result (position.new.at ≡ position.old.at + 1) }
        ensures change { IfOk result
            (IsLastIn self.now.opening self.now.frames address position.old.at (position.old.at + 1)) }
    {
        let t = position.at;
        let before = byte_of(&position.guest, address);
        self.go_on(alloc, position, t + 1)?;
        let after = byte_of(&position.guest, address);
        if is_same(before, after) {
            Ok(None)
        } else {
            Ok(Some(t))
        }
    }

    /// Goes on by one instruction at least, and no further than `end`, and tells of the last on the way that changes the byte at an
    /// address. After a refusal the position is fit only to be dropped.
    pub(crate) fn watch_on(
        &self,
        alloc: Global,
        position: &mut Position,
        end: u64,
        address: u32,
    ) -> Result<Option<u64>, Memory>
        requires stands { StandsAt self.now.opening self.now.frames position.old }
        requires low { position.old.at < end }
        requires high { end ≤ total self.now.frames }
        ensures stands { OnOk result (StandsAt self.now.opening self.now.frames position.new) }
        ensures on { OnOk result (position.old.at < position.new.at) }
        ensures within { OnOk result (position.new.at ≤ end) }
        ensures change { IfOk result
            (IsLastIn self.now.opening self.now.frames address position.old.at position.new.at) }
    {
        let frame = &self.frames.as_slice()[position.frames];
        let ahead = count_of(frame) - position.steps;
        let some = u64::from(ahead - 1).min(end - position.at) as u32;
        if some == 0 {
            return self.watch_one(alloc, position, address);
        }
        let from = position.at;
        let changed = watch_plain(&mut position.guest, frame.tid, some, address)?;
        position.steps += some;
        position.at += u64::from(some);
        Ok(place_of(from, changed))
    }

    /// The guest at t, run from the last complete checkpoint at or before it, else from its start.
    pub(crate) fn position_at(&self, alloc: Global, t: u64) -> Result<Position, Memory>
        requires kept { AreKept self.now.opening self.now.frames self.now.marks }
        requires within { t ≤ total self.now.frames }
        ensures stands { IfOk result (StandsAt self.now.opening self.now.frames) }
        ensures at { IfOk result (λ position. position.at ≡ t) }
        ensures ran { IfOk result (λ position. position.guest.ran + last_place 0 self.now.marks t ≤ t) }
    {
        let mut position = self.nearest(alloc, t)?;
        self.run_to(alloc, &mut position, t)?;
        Ok(position)
    }

    /// The place of the last complete checkpoint at or before t, else 0.
    pub(crate) fn checkpoint_before(&self, t: u64) -> u64
        ensures { result ≡ last_place 0 self.now.marks t }
    {
        let mut last = 0;
        let mut left = self.marks.as_slice();
        while let [mark, after @ ..] = left {
            if mark.at > t {
                return last;
            }
            last = mark.at;
            left = after;
        }
        last
    }
}
