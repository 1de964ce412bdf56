//! A cursor over a verified recording.

ghost use Rattle.std.specs.Prelude.{◌≡◌, ◌≤◌, ◌<◌, ◌-◌, ◌+◌, ◌↔◌, IfNone, IfOk, IfSome, IsErrOf, OnErr, OnOk};
ghost use Rattle.rrv_model.specs.StateAt.{StateAt, total};
ghost use Rattle.guest_calls.specs.Guest.{state_of};
ghost use Rattle.replayer.specs.Verified.{RanFromLast};
ghost use Rattle.reverse_step.specs.Changes.{IsLastChange, IsNextChange};

use crate::searching::{SearchWatch, first_in, last_in, last_in_spans, spans_before};
use faults::SeekFault;
use guest_calls::Guest;
use replayer::{Place, Verified};
use rrv_model::refusal::Memory;
use std::alloc::Global;
use std::marker::Model;
use std::thread::Threads;

/// So many spans between checkpoints are searched at a time at most.
const MOST_SPANS: usize = 64;

/// A guest at a place of a verified recording, which it can leave for any other.
#[derive(Drop)]
pub struct Cursor<'a> {
    place: Place<'a>,
}

impl<'a> Model for Cursor<'a> {
    ghost use Rattle.reverse_step.specs.Cursors.{CursorValue};

    ghost Value = { CursorValue };

    ghost view = { λ c. record { verified = c.place.verified; place = c.place.at; guest = c.place.guest } };

    ghost use Rattle.replayer.specs.Verified.{RanFromLast};

    ghost invariant = { λ c. RanFromLast c.place.verified c.place.at c.place.guest.ran };
}

impl<'a> Cursor<'a> {
    /// A cursor at the start. `Memory` where a growth is refused.
    pub fn new(alloc: Global, verified: &'a Verified) -> Result<Cursor<'a>, Memory>
        ensures verified { IfOk result (λ cursor. cursor.verified ≡ verified.now) }
        ensures at { IfOk result (λ cursor. cursor.place ≡ 0) }
        ensures ran { IfOk result (λ cursor. cursor.guest.ran ≡ 0) }
    {
        let place = verified.place_at(alloc, 0)?;
        Ok(Cursor { place })
    }

    /// The recording.
    pub fn verified(&self) -> &'a Verified
        ensures { result.now ≡ self.now.verified }
    {
        self.place.verified()
    }

    /// The place: how many instructions ran before it.
    pub fn place(&self) -> u64
        ensures place { result ≡ self.now.place }
        ensures within { self.now.place ≤ total self.now.verified.frames }
    {
        self.place.at()
    }

    /// The guest at the place.
    pub fn guest(&self) -> &Guest
        ensures guest { result.now ≡ self.now.guest }
        ensures state { StateAt self.now.verified.opening self.now.verified.frames self.now.place
            (state_of result.now) }
    {
        self.place.guest()
    }

    /// How many instructions were run to reach the guest at the place: at most those since the last checkpoint at or before it,
    /// or since the start.
    pub fn executed(&self) -> u64
        ensures value { result ≡ self.now.guest.ran }
        ensures most { RanFromLast self.now.verified self.now.place result }
    {
        self.place.guest().ran()
    }

    /// Goes to a place, in instructions since the start. `PastEnd` where it lies behind the end, and `Memory` where a growth is
    /// refused; the cursor then stays.
    pub fn seek(&mut self, alloc: Global, t: u64) -> Result<(), SeekFault>
        ensures verified { self.new.verified ≡ self.old.verified }
        ensures at { OnOk result (self.new.place ≡ t) }
        ensures ran { OnOk result (RanFromLast self.new.verified t self.new.guest.ran) }
        ensures before { IsErrOf result SeekFault.BeforeStart → ⊥ }
        ensures past { IsErrOf result SeekFault.PastEnd ↔ (total self.old.verified.frames < t) }
        ensures refused { OnErr result (self.new ≡ self.old) }
    {
        let verified = self.place.verified();
        if verified.total() < t {
            return Err(SeekFault::PastEnd);
        }
        self.place = if t < self.place.at() {
            verified.place_at(alloc, t)?
        } else {
            self.place.onward(alloc, t)?
        };
        Ok(())
    }

    /// Goes so many instructions back. `BeforeStart` where fewer ran before the place, and `Memory` where a growth is refused; the
    /// cursor then stays.
    pub fn back(&mut self, alloc: Global, n: u64) -> Result<(), SeekFault>
        ensures verified { self.new.verified ≡ self.old.verified }
        ensures at { OnOk result (self.new.place + n ≡ self.old.place) }
        ensures ran { OnOk result (RanFromLast self.new.verified self.new.place self.new.guest.ran) }
        ensures before { IsErrOf result SeekFault.BeforeStart ↔ (self.old.place < n) }
        ensures past { IsErrOf result SeekFault.PastEnd → ⊥ }
        ensures refused { OnErr result (self.new ≡ self.old) }
    {
        let at = self.place.at();
        if at < n {
            return Err(SeekFault::BeforeStart);
        }
        self.place = self.place.verified().place_at(alloc, at - n)?;
        Ok(())
    }

    /// Goes so many instructions forward. `PastEnd` where fewer are left, and `Memory` where a growth is refused; the cursor then
    /// stays.
    pub fn forward(&mut self, alloc: Global, n: u64) -> Result<(), SeekFault>
        ensures verified { self.new.verified ≡ self.old.verified }
        ensures at { OnOk result (self.new.place ≡ self.old.place + n) }
        ensures ran { OnOk result (RanFromLast self.new.verified self.new.place self.new.guest.ran) }
        ensures before { IsErrOf result SeekFault.BeforeStart → ⊥ }
        ensures past { IsErrOf result SeekFault.PastEnd ↔ (total self.old.verified.frames < self.old.place + n) }
        ensures refused { OnErr result (self.new ≡ self.old) }
    {
        let at = self.place.at();
        if self.place.verified().total() - at < n {
            return Err(SeekFault::PastEnd);
        }
        self.place = self.place.onward(alloc, at + n)?;
        Ok(())
    }

    /// Goes to the last place before this one whose instruction changes the byte at an address, or whether there is one,
    /// and answers it; stays where none does. `Memory` where a growth is refused; the cursor then stays.
    pub fn last_change(&mut self, alloc: Global, address: u32) -> Result<Option<u64>, Memory>
        ensures verified { self.new.verified ≡ self.old.verified }
        ensures change { IfOk result (IsLastChange self.old.verified.opening self.old.verified.frames address
            self.old.place) }
        ensures at { IfOk result (λ found. IfSome found (λ t. self.new.place ≡ t)) }
        ensures ran { IfOk result (λ found. IfSome found (λ t. RanFromLast self.new.verified t self.new.guest.ran)) }
        ensures stays { IfOk result (λ found. IfNone found (self.new ≡ self.old)) }
        ensures refused { OnErr result (self.new ≡ self.old) }
    {
        let verified = self.place.verified();
        let mut end = self.place.at();
        while 0 < end {
            let start = verified.checkpoint_before(end - 1);
            let found = last_in(alloc, verified, start, end, address)?;
            match found {
                Some(t) => {
                    self.place = verified.place_at(alloc, t)?;
                    return Ok(Some(t));
                }
                None => end = start,
            }
        }
        Ok(None)
    }

    /// What [`Cursor::last_change`] does, in spans between checkpoints side by side, by so many workers at most, each in a thread of
    /// its own if one can be made. Spans are searched several at a time, those before the place first: at first as many as there
    /// are workers, and then twice as many each time, up to 64. How far it is goes to `watch`, each time.
    pub fn last_change_in_spans<R: Threads + Sync, V: SearchWatch>(
        &mut self,
        rt: &R,
        alloc: Global,
        workers: usize,
        address: u32,
        watch: &mut V,
    ) -> Result<Option<u64>, Memory>
        ensures verified { self.new.verified ≡ self.old.verified }
        ensures change { IfOk result (IsLastChange self.old.verified.opening self.old.verified.frames address
            self.old.place) }
        ensures at { IfOk result (λ found. IfSome found (λ t. self.new.place ≡ t)) }
        ensures ran { IfOk result (λ found. IfSome found (λ t. RanFromLast self.new.verified t self.new.guest.ran)) }
        ensures stays { IfOk result (λ found. IfNone found (self.new ≡ self.old)) }
        ensures refused { OnErr result (self.new ≡ self.old) }
    {
        let verified = self.place.verified();
        let mut end = self.place.at();
        let mut count = workers;
        while 0 < end {
            let start = spans_before(verified, end, count);
            let found = last_in_spans(rt, alloc, verified, start, end, address, workers)?;
            watch.reached(start);
            count = count.saturating_mul(2).min(MOST_SPANS);
            match found {
                Some(t) => {
                    self.place = verified.place_at(alloc, t)?;
                    return Ok(Some(t));
                }
                None => end = start,
            }
        }
        Ok(None)
    }

    /// Goes to the first place after this one whose instruction changes the byte at an address, and returns it; stays if none does.
    /// `Memory` if a growth is refused; the cursor then stays. How far it is goes to `watch`.
    pub fn next_change<V: SearchWatch>(
        &mut self,
        alloc: Global,
        address: u32,
        watch: &mut V,
    ) -> Result<Option<u64>, Memory>
        ensures verified { self.new.verified ≡ self.old.verified }
        ensures change { IfOk result (IsNextChange self.old.verified.opening self.old.verified.frames address
            self.old.place) }
        ensures at { IfOk result (λ found. IfSome found (λ t. self.new.place ≡ t)) }
        ensures ran { IfOk result (λ found. IfSome found (λ t. RanFromLast self.new.verified t self.new.guest.ran)) }
        ensures stays { IfOk result (λ found. IfNone found (self.new ≡ self.old)) }
        ensures refused { OnErr result (self.new ≡ self.old) }
    {
        let verified = self.place.verified();
        let end = verified.total();
        let at = self.place.at();
        if at == end {
            return Ok(None);
        }
        let found = first_in(alloc, verified, at + 1, end, address, watch)?;
        match found {
            Some(t) => {
                self.place = verified.place_at(alloc, t)?;
                Ok(Some(t))
            }
            None => Ok(None),
        }
    }
}
