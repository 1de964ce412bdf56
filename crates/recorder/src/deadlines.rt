//! The deadlines of a guest's waits.

ghost use Rattle.std.specs.Prelude.{◌≡◌, ◌↔◌, ◌⊎◌, ℕ, ◌<◌, ◌≤◌, nat_lt, List, Some, [], length, count_by, IfOk, IfSome, IsNone, IsTrue, vec_capacity};
ghost use Rattle.std.specs.List.{AllByRecursion};
ghost use Rattle.rrv_model.specs.State.{thread_at};
ghost use Rattle.guest_calls.specs.Guest.{state_of};
ghost use Rattle.recorder.specs.Deadlines.{AreRising, HasDeadline, IsDueNow};
ghost use Rattle.recorder.specs.Deadlines.{comes_before, due, earlier, earliest, kept, put, time_left, timeout_of, without};

use guest_calls::Guest;
use rrv_model::machine::Timeout;
use rrv_model::refusal::Memory;
use std::alloc::Global;
use std::marker::Model;

/// How many threads of a guest may wait at once.
const MOST: usize = 64;

/// When the waits of a guest that have a timeout end: of each its tid and a moment, by rising tid. A moment is a number of
/// nanoseconds of the monotonic clock. There is room for all that a guest may have, so that none takes memory.
pub(crate) struct Deadlines {
    list: Vec<(u32, u128)>,
}

impl Model for Deadlines {
    ghost use Rattle.std.specs.Prelude.{ℕ, List, ◌≤◌, length, vec_capacity};
    ghost use Rattle.recorder.specs.Deadlines.{AreRising};

    ghost Value = { List (ℕ × ℕ) };

    ghost view = { λ d. d.list.items };

    ghost invariant = { λ d. AreRising d.list.items × (length d.list.items ≤ 64) × (64 ≤ vec_capacity d.list) };
}

// Written out: where one goes, a proof has one call, and not one for each of its parts.
impl Drop for Deadlines {
    fn drop(self) {
        let Deadlines { list: _ } = self;
    }
}

impl Deadlines {
    /// None, with room for all that a guest may have.
    pub(crate) fn new(alloc: Global) -> Result<Deadlines, Memory>
        ensures { IfOk result (λ deadlines. deadlines ≡ []) }
    {
        let mut list = Vec::new(alloc);
        list.reserve(MOST)?;
        Ok(Deadlines { list })
    }

    /// Tests whether there is none.
    pub(crate) fn is_empty(&self) -> bool
        ensures { IsTrue result ↔ (self.now ≡ []) }
    {
        self.list.is_empty()
    }

    /// The earliest, of equal ones that of the least tid.
    fn earliest(&self) -> Option<(u32, u128)>
        ensures { result ≡ earliest self.now }
    {
        earliest(&self.list)
    }

    /// The thread whose deadline is the earliest, of equal ones the least tid, if that is at or before now.
    pub(crate) fn due(&self, now: u128) -> Option<u32>
        ensures { result ≡ due self.now (Some now) }
    {
        let Some((tid, at)) = self.earliest() else {
            return None;
        };
        if at <= now {
            return Some(tid);
        }
        None
    }

    /// How many nanoseconds are left from now to the earliest: 0 where it has passed, and 2^64 - 1 at most.
    pub(crate) fn left(&self, now: u128) -> Option<u64>
        ensures { result ≡ time_left self.now now }
    {
        let Some((_, at)) = self.earliest() else {
            return None;
        };
        let left = at.saturating_sub(now).min(u128::from(u64::MAX));
        Some(left as u64)
    }

    /// A thread's deadline is at this moment, also if it had another one. It takes no memory.
    pub(crate) fn put(&mut self, tid: u32, at: u128)
        requires { (length self.old < 64) ⊎ HasDeadline self.old tid }
        ensures is { self.new ≡ put tid at self.old }
        ensures rising { AreRising self.new }
    {
        put_among(&mut self.list, tid, at);
    }

    /// Those of the threads alone that wait with a timeout.
    pub(crate) fn keep(&mut self, guest: &Guest)
        ensures is { self.new ≡ kept (state_of guest.now) self.old }
        ensures rising { AreRising self.new }
    {
        keep_timed(&mut self.list, guest);
    }
}

/// Tests whether a deadline comes before another one: by moment, and of equal ones by tid.
fn comes_before(first: (u32, u128), other: (u32, u128)) -> bool
    ensures { result ≡ comes_before first other }
{
    if first.1 == other.1 {
        return first.0 < other.0;
    }
    first.1 < other.1
}

/// The one of two that comes first.
fn earlier(first: (u32, u128), other: (u32, u128)) -> (u32, u128)
    ensures { result ≡ earlier first other }
{
    if comes_before(other, first) {
        return other;
    }
    first
}

/// The one that comes first.
fn earliest(deadlines: &[(u32, u128)]) -> Option<(u32, u128)>
    ensures { result ≡ earliest deadlines.now }
{
    let [first, rest @ ..] = deadlines else {
        return None;
    };
    let mut found = *first;
    let mut left = rest;
    while let [next, after @ ..] = left {
        found = earlier(found, *next);
        left = after;
    }
    Some(found)
}

/// How many are of lesser tids.
fn count_below(deadlines: &[(u32, u128)], tid: u32) -> usize
    ensures { result ≡ count_by (λ d. nat_lt d.0 tid) deadlines.now }
{
    deadlines.iter().filter(|deadline| deadline.0 < tid).count()
}

/// Takes a thread's out.
fn take_out(deadlines: &mut Vec<(u32, u128)>, tid: u32)
    ensures items { deadlines.new.items ≡ without tid deadlines.old.items }
    ensures capacity { vec_capacity deadlines.new ≡ vec_capacity deadlines.old }
{
    deadlines.retain(|deadline| deadline.0 != tid);
}

/// Puts a thread's in its place, where there is room.
fn put_among(deadlines: &mut Vec<(u32, u128)>, tid: u32, at: u128)
    requires rising { AreRising deadlines.old.items }
    requires room { length (put tid at deadlines.old.items) ≤ vec_capacity deadlines.old }
    ensures items { deadlines.new.items ≡ put tid at deadlines.old.items }
    ensures capacity { vec_capacity deadlines.new ≡ vec_capacity deadlines.old }
{
    let place = count_below(deadlines, tid);
    take_out(deadlines, tid);
    // There is room, so that it is taken.
    let _ = deadlines.insert(place, (tid, at));
}

/// Takes out those of threads that don't wait with a timeout.
fn keep_timed(deadlines: &mut Vec<(u32, u128)>, guest: &Guest)
    ensures items { deadlines.new.items ≡ kept (state_of guest.now) deadlines.old.items }
    ensures capacity { vec_capacity deadlines.new ≡ vec_capacity deadlines.old }
{
    deadlines.retain(|deadline| timeout_of(guest, deadline.0).is_some());
}

/// The timeout with which a thread waits.
pub(crate) fn timeout_of(guest: &Guest, tid: u32) -> Option<Timeout>
    ensures { result ≡ timeout_of (thread_at (state_of guest.now) tid) }
{
    // A thread that runs isn't copied for this.
    if guest.is_running(tid) {
        return None;
    }
    match guest.thread(tid) {
        Some(thread) => match thread.wait {
            Some(wait) => wait.timeout,
            None => None,
        },
        None => None,
    }
}

/// Who is due at a moment, as `Recorder::step` has it: the thread of the earliest deadline, of equal ones the least tid, if that is at or
/// before the moment. None is due exactly if all are after it.
pub fn due_is_earliest()
    ensures some { (ds : List (ℕ × ℕ)) (now : ℕ) → IfSome (due ds (Some now)) (IsDueNow ds now) }
    ensures none { (ds : List (ℕ × ℕ)) (now : ℕ) → IsNone (due ds (Some now)) ↔ AllByRecursion (λ d. now < d.1) ds }
{}
