//! The output of records that aren't known to be durable.

ghost use Rattle.std.specs.Prelude.{◌≡◌, ◌↔◌, ℕ, ◌+◌, ◌-◌, ◌<◌, ◌≤◌, List, [], ◌∷◌, ◌++◌, length, replicate, take, drop, true, OnOk};
ghost use Rattle.rrv_model.specs.Output.{to_descriptor};
ghost use Rattle.recorder.specs.Owed.{Counts, Releases, ReleasesFirst, bytes_of};

use guest_calls::Put;
use rrv_model::sequence::Sequence;
use rrv_model::sink::Sink;
use std::alloc::{AllocError, Global};
use std::collections::VecDeque;
use std::marker::Model;
use std::sync::Wait;

/// What is left of the output of records, from the first on whose output hasn't left whole. A record that puts nothing out has
/// a put of no bytes.
pub struct Outputs {
    waiting: VecDeque<Put>,
    released: u32,
    offset: usize,
}

// Written out: where one goes, a proof has one call, and not one for each of its parts.
impl Drop for Outputs {
    fn drop(self) {
        let Outputs {
            waiting: _,
            released: _,
            offset: _,
        } = self;
    }
}

impl Model for Outputs {
    ghost use Rattle.std.specs.Prelude.{◌≤◌, ◌+◌, ◌-◌, length};
    ghost use Rattle.std.specs.VecDeque.{deque_len, deque_capacity};
    ghost use Rattle.recorder.specs.Owed.{Owed, owed_of, IsWithinFirst};

    ghost Value = { Owed };

    ghost view = { λ o. record {
      released = o.released;
      owed = owed_of o.offset o.waiting.items;
      room = deque_capacity o.waiting - deque_len o.waiting;
    } };

    ghost invariant = { λ o. IsWithinFirst o.offset o.waiting.items
        × (o.released + length o.waiting.items ≤ 4294967295) };
}

/// No bytes.
pub(crate) fn nothing(alloc: Global) -> Put
    ensures { result ≡ record { descriptor = 0; bytes = [] } }
{
    Put {
        descriptor: 0,
        bytes: Sequence::from_vec(Vec::new(alloc)),
    }
}

/// Puts bytes out from a place on. It answers the place that it came to, and whether the sink took all.
fn put_from<S: Sink, R: Wait>(
    rt: &R,
    sink: &mut S,
    descriptor: u32,
    bytes: &[u8],
    offset: usize,
) -> (usize, bool)
    requires { offset ≤ length bytes.now }
    ensures reached { (offset ≤ result.0) × (result.0 ≤ length bytes.now) }
    ensures put { S.tells sink.old → S.taken sink.new
        ≡ S.taken sink.old ++ to_descriptor descriptor (take (result.0 - offset) (drop offset bytes.now)) }
    ensures all { result.1 ≡ true → result.0 ≡ length bytes.now }
    ensures counted { Counts result.1 (S.faults sink.old) (S.faults sink.new) }
    ensures tells { S.tells sink.new ↔ S.tells sink.old }
{
    let mut at = offset;
    while at < bytes.len() {
        match sink.put(rt, descriptor, &bytes[at..]) {
            Ok(count) => at += count,
            Err(_) => return (at, false),
        }
    }
    (at, true)
}

impl Outputs {
    /// That of no records.
    pub fn new(alloc: Global) -> Outputs
        ensures { (result.released ≡ 0) × (result.owed ≡ []) }
    {
        Outputs {
            waiting: VecDeque::new(alloc),
            released: 0,
            offset: 0,
        }
    }

    /// How many records' output has left whole.
    pub fn released(&self) -> u32
        ensures { result ≡ self.now.released }
    {
        self.released
    }

    /// Makes room for the output of so many records more.
    pub fn reserve(&mut self, count: usize) -> Result<(), AllocError>
        ensures same { (self.new.released ≡ self.old.released) × (self.new.owed ≡ self.old.owed) }
        ensures room { OnOk result (count ≤ self.new.room) }
    {
        self.waiting.reserve(count)
    }

    /// Adds the output of the next record. It takes no memory.
    pub fn push(&mut self, put: Put)
        requires room { 1 ≤ self.old.room }
        requires few { self.old.released + length self.old.owed < 4294967295 }
        ensures pushed { (self.new.released ≡ self.old.released)
            × (self.new.owed ≡ self.old.owed ++ bytes_of put ∷ []) }
        ensures room { self.new.room + 1 ≡ self.old.room }
    {
        self.waiting.push_back_reserved(put);
    }

    /// Adds so many records that put nothing out. It takes no memory.
    pub(crate) fn push_silent(&mut self, alloc: Global, count: usize)
        requires room { count ≤ self.old.room }
        requires few { self.old.released + length self.old.owed + count ≤ 4294967295 }
        ensures { (self.new.released ≡ self.old.released) × (self.new.owed ≡ self.old.owed ++ replicate count []) }
    {
        for _ in 0..count {
            self.push(nothing(alloc));
        }
    }

    /// Puts out what is left of the first so many records' output, in order. It answers how many bytes left, up to 2^64 - 1,
    /// and whether that was all. Where the sink refused it took a beginning: the rest is kept, from the first byte not taken on.
    pub fn release<S: Sink, R: Wait>(&mut self, rt: &R, sink: &mut S, seen: u32) -> (u64, bool)
        requires { seen ≤ self.old.released + length self.old.owed }
        ensures released { Releases S.tells S.taken seen self.old self.new sink.old sink.new result.0 }
        ensures all { result.1 ≡ true → seen ≤ self.new.released }
        ensures counted { Counts result.1 (S.faults sink.old) (S.faults sink.new) }
    {
        let mut taken = 0u64;
        while self.released() < seen {
            let (count, all) = self.put_first(rt, sink);
            taken = taken.saturating_add(count as u64);
            if !all {
                return (taken, false);
            }
        }
        (taken, true)
    }

    /// Puts out what is left of the first record's output. It answers how many bytes left, and whether that was all.
    fn put_first<S: Sink, R: Wait>(&mut self, rt: &R, sink: &mut S) -> (usize, bool)
        requires { 1 ≤ length self.old.owed }
        ensures released { ReleasesFirst S.tells S.taken result.1 self.old self.new sink.old sink.new result.0 }
        ensures counted { Counts result.1 (S.faults sink.old) (S.faults sink.new) }
    {
        let Some(first) = self.waiting.front() else {
            return (0, true);
        };
        let bytes = first.bytes.as_slice();
        let (at, all) = put_from(rt, sink, first.descriptor, bytes, self.offset);
        let count = at - self.offset;
        if all {
            self.waiting.pop_front();
            self.released += 1;
            self.offset = 0;
        } else {
            self.offset = at;
        }
        (count, all)
    }
}
