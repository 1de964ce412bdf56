//! A guest, and what it tells.

ghost use Rattle.std.specs.Prelude.{◌≡◌, ◌↔◌, ◌<◌, ◌≤◌, ◌^◌, ℕ, IsTrue, IfSome, IfOk, OnErr, Contains, Some, None};
ghost use Rattle.std.specs.List.Sorted.{IsStrictlyIncreasing};
ghost use Rattle.rrv_model.specs.Memory.{page_count, IsMemory};
ghost use Rattle.rrv_model.specs.State.{thread_at, IsEnd, IsRunning, IsState};
ghost use Rattle.guest_calls.specs.Carries.{Becomes};
ghost use Rattle.guest_calls.specs.Clones.{IsRunningThread};
ghost use Rattle.guest_calls.specs.Snapshots.{guest_snapshots};

use crate::put::Put;
use guest_pages::Space;
use guest_threads::Threads;
use rrv_model::machine::{GuestEnd, Reservation, Thread, Version};
use rrv_model::refusal::Memory;
use rv_machine::CodeSpace;
use std::alloc::Global;
use std::marker::Model;

/// A guest: its address space, its threads, and what has become of it.
pub struct Guest {
    pub(crate) space: CodeSpace,
    pub(crate) threads: Threads,
    pub(crate) opening_break: u32,
    pub(crate) program_break: u32,
    pub(crate) reservation: Reservation,
    /// None while the guest runs.
    pub(crate) ended: Option<GuestEnd>,
    pub(crate) ran: u64,
    pub(crate) ran_before_call: u64,
    pub(crate) put: Option<Put>,
}

impl Model for Guest {
    ghost use Rattle.guest_calls.specs.Guest.{GuestValue};

    ghost Value = { GuestValue };

    ghost view = { λ g. record {
      space = g.space;
      threads = g.threads;
      opening_break = g.opening_break;
      program_break = g.program_break;
      reservation = g.reservation;
      ended = g.ended;
      ran = g.ran;
      ran_before_call = g.ran_before_call;
      put = g.put;
    } };

    ghost use Rattle.std.specs.Prelude.{◌<◌, ◌≤◌, ◌^◌};

    ghost invariant = { λ g. (g.ran < 2 ^ 64) × (0x1000 ≤ g.opening_break) × (g.opening_break ≤ g.program_break)
        × (g.program_break ≤ 0x70000000) };
}

// Written out: where one goes, a proof has one call, and not one for each of its parts.
impl Drop for Guest {
    fn drop(self) {
        let Guest {
            space: _,
            threads: _,
            opening_break: _,
            program_break: _,
            reservation: _,
            ended: _,
            ran: _,
            ran_before_call: _,
            put: _,
        } = self;
    }
}

impl Guest {
    ghost use Rattle.rrv_model.specs.FrameStep.{closed_by};
    ghost use Rattle.guest_calls.specs.Guest.{state_of, HasRunning, HasTimed};

    /// How the guest ended; None while it runs.
    pub fn ended(&self) -> Option<GuestEnd>
        ensures { result ≡ (state_of self.now).ended }
    {
        self.ended
    }

    /// The instructions run since the guest was opened, up to 2^64 - 1.
    pub fn ran(&self) -> u64
        ensures { result ≡ self.now.ran }
    {
        self.ran
    }

    /// The end of the program's data, an address. It never lies below the one at the opening, which lies above the
    /// first page, nor above 0x70000000.
    pub fn program_break(&self) -> u32
        ensures value { result ≡ (state_of self.now).program_break }
        ensures lowest { 0x1000 ≤ (state_of self.now).opening_break }
        ensures low { (state_of self.now).opening_break ≤ (state_of self.now).program_break }
        ensures high { (state_of self.now).program_break ≤ 0x70000000 }
    {
        self.program_break
    }

    /// The address that an LR of the running slice reserved.
    pub fn reservation(&self) -> Reservation
        ensures { result ≡ (state_of self.now).reservation }
    {
        self.reservation
    }

    /// How many pages are mapped. That the memory is one that a guest may have is told here, too.
    pub fn page_count(&self) -> u32
        ensures count { result ≡ page_count (state_of self.now).memory }
        ensures is_memory { IsMemory (state_of self.now).memory }
    {
        self.space.page_count()
    }

    /// The guest's memory, with its snapshots.
    pub fn space(&self) -> &Space
        ensures { result.now ≡ self.now.space }
    {
        self.space.space()
    }

    /// The guest's threads, with the waiting order and the next tid. That its state keeps the rules of one is told
    /// here, too.
    pub fn threads(&self) -> &Threads
        ensures value { result.now ≡ self.now.threads }
        ensures is_state { IsState (state_of self.now) }
    {
        // the proof opens the space and the threads here, for what holds of each
        let _ = self.space.page_count();
        let _ = self.threads.live();
        are_numbers(self.reservation, self.ended);
        &self.threads
    }

    /// A thread, by its tid.
    pub fn thread(&self, tid: u32) -> Option<Thread>
        ensures { result ≡ thread_at (state_of self.now) tid }
    {
        self.threads.get(tid)
    }

    /// Tests whether a thread is there and does not wait.
    pub fn is_running(&self, tid: u32) -> bool
        ensures runs { IsTrue result ↔ IsRunning (thread_at (state_of self.now) tid) }
        ensures tid { IsTrue result → 1 ≤ tid }
    {
        self.threads.is_running(tid)
    }

    /// Tests whether two guests are in one state.
    pub fn same(&self, other: &Guest) -> bool
        ensures { IsTrue result ↔ (state_of self.now ≡ state_of other.now) }
    {
        self.space.same(&other.space)
            && self.same_threads(other)
            && self.opening_break == other.opening_break
            && self.program_break == other.program_break
            && self.reservation == other.reservation
            && self.ended == other.ended
    }

    /// Tests whether two guests have one version, the same threads, in the same waiting order, and the same next tid.
    fn same_threads(&self, other: &Guest) -> bool
        ensures { IsTrue result ↔ ((state_of self.now).version ≡ (state_of other.now).version)
            × ((state_of self.now).threads ≡ (state_of other.now).threads)
            × ((state_of self.now).waiting ≡ (state_of other.now).waiting)
            × ((state_of self.now).next_tid ≡ (state_of other.now).next_tid) }
    {
        self.threads.same(&other.threads)
    }

    /// The same guest once more, with how many instructions it ran and had run before its last call, but without its snapshots
    /// and what that call put out. Refused if a growth is.
    pub fn try_clone(&self, alloc: Global) -> Result<Guest, Memory>
        ensures state { IfOk result (λ copy. state_of copy ≡ state_of self.now) }
        ensures ran { IfOk result (λ copy. copy.ran ≡ self.now.ran) }
        ensures ran_before_call { IfOk result (λ copy. copy.ran_before_call ≡ self.now.ran_before_call) }
        ensures put { IfOk result (λ copy. copy.put ≡ None) }
        ensures snapshots { IfOk result (λ copy. (n : ℕ) → guest_snapshots copy n ≡ None) }
    {
        Ok(Guest {
            space: self.space.try_clone(alloc)?,
            threads: self.threads.try_clone(alloc)?,
            opening_break: self.opening_break,
            program_break: self.program_break,
            reservation: self.reservation,
            ended: self.ended,
            ran: self.ran,
            ran_before_call: self.ran_before_call,
            put: None,
        })
    }

    /// The rules by which it runs.
    pub fn version(&self) -> Version
        ensures { result ≡ (state_of self.now).version }
    {
        self.threads.version()
    }

    /// Tests whether some thread waits with a timeout.
    pub fn has_timed(&self) -> bool
        ensures { IsTrue result ↔ HasTimed (state_of self.now) }
    {
        self.threads.has_timed()
    }

    /// Tests whether some thread runs.
    pub fn has_running(&self) -> bool
        ensures { IsTrue result ↔ HasRunning (state_of self.now) }
    {
        self.threads.has_running()
    }

    /// The tids of the threads that run, rising. `Memory` where a growth is refused, which only happens where one runs.
    pub fn running(&self, alloc: Global) -> Result<Vec<u32>, Memory>
        ensures rising { IfOk result (λ tids. IsStrictlyIncreasing tids.items) }
        ensures running { IfOk result (λ tids. (tid : ℕ)
            → Contains tids.items tid ↔ IsRunning (thread_at (state_of self.now) tid)) }
        ensures memory { OnErr result (HasRunning (state_of self.now)) }
    {
        self.threads.running(alloc)
    }

    /// A thread that runs.
    pub(crate) fn running_thread(&self, tid: u32) -> Thread
        requires { IsRunning (thread_at (state_of self.now) tid) }
        ensures there { thread_at (state_of self.now) tid ≡ Some result }
        ensures runs { IsRunningThread result }
    {
        self.threads.get(tid).unwrap()
    }

    /// Ends a slice: the reservation is gone, and the guest has ended where an end is given.
    pub fn close_slice(&mut self, end: Option<GuestEnd>)
        ensures { Becomes (closed_by end (state_of self.old)) self.old self.new }
    {
        self.reservation = None;
        if end.is_some() {
            self.ended = end;
        }
    }
}

/// A law: a reservation is an address, and the status of an end a byte.
fn are_numbers(reservation: Reservation, ended: Option<GuestEnd>)
    ensures reservation { IfSome reservation (λ a. a < 2 ^ 32) }
    ensures ended { IfSome ended IsEnd }
{
    if let Some(address) = reservation {
        let _ = address;
    }
    if let Some(GuestEnd::Exited(status)) = ended {
        let _ = status;
    }
}
