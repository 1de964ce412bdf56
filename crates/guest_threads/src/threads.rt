//! The threads of a guest, and what they tell.

ghost use Rattle.std.specs.Prelude.{◌≡◌, ◌↔◌, ℕ, ◌<◌, ◌≤◌, IsTrue, IfSome, OnSome, IfOk, OnErr, Contains, [], Some, None};
ghost use Rattle.std.specs.FinMap.{insert, empty};
ghost use Rattle.std.specs.List.Sorted.{IsStrictlyIncreasing};
ghost use Rattle.rrv_model.specs.State.{State, IsThread, IsRunning, IsTimed};

use crate::by_tid::{
    add_thread, clone_threads, count_threads, find_thread, running_tids, same_threads,
    some_thread_runs, some_wait_is_timed,
};
use rrv_model::limits::MAX_TID;
use rrv_model::machine::{Thread, Version};
use rrv_model::refusal::Memory;
use std::alloc::Global;
use std::collections::BTreeMap;
use std::marker::Model;

/// The threads of a guest: by tid, with the waiting order and the next tid.
pub struct Threads {
    pub(crate) version: Version,
    pub(crate) threads: BTreeMap<u32, Thread>,
    /// The tids of the waiting threads, in the waiting order.
    pub(crate) waiting: Vec<u32>,
    pub(crate) next_tid: u32,
}

impl Model for Threads {
    ghost use Rattle.rrv_model.specs.State.{AreThreads};
    ghost use Rattle.guest_threads.specs.Threads.{ThreadsValue, thread_map};

    ghost Value = { ThreadsValue };

    ghost view = { λ a. record {
      version = a.version;
      threads = a.threads.entries;
      waiting = a.waiting.items;
      next_tid = a.next_tid;
    } };

    ghost invariant = { λ a. AreThreads a.version (thread_map a.threads.entries) a.waiting.items a.next_tid };
}

// Written out: where one goes, a proof has one call, and not one for each of its parts.
impl Drop for Threads {
    fn drop(self) {
        let Threads {
            version: _,
            threads: _,
            waiting: _,
            next_tid: _,
        } = self;
    }
}

impl Threads {
    ghost use Rattle.guest_threads.specs.Threads.{with_threads, thread_in, live_count, is_full, KeepRules};

    /// A guest's first thread, which runs under tid 1.
    pub fn open(alloc: Global, version: Version, first: Thread) -> Result<Threads, Memory>
        requires fits { IsThread version first }
        requires runs { first.wait ≡ None }
        ensures { IfOk result (λ threads. (s : State) → with_threads threads s
            ≡ record s { version = version; threads = insert empty 1 first; waiting = []; next_tid = 2 }) }
    {
        let mut threads = BTreeMap::new(alloc);
        match add_thread(&mut threads, 1, first) {
            Ok(()) => Ok(Threads {
                version,
                threads,
                waiting: Vec::new(alloc),
                next_tid: 2,
            }),
            Err(_) => Err(Memory),
        }
    }

    /// The same threads once more, with their waiting order and next tid. Refused where a growth is.
    pub fn try_clone(&self, alloc: Global) -> Result<Threads, Memory>
        ensures { IfOk result (λ threads. threads ≡ self.now) }
    {
        Ok(Threads {
            version: self.version,
            threads: clone_threads(&self.threads)?,
            waiting: self.waiting().to_vec(alloc)?,
            next_tid: self.next_tid,
        })
    }

    /// The version of their guest.
    pub fn version(&self) -> Version
        ensures { result ≡ self.now.version }
    {
        self.version
    }

    /// A thread, by its tid.
    #[inline]
    pub fn get(&self, tid: u32) -> Option<Thread>
        ensures value { result ≡ thread_in self.now tid }
        ensures fits { IfSome result (IsThread self.now.version) }
        ensures tid { OnSome result ((1 ≤ tid) × (tid < self.now.next_tid)) }
    {
        find_thread(&self.threads, tid)
    }

    /// Tests whether a thread is there and does not wait.
    #[inline]
    pub fn is_running(&self, tid: u32) -> bool
        ensures runs { IsTrue result ↔ IsRunning (thread_in self.now tid) }
        ensures tid { IsTrue result → (1 ≤ tid) × (tid < self.now.next_tid) }
    {
        match self.get(tid) {
            Some(thread) => thread.wait.is_none(),
            None => false,
        }
    }

    /// Tests whether some thread runs.
    pub fn has_running(&self) -> bool
        ensures { IsTrue result ↔ ((tid : ℕ) × IsRunning (thread_in self.now tid)) }
    {
        some_thread_runs(&self.threads)
    }

    /// Tests whether some thread waits with a timeout.
    pub fn has_timed(&self) -> bool
        ensures { IsTrue result ↔ ((tid : ℕ) × IsTimed (thread_in self.now tid)) }
    {
        some_wait_is_timed(&self.threads)
    }

    /// The tids of the threads that run, rising. Refused only for want of memory, where some thread runs.
    pub fn running(&self, alloc: Global) -> Result<Vec<u32>, Memory>
        ensures rising { IfOk result (λ tids. IsStrictlyIncreasing tids.items) }
        ensures running { IfOk result (λ tids. (tid : ℕ)
            → Contains tids.items tid ↔ IsRunning (thread_in self.now tid)) }
        ensures memory { OnErr result ((tid : ℕ) × IsRunning (thread_in self.now tid)) }
    {
        running_tids(alloc, &self.threads)
    }

    /// How many threads live. That they keep the rules of a state's threads is told here, too.
    pub fn live(&self) -> u32
        ensures count { result ≡ live_count self.now }
        ensures rules { KeepRules self.now }
    {
        count_threads(&self.threads) as u32
    }

    /// Tests whether no thread is left.
    pub fn is_empty(&self) -> bool
        ensures { IsTrue result ↔ (live_count self.now ≡ 0) }
    {
        count_threads(&self.threads) == 0
    }

    /// Tests whether no thread can be made: as many live as a guest may have, or no tid is left.
    pub fn is_full(&self) -> bool
        ensures { result ≡ is_full self.now }
    {
        count_threads(&self.threads) >= self.version.live_threads() as usize
            || self.next_tid > MAX_TID
    }

    /// The tid of the thread that is made next; 2^31 where none is left.
    pub fn next_tid(&self) -> u32
        ensures { result ≡ self.now.next_tid }
    {
        self.next_tid
    }

    /// The tids of the waiting threads, in the waiting order.
    pub fn waiting(&self) -> &[u32]
        ensures { result.now ≡ self.now.waiting }
    {
        self.waiting.as_slice()
    }

    /// Tests whether both are the same threads, with the same waiting order and next tid.
    pub fn same(&self, other: &Threads) -> bool
        ensures { IsTrue result ↔ ((s : State) → with_threads self.now s ≡ with_threads other.now s) }
    {
        if self.version != other.version {
            return false;
        }
        same_threads(&self.threads, &other.threads)
            && self.waiting == other.waiting
            && self.next_tid == other.next_tid
    }
}
