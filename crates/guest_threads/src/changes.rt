//! Threads are made, wait, are woken and leave.

ghost use Rattle.std.specs.Prelude.{◌≡◌, ◌≤◌, ◌^◌, ◌≢◌, ◌==◌, ◌+◌, ◌-◌, not, IfOk, IfErr, OnOk, OnErr, IsTrue, false, Some, None, length, filter, find, AllPairs};
ghost use Rattle.rrv_model.specs.State.{State, IsThread, IsWait, IsRunning, IsTimed, AreRegs};
ghost use Rattle.rrv_model.specs.FrameStep.{timed_out, expired};
ghost use Rattle.rrv_model.specs.CallRows.{change_thread, set_register, waits, waits_at, waiters, woken, wakes};
ghost use Rattle.guest_threads.specs.Threads.{with_threads, alone, thread_in, is_full, spawned, without_thread, IsSpawnRefusal, IsWaitRefusal, IsExpireRefusal};

use crate::by_tid::{
    add_thread, is_timed, put_clear, put_regs, put_result, put_wait, remove_thread,
};
use crate::fault::ThreadFault;
use crate::threads::Threads;
use rrv_model::machine::{FutexWait, Regs, TIMED_OUT, Thread};

/// Takes a tid out of a list.
fn take_out(tids: &mut Vec<u32>, tid: u32)
    ensures { tids.new.items ≡ filter (λ w. not (w == tid)) tids.old.items }
{
    tids.retain(|w| *w != tid);
}

impl Threads {
    /// Makes a thread, which runs, and answers its tid: 1, 2, 3, .. in order of making. Refused with TooMany exactly
    /// where as many threads live as may or no tid is left, else with Memory where a growth is refused.
    pub fn spawn(&mut self, thread: Thread) -> Result<u32, ThreadFault>
        requires fits { IsThread self.old.version thread }
        requires runs { thread.wait ≡ None }
        ensures tid { IfOk result (λ tid. tid ≡ self.old.next_tid) }
        ensures room { OnOk result (is_full self.old ≡ false) }
        ensures spawned { OnOk result ((s : State)
            → with_threads self.new s ≡ spawned thread (with_threads self.old s)) }
        ensures refused { IfErr result (λ fault. IsSpawnRefusal fault self.old) }
        ensures err { OnErr result (self.new ≡ self.old) }
    {
        if self.is_full() {
            return Err(ThreadFault::TooMany);
        }
        let tid = self.next_tid;
        match add_thread(&mut self.threads, tid, thread) {
            Ok(()) => {
                self.next_tid = tid + 1;
                Ok(tid)
            }
            Err(_) => Err(ThreadFault::Memory),
        }
    }

    /// A running thread waits so, last in the waiting order. Refused with NotThere exactly if no such
    /// thread runs, else with Memory where a growth is refused.
    pub fn wait(&mut self, tid: u32, wait: FutexWait) -> Result<(), ThreadFault>
        requires fits { IsWait self.old.version wait }
        ensures running { OnOk result (IsRunning (thread_in self.old tid)) }
        ensures waits { OnOk result ((s : State)
            → with_threads self.new s ≡ waits tid wait (with_threads self.old s)) }
        ensures refused { IfErr result (λ fault. IsWaitRefusal fault (thread_in self.old tid)) }
        ensures err { OnErr result (self.new ≡ self.old) }
    {
        if !self.is_running(tid) {
            return Err(ThreadFault::NotThere);
        }
        match self.waiting.push(tid) {
            Ok(()) => {
                put_wait(&mut self.threads, tid, Some(wait));
                Ok(())
            }
            Err(_) => Err(ThreadFault::Memory),
        }
    }

    /// Wakes the first count threads that wait at an address, in the waiting order, and answers how many it woke. It
    /// takes no memory.
    pub fn wake(&mut self, address: u32, count: u32) -> u32
        ensures count { (s : State) → result ≡ length (waiters (with_threads self.old s) address count) }
        ensures wakes { (s : State) → with_threads self.new s ≡ wakes address count (with_threads self.old s) }
    {
        for done in 0..count {
            let Some(tid) = self.first_waiter(address) else {
                return done;
            };
            self.resume(tid);
        }
        count
    }

    /// The timed wait of a thread ends: it runs again, with the result that its time is up. Refused with NotThere exactly if
    /// there is no such thread, and with NotTimed exactly if it doesn't wait with a timeout. It takes no memory.
    pub fn expire(&mut self, tid: u32) -> Result<(), ThreadFault>
        ensures tid { OnOk result (1 ≤ tid) }
        ensures timed { OnOk result (IsTimed (thread_in self.old tid)) }
        ensures expires { OnOk result ((s : State)
            → with_threads self.new s ≡ expired tid (with_threads self.old s)) }
        ensures refused { IfErr result (λ fault. IsExpireRefusal fault (thread_in self.old tid)) }
        ensures err { OnErr result (self.new ≡ self.old) }
    {
        let Some(thread) = self.get(tid) else {
            return Err(ThreadFault::NotThere);
        };
        if !is_timed(&thread) {
            return Err(ThreadFault::NotTimed);
        }
        self.resume(tid);
        self.set_result(tid, TIMED_OUT);
        Ok(())
    }

    /// Sets the register in which a thread finds the result of its call, a0.
    fn set_result(&mut self, tid: u32, value: u32)
        ensures { (s : State) → with_threads self.new s
            ≡ change_thread tid (set_register 10 value) (with_threads self.old s) }
    {
        put_result(&mut self.threads, tid, value);
    }

    /// A running thread leaves the list. Refused with NotThere exactly where no such thread runs. It takes no memory.
    pub fn exit(&mut self, tid: u32) -> Result<(), ThreadFault>
        ensures running { OnOk result (IsRunning (thread_in self.old tid)) }
        ensures leaves { OnOk result ((s : State)
            → with_threads self.new s ≡ without_thread tid (with_threads self.old s)) }
        ensures refused { IfErr result (λ fault.
            (fault ≡ ThreadFault.NotThere) × ¬ IsRunning (thread_in self.old tid)) }
        ensures err { OnErr result (self.new ≡ self.old) }
    {
        if self.is_running(tid) {
            remove_thread(&mut self.threads, tid);
            Ok(())
        } else {
            Err(ThreadFault::NotThere)
        }
    }

    /// Sets a thread's registers, where it is there.
    #[inline]
    pub fn set_regs(&mut self, tid: u32, regs: Regs)
        requires { AreRegs regs }
        ensures { (s : State) → with_threads self.new s
            ≡ change_thread tid (λ t. record t { regs = regs }) (with_threads self.old s) }
    {
        put_regs(&mut self.threads, tid, regs);
    }

    /// Sets a thread's clear address, where it is there.
    pub fn set_clear(&mut self, tid: u32, address: u32)
        ensures { (s : State) → with_threads self.new s
            ≡ change_thread tid (λ t. record t { clear = address }) (with_threads self.old s) }
    {
        put_clear(&mut self.threads, tid, address);
    }

    /// Tests whether a thread waits at an address.
    fn waits_at(&self, tid: u32, address: u32) -> bool
        ensures { result ≡ waits_at (alone self.now) address tid }
    {
        match self.get(tid) {
            Some(thread) => match thread.wait {
                Some(wait) => address == wait.address,
                None => false,
            },
            None => false,
        }
    }

    /// The first thread in the waiting order that waits at an address.
    fn first_waiter(&self, address: u32) -> Option<u32>
        ensures first { result ≡ find (waits_at (alone self.now) address) self.now.waiting }
        ensures once { AllPairs (λ a b. a ≢ b) self.now.waiting }
    {
        self.waiting
            .iter()
            .copied()
            .find(|tid| self.waits_at(*tid, address))
    }

    /// A waiting thread runs again.
    fn resume(&mut self, tid: u32)
        ensures { (s : State) → with_threads self.new s ≡ woken (with_threads self.old s) tid }
    {
        take_out(&mut self.waiting, tid);
        put_wait(&mut self.threads, tid, None);
    }
}
