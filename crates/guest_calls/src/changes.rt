//! Small changes of a guest's state.

ghost use Rattle.std.specs.Prelude.{◌≡◌, ◌≤◌, ◌<◌, IfErr, IsTrue, OnOk, length};
ghost use Rattle.std.specs.Int.{w32, to_le_bytes};
ghost use Rattle.rrv_model.specs.Memory.{writable, stored};
ghost use Rattle.rrv_model.specs.State.{thread_at, with_register, AreRegs, IsRunning, IsTimed, IsWait};
ghost use Rattle.rrv_model.specs.CallRows.{change_thread, waiters, waits, wakes, leaves, clears, ends, with_memory};
ghost use Rattle.rrv_model.specs.Calls.{results};
ghost use Rattle.rrv_model.specs.FrameStep.{expired};
ghost use Rattle.guest_threads.specs.Threads.{IsExpireRefusal};
ghost use Rattle.guest_calls.specs.Guest.{state_of};
ghost use Rattle.guest_calls.specs.Carries.{Becomes, BecomesOrStays};

use crate::guest::Guest;
use guest_pages::AddressSpace;
use guest_threads::ThreadFault;
use rrv_model::machine::{FutexWait, GuestEnd, Regs, Thread};
use rrv_model::refusal::Memory;

/// The register of a call's result.
pub(crate) const A0: usize = 10;

/// The registers with one of x1 to x31 set.
pub(crate) fn with_register(regs: Regs, register: usize, value: u32) -> Regs
    requires fits { AreRegs regs }
    requires register { (1 ≤ register) × (register < 32) }
    ensures fits { AreRegs result }
    ensures value { result ≡ with_register register value regs }
{
    let mut regs = regs;
    regs.registers[register] = value;
    regs
}

impl Guest {
    /// Puts a call's result into a0.
    pub(crate) fn set_result(&mut self, tid: u32, value: u32)
        ensures { Becomes (results tid value (state_of self.old)) self.old self.new }
    {
        if let Some(thread) = self.threads.get(tid) {
            self.threads
                .set_regs(tid, with_register(thread.regs, A0, value));
        }
    }

    /// Sets the clear address.
    pub(crate) fn set_clear(&mut self, tid: u32, address: u32)
        ensures { Becomes (change_thread tid (λ t. record t { clear = address }) (state_of self.old))
            self.old self.new }
    {
        self.threads.set_clear(tid, address);
    }

    /// Tests whether an exit of the thread clears a word.
    pub(crate) fn clears(&self, thread: &Thread) -> bool
        ensures { result ≡ clears (state_of self.now) thread.now }
    {
        thread.clear != 0 && thread.clear % 4 == 0 && self.space.is_writable(thread.clear, 4)
    }

    /// Clears a word.
    pub(crate) fn clear_word(&mut self, address: u32) -> Result<(), Memory>
        requires { IsTrue (writable (state_of self.old).memory address 4) }
        ensures { BecomesOrStays result
            (with_memory (stored address (to_le_bytes w32 0) (state_of self.old).memory) (state_of self.old))
            self.old self.new }
    {
        match self.space.store_word(address, 0) {
            Ok(()) => Ok(()),
            Err(_) => Err(Memory),
        }
    }

    /// A running thread waits so, last in the waiting order.
    pub(crate) fn wait(&mut self, tid: u32, wait: FutexWait) -> Result<(), Memory>
        requires running { IsRunning (thread_at (state_of self.old) tid) }
        requires fits { IsWait (state_of self.old).version wait }
        ensures { BecomesOrStays result (waits tid wait (state_of self.old)) self.old self.new }
    {
        let Ok(()) = self.threads.wait(tid, wait) else {
            return Err(Memory);
        };
        Ok(())
    }

    /// The timed wait of a thread ends: it runs again, with the result that its time is up. Refused with NotThere exactly if
    /// there is no such thread, and with NotTimed exactly if it doesn't wait with a timeout. It takes no memory.
    pub fn expire(&mut self, tid: u32) -> Result<(), ThreadFault>
        ensures tid { OnOk result (1 ≤ tid) }
        ensures timed { OnOk result (IsTimed (thread_at (state_of self.old) tid)) }
        ensures expires { BecomesOrStays result (expired tid (state_of self.old)) self.old self.new }
        ensures refused { IfErr result (λ fault. IsExpireRefusal fault (thread_at (state_of self.old) tid)) }
    {
        self.threads.expire(tid)
    }

    /// Wakes the first count threads that wait at an address, in the waiting order, and answers how many it woke.
    pub(crate) fn wake(&mut self, address: u32, count: u32) -> u32
        ensures count { result ≡ length (waiters (state_of self.old) address count) }
        ensures wakes { Becomes (wakes address count (state_of self.old)) self.old self.new }
    {
        self.threads.wake(address, count)
    }

    /// Ends the guest.
    pub(crate) fn end(&mut self, status: u32)
        ensures { Becomes (ends status (state_of self.old)) self.old self.new }
    {
        self.ended = Some(GuestEnd::Exited((status % 256) as u8));
    }

    /// A running thread leaves; the last one ends the guest.
    pub(crate) fn leave(&mut self, tid: u32, status: u32)
        requires { IsRunning (thread_at (state_of self.old) tid) }
        ensures { Becomes (leaves tid status (state_of self.old)) self.old self.new }
    {
        let Ok(()) = self.threads.exit(tid) else {
            unreachable!();
        };
        if self.threads.is_empty() {
            self.end(status);
        }
    }
}
