//! futex: a thread waits at a word, and others wake it (Linux man pages, futex(2)).

ghost use Rattle.std.specs.Prelude.{◌≡◌, ◌%◌, ◌/◌, ◌*◌, ◌-◌, ◌≤◌, ◌<◌, [], IfErr, IfOk, IfSome, Ok, length, ⊤};
ghost use Rattle.std.specs.Int.{w64, from_le_bytes};
ghost use Rattle.rrv_model.specs.State.{thread_at, IsRunning, IsTimeout, IsWait};
ghost use Rattle.rrv_model.specs.CallRows.{Returns, asked_timeout, futex_row, told_timeout, wait_row, waiters, waits, wakes};
ghost use Rattle.guest_calls.specs.Guest.{state_of};
ghost use Rattle.guest_calls.specs.Carries.{Makes, MakesOrStays};
ghost use Rattle.guest_calls.specs.Growth.{BeginsWait, Succeeds};

use crate::calls::{BAD_ADDRESS, CallResult, INVALID, NO_SUCH_CALL, TRY_AGAIN, failure};
use crate::guest::Guest;
use rrv_model::machine::{FutexWait, Thread, Timeout, Version};
use rrv_model::record::CallRecord;
use std::alloc::Global;

/// FUTEX_WAKE; FUTEX_WAIT is 0.
const WAKE: u32 = 1;
/// FUTEX_PRIVATE_FLAG, which says nothing where one process is.
const PRIVATE: u32 = 128;

/// The operation, without the private flag.
fn operation_of(op: u32) -> u32
    ensures { result ≡ op - op / 128 % 2 * 128 }
{
    op - op / PRIVATE % 2 * PRIVATE
}

/// The 64-bit number of the first 8 bytes, its low byte first.
fn first_u64(bytes: &[u8]) -> u64
    requires { 8 ≤ length bytes.now }
    ensures { result ≡ from_le_bytes w64 bytes.now }
{
    u64::from_le_bytes([
        bytes[0], bytes[1], bytes[2], bytes[3], bytes[4], bytes[5], bytes[6], bytes[7],
    ])
}

impl Guest {
    /// futex(a, op, val, timeout)
    pub(crate) fn futex(&mut self, alloc: Global, tid: u32, thread: &Thread) -> CallResult
        requires { IsRunning (thread_at (state_of self.old) tid) }
        ensures { MakesOrStays (futex_row tid (state_of self.old) thread.now) (λ _. [])
            (BeginsWait tid (state_of self.old) thread.now) tid self.old result self.new }
    {
        let address = thread.regs.registers[10];
        let operation = operation_of(thread.regs.registers[11]);
        if operation > WAKE {
            return Ok(self.answer(alloc, tid, failure(NO_SUCH_CALL)));
        }
        if address % 4 != 0 {
            return Ok(self.answer(alloc, tid, failure(INVALID)));
        }
        if operation == WAKE {
            return Ok(self.wake_waiters(alloc, tid, address, thread.regs.registers[12]));
        }
        match self.asked_timeout(thread.regs.registers[13]) {
            Ok(timeout) => self.wait_at(alloc, tid, thread, timeout),
            Err(errno) => Ok(self.answer(alloc, tid, failure(errno))),
        }
    }

    /// The timeout of a wait, whose address is given; 0 is none. Else the number of the error.
    fn asked_timeout(&self, address: u32) -> Result<Option<Timeout>, u32>
        ensures is { result ≡ asked_timeout (state_of self.now).version (state_of self.now).memory address }
        ensures fits { IfOk result (λ timeout. IfSome timeout (IsTimeout (state_of self.now).version)) }
        ensures some { IfErr result (λ errno. (1 ≤ errno) × (errno < 4096)) }
    {
        if address == 0 {
            return Ok(None);
        }
        match self.version() {
            Version::One => Err(NO_SUCH_CALL),
            Version::Two => self.timeout_at(address),
        }
    }

    /// The timeout that stands at an address: seconds and nanoseconds, 8 bytes each.
    fn timeout_at(&self, address: u32) -> Result<Option<Timeout>, u32>
        ensures is { result ≡ told_timeout (state_of self.now).memory address }
        ensures fits { IfOk result (λ timeout. IfSome timeout (IsTimeout Version.Two)) }
        ensures some { IfErr result (λ errno. (1 ≤ errno) × (errno < 4096)) }
    {
        let mut bytes = [0u8; 16];
        if !self.space.is_readable(address, 16) {
            return Err(BAD_ADDRESS);
        }
        self.space.space().load(address, &mut bytes).unwrap();
        let (seconds, nanoseconds) = (first_u64(&bytes), first_u64(&bytes[8..]));
        if seconds >= 1 << 63 || nanoseconds >= 1_000_000_000 {
            return Err(INVALID);
        }
        Ok(Some(Timeout {
            seconds,
            nanoseconds: nanoseconds as u32,
        }))
    }

    /// A thread waits at its word, if that is the one that it expects.
    fn wait_at(
        &mut self,
        alloc: Global,
        tid: u32,
        thread: &Thread,
        timeout: Option<Timeout>,
    ) -> CallResult
        requires running { IsRunning (thread_at (state_of self.old) tid) }
        requires fits { IfSome timeout (IsTimeout (state_of self.old).version) }
        ensures { MakesOrStays (wait_row tid (state_of self.old) thread.now (Ok timeout)) (λ _. [])
            (Succeeds (wait_row tid (state_of self.old) thread.now (Ok timeout))) tid self.old result self.new }
    {
        let address = thread.regs.registers[10];
        let Some(word) = self.space.space().load_word(address) else {
            return Ok(self.answer(alloc, tid, failure(BAD_ADDRESS)));
        };
        if word != thread.regs.registers[12] {
            return Ok(self.answer(alloc, tid, failure(TRY_AGAIN)));
        }
        let record = self.begin_wait(alloc, tid, FutexWait { address, timeout })?;
        Ok(record)
    }

    /// Wakes the first count waiters at an address, in the waiting order, and answers how many there were.
    fn wake_waiters(&mut self, alloc: Global, tid: u32, address: u32, count: u32) -> CallRecord
        ensures makes { Makes (Returns (length (waiters (state_of self.old) address count)) [] (wakes address count)) []
            tid self.old result self.new }
    {
        let woken = self.wake(address, count);
        self.answer(alloc, tid, woken)
    }

    /// A running thread waits so, last in the waiting order; when it is woken it finds 0.
    fn begin_wait(&mut self, alloc: Global, tid: u32, wait: FutexWait) -> CallResult
        requires running { IsRunning (thread_at (state_of self.old) tid) }
        requires fits { IsWait (state_of self.old).version wait }
        ensures { MakesOrStays (Returns 0 [] (waits tid wait)) (λ _. []) ⊤ tid self.old result self.new }
    {
        self.wait(tid, wait)?;
        Ok(self.answer(alloc, tid, 0))
    }
}
