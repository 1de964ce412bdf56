//! A guest's calls, a function a row.

ghost use Rattle.std.specs.Prelude.{◌≡◌, [], ◌∷◌, Some, None, MatchOption, true, IsTrue, IfOk, OnErr, length};
ghost use Rattle.std.specs.Prelude.{if◌then◌else◌, ◌==◌, ◌+◌, ◌≤◌, ◌^◌, ⊤};
ghost use Rattle.rrv_model.specs.declared.syscall.Syscall.TheVariants.{Write};
ghost use Rattle.rrv_model.specs.Memory.{readable, writable, bytes_at};
ghost use Rattle.rrv_model.specs.State.{thread_at, IsRunning};
ghost use Rattle.rrv_model.specs.CallRows.{range, is_output, only_returns, row_of, clears};
ghost use Rattle.rrv_model.specs.CallRows.{write_row, exit_row, exit_group_row, set_tid_address_row};
ghost use Rattle.rrv_model.specs.Calls.{call_row};
ghost use Rattle.rrv_model.specs.RecordText.{HasCallText};
ghost use Rattle.rrv_model.specs.Output.{puts, put_out, put_out_by};
ghost use Rattle.guest_calls.specs.Guest.{state_of, chunks_of};
ghost use Rattle.guest_calls.specs.Asking.{CallAsks, CallIsAnswered};
ghost use Rattle.guest_calls.specs.Carries.{CallDoes, ComesTo, KeepsRest, Makes, MakesOrStays, clearing_row};
ghost use Rattle.guest_calls.specs.Clones.{IsRunningThread};
ghost use Rattle.guest_calls.specs.Growth.{CallMayGrow, IsQuiet, MayGrow, PutsBytes};

use crate::guest::Guest;
use crate::outside::Outside;
use crate::put::Put;
use crate::request::request_of;
use rrv_model::limits::MAX_TRANSFER;
use rrv_model::machine::Thread;
use rrv_model::record::{CallRecord, Written};
use rrv_model::refusal::Memory;
use rrv_model::sequence::Sequence;
use rrv_model::syscall::{Syscall, syscall_of};
use std::alloc::Global;

/// The numbers of errors (Linux man pages, errno(3)).
pub(crate) const BAD_DESCRIPTOR: u32 = 9;

pub(crate) const TRY_AGAIN: u32 = 11;

pub(crate) const NO_MEMORY: u32 = 12;

pub(crate) const BAD_ADDRESS: u32 = 14;

pub(crate) const INVALID: u32 = 22;

pub(crate) const NO_SUCH_CALL: u32 = 38;

/// The register that has a call's number, a7.
pub(crate) const NUMBER: usize = 17;

/// The result of a call that failed.
pub(crate) fn failure(errno: u32) -> u32
    requires { 1 ≤ errno }
    ensures { result + errno ≡ 2 ^ 32 }
{
    u32::MAX - errno + 1
}

/// Tests whether a descriptor is one of the two that put bytes out.
pub(crate) fn is_output(descriptor: u32) -> bool
    ensures { result ≡ is_output descriptor }
{
    descriptor == 1 || descriptor == 2
}

/// What a call records that writes one word of zeros.
fn cleared_word(alloc: Global, address: u32) -> Result<Sequence<Written>, Memory>
    ensures { IfOk result (λ written. written ≡ range address (0 ∷ 0 ∷ 0 ∷ 0 ∷ [])) }
{
    let bytes = vec![in alloc; 0u8; 4]?;
    let mut written = Vec::new(alloc);
    match written.push(Written {
        address,
        bytes: Sequence::from_vec(bytes),
    }) {
        Ok(()) => Ok(Sequence::from_vec(written)),
        Err(_) => Err(Memory),
    }
}

/// What a call puts out; nothing where there is no byte.
pub(crate) fn put_of(descriptor: u32, bytes: Vec<u8>) -> Option<Put>
    ensures { chunks_of result
        ≡ (if length bytes.items == 0 then [] else record { descriptor = descriptor; bytes = bytes.items } ∷ []) }
{
    if bytes.is_empty() {
        return None;
    }
    Some(Put {
        descriptor,
        bytes: Sequence::from_vec(bytes),
    })
}

/// What a call comes to: what it records, or it finds no memory.
pub(crate) type CallResult = Result<CallRecord, Memory>;

impl Guest {
    /// Makes the call of a running thread, whose `pc` is past its ECALL. The environment is asked once at most, and
    /// only where the call's rule looks at it. Where a growth is refused, all is as before, and nobody was asked.
    pub fn call<O: Outside>(
        &mut self,
        alloc: Global,
        tid: u32,
        outside: &mut O,
    ) -> Result<CallRecord, Memory>
        requires running { IsRunning (thread_at (state_of self.old) tid) }
        requires runs { (state_of self.old).ended ≡ None }
        ensures calls { IfOk result (λ r. CallDoes (state_of self.old) tid r (state_of self.new)) }
        ensures answered { IfOk result (λ r. CallIsAnswered O.gives (state_of self.old) tid
            (thread_at (state_of self.old) tid) r outside.old outside.new) }
        ensures text { IfOk result HasCallText }
        ensures puts { IfOk result (λ r. chunks_of self.new.put
            ≡ put_out_by (thread_at (state_of self.old) tid) (state_of self.old).memory r.result) }
        ensures memory { OnErr result (CallMayGrow (state_of self.old) tid (thread_at (state_of self.old) tid)) }
        ensures refused { OnErr result (self.new ≡ self.old) }
        ensures refused_unasked { OnErr result (outside.new ≡ outside.old) }
        ensures keeps { KeepsRest self.old self.new }
        ensures unasked { ¬ CallAsks (state_of self.old) tid (thread_at (state_of self.old) tid)
            → outside.new ≡ outside.old }
    {
        let thread = self.running_thread(tid);
        self.make_call(alloc, tid, &thread, outside)
    }

    /// What the last call put out: a descriptor and bytes.
    pub fn put_out(&self) -> Option<(u32, &[u8])>
        ensures { MatchOption result (chunks_of self.now.put ≡ [])
            (λ put. chunks_of self.now.put ≡ record { descriptor = put.0; bytes = put.1.now } ∷ []) }
    {
        match &self.put {
            Some(put) => Some((put.descriptor, put.bytes.as_slice())),
            None => None,
        }
    }

    /// Takes what the last call put out, and leaves nothing in its place: a recorder keeps it without a copy.
    pub fn take_put(&mut self) -> Option<Put>
        ensures put { result ≡ self.old.put }
        ensures rest { self.new ≡ record self.old { put = None } }
    {
        self.put.take()
    }

    /// Makes a call, by its number.
    fn make_call<O: Outside>(
        &mut self,
        alloc: Global,
        tid: u32,
        thread: &Thread,
        outside: &mut O,
    ) -> CallResult
        requires there { thread_at (state_of self.old) tid ≡ Some thread.now }
        requires runs { IsRunningThread thread.now }
        ensures { ComesTo O.gives (call_row (state_of self.old) tid thread.now)
            (put_out (state_of self.old).memory thread.now) (CallMayGrow (state_of self.old) tid (Some thread.now))
            tid thread.now self.old result self.new outside.old outside.new }
    {
        let call = syscall_of(thread.regs.registers[NUMBER]);
        match request_of(call, thread) {
            Some(requested) => self.ask(alloc, tid, requested, outside),
            None => self.make_quiet_call(alloc, tid, call, thread),
        }
    }

    /// Makes a call that asks nobody: each has a function of its own, or answers a value.
    #[tactic(auto, unfolding(rrv_model::specs::CallRows::row_of))]
    fn make_quiet_call(
        &mut self,
        alloc: Global,
        tid: u32,
        call: Syscall,
        thread: &Thread,
    ) -> CallResult
        requires there { thread_at (state_of self.old) tid ≡ Some thread.now }
        requires runs { IsRunningThread thread.now }
        requires quiet { IsQuiet call }
        ensures { MakesOrStays (row_of call tid (state_of self.old) thread.now)
            (puts call (state_of self.old).memory thread.now)
            (MayGrow call tid (state_of self.old) thread.now) tid self.old result self.new }
    {
        match call {
            Syscall::Write => self.write(alloc, tid, thread),
            Syscall::Writev => self.writev(alloc, tid, thread),
            Syscall::Exit => self.exit(alloc, tid, thread),
            Syscall::ExitGroup => Ok(self.exit_group(alloc, tid, thread)),
            Syscall::SetTidAddress => Ok(self.set_tid_address(alloc, tid, thread)),
            Syscall::Futex => self.futex(alloc, tid, thread),
            Syscall::SchedYield => Ok(self.answer(alloc, tid, 0)),
            Syscall::Getpid => Ok(self.answer(alloc, tid, 1)),
            Syscall::Gettid => Ok(self.answer(alloc, tid, tid)),
            Syscall::Brk => self.brk(alloc, tid, thread),
            Syscall::Munmap => Ok(self.munmap(alloc, tid, thread)),
            Syscall::Clone => self.clone_thread(alloc, tid, thread),
            Syscall::Mmap => self.mmap(alloc, tid, thread),
            Syscall::Mprotect => Ok(self.mprotect(alloc, tid, thread)),
            Syscall::Other => Ok(self.answer(alloc, tid, failure(NO_SUCH_CALL))),
            Syscall::Read | Syscall::Getrandom | Syscall::ClockGettime => unreachable!(),
        }
    }

    /// Answers a value, and does nothing else.
    pub(crate) fn answer(&mut self, alloc: Global, tid: u32, value: u32) -> CallRecord
        ensures makes { Makes (only_returns value) [] tid self.old result self.new }
        ensures value { result.result ≡ value }
    {
        self.set_result(tid, value);
        self.put = None;
        CallRecord {
            result: value,
            written: Sequence::from_vec(Vec::new(alloc)),
        }
    }

    /// Bytes that can be read.
    fn readable_bytes(&self, alloc: Global, address: u32, count: u32) -> Result<Vec<u8>, Memory>
        requires { readable (state_of self.now).memory address count ≡ true }
        ensures { IfOk result (λ bytes. bytes.items ≡ bytes_at (state_of self.now).memory address count) }
    {
        let mut bytes = vec![in alloc; 0u8; count as usize]?;
        self.space
            .space()
            .load(address, bytes.as_mut_slice())
            .unwrap();
        Ok(bytes)
    }

    /// write(fd, buf, len)
    fn write(&mut self, alloc: Global, tid: u32, thread: &Thread) -> CallResult
        ensures { MakesOrStays (write_row (state_of self.old) thread.now)
            (puts Write (state_of self.old).memory thread.now)
            (PutsBytes (state_of self.old) thread.now) tid self.old result self.new }
    {
        let descriptor = thread.regs.registers[10];
        let address = thread.regs.registers[11];
        let count = thread.regs.registers[12].min(MAX_TRANSFER);
        if !is_output(descriptor) {
            return Ok(self.answer(alloc, tid, failure(BAD_DESCRIPTOR)));
        }
        if !self.space.is_readable(address, count) {
            return Ok(self.answer(alloc, tid, failure(BAD_ADDRESS)));
        }
        if count == 0 {
            return Ok(self.answer(alloc, tid, 0));
        }
        let bytes = self.readable_bytes(alloc, address, count)?;
        let record = self.answer(alloc, tid, count);
        self.put = put_of(descriptor, bytes);
        Ok(record)
    }

    /// exit(status)
    fn exit(&mut self, alloc: Global, tid: u32, thread: &Thread) -> CallResult
        requires { IsRunning (thread_at (state_of self.old) tid) }
        ensures { MakesOrStays (exit_row tid (state_of self.old) thread.now) (λ _. [])
            (IsTrue (clears (state_of self.old) thread.now)) tid self.old result self.new }
    {
        let status = thread.regs.registers[10];
        if self.clears(thread) {
            return self.exit_clearing(alloc, tid, thread.clear, status);
        }
        self.leave(tid, status);
        self.put = None;
        Ok(CallRecord {
            result: 0,
            written: Sequence::from_vec(Vec::new(alloc)),
        })
    }

    /// An exit that clears a word and wakes a thread.
    fn exit_clearing(&mut self, alloc: Global, tid: u32, clear: u32, status: u32) -> CallResult
        requires running { IsRunning (thread_at (state_of self.old) tid) }
        requires allowed { IsTrue (writable (state_of self.old).memory clear 4) }
        ensures { MakesOrStays (clearing_row clear tid status) (λ _. []) ⊤ tid self.old result self.new }
    {
        let written = cleared_word(alloc, clear)?;
        self.clear_word(clear)?;
        let _ = self.wake(clear, 1);
        self.leave(tid, status);
        self.put = None;
        Ok(CallRecord { result: 0, written })
    }

    /// exit_group(status)
    fn exit_group(&mut self, alloc: Global, tid: u32, thread: &Thread) -> CallRecord
        ensures makes { Makes (exit_group_row thread.now) [] tid self.old result self.new }
    {
        self.end(thread.regs.registers[10]);
        self.put = None;
        CallRecord {
            result: 0,
            written: Sequence::from_vec(Vec::new(alloc)),
        }
    }

    /// set_tid_address(a)
    fn set_tid_address(&mut self, alloc: Global, tid: u32, thread: &Thread) -> CallRecord
        ensures makes { Makes (set_tid_address_row tid thread.now) [] tid self.old result self.new }
    {
        self.set_clear(tid, thread.regs.registers[10]);
        self.set_result(tid, tid);
        self.put = None;
        CallRecord {
            result: tid,
            written: Sequence::from_vec(Vec::new(alloc)),
        }
    }
}
