//! clone: a thread makes another one (Linux man pages, clone(2)).

ghost use Rattle.std.specs.Prelude.{◌≡◌, ◌==◌, ◌∷◌, [], ◌≤◌, IfOk, true, false, length, ⊤};
ghost use Rattle.std.specs.Prelude.{if◌then◌else◌};
ghost use Rattle.std.specs.Int.{w32, to_le_bytes};
ghost use Rattle.std.specs.List.{AllByRecursion};
ghost use Rattle.rrv_model.specs.State.{State, with_register, AreRegs};
ghost use Rattle.rrv_model.specs.CallRows.{argument, all_writable, are_clone_flags, child_of, clone_row, has_flag};
ghost use Rattle.rrv_model.specs.CallRows.{tid_places};
ghost use Rattle.rrv_model.specs.RecordText.{HasCallText, HasWrittenText};
ghost use Rattle.guest_threads.specs.Threads.{is_full, spawned, with_threads};
ghost use Rattle.guest_calls.specs.Guest.{state_of};
ghost use Rattle.guest_calls.specs.Carries.{BecomesOrStays, MakesOrStays};
ghost use Rattle.guest_calls.specs.Clones.{IsRunningThread, MayHaveChild, makes_child, with_child_at, words_at};
ghost use Rattle.guest_calls.specs.Growth.{Succeeds};

use crate::calls::{BAD_ADDRESS, CallResult, INVALID, TRY_AGAIN, failure};
use crate::changes::{A0, with_register};
use crate::guest::Guest;
use guest_pages::AddressSpace;
use guest_threads::Threads;
use rrv_model::machine::{Regs, Thread};
use rrv_model::record::{CallRecord, Written};
use rrv_model::refusal::Memory;
use rrv_model::sequence::Sequence;
use std::alloc::Global;

/// CLONE_VM, CLONE_FS, CLONE_FILES, CLONE_SIGHAND and CLONE_THREAD, which are required.
const REQUIRED: u32 = 0x1_0F00;
/// CLONE_SYSVSEM, CLONE_SETTLS, CLONE_PARENT_SETTID, CLONE_CHILD_CLEARTID, CLONE_DETACHED and CLONE_CHILD_SETTID, which
/// are allowed.
const ALLOWED: u32 = 0x17C_0000;
/// CLONE_SETTLS: the thread pointer is given.
const SET_TLS: u32 = 0x8_0000;
/// CLONE_PARENT_SETTID: the tid is written at ptid.
const PARENT_SET_TID: u32 = 0x10_0000;
/// CLONE_CHILD_CLEARTID: ctid is the child's clear address.
const CHILD_CLEAR_TID: u32 = 0x20_0000;
/// CLONE_CHILD_SETTID: the tid is written at ctid.
const CHILD_SET_TID: u32 = 0x100_0000;
/// The stack pointer and the thread pointer (RISC-V psABI, "Integer Register Convention").
const SP: usize = 2;

const TP: usize = 4;

/// Tests whether all flags that are required are there, and none but those that are allowed.
fn are_clone_flags(flags: u32) -> bool
    ensures { result ≡ are_clone_flags flags }
{
    flags & REQUIRED == REQUIRED && flags & (u32::MAX - (REQUIRED + ALLOWED)) == 0
}

/// Where the new tid is written, of ptid and ctid: at ptid, then at ctid.
fn tid_places<'a>(thread: &Thread, both: &'a [u32; 2]) -> &'a [u32]
    requires { both.now ≡ argument thread.now 2 ∷ argument thread.now 4 ∷ [] }
    ensures places { result.now ≡ tid_places thread.now }
    ensures few { length result.now ≤ 2 }
{
    let flags = thread.regs.registers[10];
    let child = flags & CHILD_SET_TID == CHILD_SET_TID;
    if flags & PARENT_SET_TID == PARENT_SET_TID {
        if child { both } else { &both[..1] }
    } else if child {
        &both[1..]
    } else {
        &both[..0]
    }
}

/// The stack of a child: the parent's where none is given.
fn with_stack(regs: Regs, stack: u32) -> Regs
    requires { AreRegs regs }
    ensures fits { AreRegs result }
    ensures value { result ≡ (if stack == 0 then regs else with_register 2 stack regs) }
{
    if stack == 0 {
        return regs;
    }
    with_register(regs, SP, stack)
}

/// The thread pointer of a child: the parent's where the flags give none.
fn with_thread_pointer(regs: Regs, flags: u32, pointer: u32) -> Regs
    requires { AreRegs regs }
    ensures fits { AreRegs result }
    ensures value { result ≡ (if has_flag flags 0x80000 then with_register 4 pointer regs else regs) }
{
    if flags & SET_TLS != SET_TLS {
        return regs;
    }
    with_register(regs, TP, pointer)
}

/// The clear address of a child.
fn clear_address(flags: u32, address: u32) -> u32
    ensures { result ≡ (if has_flag flags 0x200000 then address else 0) }
{
    if flags & CHILD_CLEAR_TID == CHILD_CLEAR_TID {
        address
    } else {
        0
    }
}

/// The child that a thread makes.
fn child_of(thread: &Thread) -> Thread
    requires { IsRunningThread thread.now }
    ensures value { result ≡ child_of thread.now }
    ensures runs { IsRunningThread result }
{
    let registers = &thread.regs.registers;
    let zeroed = with_register(thread.regs, A0, 0);
    let stacked = with_stack(zeroed, registers[11]);
    Thread {
        regs: with_thread_pointer(stacked, registers[10], registers[13]),
        wait: None,
        clear: clear_address(registers[10], registers[14]),
    }
}

/// A word that is written at an address.
fn written_word(alloc: Global, address: u32, word: u32) -> Result<Written, Memory>
    ensures { IfOk result (λ w. w ≡ record { address = address; bytes = to_le_bytes w32 word }) }
{
    let bytes = word.to_le_bytes().to_vec(alloc)?;
    Ok(Written {
        address,
        bytes: Sequence::from_vec(bytes),
    })
}

/// What a clone records: the tid at each place.
fn written_words(alloc: Global, places: &[u32], word: u32) -> Result<Sequence<Written>, Memory>
    ensures words { IfOk result (λ written. written ≡ words_at places.now word) }
    ensures texts { IfOk result (λ written. AllByRecursion HasWrittenText written) }
{
    let mut written = Vec::new(alloc);
    for place in places {
        let range = written_word(alloc, *place, word)?;
        match written.push(range) {
            Ok(()) => {}
            Err(_) => return Err(Memory),
        }
    }
    Ok(Sequence::from_vec(written))
}

/// The threads with one more, which stands under the next tid.
fn with_child(alloc: Global, threads: &Threads, child: Thread) -> Result<Threads, Memory>
    requires room { is_full threads.now ≡ false }
    requires runs { IsRunningThread child }
    ensures { IfOk result (λ more. (s : State) → with_threads more s ≡ spawned child (with_threads threads.now s)) }
{
    let mut more = threads.try_clone(alloc)?;
    match more.spawn(child) {
        Ok(_) => Ok(more),
        Err(_) => Err(Memory),
    }
}

impl Guest {
    /// clone(flags, stack, ptid, tls, ctid)
    pub(crate) fn clone_thread(&mut self, alloc: Global, tid: u32, thread: &Thread) -> CallResult
        requires { IsRunningThread thread.now }
        ensures { MakesOrStays (clone_row (state_of self.old) thread.now) (λ _. [])
            (Succeeds (clone_row (state_of self.old) thread.now)) tid self.old result self.new }
    {
        if !are_clone_flags(thread.regs.registers[10]) {
            return Ok(self.answer(alloc, tid, failure(INVALID)));
        }
        if self.threads.is_full() {
            return Ok(self.answer(alloc, tid, failure(TRY_AGAIN)));
        }
        let both = [thread.regs.registers[12], thread.regs.registers[14]];
        let places = tid_places(thread, &both);
        if !self.are_writable(places) {
            return Ok(self.answer(alloc, tid, failure(BAD_ADDRESS)));
        }
        let record = self.make_child(alloc, tid, thread, places)?;
        Ok(record)
    }

    /// Tests whether a word can be written at each place.
    fn are_writable(&self, places: &[u32]) -> bool
        ensures { result ≡ all_writable (state_of self.now).memory places.now }
    {
        for place in places {
            if !self.space.is_writable(*place, 4) {
                return false;
            }
        }
        true
    }

    /// Makes a child under the next tid, which is written at the places and answered.
    fn make_child(&mut self, alloc: Global, tid: u32, thread: &Thread, places: &[u32]) -> CallResult
        requires { MayHaveChild self.old thread.now places.now }
        ensures { MakesOrStays (makes_child (state_of self.old) thread.now places.now) (λ _. []) ⊤
            tid self.old result self.new }
    {
        let record = self.add_child(alloc, thread, places)?;
        self.set_result(tid, record.result);
        self.put = None;
        Ok(record)
    }

    /// A child under the next tid, which is written at the places. The space comes last of what can be refused, so that
    /// a refusal leaves all as before.
    fn add_child(&mut self, alloc: Global, thread: &Thread, places: &[u32]) -> CallResult
        requires { MayHaveChild self.old thread.now places.now }
        ensures child { BecomesOrStays result (with_child_at places.now thread.now (state_of self.old))
            self.old self.new }
        ensures record_is { IfOk result (λ r. let tid = (state_of self.old).next_tid in
            r ≡ record { result = tid; written = words_at places.now tid }) }
        ensures text { IfOk result HasCallText }
    {
        let child = self.threads.next_tid();
        let written = written_words(alloc, places, child)?;
        let threads = with_child(alloc, &self.threads, child_of(thread))?;
        self.space.store_words(places, child)?;
        self.threads = threads;
        Ok(CallRecord {
            result: child,
            written,
        })
    }
}
