//! Threads by tid, and what is done to one of them.

ghost use Rattle.std.specs.Prelude.{◌≡◌, ◌↔◌, ℕ, IsTrue, IsSome, IfOk, OnOk, OnErr, Contains};
ghost use Rattle.std.specs.FinMap.{get, insert, remove, len};
ghost use Rattle.std.specs.List.{list_any};
ghost use Rattle.std.specs.List.Sorted.{IsStrictlyIncreasing};
ghost use Rattle.std.specs.Map.{values_of};
ghost use Rattle.rrv_model.specs.State.{IsRunning, IsTimed};
ghost use Rattle.rrv_model.specs.CallRows.{changed, set_register};
ghost use Rattle.guest_threads.specs.Threads.{thread_map, running_in, runs, is_timed};

use rrv_model::machine::{FutexWait, Regs, Thread};
use rrv_model::refusal::Memory;
use std::alloc::Global;
use std::collections::BTreeMap;

/// A thread, by its tid.
#[inline]
pub(crate) fn find_thread(threads: &BTreeMap<u32, Thread>, tid: u32) -> Option<Thread>
    ensures { result ≡ get (thread_map threads.now.entries) tid }
{
    threads.get(&tid).copied()
}

/// Replaces a thread.
#[inline]
pub(crate) fn replace_thread(threads: &mut BTreeMap<u32, Thread>, tid: u32, thread: Thread)
    requires { IsSome (get (thread_map threads.old.entries) tid) }
    ensures { thread_map threads.new.entries ≡ insert (thread_map threads.old.entries) tid thread }
{
    if let Some(place) = threads.get_mut(&tid) {
        *place = thread;
    }
}

/// Adds a thread.
pub(crate) fn add_thread(
    threads: &mut BTreeMap<u32, Thread>,
    tid: u32,
    thread: Thread,
) -> Result<(), Memory>
    ensures added { OnOk result (thread_map threads.new.entries ≡ insert (thread_map threads.old.entries) tid thread) }
    ensures refused { OnErr result (threads.new.entries ≡ threads.old.entries) }
{
    match threads.insert(tid, thread) {
        Ok(_) => Ok(()),
        Err(_) => Err(Memory),
    }
}

/// Takes a thread out.
pub(crate) fn remove_thread(threads: &mut BTreeMap<u32, Thread>, tid: u32)
    ensures { thread_map threads.new.entries ≡ remove (thread_map threads.old.entries) tid }
{
    let _ = threads.remove(&tid);
}

/// The same threads once more.
pub(crate) fn clone_threads(
    threads: &BTreeMap<u32, Thread>,
) -> Result<BTreeMap<u32, Thread>, Memory>
    ensures { IfOk result (λ copy. copy.entries ≡ threads.now.entries) }
{
    Ok(threads.clone()?)
}

/// How many threads there are.
pub(crate) fn count_threads(threads: &BTreeMap<u32, Thread>) -> usize
    ensures { result ≡ len (thread_map threads.now.entries) }
{
    threads.len()
}

/// Sets a thread's registers.
#[inline]
pub(crate) fn put_regs(threads: &mut BTreeMap<u32, Thread>, tid: u32, regs: Regs)
    ensures { thread_map threads.new.entries
        ≡ changed tid (λ t. record t { regs = regs }) (thread_map threads.old.entries) }
{
    if let Some(mut thread) = find_thread(threads, tid) {
        thread.regs = regs;
        replace_thread(threads, tid, thread);
    }
}

/// Sets how a thread waits.
pub(crate) fn put_wait(threads: &mut BTreeMap<u32, Thread>, tid: u32, wait: Option<FutexWait>)
    ensures { thread_map threads.new.entries
        ≡ changed tid (λ t. record t { wait = wait }) (thread_map threads.old.entries) }
{
    if let Some(mut thread) = find_thread(threads, tid) {
        thread.wait = wait;
        replace_thread(threads, tid, thread);
    }
}

/// Sets the register in which a thread finds the result of its call, a0.
pub(crate) fn put_result(threads: &mut BTreeMap<u32, Thread>, tid: u32, value: u32)
    ensures { thread_map threads.new.entries
        ≡ changed tid (set_register 10 value) (thread_map threads.old.entries) }
{
    if let Some(mut thread) = find_thread(threads, tid) {
        thread.regs.registers[10] = value;
        replace_thread(threads, tid, thread);
    }
}

/// Sets a thread's clear address.
pub(crate) fn put_clear(threads: &mut BTreeMap<u32, Thread>, tid: u32, address: u32)
    ensures { thread_map threads.new.entries
        ≡ changed tid (λ t. record t { clear = address }) (thread_map threads.old.entries) }
{
    if let Some(mut thread) = find_thread(threads, tid) {
        thread.clear = address;
        replace_thread(threads, tid, thread);
    }
}

/// Tests whether the same threads are there.
pub(crate) fn same_threads(threads: &BTreeMap<u32, Thread>, others: &BTreeMap<u32, Thread>) -> bool
    ensures { IsTrue result ↔ (thread_map threads.now.entries ≡ thread_map others.now.entries) }
{
    // the tids of both rise, which a map's length tells
    let _ordered = threads.len();
    let _other_ordered = others.len();
    *threads == *others
}

fn any_timed(threads: &BTreeMap<u32, Thread>) -> bool
    ensures { result ≡ list_any is_timed (values_of threads.now.entries) }
{
    threads.values().any(is_timed)
}

/// Tests whether it waits with a timeout.
pub(crate) fn is_timed(thread: &Thread) -> bool
    ensures { result ≡ is_timed thread.now }
{
    match thread.wait {
        Some(wait) => wait.timeout.is_some(),
        None => false,
    }
}

/// Tests whether some thread waits with a timeout.
pub(crate) fn some_wait_is_timed(threads: &BTreeMap<u32, Thread>) -> bool
    ensures { IsTrue result ↔ ((tid : ℕ) × IsTimed (get (thread_map threads.now.entries) tid)) }
{
    // the tids rise, which a map's length tells
    let _ordered = threads.len();
    any_timed(threads)
}

fn any_without_wait(threads: &BTreeMap<u32, Thread>) -> bool
    ensures { result ≡ list_any runs (values_of threads.now.entries) }
{
    threads.values().any(|thread| thread.wait.is_none())
}

/// Tests whether some thread runs.
pub(crate) fn some_thread_runs(threads: &BTreeMap<u32, Thread>) -> bool
    ensures { IsTrue result ↔ ((tid : ℕ) × IsRunning (get (thread_map threads.now.entries) tid)) }
{
    // the tids rise, which a map's length tells
    let _ordered = threads.len();
    any_without_wait(threads)
}

/// The tids of the threads that run, rising.
fn list_running(alloc: Global, threads: &BTreeMap<u32, Thread>) -> Result<Vec<u32>, Memory>
    ensures tids { IfOk result (λ tids. tids.items ≡ running_in threads.now.entries) }
    ensures memory { OnErr result ((tid : ℕ) × Contains (running_in threads.now.entries) tid) }
{
    let mut tids = Vec::new(alloc);
    for (tid, thread) in threads {
        if thread.wait.is_none() {
            if tids.push(*tid).is_err() {
                return Err(Memory);
            }
        }
    }
    Ok(tids)
}

/// The tids of the threads that run, rising.
pub(crate) fn running_tids(
    alloc: Global,
    threads: &BTreeMap<u32, Thread>,
) -> Result<Vec<u32>, Memory>
    ensures rising { IfOk result (λ tids. IsStrictlyIncreasing tids.items) }
    ensures running { IfOk result (λ tids. (tid : ℕ)
        → Contains tids.items tid ↔ IsRunning (get (thread_map threads.now.entries) tid)) }
    ensures memory { OnErr result ((tid : ℕ) × IsRunning (get (thread_map threads.now.entries) tid)) }
{
    // the tids rise, which a map's length tells
    let _ordered = threads.len();
    let tids = list_running(alloc, threads)?;
    Ok(tids)
}
