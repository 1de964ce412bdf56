//! Threads from the parts of a checkpoint.

ghost use Rattle.std.specs.Prelude.{◌≡◌, ◌↔◌, ◌==◌, ◌<◌, ◌^◌, All, IfSome, IsTrue, IfOk, IfErr, OnOk, find};
ghost use Rattle.std.specs.List.{AllByRecursion};
ghost use Rattle.rrv_model.specs.State.{State, IsThread, IsTimeout, IsWait, AreRegs};
ghost use Rattle.guest_threads.specs.Threads.{thread_map, with_threads};
ghost use Rattle.guest_threads.specs.ThreadParts.{entries_of, with_parts, tids_rise, waits_in, order_fits, Fits, MakeThreads, IsPartsRefusal};

use crate::by_tid::add_thread;
use crate::fault::PartsFault;
use crate::threads::Threads;
use rrv_model::limits::MAX_TID;
use rrv_model::machine::{FutexWait, Regs, Thread, Timeout, Version};
use rrv_model::record::ThreadPart;
use rrv_model::refusal::Memory;
use std::alloc::Global;
use std::collections::BTreeMap;

impl Threads {
    /// The threads that a checkpoint tells: by tid, with the waiting order and the next tid. Refused with NoState exactly
    /// where the tids don't rise or no state has these threads, else with Memory where a growth is refused.
    pub fn from_parts(
        alloc: Global,
        version: Version,
        threads: &[ThreadPart],
        waiting: &[u32],
        next_tid: u32,
    ) -> Result<Threads, PartsFault>
        ensures made { IfOk result (λ made. (s : State)
            → with_threads made s ≡ with_parts version threads.now waiting.now next_tid s) }
        ensures rules { OnOk result (MakeThreads version threads.now waiting.now next_tid) }
        ensures refused { IfErr result (λ fault. IsPartsRefusal fault version threads.now waiting.now next_tid) }
    {
        if !make_threads(version, threads, waiting, next_tid) {
            return Err(PartsFault::NoState);
        }
        let Ok(by_tid) = collect_threads(alloc, threads) else {
            return Err(PartsFault::Memory);
        };
        let Ok(order) = waiting.to_vec(alloc) else {
            return Err(PartsFault::Memory);
        };
        Ok(Threads {
            version,
            threads: by_tid,
            waiting: order,
            next_tid,
        })
    }

    /// The threads as a checkpoint tells them, by rising tid. Refused where a growth is.
    pub fn to_parts(&self, alloc: Global) -> Result<Vec<ThreadPart>, Memory>
        ensures told { IfOk result (λ parts. (s : State)
            → with_parts self.now.version parts.items self.now.waiting self.now.next_tid s
            ≡ with_threads self.now s) }
        ensures rules { IfOk result (λ parts.
            MakeThreads self.now.version parts.items self.now.waiting self.now.next_tid) }
    {
        // the tids rise, which a map's length tells
        let _ordered = self.threads.len();
        let parts = list_parts(alloc, &self.threads)?;
        Ok(parts)
    }
}

/// Each thread under its tid.
fn list_parts(alloc: Global, threads: &BTreeMap<u32, Thread>) -> Result<Vec<ThreadPart>, Memory>
    ensures { IfOk result (λ parts. entries_of parts.items ≡ threads.now.entries) }
{
    let mut parts = Vec::new(alloc);
    for (tid, thread) in threads {
        let part = ThreadPart {
            tid: *tid,
            thread: *thread,
        };
        if parts.push(part).is_err() {
            return Err(Memory);
        }
    }
    Ok(parts)
}

/// Tests whether a state may have these threads, told by rising tid.
fn make_threads(version: Version, threads: &[ThreadPart], waiting: &[u32], next_tid: u32) -> bool
    ensures { IsTrue result ↔ MakeThreads version threads.now waiting.now next_tid }
{
    if threads.len() > version.live_threads() as usize {
        return false;
    }
    if next_tid < 1 {
        return false;
    }
    if next_tid > MAX_TID + 1 {
        return false;
    }
    if !tids_rise(threads) {
        return false;
    }
    if !threads_fit(version, threads, waiting, next_tid) {
        return false;
    }
    order_fits(threads, waiting)
}

/// Tests whether the tids rise.
fn tids_rise(threads: &[ThreadPart]) -> bool
    ensures { result ≡ tids_rise threads.now }
{
    let mut left = threads;
    while let [first, after @ ..] = left {
        if let [second, ..] = after
            && second.tid <= first.tid
        {
            return false;
        }
        left = after;
    }
    true
}

/// Tests whether each thread fits.
fn threads_fit(version: Version, threads: &[ThreadPart], waiting: &[u32], next_tid: u32) -> bool
    ensures { IsTrue result ↔ AllByRecursion (Fits version waiting.now next_tid) threads.now }
{
    let mut left = threads;
    while let [first, after @ ..] = left {
        if !part_fits(version, first, waiting, next_tid) {
            return false;
        }
        left = after;
    }
    true
}

/// Tests whether the tid is at least 1 and below the next one, the thread is one of a guest, and the waiting order names it
/// where it waits.
fn part_fits(version: Version, part: &ThreadPart, waiting: &[u32], next_tid: u32) -> bool
    ensures { IsTrue result ↔ Fits version waiting.now next_tid part.now }
{
    if part.tid < 1 || part.tid >= next_tid {
        return false;
    }
    if part.thread.wait.is_some() && !waiting.contains(&part.tid) {
        return false;
    }
    is_thread(version, &part.thread)
}

/// Tests whether it is a thread of a guest of a version: x0 is 0, and its wait has a timeout only where the version has them.
fn is_thread(version: Version, thread: &Thread) -> bool
    ensures { IsTrue result ↔ IsThread version thread.now }
{
    if let Some(wait) = &thread.wait
        && !is_wait(version, wait)
    {
        return false;
    }
    // it is below 2^32, which reading it tells
    let _clear = thread.clear;
    are_regs(&thread.regs)
}

/// Tests whether these are registers of a guest: x0 is 0.
fn are_regs(regs: &Regs) -> bool
    ensures { IsTrue result ↔ AreRegs regs.now }
{
    are_words(&regs.registers);
    // it is below 2^32, which reading it tells
    let _pc = regs.pc;
    regs.registers[0] == 0
}

/// Tests whether a guest of a version may wait so.
fn is_wait(version: Version, wait: &FutexWait) -> bool
    ensures { IsTrue result ↔ IsWait version wait.now }
{
    // it is below 2^32, which reading it tells
    let _address = wait.address;
    match &wait.timeout {
        Some(timeout) => is_timeout(version, timeout),
        None => true,
    }
}

/// Tests whether a wait of a version may have this timeout.
fn is_timeout(version: Version, timeout: &Timeout) -> bool
    ensures { IsTrue result ↔ IsTimeout version timeout.now }
{
    match version {
        Version::One => false,
        Version::Two => timeout.seconds < 1 << 63 && timeout.nanoseconds < 1_000_000_000,
    }
}

/// A law: words are below 2^32.
fn are_words(words: &[u32])
    ensures { All (λ value. value < 2 ^ 32) words.now }
{}

/// Tests whether the waiting order names waiting threads, each once.
fn order_fits(threads: &[ThreadPart], waiting: &[u32]) -> bool
    ensures { result ≡ order_fits threads.now waiting.now }
{
    let mut left = waiting;
    while let [first, after @ ..] = left {
        if !waits_among(threads, *first) || after.contains(first) {
            return false;
        }
        left = after;
    }
    true
}

/// Tests whether the first part of that tid is a thread that waits.
fn waits_among(threads: &[ThreadPart], tid: u32) -> bool
    ensures { result ≡ waits_in (find (λ p. p.tid == tid) threads.now) }
{
    match first_part(threads, tid) {
        Some(part) => part.thread.wait.is_some(),
        None => false,
    }
}

/// The first part of a tid.
fn first_part(threads: &[ThreadPart], tid: u32) -> Option<ThreadPart>
    ensures { result ≡ find (λ p. p.tid == tid) threads.now }
{
    threads.iter().copied().find(|part| part.tid == tid)
}

/// The threads by tid.
fn collect_threads(alloc: Global, threads: &[ThreadPart]) -> Result<BTreeMap<u32, Thread>, Memory>
    ensures { IfOk result (λ by_tid. thread_map by_tid.entries ≡ thread_map (entries_of threads.now)) }
{
    let [first, rest @ ..] = threads else {
        return Ok(BTreeMap::new(alloc));
    };
    let mut by_tid = collect_threads(alloc, rest)?;
    add_thread(&mut by_tid, first.tid, first.thread)?;
    Ok(by_tid)
}
