//! Lines of threads: what is done to them, and what is found among them.

ghost use Rattle.std.specs.Prelude.{◌≡◌, None};
ghost use Rattle.rrv_model.specs.declared.machine.Version.{Version};
ghost use Rattle.rrv_model.specs.State.{IsThread, IsWait};

use crate::answers::{done, listed, told};
use crate::lines::{number, numbers};
use guest_threads::{PartsFault, Threads};
use rrv_model::machine::{FutexWait, Regs, Thread, Timeout, Version};
use rrv_model::record::ThreadPart;
use std::alloc::Global;
use test_guests::harts::{part_of, timed_part_of};

/// A thread that runs, with zeros in its registers.
fn thread_from(pc: u32) -> Thread
    ensures fits { (version : Version) → IsThread version result }
    ensures runs { result.wait ≡ None }
{
    Thread {
        regs: Regs {
            pc,
            registers: [0; 32],
        },
        wait: None,
        clear: 0,
    }
}

/// The timeout of a word, `SECONDS.NANOSECONDS`.
fn timeout_in(word: &str) -> Option<Timeout> {
    let (seconds, nanoseconds) = word.split_once(".")?;
    Some(Timeout {
        seconds: seconds.parse::<u64>().ok()?,
        nanoseconds: nanoseconds.parse::<u32>().ok()?,
    })
}

/// The part of a tid and what stands behind its `@`: `ADDRESS`, or `ADDRESS+SECONDS.NANOSECONDS` with a timeout.
fn waiting_part(tid: u32, word: &str) -> Option<ThreadPart> {
    match word.split_once("+") {
        Some((address, timeout)) => Some(timed_part_of(
            tid,
            number(address)?,
            timeout_in(timeout)?,
        )),
        None => Some(part_of(tid, Some(number(word)?))),
    }
}

/// The part of a word: `TID` runs, `TID@ADDRESS` waits there; behind `!` stands one with 1 in x0.
fn part_in(word: &str) -> Option<ThreadPart> {
    let (word, zero) = match word.strip_prefix("!") {
        Some(rest) => (rest, 1),
        None => (word, 0),
    };
    let mut part = match word.split_once("@") {
        Some((tid, wait)) => waiting_part(number(tid)?, wait)?,
        None => part_of(number(word)?, None),
    };
    part.thread.regs.registers[0] = zero;
    Some(part)
}

fn parts_in(alloc: Global, words: &str) -> Option<Vec<ThreadPart>> {
    let mut parts = Vec::new(alloc);
    for word in words.split_whitespace() {
        parts.push(part_in(word)?).ok()?;
    }
    Some(parts)
}

/// How a thread stands: where it waits, and behind that its timeout, if it has one.
fn standing_text(alloc: Global, thread: &Thread) -> Option<String> {
    let Thread { regs, wait, clear } = thread;
    match wait {
        None => format!(in alloc; "Thread {{ regs: {regs:?}, waits_at: None, clear: {clear} }}"),
        Some(
            FutexWait {
                address,
                timeout: None,
            },
        ) => {
            format!(in alloc;
                "Thread {{ regs: {regs:?}, waits_at: Some({address}), clear: {clear} }}"
            )
        }
        Some(
            FutexWait {
                address,
                timeout: Some(timeout),
            },
        ) => {
            format!(in alloc;
                "Thread {{ regs: {regs:?}, waits_at: Some({address}), for: {timeout:?}, clear: {clear} }}"
            )
        }
    }
    .ok()
}

/// What is found of one thread.
fn thread_text(alloc: Global, threads: &Threads, tid: u32) -> Option<String> {
    match threads.get(tid) {
        Some(thread) => standing_text(alloc, &thread),
        None => "none".to_string(alloc).ok(),
    }
}

/// What is found among threads where a word asks this.
fn text_of(alloc: Global, threads: &Threads, name: &str) -> Option<String> {
    match name {
        "waiting" => listed(alloc, threads.waiting()),
        "all-running" => listed(alloc, threads.running(alloc).ok()?.as_slice()),
        "has-running" => told(alloc, &threads.has_running()),
        "has-timed" => told(alloc, &threads.has_timed()),
        "live" => told(alloc, &threads.live()),
        "full" => told(alloc, &threads.is_full()),
        "empty" => told(alloc, &threads.is_empty()),
        "next-tid" => told(alloc, &threads.next_tid()),
        _ => None,
    }
}

/// What a thread with this tid comes to.
fn one_text(alloc: Global, threads: &mut Threads, name: &str, tid: u32) -> Option<String> {
    match name {
        "exit" => done(alloc, threads.exit(tid)),
        "expire" => done(alloc, threads.expire(tid)),
        "running" => told(alloc, &threads.is_running(tid)),
        "thread" => thread_text(alloc, threads, tid),
        _ => None,
    }
}

/// The same with an address.
fn two_text(
    alloc: Global,
    threads: &mut Threads,
    name: &str,
    one: u32,
    two: u32,
) -> Option<String> {
    match name {
        "wait" => return done(alloc, threads.wait(one, untimed(two))),
        "wake" => return told(alloc, &threads.wake(one, two)),
        "stands" => threads.set_regs(one, thread_from(two).regs),
        "clears" => threads.set_clear(one, two),
        _ => return None,
    }
    Some(String::new(alloc))
}

/// A wait at an address without a timeout.
fn untimed(address: u32) -> FutexWait
    ensures { (version : Version) → IsWait version result }
{
    FutexWait {
        address,
        timeout: None,
    }
}

fn spawn_text(alloc: Global, threads: &mut Threads) -> Option<String> {
    match threads.spawn(thread_from(0x1_0000)) {
        Ok(tid) => told(alloc, &tid),
        Err(fault) => told(alloc, &fault),
    }
}

/// Two guests' threads, of which lines ask one; None before the first ones.
#[derive(Drop)]
pub struct Subject {
    threads: Option<Threads>,
    other: Option<Threads>,
}

impl Subject {
    /// No threads.
    pub fn new() -> Subject {
        Subject {
            threads: None,
            other: None,
        }
    }

    /// Goes on with threads, if there are some.
    fn keep(&mut self, alloc: Global, made: Result<Threads, PartsFault>) -> Option<String> {
        match made {
            Ok(threads) => self.threads = Some(threads),
            Err(fault) => return told(alloc, &fault),
        }
        Some(String::new(alloc))
    }

    /// The first thread of a guest of this version.
    fn open(&mut self, alloc: Global, version: Version) -> Option<String> {
        self.threads = Some(Threads::open(alloc, version, thread_from(0x1_0000)).ok()?);
        Some(String::new(alloc))
    }

    /// The threads that parts tell to a guest of this version: the next tid, the parts, and behind a bar the waiting order.
    fn make(&mut self, alloc: Global, version: Version, told: &str) -> Option<String> {
        let (next_tid, rest) = told.split_once(' ')?;
        let (parts, waiting) = rest.split_once('|')?;
        let parts = parts_in(alloc, parts)?;
        let waiting = numbers(alloc, waiting)?;
        self.keep(
            alloc,
            Threads::from_parts(alloc, version, &parts, &waiting, number(next_tid)?),
        )
    }

    /// What is found where words ask this.
    pub fn answer(&mut self, alloc: Global, asked: &str) -> Option<String> {
        let (name, rest) = asked.split_once(' ').unwrap_or((asked, ""));
        let (one, two) = rest.split_once(' ').unwrap_or((rest, ""));
        match name {
            "parts" => return self.make(alloc, Version::One, rest),
            "parts-two" => return self.make(alloc, Version::Two, rest),
            "new" => return self.open(alloc, Version::One),
            "new-two" => return self.open(alloc, Version::Two),
            "swap" => {
                std::mem::swap(&mut self.threads, &mut self.other);
                return Some(String::new(alloc));
            }
            _ => {}
        }
        let threads = self.threads.as_mut()?;
        match (name, one, two) {
            ("spawn", _, _) => spawn_text(alloc, threads),
            ("same", _, _) => told(alloc, &threads.same(self.other.as_ref()?)),
            (_, "", _) => text_of(alloc, threads, name),
            (_, _, "") => one_text(alloc, threads, name, number(one)?),
            _ => two_text(alloc, threads, name, number(one)?, number(two)?),
        }
    }
}
