//! A worker's post in its session.

ghost use Rattle.std.specs.Prelude.{◌≡◌};

use crate::gate::Gate;
use crate::pace::Pace;
use guest_calls::Guest;
use recorder::Pause;
use rrv_model::limits::MAX_TRANSFER;
use rrv_model::machine::Thread;
use rrv_model::record::Choice;
use rrv_model::syscall::{Syscall, syscall_of};
use std::cell::Cell;
use std::sync::Wait;
use std::sync::atomic::AtomicU64;
use std::time::Duration;

/// How long a worker sleeps at most, in nanoseconds.
const LONGEST_SLEEP: u64 = 10_000_000;

/// The register that has a call's number, a7.
const NUMBER: usize = 17;

/// The register that has what it returned, a0.
const RETURNED: usize = 10;

/// Which guest a worker records, told by its place among the jobs, and what it shares with the others.
#[derive(Drop)]
pub(crate) struct Post<'s, G: Gate> {
    pub guest: u32,
    gate: &'s G,
    pace: &'s Pace,
    /// Whether the slice that isn't sent yet ended in a call that put out.
    puts_out: Cell<bool>,
    /// Whether the worker has slept since the last frame.
    has_slept: Cell<bool>,
    /// What it sleeps on: nobody wakes it.
    bed: AtomicU64,
    /// How many turns of the flusher there were when the worker last waited for one.
    turns: Cell<u64>,
}

impl<'s, G: Gate> Post<'s, G> {
    pub(crate) fn new(guest: u32, gate: &'s G, pace: &'s Pace) -> Self
        ensures { result.guest ≡ guest }
    {
        Post {
            guest,
            gate,
            pace,
            puts_out: Cell::new(false),
            has_slept: Cell::new(false),
            bed: AtomicU64::new(0),
            turns: Cell::new(u64::MAX),
        }
    }

    /// Whether the guest may step.
    pub(crate) fn may_step(&self) -> bool {
        self.gate.may_step(self.guest)
    }

    /// Looks whether the slice of this choice ended in a call that put out; the guest had run so many instructions before it. Such
    /// a call by the last instruction of a quantum isn't seen: it looks like a thread that was preempted later.
    pub(crate) fn look_for_output(&self, guest: &Guest, choice: Choice, before: u64) {
        let count = guest.ran().saturating_sub(before);
        let ended_early = count < u64::from(choice.quantum);
        let put_out = match guest.thread(choice.tid) {
            Some(thread) => ended_early && has_put_out(&thread),
            None => false,
        };
        self.puts_out.set(put_out);
        self.has_slept.set(false);
    }

    /// Sleeps where all threads of the guest wait for a time: so many nanoseconds, or for 10 milliseconds where that is less, so that a
    /// halt and what became durable are seen, and a clock that isn't the host's. The flusher is hurried as the worker falls asleep, so
    /// that what the guest put out leaves.
    pub(crate) fn sleep<R: Wait>(&self, rt: &R, left: Option<u64>) {
        if !self.has_slept.replace(true) {
            self.pace.hurry();
        }
        let left = left.unwrap_or(LONGEST_SLEEP).min(LONGEST_SLEEP);
        self.bed.park_timeout(rt, 0, Duration::from_nanos(left));
    }

    /// Tells the flusher and the gate of the records that were sent, and the gate of those behind the opening, which is the first.
    /// `instructions` is how many the guest has run. The flusher is hurried if one of the records puts out.
    pub(crate) fn tell_sent(&self, before: u32, sent: u32, instructions: u64) {
        if before < sent {
            self.pace.sent(sent - before);
            if self.puts_out.replace(false) {
                self.pace.hurry();
            }
            if 1 < sent {
                self.gate.submitted(self.guest, sent - 1);
            }
            self.gate.sent(self.guest, sent, instructions);
        }
    }

    /// Tells the flusher that the worker waits for it.
    pub(crate) fn hurry(&self) {
        self.pace.hurry();
    }
}

impl<G: Gate> Pause for Post<'_, G> {
    /// Sleeps until the flusher has committed something, for 10 milliseconds at most.
    fn pause<R: Wait>(&self, rt: &R) {
        self.pace.await_turn(rt, &self.turns);
    }
}

/// Whether the last call of a thread, whose registers are as it left them, put bytes out.
fn has_put_out(thread: &Thread) -> bool {
    let registers = &thread.regs.registers;
    let returned = registers[RETURNED];
    match syscall_of(registers[NUMBER]) {
        Syscall::Write | Syscall::Writev => 1 <= returned && returned <= MAX_TRANSFER,
        _ => false,
    }
}
