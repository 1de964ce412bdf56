//! When the flusher takes its turns: each commit costs the store's writes and two syncs, so records wait a little for others.

use rrv_model::limits::BATCH_ITEMS;
use std::cell::Cell;
use std::sync::Wait;
use std::sync::atomic::{AtomicU64, Ordering};
use std::time::Duration;

/// The flusher is woken when this many records wait: as many as a body holds at most.
const ENOUGH: u64 = BATCH_ITEMS as u64;

/// How long the flusher sleeps at most, in milliseconds.
const LONGEST_SLEEP: u64 = 50;

/// How long a worker waits for a turn of the flusher at most, in milliseconds: then it looks whether the group has halted.
const LONGEST_WAIT: u64 = 10;

/// What the workers and the flusher tell each other of records. No contract says it, and none needs to: what a turn commits is the
/// queue's to tell.
#[derive(Drop)]
pub(crate) struct Pace {
    /// How many records were sent.
    sent: AtomicU64,
    /// How many were committed.
    committed: AtomicU64,
    /// How many were sent and not committed when the flusher began its last turn.
    known: AtomicU64,
    /// 1 if the flusher is to take another turn, else 0. It sleeps at this word.
    hurried: AtomicU64,
    /// How many turns committed something. Workers sleep at this word, of which the low 32 bits are looked at.
    turns: AtomicU64,
}

impl Pace {
    pub(crate) fn new() -> Pace {
        Pace {
            sent: AtomicU64::new(0),
            committed: AtomicU64::new(0),
            known: AtomicU64::new(0),
            hurried: AtomicU64::new(0),
            turns: AtomicU64::new(0),
        }
    }

    /// Tells that so many records were sent. The flusher wakes once enough wait.
    pub(crate) fn sent(&self, records: u32) {
        let records = u64::from(records);
        let before = self.sent.fetch_add(records, Ordering::SeqCst);
        let waited = before.saturating_sub(self.committed.load(Ordering::SeqCst));
        if waited < ENOUGH && ENOUGH - waited <= records {
            self.hurry();
        }
    }

    /// Tells that a worker waits for the flusher, or a guest's output for its record.
    pub(crate) fn hurry(&self) {
        if self.hurried.swap(1, Ordering::SeqCst) == 0 {
            self.hurried.wake_one();
        }
    }

    /// Sleeps after a turn until the flusher is to wake, or it slept as long as it may. What was sent before it returns stands in the
    /// queue by then.
    pub(crate) fn wait<R: Wait>(&self, rt: &R) {
        let longest = Duration::from_millis(LONGEST_SLEEP);
        self.hurried.park_timeout(rt, 0, longest);
        self.begin_turn();
    }

    /// Does the same after a turn that committed so many records, unless its body was full, by their number or by their bytes: then
    /// more wait.
    pub(crate) fn wait_after<R: Wait>(&self, rt: &R, records: usize) {
        let records = records as u64;
        self.committed.fetch_add(records, Ordering::SeqCst);
        self.turns.fetch_add(1, Ordering::SeqCst);
        self.turns.wake_all();
        if ENOUGH <= records || records < self.known.load(Ordering::SeqCst) {
            self.begin_turn();
        } else {
            self.wait(rt);
        }
    }

    /// Sleeps until a turn has committed something, or a worker slept as long as it may; not at all if one has since the worker was here
    /// last. `seen` is how many there were then.
    pub(crate) fn await_turn<R: Wait>(&self, rt: &R, seen: &Cell<u64>) {
        let turns = self.turns.load(Ordering::SeqCst);
        if seen.replace(turns) == turns {
            let longest = Duration::from_millis(LONGEST_WAIT);
            self.turns
                .park_timeout(rt, (turns % (1 << 32)) as u32, longest);
        }
    }

    /// Notes what is known as the flusher begins a turn. Who hurried it before this has sent its records, which the turn finds.
    fn begin_turn(&self) {
        self.hurried.store(0, Ordering::SeqCst);
        let sent = self.sent.load(Ordering::SeqCst);
        let known = sent.saturating_sub(self.committed.load(Ordering::SeqCst));
        self.known.store(known, Ordering::SeqCst);
    }
}
