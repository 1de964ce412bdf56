//! How far a recording is.

use host::Streams;
use progress::{Count, Extent, Meter};
use session::Gate;
use std::io::Write;
use std::sync::atomic::{AtomicBool, Ordering};
use std::sync::{Mutex, Wait};
use std::time::Clock;

/// How many guests are recorded at once at most.
const GUESTS: usize = 16;

/// What was sent of each guest.
#[derive(Drop)]
struct Tally<'a, R: Clock> {
    meter: Meter<'a, R>,
    sent: [Count; GUESTS],
}

impl<R: Clock> Tally<'_, R> {
    /// Counts what was sent of a guest, and answers what was sent of all, where a line may be written.
    fn count(&mut self, guest: u32, count: Count) -> Option<Count> {
        if let Some(place) = self.sent.get_mut(guest as usize) {
            *place = count;
        }
        if self.meter.is_due() {
            Some(total_of(&self.sent))
        } else {
            None
        }
    }
}

fn total_of(counts: &[Count; GUESTS]) -> Count {
    let mut total = Count {
        records: 0,
        instructions: 0,
    };
    for count in counts {
        total.records = total.records.saturating_add(count.records);
        total.instructions = total.instructions.saturating_add(count.instructions);
    }
    total
}

/// A gate that lets every step be made, and shows how far the recording is.
#[derive(Drop)]
pub(crate) struct RecordProgress<'a, R: Clock + Wait, O: Write + Drop, E: Write + Drop> {
    rt: &'a R,
    streams: &'a Mutex<Streams<O, E>>,
    is_shown: &'a AtomicBool,
    tally: Mutex<Tally<'a, R>>,
    is_on: bool,
}

impl<'a, R: Clock + Wait, O: Write + Drop, E: Write + Drop> RecordProgress<'a, R, O, E> {
    /// Shows it on the errors' stream of these, where `is_shown` says whether a line is shown; nothing where `is_on` is false.
    pub(crate) fn new(
        rt: &'a R,
        streams: &'a Mutex<Streams<O, E>>,
        is_shown: &'a AtomicBool,
        is_on: bool,
    ) -> Self {
        let tally = Tally {
            meter: Meter::new(rt),
            sent: [Count {
                records: 0,
                instructions: 0,
            }; GUESTS],
        };
        RecordProgress {
            rt,
            streams,
            is_shown,
            tally: Mutex::new(tally),
            is_on,
        }
    }

    fn tally(&self, guest: u32, count: Count) -> Option<Count> {
        self.tally.lock(self.rt).count(guest, count)
    }
}

impl<R: Clock + Wait, O: Write + Drop, E: Write + Drop> Gate for RecordProgress<'_, R, O, E> {
    fn may_step(&self, _guest: u32) -> bool {
        true
    }

    fn submitted(&self, _guest: u32, _frames: u32) {}

    fn sent(&self, guest: u32, records: u32, instructions: u64) {
        if !self.is_on {
            return;
        }
        let count = Count {
            records: u64::from(records),
            instructions,
        };
        let Some(done) = self.tally(guest, count) else {
            return;
        };
        let mut streams = self.streams.lock(self.rt);
        streams.note(&Extent { done, of: None });
        self.is_shown.store(true, Ordering::SeqCst);
    }
}
