//! Who may step when.

use session::Gate;
use std::sync::atomic::{AtomicBool, AtomicU32, Ordering};

/// Holds one guest until another has sent so many frames.
#[derive(Drop)]
pub(super) struct Behind {
    held: u32,
    least: u32,
    frames: AtomicU32,
}

impl Behind {
    /// It holds this guest until one of the others has sent so many frames.
    pub(super) fn holding(guest: u32, least: u32) -> Behind {
        Behind {
            held: guest,
            least,
            frames: AtomicU32::new(0),
        }
    }
}

impl Gate for Behind {
    fn may_step(&self, guest: u32) -> bool {
        guest != self.held || self.least <= self.frames.load(Ordering::SeqCst)
    }

    fn submitted(&self, guest: u32, frames: u32) {
        if guest != self.held {
            self.frames.store(frames, Ordering::SeqCst);
        }
    }
}

/// How often a guest looks for the other before it gives up.
const LOOKS: u32 = 1_000_000_000;

/// Keeps each of two guests inside its first question until the other one asks too.
#[derive(Drop)]
pub(super) struct Meeting {
    first: AtomicBool,
    second: AtomicBool,
    gave_up: AtomicBool,
}

impl Meeting {
    /// None has come.
    pub(super) fn new() -> Meeting {
        Meeting {
            first: AtomicBool::new(false),
            second: AtomicBool::new(false),
            gave_up: AtomicBool::new(false),
        }
    }

    /// Both came, and each while the other was there.
    pub(super) fn was_held(&self) -> bool {
        self.first.load(Ordering::SeqCst)
            && self.second.load(Ordering::SeqCst)
            && !self.gave_up.load(Ordering::SeqCst)
    }
}

/// Looks until the flag is set, or too often.
fn sees(flag: &AtomicBool) -> bool {
    for _ in 0..LOOKS {
        if flag.load(Ordering::SeqCst) {
            return true;
        }
    }
    false
}

impl Gate for Meeting {
    fn may_step(&self, guest: u32) -> bool {
        let (own, other) = if guest == 0 {
            (&self.first, &self.second)
        } else {
            (&self.second, &self.first)
        };
        if !own.swap(true, Ordering::SeqCst) && !sees(other) {
            self.gave_up.store(true, Ordering::SeqCst);
        }
        true
    }

    fn submitted(&self, _guest: u32, _frames: u32) {}
}
