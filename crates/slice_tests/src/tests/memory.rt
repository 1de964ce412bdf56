//! Growths that may be refused, as under `rt try --test --fail-alloc N`.

use super::trial::same;
use guest_calls::Guest;
use rrv_model::machine::GuestEnd;
use rrv_model::record::{Choice, End, Frame};
use serial_sched::{FollowFault, SliceFault, follow, slice, steps};
use std::alloc::Global;
use std::test::Fail;
use test_guests::files::{file_with_data, guest_of_file};
use test_guests::outsides::Nothing;
use test_guests::words::ECALL;

/// A guest of calls that grow, but for the last.
const WORDS: [u32; 55] = [
    // write(1, 0x10000, 4)
    0x0010_0513,
    0x0001_05B7,
    0x0040_0613,
    0x0400_0893,
    ECALL,
    // writev(2, 0x11000, 2), of these four bytes twice
    0x0001_15B7,
    0x0001_02B7,
    0x0055_A023,
    0x0040_0313,
    0x0065_A223,
    0x0055_A423,
    0x0065_A623,
    0x0020_0513,
    0x0020_0613,
    0x0420_0893,
    ECALL,
    // brk(0x14000), two pages above
    0x0001_4537,
    0x0D60_0893,
    ECALL,
    // mmap(0, 0x2000, 3, 0x22), two pages
    0x0000_0513,
    0x0000_25B7,
    0x0030_0613,
    0x0220_0693,
    0x0DE0_0893,
    ECALL,
    // read(0, 0x11000, 4)
    0x0000_0513,
    0x0001_15B7,
    0x0040_0613,
    0x03F0_0893,
    ECALL,
    // getrandom(0x11000, 3, 0)
    0x0001_1537,
    0x0030_0593,
    0x0000_0613,
    0x1160_0893,
    ECALL,
    // clock_gettime(0, 0x11000)
    0x0000_0513,
    0x0001_15B7,
    0x1930_0893,
    ECALL,
    // clone(0x310F00, 0, 0x11000, _, 0x11000): the word there is the new tid, 2, and is cleared when that thread exits
    0x0031_1537,
    0xF005_0513,
    0x0000_0593,
    0x0001_1637,
    0x0001_1737,
    0x0DC0_0893,
    ECALL,
    // The new thread goes on at the exit.
    0x0005_0E63,
    // futex(0x11000, 0, 2, 0), which waits
    0x0001_1537,
    0x0000_0593,
    0x0020_0613,
    0x0000_0693,
    0x0620_0893,
    ECALL,
    // exit(0): the new thread's clears the word and wakes the first one
    0x05D0_0893,
    ECALL,
];

/// Of each call: its thread, how many instructions that runs before its ECALL, and all instructions up to its own.
const CALLS: [(u32, u32, u64); 11] = [
    (1, 4, 5),
    (1, 10, 16),
    (1, 2, 19),
    (1, 5, 25),
    (1, 4, 30),
    (1, 4, 35),
    (1, 3, 39),
    (1, 6, 46),
    (1, 6, 53),
    (2, 2, 56),
    (1, 1, 58),
];

/// The guest of these calls. One growth may be refused.
fn growing(alloc: Global) -> Result<Guest, Fail> {
    let guest = match opened(alloc) {
        Some(guest) => guest,
        None => opened(alloc).ok_or("refused twice")?,
    };
    Ok(guest)
}

fn opened(alloc: Global) -> Option<Guest> {
    let elf = file_with_data(alloc, &WORDS).ok()?;
    guest_of_file(alloc, &elf, 0)
}

/// How many instructions a frame has that ends with a call.
fn count_to_call(frame: &Frame) -> Option<u32> {
    match &frame.end {
        End::Call(_) => Some(frame.count),
        _ => None,
    }
}

/// How many it has where its thread was preempted.
fn count_to_preempt(frame: &Frame) -> Option<u32> {
    match &frame.end {
        End::Preempt => Some(frame.count),
        _ => None,
    }
}

/// The guest of these calls, and its twin, which is led to the same state.
#[derive(Drop)]
struct Twins {
    guest: Guest,
    twin: Guest,
}

impl Twins {
    fn open(alloc: Global) -> Result<Twins, Fail> {
        Ok(Twins {
            guest: growing(alloc)?,
            twin: growing(alloc)?,
        })
    }

    /// Records a slice of the guest.
    fn slice(&mut self, alloc: Global, tid: u32) -> Result<Frame, SliceFault> {
        let choice = Choice { tid, quantum: 64 };
        slice(alloc, &mut self.guest, choice, &mut Nothing)
    }

    /// Runs so many plain steps of both.
    fn step(&mut self, tid: u32, count: u32) -> Result<(), FollowFault> {
        steps(&mut self.guest, tid, count)?;
        steps(&mut self.twin, tid, count)
    }

    /// Has the twin follow a frame, and tells whether there was memory.
    fn is_followed(&mut self, alloc: Global, frame: &Frame) -> Result<bool, Fail> {
        match follow(alloc, &mut self.twin, frame) {
            Ok(()) => Ok(true),
            Err(FollowFault::Memory) => Ok(false),
            Err(FollowFault::GoesNowhere) => Err(Fail::new("a frame leads nowhere")),
        }
    }

    fn are_same(&self) -> bool {
        self.guest.same(&self.twin)
    }

    fn have_run_the_same(&self) -> bool {
        self.guest.ran() == self.twin.ran()
    }

    fn have_put_the_same(&self) -> bool {
        self.guest.put_out() == self.twin.put_out()
    }

    fn ran(&self) -> u64 {
        self.guest.ran()
    }

    fn ended(&self) -> Option<GuestEnd> {
        self.guest.ended()
    }
}

/// Where each growth finds memory.
#[test]
fn a_slice_ends_with_its_call(rt: HostRuntime) -> Result<(), Fail> {
    let alloc = rt.alloc();
    let mut twins = Twins::open(alloc)?;
    for (tid, before, all) in CALLS {
        let frame = twins.slice(alloc, tid)?;
        same(&rt, &all, count_to_call(&frame), before.checked_add(1));
        same(&rt, &all, twins.ran(), all);
    }
    same(&rt, &"end", twins.ended(), Some(GuestEnd::Exited(0)));
    Ok(())
}

#[test]
fn a_slice_ends_before_what_finds_no_memory(rt: HostRuntime) -> Result<(), Fail> {
    let alloc = rt.alloc();
    let mut twins = Twins::open(alloc)?;
    for (tid, before, all) in CALLS {
        let mut frame = twins.slice(alloc, tid)?;
        if let Some(count) = count_to_preempt(&frame) {
            same(&rt, &all, 1 <= count && count <= before, true);
            if !twins.is_followed(alloc, &frame)? {
                return Ok(());
            }
            same(&rt, &all, twins.are_same(), true);
            frame = twins.slice(alloc, tid)?;
        }
        same(&rt, &all, count_to_call(&frame).is_some(), true);
        same(&rt, &all, twins.ran(), all);
        if !twins.is_followed(alloc, &frame)? {
            return Ok(());
        }
        same(&rt, &all, twins.are_same(), true);
        same(&rt, &all, twins.have_put_the_same(), true);
    }
    same(&rt, &"end", twins.ended(), Some(GuestEnd::Exited(0)));
    Ok(())
}

#[test]
fn a_first_instruction_that_finds_no_memory_is_not_run(rt: HostRuntime) -> Result<(), Fail> {
    let alloc = rt.alloc();
    let mut twins = Twins::open(alloc)?;
    for (tid, before, all) in CALLS {
        twins.step(tid, before)?;
        let frame = match twins.slice(alloc, tid) {
            Ok(frame) => frame,
            Err(fault) => {
                same(&rt, &all, fault, SliceFault::Memory);
                same(&rt, &all, twins.are_same(), true);
                same(&rt, &all, twins.have_run_the_same(), true);
                same(&rt, &all, twins.have_put_the_same(), true);
                twins.slice(alloc, tid)?
            }
        };
        same(&rt, &all, count_to_call(&frame), Some(1));
        same(&rt, &all, twins.ran(), all);
        if !twins.is_followed(alloc, &frame)? {
            return Ok(());
        }
        same(&rt, &all, twins.are_same(), true);
    }
    same(&rt, &"end", twins.ended(), Some(GuestEnd::Exited(0)));
    Ok(())
}
