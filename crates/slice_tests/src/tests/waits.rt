//! Frames in which the time of a wait is over.

use super::trial::same;
use guest_calls::Guest;
use rrv_model::machine::Version;
use rrv_model::record::{Choice, End, Frame};
use serial_sched::{FollowFault, SliceFault, expire, follow, slice};
use std::alloc::Global;
use std::test::Fail;
use test_guests::files::{ONE_WAIT, file_of, guest_of_version};
use test_guests::outsides::Nothing;

const CHOICE: Choice = Choice {
    tid: 1,
    quantum: 64,
};

/// A guest whose only thread waits for a time.
fn asleep(alloc: Global) -> Result<Guest, Fail> {
    let elf = file_of(alloc, &ONE_WAIT)?;
    let mut guest = guest_of_version(alloc, Version::Two, &elf, 0).ok_or("no guest")?;
    slice(alloc, &mut guest, CHOICE, &mut Nothing)?;
    Ok(guest)
}

/// A frame in which a thread's wait is over, told with so many instructions.
fn expiry(tid: u32, count: u32) -> Frame {
    Frame {
        tid,
        count,
        end: End::Expire,
    }
}

#[test]
fn an_expiry_of_an_instruction_leads_nowhere(rt: HostRuntime) -> Result<(), Fail> {
    let alloc = rt.alloc();
    for (tid, count, want) in [
        (1, 0, Ok(())),
        (1, 1, Err(FollowFault::GoesNowhere)),
        (2, 0, Err(FollowFault::GoesNowhere)),
        (0, 0, Err(FollowFault::GoesNowhere)),
    ] {
        let mut guest = asleep(alloc)?;
        let found = follow(alloc, &mut guest, &expiry(tid, count));
        same(&rt, &(tid, count), found, want);
    }
    Ok(())
}

#[test]
fn an_expiry_counts_no_instruction(rt: HostRuntime) -> Result<(), Fail> {
    let alloc = rt.alloc();
    let mut guest = asleep(alloc)?;
    same(&rt, &"ran", guest.ran(), 10);
    let refused = slice(alloc, &mut guest, CHOICE, &mut Nothing).err();
    same(&rt, &"a slice", refused, Some(SliceFault::Waiting));
    let frame = expire(&mut guest, 1)?;
    same(&rt, &"count", (frame.tid, frame.count), (1, 0));
    same(&rt, &"ran", (guest.ran(), guest.is_running(1)), (10, true));
    same(
        &rt,
        &"again",
        expire(&mut guest, 1).err(),
        Some(SliceFault::NotTimed),
    );
    same(
        &rt,
        &"of another",
        expire(&mut guest, 2).err(),
        Some(SliceFault::NotTimed),
    );
    Ok(())
}
