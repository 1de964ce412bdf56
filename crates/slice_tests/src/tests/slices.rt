//! How slices end, and which choices are refused.

use super::trial::{Row, call, play, preempt};
use rrv_model::machine::GuestEnd;
use serial_sched::{FollowFault, SliceFault};
use std::alloc::{AllocError, Global};
use std::test::Fail;
use test_guests::files::{EXIT_FIVE, file_of, file_with_data};
use test_guests::words::{A1_BEHIND, ECALL, NO_OP, RESERVE, STORE_CONDITIONAL, a7};

/// A guest whose 64th instruction is an LR, and whose next one is an SC to that address, of 0. A call follows.
fn reserving(alloc: Global) -> Result<Vec<u8>, AllocError> {
    let mut words = [NO_OP; 67];
    words[0] = A1_BEHIND;
    words[63] = RESERVE;
    words[64] = STORE_CONDITIONAL;
    words[65] = a7(124);
    words[66] = ECALL;
    file_with_data(alloc, &words)
}

#[test]
fn the_third_instruction_exits(rt: HostRuntime) -> Result<(), Fail> {
    let alloc = rt.alloc();
    let rows = [
        Row::Register(2, 0x7FFF_FFA0),
        Row::Break(0x1_1000),
        Row::Slice(1, 64, call(1, 3, 0)),
        Row::Ranges(0),
        Row::Ended(Some(GuestEnd::Exited(5))),
        Row::Ran(3),
        Row::Slice(1, 64, Err(SliceFault::Ended)),
        Row::IsFollowed,
    ];
    play(&rt, alloc, file_of(alloc, &EXIT_FIVE)?, &rows)
}

#[test]
fn choices_that_do_not_fit_are_refused(rt: HostRuntime) -> Result<(), Fail> {
    let alloc = rt.alloc();
    let rows = [
        Row::Slice(1, 63, Err(SliceFault::BadQuantum)),
        Row::Slice(2, 64, Err(SliceFault::NotRunnable)),
    ];
    play(&rt, alloc, file_of(alloc, &EXIT_FIVE)?, &rows)
}

#[test]
fn two_steps_and_no_third(rt: HostRuntime) -> Result<(), Fail> {
    let alloc = rt.alloc();
    let rows = [
        Row::Steps(2, Ok(())),
        Row::Ran(2),
        Row::Steps(1, Err(FollowFault::GoesNowhere)),
    ];
    play(&rt, alloc, file_of(alloc, &EXIT_FIVE)?, &rows)
}

#[test]
fn a_slice_ends_with_its_reservation(rt: HostRuntime) -> Result<(), Fail> {
    let alloc = rt.alloc();
    let rows = [
        Row::Slice(1, 64, preempt(1, 64)),
        Row::Reserved(None),
        Row::Slice(1, 64, call(1, 3, 0)),
        Row::Register(12, 1),
        Row::Word(0x1_1000, 0x464C_457F),
        Row::IsFollowed,
    ];
    play(&rt, alloc, reserving(alloc)?, &rows)
}

#[test]
fn a_longer_slice_keeps_its_reservation(rt: HostRuntime) -> Result<(), Fail> {
    let alloc = rt.alloc();
    let rows = [
        Row::Slice(1, 128, call(1, 67, 0)),
        Row::Register(12, 0),
        Row::Word(0x1_1000, 0),
        Row::Pages(258),
    ];
    play(&rt, alloc, reserving(alloc)?, &rows)
}
