//! Calls that ask the outside, recorded and followed.

use super::trial::{Row, Told, call, play, same};
use rrv_model::record::{CallRecord, End, Frame, Written};
use rrv_model::sequence::Sequence;
use serial_sched::{FollowFault, SliceFault, follow};
use std::alloc::{AllocError, Global};
use std::test::Fail;
use test_guests::files::{file_with_data, guest_of_file};
use test_guests::words::{ECALL, NO_OP};

/// Three calls, one after the other, which write to 0x7FF00000, in the stack.
const CALLS: [u32; 15] = [
    // `li a0, 0; lui a1, 0x7FF00; li a2, 10; li a7, 63`: reads up to ten bytes
    0x0000_0513,
    0x7FF0_05B7,
    0x00A0_0613,
    0x03F0_0893,
    ECALL,
    // `lui a0, 0x7FF00; li a1, 3; li a2, 0; li a7, 278`: asks for three random bytes
    0x7FF0_0537,
    0x0030_0593,
    0x0000_0613,
    0x1160_0893,
    ECALL,
    // `li a0, 1; lui a1, 0x7FF00; nop; li a7, 403`: asks for the monotonic time
    0x0010_0513,
    0x7FF0_05B7,
    NO_OP,
    0x1930_0893,
    ECALL,
];

/// Where the calls write.
const STACK: u32 = 0x7FF0_0000;

/// What the slice of a call tells.
const fn told(value: u32) -> Result<Told, SliceFault> {
    call(1, 5, value)
}

#[test]
fn answers_are_told_and_given_again(rt: HostRuntime) -> Result<(), Fail> {
    let alloc = rt.alloc();
    let rows = [
        Row::Slice(1, 64, told(4)),
        Row::Word(STACK, 0x0707_0707),
        Row::IsFollowed,
        Row::Slice(1, 64, told(3)),
        Row::Word(STACK, 0x075A_5A5A),
        Row::IsFollowed,
        Row::Slice(1, 64, told(0)),
        Row::Word(STACK, 0x0403_0201),
        Row::IsFollowed,
    ];
    play(&rt, alloc, file_with_data(alloc, &CALLS)?, &rows)
}

/// The guest's first frame, had its read been answered so many bytes and given this value.
fn read_frame(alloc: Global, bytes: usize, value: u32) -> Result<Frame, AllocError> {
    let mut written = Vec::new(alloc);
    written.push(Written {
        address: STACK,
        bytes: Sequence::from_vec(vec![in alloc; 9u8; bytes]?),
    })?;
    Ok(Frame {
        tid: 1,
        count: 5,
        end: End::Call(CallRecord {
            result: value,
            written: Sequence::from_vec(written),
        }),
    })
}

/// Has a guest follow that frame.
fn followed(alloc: Global, bytes: usize, value: u32) -> Result<Result<(), FollowFault>, Fail> {
    let elf = file_with_data(alloc, &CALLS)?;
    let mut guest = guest_of_file(alloc, &elf, 0).ok_or("no guest")?;
    let frame = read_frame(alloc, bytes, value)?;
    Ok(follow(alloc, &mut guest, &frame))
}

#[test]
fn a_read_goes_on_with_any_answer_that_fits(rt: HostRuntime) -> Result<(), Fail> {
    for (bytes, value, want) in [
        (1, 1, Ok(())),
        (10, 10, Ok(())),
        (11, 11, Err(FollowFault::GoesNowhere)),
        (4, 5, Err(FollowFault::GoesNowhere)),
        (4, 0, Err(FollowFault::GoesNowhere)),
    ] {
        let found = followed(rt.alloc(), bytes, value)?;
        same(&rt, &(bytes, value), found, want);
    }
    Ok(())
}
