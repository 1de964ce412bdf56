//! Slices that store to a page that a snapshot shares: its copy may find no memory.

use super::trial::same;
use guest_calls::Guest;
use rrv_model::record::{Choice, End, Frame};
use serial_sched::{SliceFault, follow, slice};
use std::alloc::Global;
use std::process::Abort;
use std::test::Fail;
use test_guests::files::{HELLO, file_of, guest_of_file};
use test_guests::outsides::Nothing;

/// It stores the stack pointer below where that points by its first instruction, writes these four bytes by its sixth, and exits
/// with 0 by its ninth.
const STORE_FIRST: [u32; 9] = [
    0xFE21_2823, // sw sp, -16(sp)
    0xFF01_0593, // addi a1, sp, -16
    0x0010_0513, // li a0, 1
    0x0040_0613, // li a2, 4
    0x0400_0893, // li a7, 64
    0x0000_0073, // ecall
    0x0000_0513, // li a0, 0
    0x05D0_0893, // li a7, 93
    0x0000_0073, // ecall
];

/// What a frame says: how many instructions it has, and what its call returned, if it ends with one.
type Told = (u32, Option<u32>);

fn told(frame: &Frame) -> Told {
    let value = match &frame.end {
        End::Call(call) => Some(call.result),
        _ => None,
    };
    (frame.count, value)
}

/// The guest of a program, which has run nothing: a step might pass a growth that is refused.
fn started(alloc: Global, program: &[u32]) -> Result<Guest, Fail> {
    let elf = file_of(alloc, program)?;
    Ok(guest_of_file(alloc, &elf, 0).ok_or("no guest")?)
}

fn slice_of(alloc: Global, guest: &mut Guest) -> Result<Told, SliceFault> {
    let choice = Choice {
        tid: 1,
        quantum: 64,
    };
    Ok(told(&slice(alloc, guest, choice, &mut Nothing)?))
}

/// A slice. If it finds no memory the guest is as one of these is, and the slice is made again.
fn slice_at_last(
    rt: &impl Abort,
    alloc: Global,
    guest: &mut Guest,
    before: &[Guest; 2],
) -> Result<Told, Fail> {
    let ran = guest.ran();
    match slice_of(alloc, guest) {
        Ok(told) => Ok(told),
        Err(fault) => {
            same(rt, &ran, fault, SliceFault::Memory);
            let stands = before.iter().any(|it| it.ran() == ran && it.same(guest));
            same(rt, &ran, (guest.ran(), stands), (ran, true));
            Ok(slice_of(alloc, guest)?)
        }
    }
}

/// The frames up to the guest's end, four at most. A slice may find no memory where one of these others stands.
fn frames_of(
    rt: &impl Abort,
    alloc: Global,
    guest: &mut Guest,
    before: &[Guest; 2],
) -> Result<[Told; 4], Fail> {
    let mut frames: [Told; 4] = [(0, None); 4];
    for frame in frames.iter_mut() {
        if guest.ended().is_none() {
            *frame = slice_at_last(rt, alloc, guest, before)?;
        }
    }
    Ok(frames)
}

/// Leads a guest so many instructions on. It may pass a growth that is refused.
fn lead_on(alloc: Global, guest: &mut Guest, count: u32) -> Result<(), Fail> {
    if count != 0 {
        let frame = Frame {
            tid: 1,
            count,
            end: End::Preempt,
        };
        follow(alloc, guest, &frame)?;
    }
    Ok(())
}

/// Runs the guest of a program to its end, over pages that a snapshot shares, and another over its own. Both come to the same end
/// after this many instructions, the first by such frames. A slice of it may find no memory after as many as one of these two.
fn ends_the_same(
    rt: &impl Abort,
    alloc: Global,
    program: &[u32],
    cuts: [u32; 2],
    count: u64,
    runs: &[[Told; 4]],
) -> Result<(), Fail> {
    let mut before = [started(alloc, program)?, started(alloc, program)?];
    let mut own = started(alloc, program)?;
    let mut shared = started(alloc, program)?;
    let _snapshot = shared.snapshot()?;
    for (guest, cut) in before.iter_mut().zip(cuts) {
        lead_on(alloc, guest, cut)?;
    }
    let frames = frames_of(rt, alloc, &mut shared, &before)?;
    same(rt, &frames, runs.contains(&frames), true);
    frames_of(rt, alloc, &mut own, &before)?;
    let found = (shared.ran(), shared.same(&own));
    same(rt, &frames, found, (count, true));
    Ok(())
}

// Undisturbed, cut before its fourth instruction, and cut before its eighth; also where the slice from there on finds none at first.
#[test]
fn a_slice_to_a_shared_page_finds_no_memory(rt: HostRuntime) -> Result<(), Fail> {
    let runs = [
        [(8, Some(3)), (3, Some(0)), (0, None), (0, None)],
        [(3, None), (5, Some(3)), (3, Some(0)), (0, None)],
        [(7, None), (1, Some(3)), (3, Some(0)), (0, None)],
    ];
    ends_the_same(&rt, rt.alloc(), &HELLO, [3, 7], 11, &runs)
}

// Undisturbed, also where the slice is made again, and cut before its sixth instruction.
#[test]
fn a_first_store_to_a_shared_page_finds_no_memory(rt: HostRuntime) -> Result<(), Fail> {
    let runs = [
        [(6, Some(4)), (3, Some(0)), (0, None), (0, None)],
        [(5, None), (1, Some(4)), (3, Some(0)), (0, None)],
    ];
    ends_the_same(&rt, rt.alloc(), &STORE_FIRST, [0, 5], 9, &runs)
}
