//! Stores at the edge of a page, over a whole slice: each is an instruction like another, and ends no slice.

use super::trial::{Row, Told, play, preempt};
use serial_sched::SliceFault;
use std::alloc::{AllocError, Global};
use std::test::Fail;
use test_guests::files::file_of;
use test_guests::words::{NO_OP, RESERVE, STORE_CONDITIONAL};

/// `lui a1, 0x7FF01`: where a page of the stack begins, behind another one.
const A1_PAGE: u32 = 0x7FF0_15B7;
/// `addi a1, a1, -4`
const A1_FOUR_BEFORE: u32 = 0xFFC5_8593;
/// `lui a2, 0x12345`, `addi a2, a2, 0x678`
const A2_HIGH: u32 = 0x1234_5637;

const A2_LOW: u32 = 0x6786_0613;
/// `li a3, 0x5A5`
const A3_VALUE: u32 = 0x5A50_0693;
/// `sh a2, -1(a1)`
const STORE_HALF: u32 = 0xFEC5_9FA3;
/// `sw a2, -2(a1)`
const STORE_WORD: u32 = 0xFEC5_AF23;

/// The last word of the page before, and the first one of the page.
const LAST: u32 = 0x7FF0_0FFC;

const NEXT: u32 = 0x7FF0_1000;

/// A file of 64 instructions, of which these are the first.
fn file_from(alloc: Global, first: &[u32]) -> Result<Vec<u8>, AllocError> {
    let mut words = [NO_OP; 64];
    for (word, place) in first.iter().zip(words.iter_mut()) {
        *place = *word;
    }
    file_of(alloc, &words)
}

/// The frame of a slice of 64 instructions, none of which is a call or a fault.
const fn whole() -> Result<Told, SliceFault> {
    preempt(1, 64)
}

#[test]
fn a_halfword_over_two_pages_ends_no_slice(rt: HostRuntime) -> Result<(), Fail> {
    let alloc = rt.alloc();
    let rows = [
        Row::Slice(1, 64, whole()),
        Row::Word(LAST, 0x7800_0000),
        Row::Word(NEXT, 0x0000_0056),
        Row::Ran(64),
        Row::IsFollowed,
    ];
    let elf = file_from(alloc, &[A1_PAGE, A2_HIGH, A2_LOW, STORE_HALF])?;
    play(&rt, alloc, elf, &rows)
}

#[test]
fn a_word_over_two_pages_ends_no_slice(rt: HostRuntime) -> Result<(), Fail> {
    let alloc = rt.alloc();
    let rows = [
        Row::Slice(1, 64, whole()),
        Row::Word(LAST, 0x5678_0000),
        Row::Word(NEXT, 0x0000_1234),
        Row::Ran(64),
        Row::IsFollowed,
    ];
    let elf = file_from(alloc, &[A1_PAGE, A2_HIGH, A2_LOW, STORE_WORD])?;
    play(&rt, alloc, elf, &rows)
}

#[test]
fn a_store_conditional_at_the_end_of_a_page_ends_no_slice(rt: HostRuntime) -> Result<(), Fail> {
    let alloc = rt.alloc();
    let rows = [
        Row::Slice(1, 64, whole()),
        Row::Register(12, 0),
        Row::Word(LAST, 0x0000_05A5),
        Row::Reserved(None),
        Row::Ran(64),
        Row::IsFollowed,
    ];
    let elf = file_from(
        alloc,
        &[
            A1_PAGE,
            A1_FOUR_BEFORE,
            A3_VALUE,
            RESERVE,
            STORE_CONDITIONAL,
        ],
    )?;
    play(&rt, alloc, elf, &rows)
}
