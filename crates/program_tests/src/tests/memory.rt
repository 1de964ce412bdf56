//! Verifying and seeking with refused growths, over a recording that is written by hand.

use super::given::verified_of;
use super::same;
use recover::ReadFault;
use replayer::{Verified, VerifyFault, verify};
use reverse_step::{Cursor, SeekFault};
use rrv_model::machine::{Regs, Thread, Version};
use rrv_model::record::{
    CheckpointRest, End, Frame, Item, Line, Opening, PagePart, Part, Record, ThreadPart,
};
use rrv_model::sequence::Sequence;
use std::alloc::{AllocError, Global};
use std::process::Abort;
use std::test::Fail;
use test_guests::files::{COUNT_UP, file_of};
use test_guests::permissions::DATA;

/// Where `COUNT_UP` stores.
const STORED: u32 = 0x7FF0_0000;

/// Its state after this many instructions: its pc, how far it has counted, and the count that it stored last.
fn counted(at: u32) -> (u32, u32, u32) {
    let place = match at.checked_sub(1) {
        Some(before) => before % 3 + 1,
        None => 0,
    };
    let pc = 0x1_0054u32.wrapping_add(place.wrapping_mul(4));
    (pc, at.saturating_add(1) / 3, at / 3)
}

/// Its one thread after this many instructions. The stack pointer is as the opening left it, with the name `a`.
fn thread_at(at: u32) -> Thread {
    let (pc, count, _) = counted(at);
    let mut registers = [0; 32];
    registers[2] = 0x7FFF_FFA0;
    registers[8] = count;
    registers[11] = STORED;
    Thread {
        regs: Regs { pc, registers },
        wait: None,
        clear: 0,
    }
}

/// The page that it stores to, of which the first line has changed.
fn page_at(alloc: Global, at: u32) -> Result<PagePart, AllocError> {
    let (_, _, stored) = counted(at);
    let mut bytes = [0; 64];
    bytes[..4].copy_from_slice(&stored.to_le_bytes());
    Ok(PagePart {
        number: STORED / 4096,
        permissions: Some(DATA),
        mask: 1,
        lines: Sequence::from_vec(vec![in alloc; Line { bytes }]?),
    })
}

/// The one part of a checkpoint after this many instructions.
pub(super) fn part_at(alloc: Global, at: u32) -> Result<Item, AllocError> {
    let tid = 1;
    let thread = thread_at(at);
    let page = page_at(alloc, at)?;
    let pages = vec![in alloc; page]?;
    let rest = CheckpointRest {
        program_break: 0x1_1000,
        next_tid: 2,
        threads: Sequence::from_vec(vec![in alloc; ThreadPart { tid, thread }]?),
        waiting: Sequence::from_vec(Vec::new(alloc)),
    };
    Ok(Item::Part(Part {
        pages: Sequence::from_vec(pages),
        rest: Some(rest),
    }))
}

/// The opening of a guest of these instructions.
pub(super) fn opening(alloc: Global, program: &[u32], name: &[u8]) -> Result<Item, AllocError> {
    let elf = file_of(alloc, program)?;
    let name = Vec::from_slice(alloc, name)?;
    Ok(Item::Opening(Opening {
        version: Version::One,
        elf: Sequence::from_vec(elf),
        name: Sequence::from_vec(name),
        random: [0; 16],
    }))
}

/// A frame of 64 instructions.
fn frame() -> Item {
    Item::Frame(Frame {
        tid: 1,
        count: 64,
        end: End::Preempt,
    })
}

/// Adds an item as the next record of guest 0.
pub(super) fn push(records: &mut Vec<Record>, item: Item) -> Result<(), Fail> {
    let index = u32::try_from(records.len())?;
    records.push(Record {
        guest: 0,
        index,
        item,
    })?;
    Ok(())
}

/// Its recording: four frames, with a checkpoint after the second and the fourth.
pub(super) fn recording(alloc: Global) -> Result<Vec<Record>, Fail> {
    let mut records = Vec::new(alloc);
    push(&mut records, opening(alloc, &COUNT_UP, b"a")?)?;
    for at in [128, 256] {
        push(&mut records, frame())?;
        push(&mut records, frame())?;
        push(&mut records, part_at(alloc, at)?)?;
    }
    Ok(records)
}

/// The recording, verified. If that finds no memory it is verified again.
fn verified_at_last(
    rt: &impl Abort,
    alloc: Global,
    records: &[Record],
) -> Result<Verified, VerifyFault> {
    match verify(alloc, records) {
        Ok(verified) => Ok(verified),
        Err(fault) => {
            same(rt, &"verify", fault, VerifyFault::Memory);
            verify(alloc, records)
        }
    }
}

#[test]
fn a_verification_finds_no_memory(rt: HostRuntime) -> Result<(), Fail> {
    let alloc = rt.alloc();
    let records = recording(alloc)?;
    let verified = verified_at_last(&rt, alloc, &records)?;
    let found = (verified.len(), verified.total());
    same(&rt, &"verified", found, (7, 256));
    let marks = (
        verified.checkpoint_before(255),
        verified.checkpoint_before(256),
    );
    same(&rt, &"checkpoints", marks, (128, 256));
    let (mut sourced, _) = verified_of(alloc, &records, 7, ReadFault::Damaged);
    if sourced == Err(VerifyFault::Memory) {
        (sourced, _) = verified_of(alloc, &records, 7, ReadFault::Damaged);
    }
    same(&rt, &"sourced", sourced, Ok(7));
    Ok(())
}

/// A cursor at the start. If that finds no memory it is made again.
fn cursor_at_last<'a>(
    rt: &impl Abort,
    alloc: Global,
    verified: &'a Verified,
) -> Result<Cursor<'a>, Fail> {
    match Cursor::new(alloc, verified) {
        Ok(cursor) => Ok(cursor),
        Err(_) => Ok(Cursor::new(alloc, verified)?),
    }
}

/// The cursor is at this place, and its guest as it has to be there.
fn stands_at(rt: &impl Abort, cursor: &Cursor<'_>, at: u32) {
    let (pc, count, stored) = counted(at);
    same(rt, &at, cursor.place(), u64::from(at));
    let guest = cursor.guest();
    let found = guest
        .thread(1)
        .map(|thread| (thread.regs.pc, thread.regs.registers[8]));
    same(rt, &at, found, Some((pc, count)));
    same(rt, &at, guest.space().load_word(STORED), Some(stored));
}

/// Goes to a place. If it finds no memory the cursor stays, and goes again.
fn seeks(
    rt: &impl Abort,
    alloc: Global,
    cursor: &mut Cursor<'_>,
    from: u32,
    to: u32,
) -> Result<(), Fail> {
    if let Err(fault) = cursor.seek(alloc, u64::from(to)) {
        same(rt, &to, fault, SeekFault::Memory);
        stands_at(rt, cursor, from);
        cursor.seek(alloc, u64::from(to))?;
    }
    stands_at(rt, cursor, to);
    Ok(())
}

/// The same, by this many instructions back.
fn goes_back(
    rt: &impl Abort,
    alloc: Global,
    cursor: &mut Cursor<'_>,
    from: u32,
    by: u32,
) -> Result<(), Fail> {
    if let Err(fault) = cursor.back(alloc, u64::from(by)) {
        same(rt, &by, fault, SeekFault::Memory);
        stands_at(rt, cursor, from);
        cursor.back(alloc, u64::from(by))?;
    }
    stands_at(rt, cursor, from.saturating_sub(by));
    Ok(())
}

/// The same, to the last change of the byte at an address.
fn finds_change(
    rt: &impl Abort,
    alloc: Global,
    cursor: &mut Cursor<'_>,
    from: u32,
    address: u32,
    to: Option<u32>,
) -> Result<(), Fail> {
    let found = match cursor.last_change(alloc, address) {
        Ok(found) => found,
        Err(_) => {
            stands_at(rt, cursor, from);
            cursor.last_change(alloc, address)?
        }
    };
    same(rt, &address, found, to.map(|place| u64::from(place)));
    stands_at(rt, cursor, to.unwrap_or(from));
    Ok(())
}

// The store at 197 is the last one before 200. No count passes 255, so the second byte never changes. Verifying passes some
// growths that are refused, so it is no building: it belongs to what is tested.
#[test]
fn a_cursor_finds_no_memory(rt: HostRuntime) -> Result<(), Fail> {
    let alloc = rt.alloc();
    let records = recording(alloc)?;
    let verified = verified_at_last(&rt, alloc, &records)?;
    let mut cursor = cursor_at_last(&rt, alloc, &verified)?;
    stands_at(&rt, &cursor, 0);
    seeks(&rt, alloc, &mut cursor, 0, 200)?;
    goes_back(&rt, alloc, &mut cursor, 200, 190)?;
    // A copy of the guest goes on, over a frame's end and within a frame.
    seeks(&rt, alloc, &mut cursor, 10, 100)?;
    seeks(&rt, alloc, &mut cursor, 100, 110)?;
    seeks(&rt, alloc, &mut cursor, 110, 200)?;
    finds_change(&rt, alloc, &mut cursor, 200, STORED + 1, None)?;
    finds_change(&rt, alloc, &mut cursor, 200, STORED, Some(197))?;
    Ok(())
}
