//! What is sent, committed and seen.

use super::machine::Manner;
use super::rows::{Row, play, play_behind, play_to_end};
use super::same;
use super::stores::{crashes_leave, has_bytes};
use commit_group::{FlushFault, Report, SubmitFault, Turn};
use std::test::Fail;

// An opening of a file of 88 bytes and 255 frames of 64 instructions fill the queue; four turns commit all of it.
#[test]
fn full_queue(rt: HostRuntime) -> Result<(), Fail> {
    let alloc = rt.alloc();
    let batch = Row::Turn(Ok(Turn::Committed(64)));
    let rows = [
        Row::SendsAll(0, 256),
        Row::Sends(0, Manner::Tries, Some(SubmitFault::Full)),
        Row::Sent(0, 256),
        Row::Looks(0, 0),
        batch,
        Row::Looks(0, 64),
        batch,
        batch,
        batch,
        Row::Turn(Ok(Turn::Idle)),
        Row::Looks(0, 256),
        Row::NextGuest(1),
        Row::Leaves(0),
        Row::Sends(0, Manner::Tries, Some(SubmitFault::Left)),
        Row::Turn(Ok(Turn::Done)),
    ];
    let mut disk = play(&rt, alloc, 1, 0, &rows)?;
    let gates = [
        (16, 0xA5),
        (1503, 0xA5),
        (2888, 0xA5),
        (4273, 0xA5),
        (5658, 0),
    ];
    has_bytes(&rt, &mut disk, 5659, &gates)?;
    crashes_leave(&rt, alloc, &disk, &[256])
}

// Two guests send three items and one; one turn commits them, and a crash right behind its last sync loses none.
#[test]
fn two_guests_in_one_turn(rt: HostRuntime) -> Result<(), Fail> {
    let alloc = rt.alloc();
    let rows = [
        Row::SendsAll(0, 2),
        Row::SendsAll(1, 1),
        Row::SendsAll(0, 1),
        Row::Turn(Ok(Turn::Committed(4))),
        Row::Looks(0, 3),
        Row::Looks(1, 1),
        Row::Looks(0, 3),
        Row::Looks(1, 1),
        Row::NextGuest(2),
        Row::Leaves(0),
        Row::Turn(Ok(Turn::Idle)),
        Row::LooksForLeft(0, 4),
        Row::LooksForLeft(1, 0),
        Row::Leaves(1),
        Row::Turn(Ok(Turn::Done)),
    ];
    let disk = play(&rt, alloc, 2, 0, &rows)?;
    crashes_leave(&rt, alloc, &disk, &[3, 1])
}

// Of four openings with the longest file three fit into a body of 8,388,608 bytes. The fourth waits, with what comes behind it.
#[test]
fn what_does_not_fit_waits(rt: HostRuntime) -> Result<(), Fail> {
    let alloc = rt.alloc();
    let rows = [
        Row::Sends(0, Manner::Long, None),
        Row::Sends(1, Manner::Long, None),
        Row::Sends(2, Manner::Long, None),
        Row::Sends(3, Manner::Long, None),
        Row::Sends(0, Manner::Waits, None),
        Row::Turn(Ok(Turn::Committed(3))),
        Row::Looks(0, 1),
        Row::Looks(3, 0),
        Row::NextGuest(3),
        Row::Sends(3, Manner::Tries, None),
        Row::Turn(Ok(Turn::Committed(3))),
        Row::Looks(0, 2),
        Row::Looks(3, 2),
        Row::NextGuest(4),
        Row::Turn(Ok(Turn::Idle)),
    ];
    let disk = play(&rt, alloc, 4, 0, &rows)?;
    crashes_leave(&rt, alloc, &disk, &[2, 1, 1, 2])
}

// The flusher's halt is seen, and nothing is sent or committed from then on.
#[test]
fn halted_group(rt: HostRuntime) -> Result<(), Fail> {
    let alloc = rt.alloc();
    let rows = [
        Row::SendsAll(0, 1),
        Row::LooksForHalt(0, false),
        Row::Halts,
        Row::Turn(Err(FlushFault::Halted)),
        Row::LooksForHalt(0, true),
        Row::Sends(0, Manner::Tries, Some(SubmitFault::Halted)),
        Row::Sends(0, Manner::Waits, Some(SubmitFault::Halted)),
        Row::Looks(0, 0),
    ];
    let disk = play(&rt, alloc, 1, 0, &rows)?;
    crashes_leave(&rt, alloc, &disk, &[])
}

// Each call of the disk fails in turn: the turn says so and halts the group, and nothing is told.
#[test]
fn failed_turn(rt: HostRuntime) -> Result<(), Fail> {
    let alloc = rt.alloc();
    for fails in 1..5 {
        let rows = [
            Row::SendsAll(0, 2),
            Row::Turn(Err(FlushFault::DeviceFailed)),
            Row::Turn(Err(FlushFault::Halted)),
            Row::LooksForHalt(0, true),
            Row::Looks(0, 0),
        ];
        let disk = play(&rt, alloc, 1, fails, &rows)?;
        if fails < 3 {
            crashes_leave(&rt, alloc, &disk, &[])?;
        }
    }
    Ok(())
}

// The log has as many segments as a store may have: the turn says so and halts the group, and nothing is told or written.
#[test]
fn turn_past_the_last_segment(rt: HostRuntime) -> Result<(), Fail> {
    let alloc = rt.alloc();
    let rows = [
        Row::SendsAll(0, 1),
        Row::LooksForHalt(0, false),
        Row::Turn(Err(FlushFault::TooLong)),
        Row::LooksForHalt(0, true),
        Row::Looks(0, 0),
        Row::NextGuest(0),
        Row::Sends(0, Manner::Tries, Some(SubmitFault::Halted)),
        Row::Turn(Err(FlushFault::Halted)),
    ];
    let mut disk = play_behind(&rt, alloc, u32::MAX, &rows)?;
    has_bytes(&rt, &mut disk, 17, &[(16, 0)])?;
    crashes_leave(&rt, alloc, &disk, &[])
}

// The log has one segment fewer than a store may have: what is in the last one is told, and stays so.
#[test]
fn turn_with_the_last_segment(rt: HostRuntime) -> Result<(), Fail> {
    let alloc = rt.alloc();
    let rows = [
        Row::SendsAll(0, 1),
        Row::Turn(Ok(Turn::Committed(1))),
        Row::SendsAll(0, 1),
        Row::Turn(Err(FlushFault::TooLong)),
        Row::LooksForHalt(0, true),
        Row::Looks(0, 1),
        Row::NextGuest(1),
        Row::Turn(Err(FlushFault::Halted)),
    ];
    let mut disk = play_behind(&rt, alloc, u32::MAX - 1, &rows)?;
    has_bytes(&rt, &mut disk, 181, &[(16, 0xA5), (180, 0)])
}

// A group ends before all is committed, and before all that is committed was seen.
#[test]
fn ended_group(rt: HostRuntime) -> Result<(), Fail> {
    let alloc = rt.alloc();
    let rows = [
        Row::SendsAll(0, 3),
        Row::SendsAll(1, 2),
        Row::Turn(Ok(Turn::Committed(5))),
        Row::Looks(0, 3),
        Row::Looks(1, 2),
        Row::SendsAll(1, 3),
        Row::SendsAll(0, 1),
        Row::Turn(Ok(Turn::Committed(4))),
        Row::SendsAll(0, 2),
    ];
    let found = play_to_end(&rt, alloc, 2, &rows)?;
    let want = Report {
        sent: [6, 5, 0, 0, 0, 0, 0, 0, 0, 0, 0, 0, 0, 0, 0, 0],
        committed: [4, 5, 0, 0, 0, 0, 0, 0, 0, 0, 0, 0, 0, 0, 0, 0],
        seen: [3, 2, 0, 0, 0, 0, 0, 0, 0, 0, 0, 0, 0, 0, 0, 0],
    };
    same(&rt, &"the report", found, want);
    Ok(())
}

// The store doesn't hold the Mark. One guest is of version 1, and what it sent in an earlier turn stays. The opening of the other, of version
// 2, is refused with all that is in its batch; nothing is written, and the group halts.
#[test]
fn new_records_need_the_mark(rt: HostRuntime) -> Result<(), Fail> {
    let alloc = rt.alloc();
    let rows = [
        Row::SendsAll(0, 2),
        Row::Turn(Ok(Turn::Committed(2))),
        Row::SendsAll(0, 1),
        Row::Sends(1, Manner::New, None),
        Row::Turn(Err(FlushFault::NeedsMark)),
        Row::LooksForHalt(0, true),
        Row::LooksForHalt(1, true),
        Row::Looks(0, 2),
        Row::Looks(1, 0),
        Row::NextGuest(1),
        Row::Turn(Err(FlushFault::Halted)),
        Row::Sends(1, Manner::New, Some(SubmitFault::Halted)),
    ];
    let mut disk = play(&rt, alloc, 2, 0, &rows)?;
    has_bytes(&rt, &mut disk, 202, &[(16, 0xA5), (201, 0)])?;
    crashes_leave(&rt, alloc, &disk, &[2])
}

// So is the end of a wait, of a guest whose opening was taken.
#[test]
fn the_end_of_a_wait_needs_the_mark(rt: HostRuntime) -> Result<(), Fail> {
    let alloc = rt.alloc();
    let rows = [
        Row::SendsAll(0, 2),
        Row::Turn(Ok(Turn::Committed(2))),
        Row::Sends(0, Manner::New, None),
        Row::Turn(Err(FlushFault::NeedsMark)),
        Row::LooksForHalt(0, true),
        Row::Looks(0, 2),
    ];
    let disk = play(&rt, alloc, 1, 0, &rows)?;
    crashes_leave(&rt, alloc, &disk, &[2])
}
