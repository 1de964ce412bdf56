//! A group by rows.

use super::machine::{Machine, Manner};
use super::same;
use commit_group::{FlushFault, Report, SubmitFault, Turn};
use std::alloc::Global;
use std::process::Abort;
use std::sync::Wait;
use std::test::Fail;
use trace_disk::MemDisk;

/// What is done with a group, or what is to be found. A guest is named by its place.
#[derive(Clone, Copy, Debug)]
pub(crate) enum Row {
    /// The guest sends its next item, an opening at first and then frames; why it is refused.
    Sends(u32, Manner, Option<SubmitFault>),
    /// It sends so many, all of them.
    SendsAll(u32, u32),
    /// How many of its items are durable.
    Looks(u32, u32),
    LooksForHalt(u32, bool),
    Leaves(u32),
    /// How many it has sent.
    Sent(u32, u32),
    Turn(Result<Turn, FlushFault>),
    Halts,
    Publishes(u32),
    LooksForLeft(u32, u64),
    NextGuest(u32),
}

fn send_all(
    rt: &(impl Abort + Wait),
    alloc: Global,
    machine: &mut Machine,
    guest: u32,
    count: u32,
) -> Result<(), Fail> {
    for _ in 0..count {
        same(
            rt,
            &guest,
            machine.send(rt, alloc, guest, Manner::Tries)?,
            None,
        );
    }
    Ok(())
}

fn take(
    rt: &(impl Abort + Wait),
    alloc: Global,
    machine: &mut Machine,
    row: &Row,
) -> Result<(), Fail> {
    match *row {
        Row::Sends(guest, manner, want) => {
            same(rt, row, machine.send(rt, alloc, guest, manner)?, want);
        }
        Row::SendsAll(guest, count) => send_all(rt, alloc, machine, guest, count)?,
        Row::Looks(guest, want) => same(rt, row, machine.look(guest)?, want),
        Row::LooksForHalt(guest, want) => same(rt, row, machine.look_halt(guest)?, want),
        Row::Leaves(guest) => machine.leave(guest)?,
        Row::Sent(guest, want) => same(rt, row, machine.sent(guest)?, want),
        Row::Turn(want) => same(rt, row, machine.turn(rt, alloc)?, want),
        Row::Halts => machine.halt(),
        Row::Publishes(guest) => machine.publish(guest)?,
        Row::LooksForLeft(guest, want) => same(rt, row, machine.look_left(guest)?, want),
        Row::NextGuest(want) => same(rt, row, machine.next_guest(), want),
    }
    Ok(())
}

/// Takes rows one after another.
pub(crate) fn play_on<R: Abort + Wait>(
    rt: &R,
    alloc: Global,
    machine: &mut Machine,
    rows: &[Row],
) -> Result<(), Fail> {
    for row in rows {
        take(rt, alloc, machine, row)?;
    }
    Ok(())
}

/// Takes rows one after another, on a group of so many guests. A call of the disk fails behind the store's making, counted from 1; none with 0.
fn played<R: Abort + Wait>(
    rt: &R,
    alloc: Global,
    guests: u32,
    fails: u64,
    rows: &[Row],
) -> Result<Machine, Fail> {
    let mut machine = Machine::new(alloc, guests, fails)?;
    play_on(rt, alloc, &mut machine, rows)?;
    Ok(machine)
}

/// Takes rows as `played` does, and gives the disk of the store.
pub(crate) fn play<R: Abort + Wait>(
    rt: &R,
    alloc: Global,
    guests: u32,
    fails: u64,
    rows: &[Row],
) -> Result<MemDisk, Fail> {
    Ok(played(rt, alloc, guests, fails, rows)?.close())
}

/// Takes rows on a group of one guest, over a log that takes its new store to have so many segments, and gives the disk of the
/// store.
pub(crate) fn play_behind<R: Abort + Wait>(
    rt: &R,
    alloc: Global,
    segments: u32,
    rows: &[Row],
) -> Result<MemDisk, Fail> {
    let mut machine = Machine::behind(alloc, segments)?;
    play_on(rt, alloc, &mut machine, rows)?;
    Ok(machine.close())
}

/// Takes rows on a disk that never fails, and tells how the group ends.
pub(crate) fn play_to_end<R: Abort + Wait>(
    rt: &R,
    alloc: Global,
    guests: u32,
    rows: &[Row],
) -> Result<Report, Fail> {
    Ok(played(rt, alloc, guests, 0, rows)?.end())
}
