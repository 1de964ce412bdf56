//! Turns whose growths are refused.

use super::machine::Machine;
use super::rows::{Row, play_on};
use super::same;
use super::stores::crashes_leave;
use commit_group::{FlushFault, Turn};
use std::alloc::Global;
use std::process::Abort;
use std::sync::Wait;
use std::test::Fail;

/// A turn that commits four records. If it finds no memory nothing is published, and it is made again. Whether that was so.
fn commits_at_last<R: Abort + Wait>(
    rt: &R,
    alloc: Global,
    machine: &mut Machine,
) -> Result<bool, Fail> {
    let mut turn = machine.turn(rt, alloc)?;
    let was_refused = turn == Err(FlushFault::Memory);
    if was_refused {
        let rows = [Row::Looks(0, 0), Row::Looks(1, 0), Row::NextGuest(0)];
        play_on(rt, alloc, machine, &rows)?;
        turn = machine.turn(rt, alloc)?;
    }
    same(rt, &"turn", turn, Ok(Turn::Committed(4)));
    let rows = [Row::Looks(0, 3), Row::Looks(1, 1), Row::NextGuest(2)];
    play_on(rt, alloc, machine, &rows)?;
    Ok(was_refused)
}

// Two guests send three items and one. The store is opened only after a turn that was refused: opening it takes memory too.
#[test]
fn a_turn_finds_no_memory(rt: HostRuntime) -> Result<(), Fail> {
    let alloc = rt.alloc();
    let mut machine = Machine::new(alloc, 2, 0)?;
    let rows = [Row::SendsAll(0, 3), Row::SendsAll(1, 1)];
    play_on(&rt, alloc, &mut machine, &rows)?;
    let was_refused = commits_at_last(&rt, alloc, &mut machine)?;
    let disk = machine.close();
    if was_refused {
        crashes_leave(&rt, alloc, &disk, &[3, 1])?;
    }
    Ok(())
}
