//! Verifying a recording in spans between its checkpoints.

use super::given::Given;
use super::memory::{part_at, recording};
use super::same;
use replayer::{VerifyFault, Watch};
use rrv_model::record::{End, Frame, Item, Record};
use spans::{verify_source, verify_source_end};
use std::process::Abort;
use std::test::Fail;
use std::thread::Threads;

/// How far a verification was said to be: so many records, and instructions.
#[derive(Clone, Copy, Debug, Drop, PartialEq, Eq)]
struct Far(usize, u64);

impl Watch for Far {
    fn verified(&mut self, records: usize, instructions: u64) {
        *self = Far(records, instructions);
    }
}

/// What is wrong with the recording, by the places of its records, and what is found then.
#[derive(Drop)]
struct Row<'a> {
    /// Frames of a thread that isn't there.
    frames: &'a [usize],
    /// Checkpoints that claim the state after one instruction.
    checkpoints: &'a [usize],
    /// The record that isn't given.
    fails: usize,
    found: Result<usize, VerifyFault>,
    far: Far,
}

/// A frame of a thread that isn't there.
fn of_no_thread() -> Item {
    Item::Frame(Frame {
        tid: 2,
        count: 64,
        end: End::Preempt,
    })
}

/// Puts an item in the place of another.
fn put(records: &mut [Record], place: usize, item: Item) {
    if let Some(entry) = records.get_mut(place) {
        entry.item = item;
    }
}

/// The recording, with what is wrong with it.
fn broken<R: AllocGlobal>(rt: &R, row: &Row<'_>) -> Result<Vec<Record>, Fail> {
    let mut records = recording(rt.alloc())?;
    for place in row.frames {
        put(&mut records, *place, of_no_thread());
    }
    for place in row.checkpoints {
        put(&mut records, *place, part_at(rt.alloc(), 1)?);
    }
    Ok(records)
}

/// The row's records, verified by so many workers, and again with nothing kept of them.
fn is_found<R: Abort + AllocGlobal + Threads + Sync>(
    rt: &R,
    records: &[Record],
    row: &Row<'_>,
    workers: usize,
) {
    let alloc = rt.alloc();
    let (mut far, mut source) = (Far(0, 0), Given::but_for(records, row.fails));
    let found = verify_source(rt, alloc, workers, &mut source, &mut far).map(|it| it.len());
    same(rt, &workers, (found, far), (row.found, row.far));
    let (mut far, mut source) = (Far(0, 0), Given::but_for(records, row.fails));
    let found = verify_source_end(rt, alloc, workers, &mut source, &mut far).map(|it| it.len);
    same(rt, &workers, (found, far), (row.found, row.far));
}

/// The row's records, verified by one worker up to four.
fn is_found_by_all<R: Abort + AllocGlobal + Threads + Sync>(
    rt: &R,
    row: &Row<'_>,
) -> Result<(), Fail> {
    let records = broken(rt, row)?;
    for workers in 1..5 {
        is_found(rt, &records, row, workers);
    }
    Ok(())
}

/// A record that doesn't follow from those before it.
fn mismatch(index: usize) -> Result<usize, VerifyFault> {
    Err(VerifyFault::Mismatch { index })
}

/// A checkpoint that claims another state.
fn bad(index: usize) -> Result<usize, VerifyFault> {
    Err(VerifyFault::BadCheckpoint { index })
}

/// A row whose records are all given, which are followed at once.
fn all_given<'a>(
    frames: &'a [usize],
    checkpoints: &'a [usize],
    found: Result<usize, VerifyFault>,
) -> Row<'a> {
    let far = if found.is_ok() {
        Far(7, 256)
    } else {
        Far(0, 0)
    };
    Row {
        frames,
        checkpoints,
        fails: 7,
        found,
        far,
    }
}

#[test]
fn spans_name_the_first_bad_record(rt: HostRuntime) -> Result<(), Fail> {
    let rows = [
        all_given(&[], &[], Ok(7)),
        all_given(&[2], &[], mismatch(2)),
        all_given(&[5], &[], mismatch(5)),
        all_given(&[5, 2], &[], mismatch(2)),
        all_given(&[], &[3], bad(3)),
        all_given(&[], &[6], bad(6)),
        all_given(&[4], &[3], bad(3)),
        all_given(&[2], &[3, 6], mismatch(2)),
    ];
    for row in &rows {
        is_found_by_all(&rt, row)?;
    }
    Ok(())
}

#[test]
fn spans_name_the_record_that_is_not_given(rt: HostRuntime) -> Result<(), Fail> {
    let given = Row {
        frames: &[],
        checkpoints: &[],
        fails: 5,
        found: Err(VerifyFault::Unreadable { index: 5 }),
        far: Far(5, 192),
    };
    is_found_by_all(&rt, &given)?;
    let bad_before = Row {
        frames: &[4],
        found: mismatch(4),
        far: Far(0, 0),
        ..given
    };
    is_found_by_all(&rt, &bad_before)
}
