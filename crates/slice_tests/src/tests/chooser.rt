//! Whose turn comes, and where a list stops.

use super::trial::same;
use rrv_model::record::Choice;
use serial_sched::{Chooser, Listed, RoundRobin};
use std::process::Abort;
use std::test::Fail;

/// What a chooser is asked, and what it has to answer.
#[derive(Clone, Copy, Debug)]
enum Asked {
    /// Its choice where these threads run.
    Next(&'static [u32], Option<Choice>),
    Done(bool),
}

/// A choice with the least quantum.
const fn of(tid: u32) -> Choice {
    Choice { tid, quantum: 64 }
}

/// The next choice; None where no thread runs, which is none of a chooser's cases.
fn next_of<C: Chooser>(chooser: &mut C, runnable: &[u32]) -> Option<Choice> {
    if runnable.is_empty() {
        return None;
    }
    chooser.next(runnable)
}

fn ask<C: Chooser>(rt: &impl Abort, chooser: &mut C, rows: &[Asked]) {
    for row in rows {
        match *row {
            Asked::Next(runnable, want) => same(rt, row, next_of(chooser, runnable), want),
            Asked::Done(want) => same(rt, row, chooser.done(), want),
        }
    }
}

#[test]
fn turns_come_round(rt: HostRuntime) {
    let mut chooser = RoundRobin {
        quantum: 64,
        last: 3,
    };
    let rows = [
        Asked::Next(&[1, 3, 4], Some(of(4))),
        Asked::Next(&[1, 3, 4], Some(of(1))),
        Asked::Next(&[1, 3, 4], Some(of(3))),
        Asked::Done(false),
    ];
    ask(&rt, &mut chooser, &rows);
    let first = Choice {
        tid: 1,
        quantum: 100,
    };
    let rows = [Asked::Next(&[1, 3, 4], Some(first))];
    ask(&rt, &mut RoundRobin::new(100), &rows);
}

#[test]
fn a_list_stops_at_a_choice_that_does_not_fit(rt: HostRuntime) -> Result<(), Fail> {
    let short = Choice {
        tid: 1,
        quantum: 63,
    };
    let rows = [
        Asked::Next(&[1], Some(of(1))),
        Asked::Done(false),
        Asked::Next(&[1], None),
        Asked::Done(true),
        Asked::Next(&[1, 2], None),
    ];
    for second in [of(2), short] {
        let mut chooser = Listed::new(vec![in rt.alloc(); of(1), second, of(1)]?);
        ask(&rt, &mut chooser, &rows);
    }
    Ok(())
}

#[test]
fn a_list_stops_at_its_end(rt: HostRuntime) -> Result<(), Fail> {
    let rows = [
        Asked::Next(&[1, 2], Some(of(2))),
        Asked::Next(&[1, 2], Some(of(1))),
        Asked::Done(false),
        Asked::Next(&[1, 2], None),
        Asked::Done(true),
    ];
    let mut chooser = Listed::new(vec![in rt.alloc(); of(2), of(1)]?);
    ask(&rt, &mut chooser, &rows);
    Ok(())
}
