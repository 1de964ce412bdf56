//! Tests as rows: what a guest does, and what then stands in it. What takes a row is proved once; a row costs no proof.

use crate::tests::parts::put_page;
use guest_calls::{Run, SetPageFault};
use rrv_model::machine::{GuestEnd, Permissions};
use std::alloc::Global;
use std::fmt::Debug;
use std::process::Abort;
use std::test::Fail;
use test_guests::trial::{Question, ThreadCall, Trial, open_words};

/// What a guest does, or what is to be found.
#[derive(Clone, Copy, Debug)]
pub(crate) enum Row {
    /// A thread's call of this number, its arguments and its result.
    Call(u32, u32, [u32; 5], u32),
    /// A thread runs up to a limit.
    Run(u32, u32, Run),
    /// A thread makes a step.
    Step(u32),
    /// A thread's call is taken back.
    TakeBack(u32),
    /// A page full of one byte is put into the guest, with its permissions; None unmaps it.
    PutPage(u32, Option<(Permissions, u8)>, Result<(), SetPageFault>),
    /// An answer of the guest.
    Finds(Question, Option<u32>),
    /// The range at a place among those that the last call wrote.
    Wrote(u32, (u32, &'static [u8])),
    /// What the last call put out.
    PutOut(Option<(u32, &'static [u8])>),
    /// The waiting threads.
    Waiting(&'static [u32]),
    /// How the guest ended.
    Ended(Option<GuestEnd>),
}

/// Ends the test where something else is found than wanted. An assertion costs its proof wherever it stands; this one stands once.
pub(crate) fn same<T: PartialEq + Debug + Drop>(
    rt: &impl Abort,
    what: &impl Debug,
    found: T,
    want: T,
) {
    assert_eq!(rt; found, want, "{what:?}");
}

/// Takes a row.
fn take(rt: &impl Abort, alloc: Global, trial: &mut Trial<'_>, row: &Row) -> Result<(), Fail> {
    match *row {
        Row::Call(tid, number, arguments, want) => {
            let call = ThreadCall {
                tid,
                number,
                arguments,
            };
            let answered = trial.call(alloc, call)?;
            same(rt, row, answered, Some(want));
        }
        Row::Run(tid, limit, want) => same(rt, row, trial.run(tid, limit), Some(want)),
        Row::Step(tid) => same(rt, row, trial.step(tid), true),
        Row::TakeBack(tid) => same(rt, row, trial.take_back(tid), true),
        Row::PutPage(number, page, want) => {
            same(rt, row, put_page(&mut trial.guest, number, page), want);
        }
        Row::Finds(question, want) => same(rt, row, trial.find(question), want),
        Row::Wrote(place, want) => same(rt, row, trial.written(place), Some(want)),
        Row::PutOut(want) => same(rt, row, trial.put_out(), want),
        Row::Waiting(want) => same(rt, row, trial.waiting(), want),
        Row::Ended(want) => same(rt, row, trial.ended(), want),
    }
    Ok(())
}

/// Takes rows one after another.
pub(crate) fn play(
    rt: &impl Abort,
    alloc: Global,
    trial: &mut Trial<'_>,
    rows: &[Row],
) -> Result<(), Fail> {
    for row in rows {
        take(rt, alloc, trial, row)?;
    }
    Ok(())
}

/// A guest of these instructions, whose outside has this input.
pub(crate) fn trial_of<'a>(
    alloc: Global,
    code: &[u32],
    input: &'a [u8],
) -> Result<Trial<'a>, Fail> {
    Ok(open_words(alloc, code, input).ok_or("no guest")?)
}
