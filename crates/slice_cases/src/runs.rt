//! What recordings by lists came to.

use crate::pair::{Pair, end_text};
use crate::wrong::Wrong;
use rrv_model::machine::GuestEnd;
use rrv_model::record::{End, Frame};
use std::alloc::{AllocError, Global};
use std::collections::BTreeSet;

/// Why a list was left.
#[derive(Clone, Copy, Debug, PartialEq, Eq)]
pub enum Left {
    /// The guest had ended.
    Ended,
    /// It had no choice more.
    Used,
    /// Its next choice does not fit.
    Unfit,
}

/// A number of a recording.
#[derive(Clone, Copy, Debug, PartialEq, Eq)]
pub enum Counted {
    Frames,
    /// The frames that end because their quantum was used.
    Preempts,
    Instructions,
    /// The choices behind where the list was left.
    Unused,
}

/// What recordings are asked.
#[derive(Clone, Copy, Debug, PartialEq, Eq)]
pub enum Question {
    /// How each ended.
    EachEnd,
    /// Whether each output has so many bytes, then the same again, and one byte more.
    EachRepeats(usize),
    /// Whether each guest exits after so many instructions, and so many more for each number of its status.
    EachRan(u32, u32),
    Sum(Counted),
    /// How many different outputs there are.
    Outputs,
    /// Whether so many lists or more were left so.
    AtLeast(usize, Left),
}

/// What a recording came to.
#[derive(Drop)]
pub struct Outcome {
    end: Option<GuestEnd>,
    ran: u64,
    frames: usize,
    preempts: usize,
    unused: usize,
    left: Left,
    output: Vec<u8>,
}

/// How many frames end because their quantum was used.
fn preempts(frames: &[Frame]) -> usize {
    let mut count = 0usize;
    for frame in frames {
        if let End::Preempt = &frame.end {
            count = count.saturating_add(1);
        }
    }
    count
}

impl Outcome {
    pub fn of(alloc: Global, pair: &Pair, left: Left, unused: usize) -> Result<Outcome, Wrong> {
        Ok(Outcome {
            end: pair.ended(),
            ran: pair.ran(),
            frames: pair.frames().len(),
            preempts: preempts(pair.frames()),
            unused,
            left,
            output: pair.output().to_vec(alloc)?,
        })
    }

    fn count(&self, counted: Counted) -> u64 {
        match counted {
            Counted::Frames => self.frames as u64,
            Counted::Preempts => self.preempts as u64,
            Counted::Instructions => self.ran,
            Counted::Unused => self.unused as u64,
        }
    }

    fn repeats(&self, len: usize) -> bool {
        match self.output.as_slice().split_at_checked(len) {
            Some((first, again)) => again.starts_with(first)
                && again.len() == len.saturating_add(1),
            None => false,
        }
    }

    fn ran(&self, least: u32, each: u32) -> bool {
        match self.end {
            Some(GuestEnd::Exited(status)) => {
                let more = u64::from(each).saturating_mul(u64::from(status));
                self.ran == u64::from(least).saturating_add(more)
            }
            _ => false,
        }
    }
}

fn yes_or_no(alloc: Global, holds: bool) -> Result<String, AllocError> {
    String::from_str(alloc, if holds { "yes" } else { "no" })
}

/// The end of all of them, where it is the same.
fn each_end(alloc: Global, outcomes: &[Outcome]) -> Result<String, AllocError> {
    let first = outcomes.first().and_then(|outcome| outcome.end);
    for outcome in outcomes {
        if outcome.end != first {
            return String::from_str(alloc, "several");
        }
    }
    end_text(alloc, first)
}

fn sum(outcomes: &[Outcome], counted: Counted) -> u64 {
    let mut sum = 0u64;
    for outcome in outcomes {
        sum = sum.saturating_add(outcome.count(counted));
    }
    sum
}

fn different_outputs(alloc: Global, outcomes: &[Outcome]) -> Result<usize, AllocError> {
    let mut outputs = BTreeSet::new(alloc);
    for outcome in outcomes {
        outputs.insert(outcome.output.clone()?)?;
    }
    Ok(outputs.len())
}

/// What is found of recordings.
pub fn answer(
    alloc: Global,
    outcomes: &[Outcome],
    question: Question,
) -> Result<String, AllocError> {
    if outcomes.is_empty() {
        return String::from_str(alloc, "no lists");
    }
    match question {
        Question::EachEnd => each_end(alloc, outcomes),
        Question::EachRepeats(len) => {
            yes_or_no(alloc, outcomes.iter().all(|outcome| outcome.repeats(len)))
        }
        Question::EachRan(least, each) => yes_or_no(
            alloc,
            outcomes.iter().all(|outcome| outcome.ran(least, each)),
        ),
        Question::Sum(counted) => {
            let sum = sum(outcomes, counted);
            format!(in alloc; "{sum}")
        }
        Question::Outputs => {
            let count = different_outputs(alloc, outcomes)?;
            format!(in alloc; "{count}")
        }
        Question::AtLeast(count, left) => {
            let found = outcomes
                .iter()
                .filter(|outcome| outcome.left == left)
                .count();
            yes_or_no(alloc, count <= found)
        }
    }
}
