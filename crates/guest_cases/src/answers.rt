//! What a guest answers.

use crate::line::Asked;
use guest_calls::RunEnd;
use rrv_model::machine::GuestEnd;
use rrv_model::refusal::Memory;
use std::alloc::{AllocError, Global};
use test_guests::trial::{Question, Trial};

/// An answer: a list of numbers, or none.
type Answer = Option<Vec<u32>>;

/// The answer of one number.
fn one(alloc: Global, number: Option<u32>) -> Result<Answer, Memory> {
    match number {
        Some(number) => Ok(Some(Vec::from_slice(alloc, &[number])?)),
        None => Ok(None),
    }
}

/// The answer of no number to what was done, and none where it couldn't be.
fn nothing(alloc: Global, is_done: bool) -> Answer {
    if is_done { Some(Vec::new(alloc)) } else { None }
}

/// Bytes as numbers.
fn bytes_of(alloc: Global, bytes: &[u8]) -> Result<Vec<u32>, AllocError> {
    let mut numbers = Vec::new(alloc);
    for byte in bytes {
        numbers.push(u32::from(*byte))?;
    }
    Ok(numbers)
}

/// A call's result, and where the call wrote or put out something, how many ranges and how many bytes.
fn of_call(alloc: Global, trial: &Trial<'_>, number: Option<u32>) -> Result<Answer, Memory> {
    let ranges = trial.find(Question::Ranges).unwrap_or(0);
    let put = trial.find(Question::PutOut).unwrap_or(0);
    match number {
        Some(number) if ranges > 0 || put > 0 => {
            Ok(Some(Vec::from_slice(alloc, &[number, ranges, put])?))
        }
        _ => one(alloc, number),
    }
}

/// How many instructions a thread ran up to its call.
fn run(trial: &mut Trial<'_>, tid: u32, limit: u32) -> Option<u32> {
    let run = trial.run(tid, limit)?;
    match run.end {
        RunEnd::Call => Some(run.count),
        _ => None,
    }
}

/// The bytes of a range that the last call wrote.
fn written(alloc: Global, trial: &Trial<'_>, place: u32) -> Result<Answer, Memory> {
    match trial.written(place) {
        Some((_, bytes)) => Ok(Some(bytes_of(alloc, bytes)?)),
        None => Ok(None),
    }
}

/// What the last call put out: the descriptor, and then the bytes.
fn out(alloc: Global, trial: &Trial<'_>) -> Result<Answer, Memory> {
    match trial.put_out() {
        Some((descriptor, bytes)) => {
            let mut numbers = Vec::from_slice(alloc, &[descriptor])?;
            numbers.extend_from_slice(&bytes_of(alloc, bytes)?)?;
            Ok(Some(numbers))
        }
        None => Ok(None),
    }
}

/// The status with which the guest exited.
fn status(trial: &Trial<'_>) -> Option<u32> {
    match trial.ended()? {
        GuestEnd::Exited(status) => Some(u32::from(status)),
        _ => None,
    }
}

/// What is found.
pub fn find(alloc: Global, trial: &mut Trial<'_>, asked: Asked) -> Result<Answer, Memory> {
    match asked {
        Asked::Call(call) => {
            let result = trial.call(alloc, call)?;
            of_call(alloc, trial, result)
        }
        Asked::CallUnder(next, call) => {
            let result = trial.call_under(alloc, next, call)?;
            of_call(alloc, trial, result)
        }
        Asked::Answer(tid) => {
            let result = trial.answer(alloc, tid)?;
            of_call(alloc, trial, result)
        }
        Asked::Run(tid, limit) => one(alloc, run(trial, tid, limit)),
        Asked::Put(address, word) => Ok(nothing(alloc, trial.put_word(address, word))),
        Asked::Expire(tid) => Ok(nothing(alloc, trial.expire(tid))),
        Asked::CloseSlice => {
            trial.guest.close_slice(None);
            Ok(nothing(alloc, true))
        }
        Asked::Written(place) => written(alloc, trial, place),
        Asked::Out => out(alloc, trial),
        Asked::Waiting => Ok(Some(trial.waiting().to_vec(alloc)?)),
        Asked::Running => Ok(Some(trial.running(alloc)?)),
        Asked::Exited => one(alloc, status(trial)),
        Asked::HasEnded => one(alloc, Some(u32::from(trial.ended().is_some()))),
        Asked::Number(question) => one(alloc, trial.find(question)),
    }
}
