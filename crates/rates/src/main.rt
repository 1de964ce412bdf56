//! Runs parts of `rrv` for scripts that take their times, and prints what was run.
//!
//! The first word says what is measured, and the further ones how:
//! - `step [FILE]`: runs a program's instructions up to its first call or fault, without recording them.
//! - `slice [TIMES FILE]`: records a program's slices without a store, and follows their frames so often.
//! - `session [GUESTS FILE]`: records a program by so many guests at once, to a disk in memory.
//! - `replay [FILE EVERY TIMES [ASKED]]`: records a program with checkpoints at least EVERY instructions apart (none are made where that
//!   is 0), verifies it so often, and then does with a cursor what is asked: `seek N COUNT` goes to N so often, `places SEED COUNT` to
//!   so many places at random, and `change ADDRESS` from the end to the last change of the byte at a hexadecimal address.
//! - `checkpoint [KIND PAGES COUNT]`: has a guest of so many pages take snapshots (`snapshot`), tell what changed since one (`changed`)
//!   or make checkpoints against one (`make`), so often. `bytes` makes one checkpoint, after COUNT stores over one page, and tells how
//!   many bytes its records take.
//!
//! Without further words it is done with a small program of this one's own, and without any word each does so, one after the other.
//!
//! Tests: none; the gate compares what it prints with `stdout`.
//!
//! # Contracts
//!
//! - `record_frames`: the frames that it keeps lead from the state before to the one after, in which the guest has ended, or
//!   there are a million.
//! - `follow_all`: Ok only if the frames lead on from the state, and then to the new one.
#![tactic(auto)]

mod checkpoints;
mod countdown;
mod cursors;
mod filled;
mod limits;
mod recording;
mod replays;
mod runs;
mod sessions;
mod slices;
mod snapshots;
mod steps;
mod words;

use std::process::ExitCode;
use std::rt::Files;
use std::sync::Wait;
use std::thread::Threads;
use words::arguments;

/// What is measured.
#[derive(Clone, Copy, Debug)]
enum Rate {
    Step,
    Slice,
    Session,
    Replay,
    Checkpoint,
}

/// All of them, in the order in which they run.
const RATES: [Rate; 5] = [
    Rate::Step,
    Rate::Slice,
    Rate::Session,
    Rate::Replay,
    Rate::Checkpoint,
];

/// What a word names.
fn rate_of(word: &str) -> Option<Rate> {
    match word {
        "step" => Some(Rate::Step),
        "slice" => Some(Rate::Slice),
        "session" => Some(Rate::Session),
        "replay" => Some(Rate::Replay),
        "checkpoint" => Some(Rate::Checkpoint),
        _ => None,
    }
}

/// Runs what is measured, as the words behind say; None where something is refused.
fn measure<R>(rt: &R, rate: Rate, words: &[String]) -> Option<()>
where
    R: AllocGlobal + Files + Print + Threads + Wait + Sync,
{
    match rate {
        Rate::Step => steps::measure(rt, words),
        Rate::Slice => slices::measure(rt, words),
        Rate::Session => sessions::measure(rt, words),
        Rate::Replay => replays::measure(rt, words),
        Rate::Checkpoint => checkpoints::measure(rt, words),
    }
}

/// Runs each without words.
fn measure_all<R>(rt: &R) -> Option<()>
where
    R: AllocGlobal + Files + Print + Threads + Wait + Sync,
{
    for rate in RATES {
        measure(rt, rate, &[])?;
    }
    Some(())
}

/// The status of a line of words: 2 where its first is none that is known, and 1 where something is refused.
fn run<R>(rt: &R, words: &[String]) -> u8
where
    R: AllocGlobal + Files + Print + Threads + Wait + Sync,
{
    let done = match words {
        [] => measure_all(rt),
        [first, further @ ..] => match rate_of(first) {
            Some(rate) => measure(rt, rate, further),
            None => return 2,
        },
    };
    match done {
        Some(()) => 0,
        None => 1,
    }
}

fn main(rt: HostRuntime) -> ExitCode {
    match arguments(&rt) {
        Ok(words) => ExitCode::from(run(&rt, words.as_slice())),
        Err(_) => ExitCode::from(2),
    }
}
