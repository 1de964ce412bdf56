//! Records a program with checkpoints, verifies it, and goes to places of it.

use crate::countdown::{LONG, count_down};
use crate::cursors::{Moves, make_moves, moves_of};
use crate::recording::record_with_checkpoints;
use crate::words::file_or;
use replayer::{Verified, verify};
use rrv_model::record::Record;
use std::alloc::Global;
use std::rt::Files;

/// What is done with a program.
#[derive(Clone, Copy, Debug)]
struct Plan {
    /// How many instructions lie between two checkpoints at the least; none are made where that is 0.
    every: u64,
    /// How often it is verified.
    times: u32,
    moves: Option<Moves>,
}

/// What is done with the long countdown.
const OWN: Plan = Plan {
    every: 50_000,
    times: 1,
    moves: Some(Moves::Places { seed: 1, count: 8 }),
};

/// What was done.
#[derive(Clone, Copy, Debug)]
struct Outcome {
    records: usize,
    instructions: u64,
    /// What the cursor found.
    found: u64,
}

/// What the words say, behind the file; None where that is nothing.
fn plan_of(words: &[String]) -> Option<Plan> {
    match words {
        [] => Some(OWN),
        [_, every, times] => Some(Plan {
            every: every.parse().ok()?,
            times: times.parse().ok()?,
            moves: None,
        }),
        [_, every, times, moves @ ..] => Some(Plan {
            every: every.parse().ok()?,
            times: times.parse().ok()?,
            moves: Some(moves_of(moves)?),
        }),
        _ => None,
    }
}

/// Verifies records so often, once at the least.
fn verify_times(alloc: Global, records: &[Record], times: u32) -> Option<Verified> {
    let mut verified = verify(alloc, records).ok()?;
    for _ in 1..times {
        verified = verify(alloc, records).ok()?;
    }
    Some(verified)
}

/// Records a program, verifies it, and does what is asked; None where something is refused.
fn run_program(alloc: Global, elf: &[u8], plan: Plan) -> Option<Outcome> {
    let records = record_with_checkpoints(alloc, elf, plan.every)?;
    let mut outcome = Outcome {
        records: records.len(),
        instructions: 0,
        found: 0,
    };
    if 0 < plan.times {
        let verified = verify_times(alloc, &records, plan.times)?;
        outcome.instructions = verified.total();
        if let Some(moves) = plan.moves {
            outcome.found = make_moves(alloc, &verified, moves)?;
        }
    }
    Some(outcome)
}

/// Does what the words say with the program that they name, and prints what came of it; None where something is refused.
pub fn measure<R: AllocGlobal + Files + Print>(rt: &R, words: &[String]) -> Option<()> {
    let plan = plan_of(words)?;
    let elf = file_or(rt, words.first(), &count_down(LONG))?;
    let Outcome {
        records,
        instructions,
        found,
    } = run_program(rt.alloc(), &elf, plan)?;
    println!(rt; "{records} records, {instructions} instructions, {found} found").ok()
}
