//! Runs a program's instructions without recording them, up to its first call or fault: the bare step.

use crate::countdown::{SHORT, count_down};
use crate::limits::{QUANTUM, SLICES};
use crate::words::file_or;
use elf_load::parse;
use guest_calls::{Guest, RunEnd};
use rrv_model::machine::Version;
use std::alloc::Global;
use std::rt::Files;

/// How many instructions ran, and why no more did.
#[derive(Clone, Copy, Debug)]
struct Outcome {
    steps: u64,
    end: RunEnd,
}

/// Runs a guest's first thread.
fn run_guest(guest: &mut Guest) -> Outcome {
    let mut steps = 0u64;
    for _ in 0..SLICES {
        if !guest.is_running(1) {
            break;
        }
        let run = guest.run_thread(1, QUANTUM);
        steps = steps.saturating_add(u64::from(run.count));
        if run.end != RunEnd::Limit {
            return Outcome {
                steps,
                end: run.end,
            };
        }
    }
    Outcome {
        steps,
        end: RunEnd::Limit,
    }
}

/// Runs the program of these bytes; None where it is refused or there is no memory.
fn run_program(alloc: Global, elf: &[u8]) -> Option<Outcome> {
    let image = parse(alloc, elf).ok()?;
    let mut guest = Guest::open(alloc, Version::One, &image, b"g0", [0; 16]).ok()?;
    Some(run_guest(&mut guest))
}

/// Runs the program that the word names, or the short countdown, and prints how far it came; None where something is refused.
pub fn measure<R: AllocGlobal + Files + Print>(rt: &R, words: &[String]) -> Option<()> {
    if 1 < words.len() {
        return None;
    }
    let elf = file_or(rt, words.first(), &count_down(SHORT))?;
    let Outcome { steps, end } = run_program(rt.alloc(), &elf)?;
    let end = match end {
        RunEnd::Limit => "limit",
        RunEnd::Call => "call",
        RunEnd::Fault(_) => "fault",
        RunEnd::Memory => "memory",
    };
    println!(rt; "{steps} instructions, then {end}").ok()
}
