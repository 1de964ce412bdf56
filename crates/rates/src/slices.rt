//! Records a program's slices and follows their frames, without a store.

use crate::runs::{follow_all, record_frames};
use crate::words::number_and_file;
use elf_load::{Image, parse};
use guest_calls::Guest;
use rrv_model::machine::Version;
use rrv_model::record::Frame;
use std::alloc::Global;
use std::rt::Files;

/// How often the long countdown is followed.
const TIMES: u32 = 2;

/// What was run.
#[derive(Clone, Copy, Debug)]
struct Outcome {
    /// How many instructions were recorded, in how many frames.
    recorded: u64,
    frames: usize,
    /// How many instructions were run by following.
    followed: u64,
}

fn opened(alloc: Global, image: &Image) -> Option<Guest> {
    Guest::open(alloc, Version::One, image, b"g0", [0; 16]).ok()
}

/// Follows frames from an opening on, so many times, and answers how many instructions that ran.
fn follow_times(alloc: Global, image: &Image, frames: &[Frame], times: u32) -> Option<u64> {
    let mut ran = 0u64;
    for _ in 0..times {
        let mut guest = opened(alloc, image)?;
        follow_all(alloc, &mut guest, frames).ok()?;
        ran = ran.saturating_add(guest.ran());
    }
    Some(ran)
}

/// Records the program of these bytes, and follows it; None where it is refused or there is no memory.
fn run_program(alloc: Global, elf: &[u8], times: u32) -> Option<Outcome> {
    let image = parse(alloc, elf).ok()?;
    let mut guest = opened(alloc, &image)?;
    let frames = record_frames(alloc, &mut guest)?;
    let followed = follow_times(alloc, &image, &frames, times)?;
    Some(Outcome {
        recorded: guest.ran(),
        frames: frames.len(),
        followed,
    })
}

/// Records the program that the words name, and follows it as often as they say; None where something is refused.
pub fn measure<R: AllocGlobal + Files + Print>(rt: &R, words: &[String]) -> Option<()> {
    let (times, elf) = number_and_file(rt, words, TIMES)?;
    let Outcome {
        recorded,
        frames,
        followed,
    } = run_program(rt.alloc(), &elf, times)?;
    println!(rt; "{recorded} instructions in {frames} frames, {followed} followed").ok()
}
