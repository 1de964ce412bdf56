//! A small program, recorded over a disk in memory.

use crate::exit_five::EXIT_FIVE;
use crate::names::Names;
use crate::programs::record_images;
use crate::shared::Shared;
use command_line::Then;
use elf_load::Image;
use line_io::{Refusal, Store, image_of, opened};
use rrv_model::machine::Version;
use session::Every;
use std::alloc::Global;
use std::io::Write;
use std::sync::Wait;
use std::sync::atomic::AtomicBool;
use std::thread::Threads;
use std::time::{Clock, Instant};
use trace_disk::MemDisk;
use trace_log::Log;

/// How many instructions a slice of the guest runs at most.
const QUANTUM: u32 = 50_000;

/// The programs of the demonstration: one of three instructions.
fn images(alloc: Global) -> Result<Vec<Image>, Refusal> {
    let mut images = Vec::with_capacity(alloc, 1)?;
    let image = image_of(alloc, &EXIT_FIVE).map_err(|fault| Refusal::of_file(0, fault))?;
    images.push_reserved(image);
    Ok(images)
}

/// A store in memory, to which a small program is recorded as guest 0. What it outputs goes to the two streams.
pub fn record_example<
    R: AllocGlobal + Threads + Wait + Sync + Clock,
    O: Write + Drop + Send,
    E: Write + Drop + Send,
>(rt: &R, out: O, err: E) -> Result<Store<MemDisk>, Refusal> {
    let start = Instant::now(rt).map_err(|_| Refusal::NoClock)?;
    let images = images(rt.alloc())?;
    let Ok(log) = Log::create(MemDisk::new(rt.alloc())) else {
        return Err(Refusal::DeviceFailed);
    };
    let shared = Shared {
        rt,
        version: Version::One,
        start,
        input: &[],
        seed: [0; 16],
        names: Names {
            given: &[],
            count: 1,
        },
        quantum: QUANTUM,
        every: Every::Instructions(0),
        choices: &[],
        then: Then::Turns,
        limit: None,
        counts: &[],
        is_one_place: false,
    };
    let line = AtomicBool::new(false);
    let (log, _) = record_images(rt, log, &shared, images, out, err, &line, false)?;
    let (log, lists) = opened(rt.alloc(), log.close())?;
    Ok(Store {
        lists,
        disk: log.close(),
    })
}
