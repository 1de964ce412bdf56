//! Recorders by themselves, without threads: a test calls for each turn of their flusher.

ghost use Rattle.std.specs.Prelude.{◌≡◌, ◌≤◌, [], false, length, IfOk};
ghost use Rattle.rrv_model.specs.declared.limits.TheConstants.{MAX_ELF};
ghost use Rattle.rrv_model.specs.Opening.{IsName};
ghost use Rattle.rrv_model.specs.RecordText.{HasOpeningText};
ghost use Rattle.commit_group.specs.Seats.{new_flusher_seat};

use super::same;
use commit_group::{FlusherSeat, Group, RecorderSeat, Turn};
use guest_calls::Guest;
use recorder::{Every, MemSink, Parts, Recorder, RecorderFault};
use rrv_model::limits::MAX_ELF;
use rrv_model::machine::Version;
use rrv_model::record::{Choice, Opening};
use rrv_model::sequence::Sequence;
use serial_sched::{FollowFault, SliceFault, steps};
use std::alloc::Global;
use std::process::Abort;
use std::sync::Wait;
use std::test::Fail;
use test_guests::files::{COUNT_UP, HELLO, ONE_WAIT, file_of, guest_of_file};
use test_guests::outsides::Nothing;
use trace_disk::MemDisk;
use trace_log::Log;

/// The choice by which each frame is made.
const CHOICE: Choice = Choice {
    tid: 1,
    quantum: 64,
};

/// The seats of a new group of two guests, and the flusher's.
pub(super) fn two_seats(alloc: Global) -> Result<(RecorderSeat, RecorderSeat, FlusherSeat), Fail>
    ensures first { IfOk result (λ r. (r.0.sent ≡ []) × (r.0.has_left ≡ false)) }
    ensures second { IfOk result (λ r. (r.1.sent ≡ []) × (r.1.has_left ≡ false)) }
    ensures flusher { IfOk result (λ r. (r.2 ≡ new_flusher_seat r.2.group) × (r.2.group.guests ≡ 2)) }
{
    let (mut seats, flusher) = Group::make(alloc, 2)?;
    let (Some(second), Some(first)) = (seats.pop(), seats.pop()) else {
        return Err(Fail::new("too few seats"));
    };
    Ok((first, second, flusher))
}

fn opening_of(version: Version, elf: Vec<u8>, name: Vec<u8>) -> Opening
    requires fits { length elf.items ≤ MAX_ELF }
    requires named { IsName name.items }
    ensures { HasOpeningText result }
{
    Opening {
        version,
        elf: Sequence::from_vec(elf),
        name: Sequence::from_vec(name),
        random: [0; 16],
    }
}

/// The opening of a guest named `a`, of this version.
pub(super) fn opening(alloc: Global, version: Version, program: &[u32]) -> Result<Opening, Fail>
    ensures { IfOk result HasOpeningText }
{
    let elf = file_of(alloc, program)?;
    if elf.len() > MAX_ELF as usize {
        return Err(Fail::new("a file too long"));
    }
    let name = Vec::from_slice(alloc, b"a")?;
    Ok(opening_of(version, elf, name))
}

/// A recorder of such a guest, with checkpoints this many instructions apart.
pub(super) fn recorder_of_version(
    alloc: Global,
    seat: RecorderSeat,
    version: Version,
    program: &[u32],
    every: u32,
) -> Result<Recorder, Fail>
    requires { (seat.sent ≡ []) × (seat.has_left ≡ false) }
{
    let opening = opening(alloc, version, program)?;
    match Recorder::new(alloc, seat, opening, Every::Instructions(every)) {
        Ok(recorder) => Ok(recorder),
        Err((_, fault)) => Err(fault)?,
    }
}

/// One of version 1.
fn recorder_of(
    alloc: Global,
    seat: RecorderSeat,
    program: &[u32],
    every: u32,
) -> Result<Recorder, Fail>
    requires { (seat.sent ≡ []) × (seat.has_left ≡ false) }
{
    recorder_of_version(alloc, seat, Version::One, program, every)
}

/// Makes this many frames, and sends each.
fn make_frames(
    rt: &impl Wait,
    alloc: Global,
    recorder: &mut Recorder,
    frames: u32,
) -> Result<(), Fail> {
    recorder.send(rt)?;
    for _ in 0..frames {
        recorder.step(alloc, CHOICE, &mut Nothing)?;
        recorder.send(rt)?;
    }
    Ok(())
}

/// Releases what may leave: the sink then has these puts, and no others.
fn releases<R: Abort + Wait>(
    rt: &R,
    recorder: &mut Recorder,
    sink: &mut MemSink,
    want: &[&[u8]],
) -> Result<(), Fail> {
    recorder.release(rt, sink)?;
    same(rt, &"puts", sink.puts().len(), want.len());
    for (put, want) in sink.puts().iter().zip(want) {
        same(rt, want, (put.descriptor, put.bytes.as_slice()), (1, *want));
    }
    Ok(())
}

/// A recorder's seat has seen this many durable records, and sees as many again.
fn looks(rt: &impl Abort, recorder: Recorder, want: u32) {
    let mut seat = recorder.leave();
    same(rt, &"seen", seat.seen(), want);
    same(rt, &"again", seat.look(), want);
}

// One makes an opening and two frames, of which the first writes three bytes; the other an opening alone.
#[test]
fn output_leaves_once_its_turn_is_over(rt: HostRuntime) -> Result<(), Fail> {
    let alloc = rt.alloc();
    let mut log = Log::create(MemDisk::new(alloc)).ok().ok_or("not made")?;
    let (first, second, mut flusher) = two_seats(alloc)?;
    let mut three = recorder_of(alloc, first, &HELLO, 0)?;
    let mut one = recorder_of(alloc, second, &HELLO, 0)?;
    make_frames(&rt, alloc, &mut three, 2)?;
    make_frames(&rt, alloc, &mut one, 0)?;
    let mut told = MemSink::new(alloc);
    let mut quiet = MemSink::new(alloc);
    releases(&rt, &mut three, &mut told, &[])?;
    let turn = flusher.turn(&rt, alloc, &mut log);
    same(&rt, &"turn", turn, Ok(Turn::Committed(4)));
    for _ in 0..2 {
        releases(&rt, &mut three, &mut told, &[b"hi\n"])?;
        releases(&rt, &mut one, &mut quiet, &[])?;
    }
    looks(&rt, three, 3);
    looks(&rt, one, 1);
    Ok(())
}

/// What a step leaves: what became of a checkpoint's parts, how many instructions have run, and how many records are made.
type Outcome = (Parts, u64, u32);

/// What a recorder has made and sent, and how many instructions have run.
pub(super) fn counts(recorder: &Recorder) -> (u32, u32, u64) {
    (recorder.made(), recorder.sent(), recorder.guest().ran())
}

/// A step. If it finds no memory all is as before, with a guest as this one is, and it is made again.
fn step_at_last<R: Abort>(
    rt: &R,
    alloc: Global,
    recorder: &mut Recorder,
    before: &Guest,
) -> Result<Outcome, Fail> {
    let found = counts(recorder);
    let parts = match recorder.step(alloc, CHOICE, &mut Nothing) {
        Ok(parts) => parts,
        Err(fault) => {
            same(rt, &"fault", fault, RecorderFault::Memory);
            same(rt, &"counts", counts(recorder), found);
            same(rt, &"guest", recorder.guest().same(before), true);
            recorder.step(alloc, CHOICE, &mut Nothing)?
        }
    };
    Ok((parts, recorder.guest().ran(), recorder.made()))
}

/// What the next step leaves after one that was cut short.
fn next_of(rows: &[(Outcome, Outcome)], found: Outcome) -> Option<Outcome> {
    for (first, next) in rows {
        if *first == found {
            return Some(*next);
        }
    }
    None
}

/// A first step of which one growth may be refused leaves this, or the first of a row and the next step the second. The guest is
/// then where as many plain steps lead.
fn steps_find_no_memory<R: Abort + AllocGlobal + Wait>(
    rt: &R,
    every: u32,
    whole: Outcome,
    rows: &[(Outcome, Outcome)],
) -> Result<(), Fail> {
    let alloc = rt.alloc();
    let mut twin = guest_of_file(alloc, &file_of(alloc, &COUNT_UP)?, 0).ok_or("no guest")?;
    let (seat, _, _) = two_seats(alloc)?;
    let mut recorder = recorder_of(alloc, seat, &COUNT_UP, every)?;
    recorder.send(rt)?;
    let found = step_at_last(rt, alloc, &mut recorder, &twin)?;
    if found != whole {
        recorder.send(rt)?;
        let next = step_at_last(rt, alloc, &mut recorder, &twin)?;
        same(rt, &found, Some(next), next_of(rows, found));
    }
    let ran = u32::try_from(recorder.guest().ran())?;
    match steps(&mut twin, 1, ran) {
        Ok(()) => same(rt, &"guests", recorder.guest().same(&twin), true),
        Err(fault) => same(rt, &"twin", fault, FollowFault::Memory),
    }
    Ok(())
}

// Its only thread waits for a time: no step makes a frame, and the guest isn't stuck.
#[test]
fn a_step_is_refused_while_a_wait_is_timed(rt: HostRuntime) -> Result<(), Fail> {
    let alloc = rt.alloc();
    let (seat, _, _) = two_seats(alloc)?;
    let mut recorder = recorder_of_version(alloc, seat, Version::Two, &ONE_WAIT, 0)?;
    recorder.send(&rt)?;
    recorder.step(alloc, CHOICE, &mut Nothing)?;
    recorder.send(&rt)?;
    for _ in 0..2 {
        let found = recorder.step(alloc, CHOICE, &mut Nothing).err();
        let waiting = RecorderFault::Refused(SliceFault::Waiting);
        same(&rt, &"a step", found, Some(waiting));
        same(&rt, &"counts", counts(&recorder), (2, 2, 10));
    }
    same(&rt, &"end", recorder.guest().ended(), None);
    Ok(())
}

// The third instruction stores, over a page that the last checkpoint shares.
#[test]
fn a_step_with_checkpoints_finds_no_memory(rt: HostRuntime) -> Result<(), Fail> {
    let rows = [
        ((Parts::LeftOut, 64, 2), (Parts::Kept, 128, 4)),
        ((Parts::NotDue, 2, 2), (Parts::Kept, 66, 4)),
    ];
    steps_find_no_memory(&rt, 64, (Parts::Kept, 64, 3), &rows)
}

#[test]
fn a_step_without_checkpoints_finds_no_memory(rt: HostRuntime) -> Result<(), Fail> {
    let rows = [((Parts::NotDue, 2, 2), (Parts::NotDue, 66, 3))];
    steps_find_no_memory(&rt, 0, (Parts::NotDue, 64, 2), &rows)
}
