//! Recorders that wake threads whose timed waits are over. Their clock is a list of answers.

ghost use Rattle.std.specs.Prelude.{◌≡◌, [], false};

use super::recorders::{counts, opening, recorder_of_version, two_seats};
use super::same;
use super::store::{Store, marked_log};
use commit_group::{FlusherSeat, RecorderSeat};
use guest_calls::Outside;
use recorder::{Every, Parts, Recorder, RecorderFault};
use rrv_model::machine::{GuestEnd, Version};
use rrv_model::record::Choice;
use serial_sched::SliceFault;
use std::alloc::Global;
use std::process::Abort;
use std::sync::Wait;
use std::test::Fail;
use test_guests::files::ONE_WAIT;
use trace_disk::MemDisk;
use trace_log::Log;

/// The monotonic clock's number.
const MONOTONIC: u32 = 1;

/// The register of a call's result, a0.
const A0: usize = 10;

/// -ETIMEDOUT.
const TIMED_OUT: u32 = 0xFFFF_FF92;

/// A moment: seconds and nanoseconds.
type Moment = (u64, u32);

/// An outside whose monotonic clock gives these answers, one after the other. It counts how often it was asked, and how often for
/// another clock.
#[derive(Drop)]
struct Clock<'a> {
    answers: &'a [Moment],
    asked: usize,
    others: usize,
}

impl<'a> Clock<'a> {
    fn new(answers: &'a [Moment]) -> Clock<'a> {
        Clock {
            answers,
            asked: 0,
            others: 0,
        }
    }
}

impl Outside for Clock<'_> {
    ghost gives = { λ _ _ _ _. Unit {0} };

    fn read(&mut self, _into: &mut [u8]) -> usize {
        0
    }

    fn random(&mut self, _into: &mut [u8]) {}

    fn now(&mut self, clock: u32) -> (u64, u32) {
        if clock != MONOTONIC {
            self.others = self.others.wrapping_add(1);
        }
        let answer = self.answers.get(self.asked);
        self.asked = self.asked.wrapping_add(1);
        match answer {
            Some((seconds, nanoseconds)) => (
                (*seconds).min(0x7FFF_FFFF_FFFF_FFFF),
                (*nanoseconds).min(999_999_999),
            ),
            None => (0, 0),
        }
    }
}

/// The refusal where no thread runs, and none is due.
const WAITING: Option<RecorderFault> = Some(RecorderFault::Refused(SliceFault::Waiting));

/// The refusal where the chosen thread waits, another one runs, and none is due.
const NOT_RUNNABLE: Option<RecorderFault> = Some(RecorderFault::Refused(SliceFault::NotRunnable));

const ENDED: Option<RecorderFault> = Some(RecorderFault::Refused(SliceFault::Ended));

/// `li t0, n`, of n below 2048.
const fn li_t0(n: u32) -> u32 {
    n.wrapping_shl(20) | 0x0000_0293
}

/// A thread makes another one, and each waits for so many seconds: the first, and the second.
fn two_waits(first: u32, second: u32) -> [u32; 19] {
    [
        0xFC01_0113, // addi sp, sp, -64
        0x0001_1537, // lui a0, 0x11
        0xF005_0513, // addi a0, a0, -256
        0x0000_0593, // li a1, 0
        0x0DC0_0893, // li a7, 220
        0x0000_0073, // ecall
        li_t0(first),
        0x0005_1663, // bnez a0, past the next two
        li_t0(second),
        0xFC01_0113, // addi sp, sp, -64
        0x0051_2023, // sw t0, 0(sp)
        0x0201_0513, // addi a0, sp, 32
        0x0000_0593, // li a1, 0
        0x0000_0613, // li a2, 0
        0x0001_0693, // mv a3, sp
        0x0620_0893, // li a7, 98
        0x0000_0073, // ecall
        0x05D0_0893, // li a7, 93
        0x0000_0073, // ecall
    ]
}

/// A thread makes another one, which waits for 5 seconds, again and again, and wakes it each time that it runs.
const WAKES: [u32; 22] = [
    0xFC01_0113, // addi sp, sp, -64
    0x0001_1537, // lui a0, 0x11
    0xF005_0513, // addi a0, a0, -256
    0x0000_0593, // li a1, 0
    0x0DC0_0893, // li a7, 220
    0x0000_0073, // ecall
    0x0205_1463, // bnez a0, to the sixth from the end
    0x0050_0293, // li t0, 5
    0x0051_2023, // sw t0, 0(sp)
    0x0201_0513, // addi a0, sp, 32
    0x0000_0593, // li a1, 0
    0x0000_0613, // li a2, 0
    0x0001_0693, // mv a3, sp
    0x0620_0893, // li a7, 98
    0x0000_0073, // ecall
    0xFE9F_F06F, // j back six
    0x0201_0513, // addi a0, sp, 32
    0x0010_0593, // li a1, 1
    0x0010_0613, // li a2, 1
    0x0620_0893, // li a7, 98
    0x0000_0073, // ecall
    0xFEDF_F06F, // j back five
];

/// A thread makes another one, which waits for 5 seconds, and ends the guest.
const ENDS: [u32; 17] = [
    0xFC01_0113, // addi sp, sp, -64
    0x0001_1537, // lui a0, 0x11
    0xF005_0513, // addi a0, a0, -256
    0x0000_0593, // li a1, 0
    0x0DC0_0893, // li a7, 220
    0x0000_0073, // ecall
    0x0205_1263, // bnez a0, to the second from the end
    0x0050_0293, // li t0, 5
    0x0051_2023, // sw t0, 0(sp)
    0x0201_0513, // addi a0, sp, 32
    0x0000_0593, // li a1, 0
    0x0000_0613, // li a2, 0
    0x0001_0693, // mv a3, sp
    0x0620_0893, // li a7, 98
    0x0000_0073, // ecall
    0x05E0_0893, // li a7, 94
    0x0000_0073, // ecall
];

/// It waits for 2^63 - 1 seconds.
const FAR_WAIT: [u32; 11] = [
    0xFC01_0113, // addi sp, sp, -64
    0xFFF0_0293, // li t0, -1
    0x0051_2023, // sw t0, 0(sp)
    0x0012_D293, // srli t0, t0, 1
    0x0051_2223, // sw t0, 4(sp)
    0x0201_0513, // addi a0, sp, 32
    0x0000_0593, // li a1, 0
    0x0000_0613, // li a2, 0
    0x0001_0693, // mv a3, sp
    0x0620_0893, // li a7, 98
    0x0000_0073, // ecall
];

/// A thread makes 63 others, and runs on. Each of them waits for 100 seconds less as many as its tid.
const MANY: [u32; 26] = [
    0xFC01_0113, // addi sp, sp, -64
    0x03F0_0413, // li s0, 63
    0x0001_1537, // lui a0, 0x11
    0xF005_0513, // addi a0, a0, -256
    0x0000_0593, // li a1, 0
    0x0DC0_0893, // li a7, 220
    0x0000_0073, // ecall
    0x0005_0863, // beqz a0, past the next three
    0xFFF4_0413, // addi s0, s0, -1
    0xFE04_12E3, // bnez s0, back seven
    0x0000_006F, // j .
    0x0B20_0893, // li a7, 178
    0x0000_0073, // ecall
    0x0640_0293, // li t0, 100
    0x40A2_82B3, // sub t0, t0, a0
    0x0045_1313, // slli t1, a0, 4
    0x4061_0333, // sub t1, sp, t1
    0x0053_2023, // sw t0, 0(t1)
    0x0201_0513, // addi a0, sp, 32
    0x0000_0593, // li a1, 0
    0x0000_0613, // li a2, 0
    0x0003_0693, // mv a3, t1
    0x0620_0893, // li a7, 98
    0x0000_0073, // ecall
    0x05D0_0893, // li a7, 93
    0x0000_0073, // ecall
];

/// A recorder of a guest of version 2, with what its records go through.
#[derive(Drop)]
struct Recorded {
    recorder: Recorder,
    flusher: FlusherSeat,
    log: Log<MemDisk>,
    /// How many checkpoints were made while a wait was timed.
    checkpoints: u32,
    ghost whole: { flusher.halted ≡ false → log.is_broken ≡ false },
}

impl Recorded {
    /// One of this program, with checkpoints this many instructions apart.
    fn new(rt: &impl Wait, alloc: Global, program: &[u32], every: u32) -> Result<Recorded, Fail> {
        let (seat, _, flusher) = two_seats(alloc)?;
        let recorder = recorder_of_version(alloc, seat, Version::Two, program, every)?;
        let mut recorded = Recorded {
            recorder,
            flusher,
            log: marked_log(alloc)?,
            checkpoints: 0,
        };
        recorded.commit(rt, alloc)?;
        Ok(recorded)
    }

    /// Sends what waits, and commits it: a step makes fewer records than a turn commits.
    fn commit(&mut self, rt: &impl Wait, alloc: Global) -> Result<(), Fail> {
        self.recorder.send(rt)?;
        if self.log.next_guest() > u32::MAX - self.flusher.guests() {
            return Err(Fail::new("no number for a guest"));
        }
        match self.flusher.turn(rt, alloc, &mut self.log) {
            Ok(_) => Ok(()),
            Err(_) => Err(Fail::new("not committed")),
        }
    }

    /// A step by a choice of this thread, of no instruction if it is 0, is refused so, or makes a frame, which is sent. The clock is
    /// asked just for these answers.
    fn step<R: Abort + Wait>(
        &mut self,
        rt: &R,
        alloc: Global,
        tid: u32,
        answers: &[Moment],
        refused: Option<RecorderFault>,
    ) -> Result<(), Fail> {
        let mut clock = Clock::new(answers);
        let quantum = if tid == 0 { 0 } else { 64 };
        let choice = Choice { tid, quantum };
        let before = self.recorder.made();
        let found = match self.recorder.step(alloc, choice, &mut clock) {
            Ok(parts) => {
                self.count(parts);
                None
            }
            Err(fault) => Some(fault),
        };
        same(rt, &(tid, answers), found, refused);
        same(rt, &(tid, answers), clock.asked, answers.len());
        same(rt, &(tid, answers), clock.others, 0);
        let made = before < self.recorder.made();
        same(rt, &(tid, answers), made, refused.is_none());
        self.commit(rt, alloc)
    }

    /// Counts a checkpoint that was made while a wait is timed.
    fn count(&mut self, parts: Parts) {
        if parts == Parts::Kept && self.recorder.time_left().is_some() {
            self.checkpoints = self.checkpoints.wrapping_add(1);
        }
    }

    /// What this thread has as the result of its last call.
    fn result_of(&self, tid: u32) -> Option<u32> {
        let thread = self.recorder.guest().thread(tid)?;
        Some(thread.regs.registers[A0])
    }

    /// The wait of this thread is over at this moment. The choice isn't looked at: none fits it.
    fn expires<R: Abort + Wait>(
        &mut self,
        rt: &R,
        alloc: Global,
        tid: u32,
        at: Moment,
    ) -> Result<(), Fail> {
        let ran = self.recorder.guest().ran();
        same(rt, &tid, self.recorder.guest().is_running(tid), false);
        self.step(rt, alloc, 0, &[at], None)?;
        same(rt, &tid, self.recorder.guest().is_running(tid), true);
        same(rt, &tid, self.result_of(tid), Some(TIMED_OUT));
        same(rt, &tid, self.recorder.guest().ran(), ran);
        Ok(())
    }

    /// Its records verify, and end as the guest has.
    fn verifies<R: Abort + AllocGlobal + Wait>(self, rt: &R) -> Result<(), Fail> {
        let alloc = rt.alloc();
        let made = self.recorder.made();
        same(rt, &"sent", self.recorder.sent(), made);
        let end = self.recorder.guest().ended();
        let mut store = Store::of(alloc, self.log.close())?;
        let kept = store.replayed(rt, 0)?;
        same(rt, &"records", kept.records, made as usize);
        same(rt, &"end", kept.end, end);
        Ok(())
    }
}

// A wait for no time is over at once, and the thread waits until a step sees that.
#[test]
fn a_wait_for_no_time_is_over_at_once(rt: HostRuntime) -> Result<(), Fail> {
    let alloc = rt.alloc();
    let mut recorded = Recorded::new(&rt, alloc, &two_waits(0, 1), 0)?;
    recorded.step(&rt, alloc, 1, &[], None)?;
    recorded.step(&rt, alloc, 1, &[(3, 0)], None)?;
    same(&rt, &"left", recorded.recorder.time_left(), Some(0));
    recorded.expires(&rt, alloc, 1, (3, 0))?;
    recorded.verifies(&rt)
}

// It waits for 5,000,000 nanoseconds from (100, 999000000) on, and exits with the low byte of what it finds.
#[test]
fn a_thread_is_woken_once_its_time_is_over(rt: HostRuntime) -> Result<(), Fail> {
    let alloc = rt.alloc();
    let mut recorded = Recorded::new(&rt, alloc, &ONE_WAIT, 0)?;
    same(&rt, &"none", recorded.recorder.time_left(), None);
    recorded.step(&rt, alloc, 1, &[(100, 999_000_000)], None)?;
    same(&rt, &"left", recorded.recorder.time_left(), Some(5_000_000));
    let found = counts(&recorded.recorder);
    recorded.step(&rt, alloc, 1, &[(101, 3_999_999)], WAITING)?;
    same(&rt, &"counts", counts(&recorded.recorder), found);
    same(&rt, &"left", recorded.recorder.time_left(), Some(1));
    recorded.expires(&rt, alloc, 1, (101, 4_000_000))?;
    same(&rt, &"left", recorded.recorder.time_left(), None);
    recorded.step(&rt, alloc, 1, &[], None)?;
    let want = Some(GuestEnd::Exited(0x92));
    same(&rt, &"end", recorded.recorder.guest().ended(), want);
    recorded.verifies(&rt)
}

/// Two threads, which wait for so many seconds from 0 on, are woken in this order at a moment at which both waits are over.
fn are_woken<R: Abort + AllocGlobal + Wait>(
    rt: &R,
    seconds: (u32, u32),
    at: Moment,
    order: [u32; 2],
) -> Result<(), Fail> {
    let alloc = rt.alloc();
    let program = two_waits(seconds.0, seconds.1);
    let mut recorded = Recorded::new(rt, alloc, &program, 0)?;
    recorded.step(rt, alloc, 1, &[], None)?;
    recorded.step(rt, alloc, 1, &[(0, 0)], None)?;
    recorded.step(rt, alloc, 2, &[(0, 0), (0, 0)], None)?;
    let [first, second] = order;
    recorded.expires(rt, alloc, first, at)?;
    same(rt, &seconds, recorded.recorder.time_left(), Some(0));
    recorded.expires(rt, alloc, second, at)?;
    same(rt, &seconds, recorded.recorder.time_left(), None);
    recorded.verifies(rt)
}

#[test]
fn threads_are_woken_by_moment_and_then_by_tid(rt: HostRuntime) -> Result<(), Fail> {
    are_woken(&rt, (7, 7), (7, 0), [1, 2])?;
    are_woken(&rt, (7, 6), (7, 0), [2, 1])?;
    are_woken(&rt, (6, 6), (9, 0), [1, 2])?;
    are_woken(&rt, (6, 7), (9, 0), [1, 2])?;
    are_woken(&rt, (7, 6), (9, 0), [2, 1])
}

// Thread 2 waits until 5, is woken at 1, and waits until 15.
#[test]
fn a_thread_that_was_woken_has_its_new_deadline(rt: HostRuntime) -> Result<(), Fail> {
    let alloc = rt.alloc();
    let mut recorded = Recorded::new(&rt, alloc, &WAKES, 0)?;
    recorded.step(&rt, alloc, 1, &[], None)?;
    recorded.step(&rt, alloc, 2, &[(0, 0)], None)?;
    recorded.step(&rt, alloc, 1, &[(1, 0)], None)?;
    same(&rt, &"woken", recorded.recorder.guest().is_running(2), true);
    same(&rt, &"none", recorded.recorder.time_left(), None);
    recorded.step(&rt, alloc, 2, &[(10, 0)], None)?;
    recorded.step(&rt, alloc, 2, &[(14, 999_999_999)], NOT_RUNNABLE)?;
    recorded.expires(&rt, alloc, 2, (15, 0))?;
    recorded.verifies(&rt)
}

#[test]
fn an_ended_guest_asks_no_clock(rt: HostRuntime) -> Result<(), Fail> {
    let alloc = rt.alloc();
    let mut recorded = Recorded::new(&rt, alloc, &ENDS, 0)?;
    recorded.step(&rt, alloc, 1, &[], None)?;
    recorded.step(&rt, alloc, 2, &[(0, 0)], None)?;
    recorded.step(&rt, alloc, 1, &[(1, 0)], None)?;
    same(&rt, &"none", recorded.recorder.time_left(), None);
    recorded.step(&rt, alloc, 1, &[], ENDED)?;
    recorded.verifies(&rt)
}

// Its only thread waits, and the record of that waits to be sent.
#[test]
fn a_full_recorder_asks_no_clock(rt: HostRuntime) -> Result<(), Fail> {
    let alloc = rt.alloc();
    let mut recorded = Recorded::new(&rt, alloc, &ONE_WAIT, 0)?;
    let choice = Choice {
        tid: 1,
        quantum: 64,
    };
    let mut clock = Clock::new(&[(0, 0), (9, 0)]);
    recorded.recorder.step(alloc, choice, &mut clock)?;
    let found = recorded.recorder.step(alloc, choice, &mut clock).err();
    same(&rt, &"fault", found, Some(RecorderFault::Full));
    same(&rt, &"asked", clock.asked, 1);
    recorded.commit(&rt, alloc)?;
    recorded.expires(&rt, alloc, 1, (9, 0))?;
    recorded.verifies(&rt)
}

// The latest moment that a clock gives, and the longest timeout.
#[test]
fn the_furthest_deadline_is_kept(rt: HostRuntime) -> Result<(), Fail> {
    let alloc = rt.alloc();
    let last = (0x7FFF_FFFF_FFFF_FFFF, 999_999_999);
    let mut recorded = Recorded::new(&rt, alloc, &FAR_WAIT, 0)?;
    recorded.step(&rt, alloc, 1, &[last], None)?;
    same(&rt, &"left", recorded.recorder.time_left(), Some(u64::MAX));
    recorded.step(&rt, alloc, 1, &[last], WAITING)?;
    same(&rt, &"left", recorded.recorder.time_left(), Some(u64::MAX));
    recorded.verifies(&rt)
}

/// 63 of 64 threads wait, and are woken in the order of their moments, the greatest tid first. Before each the first thread runs.
fn all_are_woken<R: Abort + AllocGlobal + Wait>(rt: &R, every: u32) -> Result<(), Fail> {
    let alloc = rt.alloc();
    let mut recorded = Recorded::new(rt, alloc, &MANY, every)?;
    for _ in 2..65 {
        recorded.step(rt, alloc, 1, &[], None)?;
    }
    recorded.step(rt, alloc, 2, &[], None)?;
    recorded.step(rt, alloc, 2, &[(0, 0)], None)?;
    for tid in 3..65 {
        recorded.step(rt, alloc, tid, &[(0, 0)], None)?;
        recorded.step(rt, alloc, tid, &[(0, 0), (0, 0)], None)?;
    }
    for after in 0u32..63 {
        let tid = 64u32.wrapping_sub(after);
        let at = u64::from(100u32.wrapping_sub(tid));
        recorded.step(rt, alloc, 1, &[(at.wrapping_sub(1), 999_999_999)], None)?;
        recorded.expires(rt, alloc, tid, (at, 0))?;
    }
    same(rt, &"none", recorded.recorder.time_left(), None);
    same(rt, &"checkpoints", 63 <= recorded.checkpoints, every != 0);
    recorded.verifies(rt)
}

#[test]
fn as_many_as_may_wait_are_woken(rt: HostRuntime) -> Result<(), Fail> {
    all_are_woken(&rt, 0)?;
    all_are_woken(&rt, 64)
}

// The clock goes from 10 back to 5. Thread 1 waits until 20, and thread 2 for 3 seconds from 5 on.
#[test]
fn a_clock_that_goes_back_leaves_deadlines(rt: HostRuntime) -> Result<(), Fail> {
    let alloc = rt.alloc();
    let program = two_waits(20, 3);
    let mut recorded = Recorded::new(&rt, alloc, &program, 0)?;
    recorded.step(&rt, alloc, 1, &[], None)?;
    recorded.step(&rt, alloc, 1, &[(0, 0)], None)?;
    recorded.step(&rt, alloc, 2, &[(10, 0), (5, 0)], None)?;
    recorded.step(&rt, alloc, 1, &[(5, 0)], WAITING)?;
    same(
        &rt,
        &"left",
        recorded.recorder.time_left(),
        Some(3_000_000_000),
    );
    recorded.expires(&rt, alloc, 2, (8, 0))?;
    recorded.step(&rt, alloc, 1, &[(19, 999_999_999)], NOT_RUNNABLE)?;
    recorded.expires(&rt, alloc, 1, (20, 0))?;
    recorded.verifies(&rt)
}

/// A step by a choice of thread 1 at a moment. If it finds no memory all is as before, and the next one is made.
fn step_at_last<R: Abort>(
    rt: &R,
    alloc: Global,
    recorder: &mut Recorder,
    at: Moment,
) -> Result<(), Fail> {
    let found = (counts(recorder), recorder.time_left().is_some());
    let choice = Choice {
        tid: 1,
        quantum: 64,
    };
    let answers = [at, at];
    if let Err(fault) = recorder.step(alloc, choice, &mut Clock::new(&answers)) {
        same(rt, &at, fault, RecorderFault::Memory);
        let now = (counts(recorder), recorder.time_left().is_some());
        same(rt, &at, now, found);
        recorder.step(alloc, choice, &mut Clock::new(&answers))?;
    }
    Ok(())
}

/// A recorder of a guest that waits. If it finds no memory the seat that comes back makes one.
fn recorder_at_last<R: Abort>(rt: &R, alloc: Global, seat: RecorderSeat) -> Result<Recorder, Fail>
    requires { (seat.sent ≡ []) × (seat.has_left ≡ false) }
{
    let opening = opening(alloc, Version::Two, &ONE_WAIT)?;
    match Recorder::new(alloc, seat, opening, Every::Instructions(0)) {
        Ok(recorder) => Ok(recorder),
        Err((seat, fault)) => {
            same(rt, &"new", fault, RecorderFault::Memory);
            recorder_of_version(alloc, seat, Version::Two, &ONE_WAIT, 0)
        }
    }
}

// Each growth is refused in turn: of the recorder, of the wait, of its expiry, and of the frames around them. Each step makes one record. A
// slice that is cut short for want of memory makes one frame more.
#[test]
fn a_wait_finds_no_memory(rt: HostRuntime) -> Result<(), Fail> {
    let alloc = rt.alloc();
    let (seat, _, _) = two_seats(alloc)?;
    let mut recorder = recorder_at_last(&rt, alloc, seat)?;
    let mut made = recorder.made();
    for seconds in 0u64..8 {
        recorder.send(&rt)?;
        if recorder.guest().ended().is_none() {
            step_at_last(&rt, alloc, &mut recorder, (seconds, 0))?;
            made = made.wrapping_add(1);
        }
        same(&rt, &seconds, recorder.made(), made);
    }
    same(&rt, &"ran", recorder.guest().ran(), 12);
    same(&rt, &"made", made == 4 || made == 5, true);
    let want = Some(GuestEnd::Exited(0x92));
    same(&rt, &"end", recorder.guest().ended(), want);
    Ok(())
}
