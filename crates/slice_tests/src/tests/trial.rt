//! A guest that is played by rows, each of which does something to it or looks for something in it.

use guest_calls::{Guest, Outside};
use rrv_model::machine::GuestEnd;
use rrv_model::record::{Choice, Frame};
use serial_sched::{FollowFault, SliceFault, follow, slice, steps};
use std::alloc::Global;
use std::fmt::Debug;
use std::process::Abort;
use std::test::Fail;
use test_guests::files::guest_of_file;

/// What a slice tells: the thread, its steps, the word for how it ended, and the result of its call.
#[derive(Clone, Copy, Debug, PartialEq, Eq)]
pub(crate) struct Told {
    pub(crate) tid: u32,
    pub(crate) count: u32,
    pub(crate) kind: &'static str,
    pub(crate) result: Option<u32>,
}

/// A slice that was preempted.
pub(crate) const fn preempt(tid: u32, count: u32) -> Result<Told, SliceFault> {
    Ok(Told {
        tid,
        count,
        kind: "preempt",
        result: None,
    })
}

/// A slice that ended in a call of this result.
pub(crate) const fn call(tid: u32, count: u32, value: u32) -> Result<Told, SliceFault> {
    Ok(Told {
        tid,
        count,
        kind: "call",
        result: Some(value),
    })
}

/// What is done, and what it has to tell; or what has to be found.
#[derive(Clone, Copy, Debug)]
pub(crate) enum Row {
    /// The slice of a thread, for so many instructions at most.
    Slice(u32, u32, Result<Told, SliceFault>),
    /// So many plain steps of thread 1.
    Steps(u32, Result<(), FollowFault>),
    /// Another guest of the same file follows all slices, which leads it to the same state.
    IsFollowed,
    /// How many ranges the last slice's call wrote.
    Ranges(usize),
    /// A register of thread 1.
    Register(usize, u32),
    /// A word of the memory.
    Word(u32, u32),
    Reserved(Option<u32>),
    Break(u32),
    Pages(u32),
    Ran(u64),
    Ended(Option<GuestEnd>),
}

/// An outside that has four bytes of input each time, all of whose random bytes are 0x5A.
#[derive(Drop)]
struct FourBytes;

impl Outside for FourBytes {
    ghost gives = { λ _ _ _ _. Unit {0} };

    fn read(&mut self, into: &mut [u8]) -> usize {
        let len = into.len().min(4);
        into[..len].fill(7);
        len
    }

    fn random(&mut self, into: &mut [u8]) {
        into.fill(0x5A);
    }

    fn now(&mut self, _clock: u32) -> (u64, u32) {
        (0x0807_0605_0403_0201, 0x0D0C_0B0A)
    }
}

/// Ends the test where two values differ, and tells of what.
pub(crate) fn same<W: Debug, T: PartialEq + Debug + Drop>(
    rt: &impl Abort,
    what: &W,
    found: T,
    want: T,
) {
    assert_eq!(rt; found, want, "{what:?}");
}

/// Plays rows on a guest of a file.
pub(crate) fn play(rt: &impl Abort, alloc: Global, elf: Vec<u8>, rows: &[Row]) -> Result<(), Fail> {
    let mut trial = Trial::open(alloc, elf)?;
    for row in rows {
        trial.take(rt, alloc, row)?;
    }
    Ok(())
}

/// A guest, its file, and its slices so far.
#[derive(Drop)]
struct Trial {
    elf: Vec<u8>,
    guest: Guest,
    frames: Vec<Frame>,
}

impl Trial {
    fn open(alloc: Global, elf: Vec<u8>) -> Result<Trial, Fail> {
        let guest = guest_of_file(alloc, &elf, 0).ok_or("no guest")?;
        Ok(Trial {
            elf,
            guest,
            frames: Vec::new(alloc),
        })
    }

    fn take(&mut self, rt: &impl Abort, alloc: Global, row: &Row) -> Result<(), Fail> {
        match *row {
            Row::Slice(tid, quantum, want) => {
                let told = self.slice(alloc, Choice { tid, quantum })?;
                same(rt, row, told, want);
            }
            Row::Steps(count, want) => same(rt, row, steps(&mut self.guest, 1, count), want),
            Row::IsFollowed => same(rt, row, self.is_followed(alloc)?, true),
            Row::Ranges(want) => same(rt, row, self.ranges(), Some(want)),
            Row::Register(number, want) => same(rt, row, self.register(number), Some(want)),
            Row::Word(address, want) => same(rt, row, self.word(address), Some(want)),
            Row::Reserved(want) => same(rt, row, self.guest.reservation(), want),
            Row::Break(want) => same(rt, row, self.guest.program_break(), want),
            Row::Pages(want) => same(rt, row, self.guest.page_count(), want),
            Row::Ran(want) => same(rt, row, self.guest.ran(), want),
            Row::Ended(want) => same(rt, row, self.guest.ended(), want),
        }
        Ok(())
    }

    /// Records the slice of a choice.
    fn slice(&mut self, alloc: Global, choice: Choice) -> Result<Result<Told, SliceFault>, Fail> {
        let frame = match slice(alloc, &mut self.guest, choice, &mut FourBytes) {
            Ok(frame) => frame,
            Err(fault) => return Ok(Err(fault)),
        };
        let told = Told {
            tid: frame.tid,
            count: frame.count,
            kind: frame.end.kind().name(),
            result: frame.end.call().map(|call| call.result),
        };
        self.frames.push(frame)?;
        Ok(Ok(told))
    }

    fn is_followed(&self, alloc: Global) -> Result<bool, Fail> {
        let mut other = guest_of_file(alloc, &self.elf, 0).ok_or("no guest")?;
        for frame in self.frames.iter() {
            follow(alloc, &mut other, frame)?;
        }
        Ok(other.same(&self.guest))
    }

    fn ranges(&self) -> Option<usize> {
        Some(self.frames.last()?.end.call()?.written.as_slice().len())
    }

    fn register(&self, number: usize) -> Option<u32> {
        self.guest.thread(1)?.regs.registers.get(number).copied()
    }

    fn word(&self, address: u32) -> Option<u32> {
        self.guest.space().load_word(address)
    }
}
