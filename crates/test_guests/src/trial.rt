//! A guest under test, behind methods that promise nothing: the proof of a test that calls them reads no clause of the crates below.
//! What a call of those crates requires is tested as it runs.

use crate::files::{file_of, guest_of_version};
use crate::outsides::Scripted;
use guest_calls::{Guest, Run, SetRestFault};
use guest_pages::PageView;
use rrv_model::machine::{GuestEnd, Regs, Thread, Version};
use rrv_model::record::{CallRecord, CheckpointRest, ThreadPart};
use rrv_model::refusal::Memory;
use rrv_model::sequence::Sequence;
use std::alloc::{AllocError, Global};

/// What a guest is asked. Each answer is a number, or None where nothing is there.
#[derive(Clone, Copy, Debug, PartialEq, Eq)]
pub enum Question {
    /// How many ranges the last call wrote.
    Ranges,
    /// The address of the range at a place among these.
    Range(u32),
    /// How many bytes that range has.
    Length(u32),
    /// How many bytes the last call put out.
    PutOut,
    /// How often the outside was asked.
    Asked,
    /// How many bytes of the input are left.
    InputLeft,
    /// The word at an address, where it may be read.
    Word(u32),
    /// The byte at an address, where it may be read.
    Byte(u32),
    /// The word at an address, where it may be executed.
    Code(u32),
    /// Whether all bytes of a range may be read: 1 or 0.
    Readable(u32, u32),
    /// Whether all bytes of a range may be written: 1 or 0.
    Writable(u32, u32),
    /// How many pages are mapped.
    Pages,
    /// The end of the program's data.
    Break,
    /// A register of a thread.
    Register(u32, u32),
    /// The pc of a thread.
    Pc(u32),
    /// The clear address of a thread.
    Clear(u32),
    /// The address at which a thread waits.
    WaitsAt(u32),
    /// Whether a thread that waits has a timeout: 1 or 0.
    Timed(u32),
    /// Whether a thread runs: 1 or 0.
    Runs(u32),
    /// The address that is reserved.
    Reservation,
    /// The tid of the next thread.
    NextTid,
    /// How many threads there are.
    Live,
    /// Whether one of the threads runs: 1 or 0.
    HasRunning,
    /// How many instructions ran.
    Ran,
}

/// A call of a thread: its number, and its arguments.
#[derive(Clone, Copy, Debug, PartialEq, Eq)]
pub struct ThreadCall {
    pub tid: u32,
    pub number: u32,
    pub arguments: [u32; 5],
}

/// A guest, what its last call recorded, and its outside.
pub struct Trial<'a> {
    /// The guest.
    pub guest: Guest,
    record: Option<CallRecord>,
    outside: Scripted<'a>,
}

// Written out: where one goes, a proof has one call, and not one for each of its parts.
impl Drop for Trial<'_> {
    fn drop(self) {
        let Trial {
            guest: _,
            record: _,
            outside: _,
        } = self;
    }
}

/// A thread with the number of a call in a7, and the arguments in a0 to a4.
fn with_arguments(thread: Thread, number: u32, arguments: [u32; 5]) -> Thread {
    let mut registers = thread.regs.registers;
    registers[10..15].copy_from_slice(&arguments);
    registers[17] = number;
    let regs = Regs {
        pc: thread.regs.pc,
        registers,
    };
    Thread {
        regs,
        wait: thread.wait,
        clear: thread.clear,
    }
}

/// The threads of a guest, with another one under a tid.
fn threads_with(
    alloc: Global,
    guest: &Guest,
    tid: u32,
    thread: Thread,
) -> Result<Vec<ThreadPart>, AllocError> {
    let mut threads = Vec::new(alloc);
    for other in 1..guest.threads().next_tid() {
        if other == tid {
            threads.push(ThreadPart { tid, thread })?;
        } else if let Some(thread) = guest.thread(other) {
            threads.push(ThreadPart { tid: other, thread })?;
        }
    }
    Ok(threads)
}

/// What a checkpoint of a guest says beside its pages, with these threads and this next tid.
fn rest_of(
    alloc: Global,
    guest: &Guest,
    threads: Vec<ThreadPart>,
    next_tid: u32,
) -> Result<CheckpointRest, AllocError> {
    Ok(CheckpointRest {
        program_break: guest.program_break(),
        next_tid,
        threads: Sequence::from_vec(threads),
        waiting: Sequence::from_vec(guest.threads().waiting().to_vec(alloc)?),
    })
}

/// Makes a guest of a version and a file, whose random bytes are all 7, and an outside with this input; None where the file is none
/// that runs, or no memory is left.
pub fn open_version<'a>(
    alloc: Global,
    version: Version,
    elf: &[u8],
    input: &'a [u8],
) -> Option<Trial<'a>> {
    Some(Trial {
        guest: guest_of_version(alloc, version, elf, 7)?,
        record: None,
        outside: Scripted::of(input),
    })
}

/// The same of version 1.
pub fn open<'a>(alloc: Global, elf: &[u8], input: &'a [u8]) -> Option<Trial<'a>> {
    open_version(alloc, Version::One, elf, input)
}

/// The same of these instructions, which start at 0x10054.
pub fn open_words<'a>(alloc: Global, words: &[u32], input: &'a [u8]) -> Option<Trial<'a>> {
    let elf = file_of(alloc, words).ok()?;
    open(alloc, &elf, input)
}

impl Trial<'_> {
    /// Makes a thread's call, and gives its result. None where the thread can make no call.
    pub fn call(&mut self, alloc: Global, call: ThreadCall) -> Result<Option<u32>, Memory> {
        let next_tid = self.guest.threads().next_tid();
        self.call_under(alloc, next_tid, call)
    }

    /// The same where this tid is the next one.
    pub fn call_under(
        &mut self,
        alloc: Global,
        next_tid: u32,
        call: ThreadCall,
    ) -> Result<Option<u32>, Memory> {
        if self.prepare(alloc, next_tid, call)? {
            self.answer(alloc, call.tid)
        } else {
            Ok(None)
        }
    }

    /// Puts the number and the arguments of a call into a thread's registers, and tells whether the guest took them.
    pub fn prepare(
        &mut self,
        alloc: Global,
        next_tid: u32,
        call: ThreadCall,
    ) -> Result<bool, Memory> {
        let ThreadCall {
            tid,
            number,
            arguments,
        } = call;
        if self.guest.ended().is_some() {
            return Ok(false);
        }
        let Some(thread) = self.guest.thread(tid) else {
            return Ok(false);
        };
        let thread = with_arguments(thread, number, arguments);
        let threads = threads_with(alloc, &self.guest, tid, thread)?;
        let rest = rest_of(alloc, &self.guest, threads, next_tid)?;
        match self.guest.set_rest(alloc, &rest) {
            Ok(()) => Ok(true),
            Err(SetRestFault::NoState) => Ok(false),
            Err(SetRestFault::Memory) => Err(Memory),
        }
    }

    /// Makes the call that a thread's registers say, and gives its result. None where the thread can make no call.
    pub fn answer(&mut self, alloc: Global, tid: u32) -> Result<Option<u32>, Memory> {
        if self.guest.ended().is_some() || !self.guest.is_running(tid) {
            return Ok(None);
        }
        let record = self.guest.call(alloc, tid, &mut self.outside)?;
        let result = record.result;
        self.record = Some(record);
        Ok(Some(result))
    }

    /// Runs up to so many instructions of a thread; None where it doesn't run.
    pub fn run(&mut self, tid: u32, limit: u32) -> Option<Run> {
        if self.guest.is_running(tid) {
            Some(self.guest.run_thread(tid, limit))
        } else {
            None
        }
    }

    /// Steps a thread, and tells whether it could.
    pub fn step(&mut self, tid: u32) -> bool {
        self.guest.is_running(tid) && self.guest.step_thread(tid).is_ok()
    }

    /// Ends the timed wait of a thread, and tells whether it had one.
    pub fn expire(&mut self, tid: u32) -> bool {
        self.guest.expire(tid).is_ok()
    }

    /// Takes the call back behind which a thread stands, and tells whether it runs.
    pub fn take_back(&mut self, tid: u32) -> bool {
        let runs = self.guest.is_running(tid);
        if runs {
            self.guest.take_back(tid);
        }
        runs
    }

    /// Puts a word into a mapped page, whatever its permissions, and tells whether it is there.
    pub fn put_word(&mut self, address: u32, word: u32) -> bool {
        let Some(page) = self.guest.space().page(address / 4096) else {
            return false;
        };
        let permissions = page.permissions;
        let mut bytes = *page.bytes;
        for (place, byte) in word.to_le_bytes().iter().enumerate() {
            match bytes.get_mut((address % 4096) as usize + place) {
                Some(slot) => *slot = *byte,
                None => return false,
            }
        }
        let page = PageView {
            permissions,
            bytes: &bytes,
        };
        self.guest.set_page(address / 4096, Some(page)).is_ok()
    }

    /// The range at a place among those that the last call wrote: its address and its bytes.
    pub fn written(&self, place: u32) -> Option<(u32, &[u8])> {
        let range = self
            .record
            .as_ref()?
            .written
            .as_slice()
            .get(place as usize)?;
        Some((range.address, range.bytes.as_slice()))
    }

    /// What the last call put out: the descriptor and the bytes.
    pub fn put_out(&self) -> Option<(u32, &[u8])> {
        self.guest.put_out()
    }

    /// The waiting threads, in the waiting order.
    pub fn waiting(&self) -> &[u32] {
        self.guest.threads().waiting()
    }

    /// The running threads.
    pub fn running(&self, alloc: Global) -> Result<Vec<u32>, Memory> {
        self.guest.running(alloc)
    }

    /// How the guest ended; None where it goes on.
    pub fn ended(&self) -> Option<GuestEnd> {
        self.guest.ended()
    }

    /// Whether both guests are in the same state.
    pub fn same(&self, other: &Trial<'_>) -> bool {
        self.guest.same(&other.guest)
    }

    fn ranges(&self) -> Option<u32> {
        u32::try_from(self.record.as_ref()?.written.as_slice().len()).ok()
    }

    fn put_len(&self) -> Option<u32> {
        match self.put_out() {
            Some((_, bytes)) => u32::try_from(bytes.len()).ok(),
            None => Some(0),
        }
    }

    fn register(&self, tid: u32, number: u32) -> Option<u32> {
        let thread = self.guest.thread(tid)?;
        thread.regs.registers.get(number as usize).copied()
    }

    fn timed(&self, tid: u32) -> Option<u32> {
        let wait = self.guest.thread(tid)?.wait?;
        Some(u32::from(wait.timeout.is_some()))
    }

    fn find_in_memory(&self, question: Question) -> Option<u32> {
        let space = self.guest.space();
        match question {
            Question::Word(address) => space.load_word(address),
            Question::Byte(address) => space.load_byte(address).map(u32::from),
            Question::Code(address) => space.fetch(address),
            Question::Readable(address, len) => Some(u32::from(space.is_readable(address, len))),
            Question::Writable(address, len) => Some(u32::from(space.is_writable(address, len))),
            _ => None,
        }
    }

    /// What the guest answers.
    pub fn find(&self, question: Question) -> Option<u32> {
        match question {
            Question::Ranges => self.ranges(),
            Question::Range(place) => Some(self.written(place)?.0),
            Question::Length(place) => u32::try_from(self.written(place)?.1.len()).ok(),
            Question::PutOut => self.put_len(),
            Question::Asked => Some(self.outside.asked),
            Question::InputLeft => u32::try_from(self.outside.input.len()).ok(),
            Question::Pages => Some(self.guest.page_count()),
            Question::Break => Some(self.guest.program_break()),
            Question::Register(tid, number) => self.register(tid, number),
            Question::Pc(tid) => Some(self.guest.thread(tid)?.regs.pc),
            Question::Clear(tid) => Some(self.guest.thread(tid)?.clear),
            Question::WaitsAt(tid) => Some(self.guest.thread(tid)?.wait?.address),
            Question::Timed(tid) => self.timed(tid),
            Question::Runs(tid) => Some(u32::from(self.guest.is_running(tid))),
            Question::Reservation => self.guest.reservation(),
            Question::NextTid => Some(self.guest.threads().next_tid()),
            Question::Live => Some(self.guest.threads().live()),
            Question::HasRunning => Some(u32::from(self.guest.has_running())),
            Question::Ran => u32::try_from(self.guest.ran()).ok(),
            _ => self.find_in_memory(question),
        }
    }
}
