//! A disk in memory, which can be crashed.

ghost use Rattle.std.specs.Prelude.{◌≡◌, ◌≤◌, ◌<◌, ◌+◌, max, ℕ, length, take, drop, OnOk, OnErr, IfOk, IsOk, vec_len, vec_capacity, IsTrue, ◌↔◌, ◌⊎◌, get_or};
ghost use Rattle.store_model.specs.CrashModel.{IsTouched, IsCrash};
ghost use Rattle.store_model.specs.DiskCalls.{overwritten, after_write, after_cut, after_sync};
ghost use Rattle.outcomes.specs.Failures.{one_more, IsCounted};
ghost use Rattle.trace_disk.specs.Started.{empty_disk, started_with, IsFilledCrash};

use crate::history::History;
use crate::{Disk, DiskFailed};
use outcomes::refusal::Memory;
use std::alloc::{AllocError, Global};

// Writes over what is there, and past the end.
fn overwrite(content: &mut Vec<u8>, at: usize, bytes: &[u8]) -> Result<(), AllocError>
    requires { at ≤ length content.old.items }
    ensures written { OnOk result (content.new.items ≡ overwritten content.old.items at bytes.now) }
    ensures err { OnErr result (content.new.items ≡ content.old.items) }
    ensures len { OnOk result (vec_len content.new ≤ max (vec_len content.old) (at + length bytes.now)) }
    ensures err_len { OnErr result (vec_len content.new ≡ vec_len content.old) }
    ensures capacity { vec_capacity content.old ≤ vec_capacity content.new }
    ensures room { at + length bytes.now ≤ vec_capacity content.old → IsOk result }
{
    let behind = content.len() - at;
    if behind < bytes.len() {
        content.extend_from_slice(&bytes[behind..])?;
        content[at..at + behind].copy_from_slice(&bytes[..behind]);
    } else {
        content[at..at + bytes.len()].copy_from_slice(bytes);
    }
    Ok(())
}

// Makes room for so many bytes from a place on.
fn reserve_to(content: &mut Vec<u8>, at: usize, count: usize) -> Result<(), AllocError>
    requires { at ≤ length content.old.items }
    ensures items { content.new.items ≡ content.old.items }
    ensures len { vec_len content.new ≡ vec_len content.old }
    ensures capacity { vec_capacity content.old ≤ vec_capacity content.new }
    ensures fits { OnOk result (at + count ≤ vec_capacity content.new) }
    ensures room { at + count ≤ vec_capacity content.old → IsOk result }
{
    let behind = content.len() - at;
    if behind < count {
        content.reserve(count - behind)?;
    }
    Ok(())
}

/// An honest disk in memory. It keeps what a read gives, and what a crash now may leave.
///
/// A call costs what it reads or writes, and a sync what was written since the last one. Within its room no call takes memory.
/// Past it a refused growth is a failure of the device, which changes nothing and leaves the room.
#[derive(Drop)]
pub struct MemDisk {
    content: Vec<u8>,
    least: usize,
    greatest: usize,
    touched: Vec<(usize, usize)>,
    failures: u64,
    history: History,
    ghost content_is: { content.items ≡ history.state.content },
    ghost least_is: { least ≡ history.state.pending.least },
    ghost greatest_is: { greatest ≡ history.state.pending.greatest },
    ghost touched_is: { touched.items ≡ history.state.pending.touched },
    // What was synced stands in the content still, where no write and no cut has reached.
    ghost may_stay: { IsCrash history.state.pending history.state.content },
}

impl MemDisk {
    ghost use Rattle.trace_disk.specs.MemDisk.{memory_state, memory_size, memory_failures, HasRoom, IsMemoryCall};

    /// An empty disk with no room: each call may take memory, making it takes none.
    pub fn new(alloc: Global) -> Self
        ensures state { memory_state result ≡ empty_disk }
        ensures failures { memory_failures result ≡ 0 }
    {
        MemDisk {
            content: Vec::new(alloc),
            least: 0,
            greatest: 0,
            touched: Vec::new(alloc),
            failures: 0,
            history: History::started_with(&[]),
        }
    }

    /// An empty disk with room for so many calls, and for so many bytes in all writes together.
    pub fn with_room(alloc: Global, bytes: usize, calls: usize) -> Result<MemDisk, Memory>
        ensures state { IfOk result (λ disk. memory_state disk ≡ empty_disk) }
        ensures failures { IfOk result (λ disk. memory_failures disk ≡ 0) }
        ensures room { IfOk result (λ disk. HasRoom disk bytes calls) }
    {
        Ok(MemDisk {
            content: Vec::with_capacity(alloc, bytes)?,
            least: 0,
            greatest: 0,
            touched: Vec::with_capacity(alloc, calls)?,
            failures: 0,
            history: History::started_with(&[]),
        })
    }

    /// The least length in bytes that a crash now may leave.
    pub fn least(&self) -> u64
        ensures { result ≡ (memory_state self.now).pending.least }
    {
        self.least as u64
    }

    /// The greatest length in bytes that a crash now may leave.
    pub fn greatest(&self) -> u64
        ensures { result ≡ (memory_state self.now).pending.greatest }
    {
        self.greatest as u64
    }

    /// A disk with no room that has what a crash now may leave: `len` bytes, `fill` wherever a crash may change them.
    pub fn crash(&self, alloc: Global, len: u64, fill: u8) -> Result<MemDisk, Memory>
        requires no_shorter { (memory_state self.now).pending.least ≤ len }
        requires no_longer { len ≤ (memory_state self.now).pending.greatest }
        ensures filled { IfOk result (λ disk.
            IsFilledCrash (memory_state self.now).pending len fill (memory_state disk).content) }
        ensures may { IfOk result (λ disk. IsCrash (memory_state self.now).pending (memory_state disk).content) }
        ensures started { IfOk result (λ disk. memory_state disk ≡ started_with (memory_state disk).content) }
        ensures failures { IfOk result (λ disk. memory_failures disk ≡ 0) }
    {
        let len = len as usize;
        let mut bytes = Vec::new(alloc);
        bytes.resize(len, fill)?;
        keep_untouched(&mut bytes, &self.content, self.least, &self.touched);
        let history = History::started_with(&bytes);
        Ok(MemDisk {
            content: bytes,
            least: len,
            greatest: len,
            touched: Vec::new(alloc),
            failures: 0,
            history,
        })
    }

    fn try_write(&mut self, at: usize, bytes: &[u8]) -> Result<(), AllocError>
        requires { at ≤ memory_size self.old }
        ensures call { IsMemoryCall self.old self.new result
            (after_write (memory_state self.old) at bytes.now) (length bytes.now) }
        ensures size { OnOk result (memory_size self.new ≡ max (memory_size self.old) (at + length bytes.now)) }
        ensures failures { self.new.failures ≡ self.old.failures }
    {
        reserve_to(&mut self.content, at, bytes.len())?;
        self.touched.reserve(1)?;
        // From here on there is room.
        overwrite(&mut self.content, at, bytes)?;
        self.touched.push((at, bytes.len()))?;
        self.greatest = self.greatest.max(at + bytes.len());
        self.history.wrote(at, bytes);
        Ok(())
    }

    // Counts a failure.
    fn failed(&mut self) -> DiskFailed
        ensures state { memory_state self.new ≡ memory_state self.old }
        ensures size { memory_size self.new ≡ memory_size self.old }
        ensures counted { memory_failures self.new ≡ one_more (memory_failures self.old) }
        ensures room { (b c : ℕ) → HasRoom self.old b c → HasRoom self.new b c }
    {
        self.failures = self.failures.saturating_add(1);
        DiskFailed
    }
}

// Whether a place is in one of the ranges.
fn is_touched(ranges: &[(usize, usize)], place: usize) -> bool
    ensures { IsTrue result ↔ IsTouched ranges.now place }
{
    let mut rest = ranges;
    while let [(first, count), behind @ ..] = rest {
        if *first <= place && place - *first < *count {
            return true;
        }
        rest = behind;
    }
    false
}

// Puts the content's bytes where no write has reached.
fn keep_untouched(bytes: &mut [u8], content: &[u8], least: usize, touched: &[(usize, usize)])
    requires bytes { least ≤ length bytes.old }
    requires content { least ≤ length content.now }
    ensures kept { (k : ℕ) → k < least → ¬ (IsTouched touched.now k) → get_or bytes.new k 0 ≡ get_or content.now k 0 }
    ensures free { (k : ℕ) → ((least ≤ k) ⊎ IsTouched touched.now k) → get_or bytes.new k 0 ≡ get_or bytes.old k 0 }
{
    for place in 0..least {
        if !is_touched(touched, place) {
            bytes[place] = content[place];
        }
    }
}

impl Disk for MemDisk {
    ghost use Rattle.std.specs.Prelude.{⊤};
    ghost use Rattle.std.proofs.Common.{ap};
    ghost use Rattle.trace_disk.specs.MemDisk.{memory_state, memory_size, memory_failures, IsMemoryCall};

    ghost honest = { λ _. ⊤ };

    ghost size = { memory_size };

    ghost faults = { memory_failures };

    ghost state = { memory_state };

    ghost sized = { λ m honest. ap length m.content_is };

    ghost reads_now = { λ m honest. m.may_stay };

    fn len(&self) -> u64 {
        self.content.len() as u64
    }

    fn failures(&self) -> u64 {
        self.failures
    }

    fn read_at(&mut self, at: u64, into: &mut [u8]) -> Result<(), DiskFailed>
        requires { at + length into.old ≤ memory_size self.old }
        ensures never_fails { IsOk result }
        ensures bytes { into.new ≡ take (length into.old) (drop at (memory_state self.old).content) }
        ensures same { self.new ≡ self.old }
    {
        let from = at as usize;
        into.copy_from_slice(&self.content[from..from + into.len()]);
        Ok(())
    }

    fn write_at(&mut self, at: u64, bytes: &[u8]) -> Result<(), DiskFailed>
        requires { at ≤ memory_size self.old }
        ensures call { IsMemoryCall self.old self.new result
            (after_write (memory_state self.old) at bytes.now) (length bytes.now) }
        ensures size { OnOk result (memory_size self.new ≡ max (memory_size self.old) (at + length bytes.now)) }
        ensures counted { IsCounted result (memory_failures self.old) (memory_failures self.new) }
    {
        match self.try_write(at as usize, bytes) {
            Ok(()) => Ok(()),
            Err(_) => Err(self.failed()),
        }
    }

    fn cut(&mut self, len: u64) -> Result<(), DiskFailed>
        requires { len ≤ memory_size self.old }
        ensures call { IsMemoryCall self.old self.new result (after_cut (memory_state self.old) len) 0 }
        ensures size { OnOk result (memory_size self.new ≡ len) }
        ensures counted { IsCounted result (memory_failures self.old) (memory_failures self.new) }
    {
        let len = len as usize;
        self.content.truncate(len);
        self.least = self.least.min(len);
        self.history.cut_to(len);
        Ok(())
    }

    fn sync(&mut self) -> Result<(), DiskFailed>
        ensures call { IsMemoryCall self.old self.new result (after_sync (memory_state self.old)) 0 }
        ensures size { memory_size self.new ≡ memory_size self.old }
        ensures counted { IsCounted result (memory_failures self.old) (memory_failures self.new) }
    {
        self.least = self.content.len();
        self.greatest = self.content.len();
        self.touched.clear();
        self.history.synced();
        Ok(())
    }
}
