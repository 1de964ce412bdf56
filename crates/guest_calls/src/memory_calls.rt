//! A guest's calls that change its memory: brk, munmap, mmap and mprotect.

ghost use Rattle.std.specs.Prelude.{◌≡◌, ◌&&◌, ◌||◌, ◌==◌, ◌%◌, ◌+◌, ◌-◌, ◌^◌, ◌≤◌, [], not, nat_lt, IfSome};
ghost use Rattle.rrv_model.specs.Memory.{highest_free_up_to, page_bytes, pages_for};
ghost use Rattle.rrv_model.specs.CallRows.{argument, has_flag, brk_row, munmap_row, mmap_row, mmap_place, mprotect_row};
ghost use Rattle.guest_calls.specs.Guest.{state_of};
ghost use Rattle.guest_calls.specs.Carries.{Makes, MakesOrStays};
ghost use Rattle.guest_calls.specs.Growth.{RaisesBreak, Succeeds};

use crate::calls::{CallResult, INVALID, NO_MEMORY, failure};
use crate::guest::Guest;
use crate::memory_changes::{pages_for, permissions_of};
use rrv_model::limits::PAGE_BYTES;
use rrv_model::machine::Thread;
use rrv_model::record::CallRecord;
use std::alloc::Global;

/// READ and WRITE.
const READ_WRITE: u32 = 3;
/// The highest break.
const HIGHEST_BREAK: u32 = 0x7000_0000;
/// The pages below which mmap finds a place by itself.
const PLACES: u32 = 0x7_0000;
/// The end of the addresses that a guest may have mapped.
const ADDRESSES: u64 = 0x8000_0000;
/// The flags of mmap: FIXED maps at the address that is given.
const FIXED: u32 = 0x10;

/// Tests whether mmap takes these arguments: a length, permissions, a private mapping of no file, and for FIXED the
/// address of a page.
fn is_mapping(thread: &Thread) -> bool
    ensures { result ≡ not (argument thread.now 1 == 0 || (nat_lt 7 (argument thread.now 2)
        || (not (has_flag (argument thread.now 3) 2) || (not (has_flag (argument thread.now 3) 0x20)
        || (has_flag (argument thread.now 3) 1
        || (has_flag (argument thread.now 3) 0x10 && not (argument thread.now 0 % page_bytes == 0))))))) }
{
    let address = thread.regs.registers[10];
    let len = thread.regs.registers[11];
    let prot = thread.regs.registers[12];
    let flags = thread.regs.registers[13];
    let fixed = flags & FIXED == FIXED;
    !(len == 0
        || 7 < prot
        || flags & 2 != 2
        || flags & 0x20 != 0x20
        || flags & 1 == 1
        || (fixed && address % PAGE_BYTES != 0))
}

impl Guest {
    /// brk(a)
    pub(crate) fn brk(&mut self, alloc: Global, tid: u32, thread: &Thread) -> CallResult
        ensures { MakesOrStays (brk_row (state_of self.old) thread.now) (λ _. [])
            (RaisesBreak (state_of self.old) thread.now) tid self.old result self.new }
    {
        let address = thread.regs.registers[10];
        if address < self.opening_break || HIGHEST_BREAK < address {
            return Ok(self.answer(alloc, tid, self.program_break));
        }
        let from = pages_for(self.program_break);
        let to = pages_for(address);
        if to <= from {
            self.unmap_pages(to, from - to);
            self.set_break(address);
            return Ok(self.answer(alloc, tid, address));
        }
        if !self.space.is_free(from, to - from)
            || !self.map_pages(from, to - from, permissions_of(READ_WRITE))?
        {
            return Ok(self.answer(alloc, tid, self.program_break));
        }
        self.set_break(address);
        Ok(self.answer(alloc, tid, address))
    }

    /// munmap(a, len)
    pub(crate) fn munmap(&mut self, alloc: Global, tid: u32, thread: &Thread) -> CallRecord
        ensures makes { Makes (munmap_row (state_of self.old) thread.now) [] tid self.old result self.new }
    {
        let address = thread.regs.registers[10];
        let len = thread.regs.registers[11];
        let pages = pages_for(len);
        let end = u64::from(address) + u64::from(pages) * u64::from(PAGE_BYTES);
        if address % PAGE_BYTES != 0 || len == 0 || ADDRESSES < end {
            return self.answer(alloc, tid, failure(INVALID));
        }
        self.unmap_pages(address / PAGE_BYTES, pages);
        self.answer(alloc, tid, 0)
    }

    /// The highest range of so many pages that is free.
    fn free_place(&self, pages: u32) -> Option<u32>
        requires { pages ≤ 2 ^ 20 }
        ensures value { result ≡ highest_free_up_to (0x70000 - pages) (state_of self.now).memory pages }
        ensures within { IfSome result (λ page. (1 ≤ page) × (page + pages ≤ 0x80000)) }
    {
        self.space.highest_free(PLACES.saturating_sub(pages), pages)
    }

    /// Where mmap maps: at the address for FIXED, else in the highest range that is free.
    fn mapping_place(&self, thread: &Thread) -> Option<u32>
        ensures value { result ≡ mmap_place (state_of self.now) thread.now }
        ensures within { IfSome result (λ page. (1 ≤ page) × (page + pages_for (argument thread.now 1) ≤ 0x80000)) }
    {
        let address = thread.regs.registers[10];
        let pages = pages_for(thread.regs.registers[11]);
        if thread.regs.registers[13] & FIXED != FIXED {
            return self.free_place(pages);
        }
        let end = u64::from(address) + u64::from(pages) * u64::from(PAGE_BYTES);
        if PAGE_BYTES <= address && end <= ADDRESSES {
            Some(address / PAGE_BYTES)
        } else {
            None
        }
    }

    /// mmap(a, len, prot, flags, ..)
    pub(crate) fn mmap(&mut self, alloc: Global, tid: u32, thread: &Thread) -> CallResult
        ensures { MakesOrStays (mmap_row (state_of self.old) thread.now) (λ _. [])
            (Succeeds (mmap_row (state_of self.old) thread.now)) tid self.old result self.new }
    {
        if !is_mapping(thread) {
            return Ok(self.answer(alloc, tid, failure(INVALID)));
        }
        let Some(page) = self.mapping_place(thread) else {
            return Ok(self.answer(alloc, tid, failure(NO_MEMORY)));
        };
        let pages = pages_for(thread.regs.registers[11]);
        let permissions = permissions_of(thread.regs.registers[12]);
        if !self.map_pages(page, pages, permissions)? {
            return Ok(self.answer(alloc, tid, failure(NO_MEMORY)));
        }
        Ok(self.answer(alloc, tid, page * PAGE_BYTES))
    }

    /// mprotect(a, len, prot)
    pub(crate) fn mprotect(&mut self, alloc: Global, tid: u32, thread: &Thread) -> CallRecord
        ensures makes { Makes (mprotect_row (state_of self.old) thread.now) [] tid self.old result self.new }
    {
        let address = thread.regs.registers[10];
        let pages = pages_for(thread.regs.registers[11]);
        let prot = thread.regs.registers[12];
        if address % PAGE_BYTES != 0 || 7 < prot {
            return self.answer(alloc, tid, failure(INVALID));
        }
        if !self.protect_pages(address / PAGE_BYTES, pages, permissions_of(prot)) {
            return self.answer(alloc, tid, failure(NO_MEMORY));
        }
        self.answer(alloc, tid, 0)
    }
}
