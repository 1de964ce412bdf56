//! Loads and stores of an address space.

ghost use Rattle.std.specs.Prelude.{◌≡◌, ℕ, ◌+◌, ◌<◌, ◌≤◌, ◌^◌, OnOk, OnErr, IfErr, IsTrue, IsSome, None, true, false, length, slice_index, ◌%◌, ◌/◌, ◌*◌};
ghost use Rattle.std.specs.Int.{w8, w16, w32, to_le_bytes};
ghost use Rattle.rrv_model.specs.Memory.{byte_or_zero, bytes_at, page_bytes, readable, writable, all_cells};
ghost use Rattle.page_tables.specs.Contents.{contents_of};
ghost use Rattle.page_tables.specs.Changes.{IsOwn};
ghost use Rattle.guest_pages.specs.Live.{Fills, Prepares, StoresBytes};
ghost use Rattle.guest_pages.specs.Space.{memory_of, snapshots_of, fetched_word, loaded_byte, loaded_half, loaded_word, cell_byte, page_at, page_passes, test_of, present, CanFill, IsLoadRefusal};

use crate::address_space::Space;
use crate::addressing::AddressSpace;
use crate::fault::PageFault;
use crate::mapping::list_not_own;
use crate::page::{Access, allows, copy_bytes, half_at, word_at};

impl Space {
    /// Whether all bytes of a range may be read.
    pub fn is_readable(&self, address: u32, count: u32) -> bool
        ensures { result ≡ readable (memory_of self.now) address count }
    {
        self.passes(address, count as usize, Access::Read)
    }

    /// Whether all bytes of a range may be written.
    pub fn is_writable(&self, address: u32, count: u32) -> bool
        ensures { result ≡ writable (memory_of self.now) address count }
    {
        self.passes(address, count as usize, Access::Write)
    }

    /// The word of code at an address; None where a byte of it isn't there or may not be executed.
    #[inline(always)]
    #[tactic(auto, using(crate::proofs::Cells::executes_in_page, crate::proofs::Cells::run_in_page))]
    pub fn fetch(&self, address: u32) -> Option<u32>
        ensures { result ≡ fetched_word (memory_of self.now) address }
    {
        let at = (address % 4096) as usize;
        if at > 4092 {
            return self.fetch_across(address);
        }
        let bytes = self.tables.executable(address / 4096)?;
        Some(word_at(bytes, at))
    }

    /// The byte at an address; None where it isn't there or may not be read.
    #[inline(always)]
    #[tactic(auto, using(crate::proofs::Cells::reads_in_page, crate::proofs::Cells::run_in_page))]
    pub fn load_byte(&self, address: u32) -> Option<u8>
        ensures { result ≡ loaded_byte (memory_of self.now) address }
    {
        let at = (address % 4096) as usize;
        let bytes = self.tables.readable(address / 4096)?;
        Some(bytes[at])
    }

    /// The half-word at an address, its low byte first.
    #[inline(always)]
    #[tactic(auto, using(crate::proofs::Cells::reads_in_page, crate::proofs::Cells::run_in_page))]
    pub fn load_half(&self, address: u32) -> Option<u16>
        ensures { result ≡ loaded_half (memory_of self.now) address }
    {
        let at = (address % 4096) as usize;
        if at > 4094 {
            return self.load_half_across(address);
        }
        let bytes = self.tables.readable(address / 4096)?;
        Some(half_at(bytes, at))
    }

    /// The word at an address, its low byte first.
    #[inline(always)]
    #[tactic(auto, using(crate::proofs::Cells::reads_in_page, crate::proofs::Cells::run_in_page))]
    pub fn load_word(&self, address: u32) -> Option<u32>
        ensures { result ≡ loaded_word (memory_of self.now) address }
    {
        let at = (address % 4096) as usize;
        if at > 4092 {
            return self.load_word_across(address);
        }
        let bytes = self.tables.readable(address / 4096)?;
        Some(word_at(bytes, at))
    }

    /// Loads bytes: all or none. Refused with NotMapped where any byte isn't there, else with NotAllowed where any may not
    /// be read.
    #[inline(never)]
    pub fn load(&self, address: u32, into: &mut [u8]) -> Result<(), PageFault>
        ensures allowed { OnOk result (IsTrue (readable (memory_of self.now) address (length into.old))) }
        ensures loaded { OnOk result (into.new ≡ bytes_at (memory_of self.now) address (length into.old)) }
        ensures refused { IfErr result (IsLoadRefusal (memory_of self.now) address (length into.old)) }
        ensures err { OnErr result (into.new ≡ into.old) }
    {
        if !self.passes(address, into.len(), Access::Presence) {
            return Err(PageFault::NotMapped);
        }
        if !self.passes(address, into.len(), Access::Read) {
            return Err(PageFault::NotAllowed);
        }
        // the proof opens the space here, for what holds of its pages
        let _ = &self.tables;
        self.load_pages(address, into);
        Ok(())
    }

    fn load_pages(&self, address: u32, into: &mut [u8])
        requires there { IsTrue (present (memory_of self.now) address (length into.old)) }
        requires low { address + length into.old ≤ 2 ^ 32 }
        ensures { into.new ≡ bytes_at (memory_of self.now) address (length into.old) }
    {
        let mut done = 0;
        while done < into.len() {
            let at = u64::from(address) + done as u64;
            let room = 4096 - (at % 4096) as usize;
            let end = done + room.min(into.len() - done);
            self.load_page(at, &mut into[done..end]);
            done = end;
        }
    }

    fn load_page(&self, address: u64, into: &mut [u8])
        requires low { address < 2 ^ 32 }
        requires there { IsSome (memory_of self.now address) }
        requires fits { address % 4096 + length into.old ≤ 4096 }
        ensures { (k : ℕ) → k < length into.old → slice_index into.new k
            ≡ byte_or_zero (memory_of self.now (address + k)) }
    {
        let page = self.tables.page((address / 4096) as u32).unwrap();
        copy_bytes(page.bytes, (address % 4096) as usize, into);
    }

    /// The byte at an address, if it is there and its page passes.
    #[inline(always)]
    #[tactic(auto, unfolding(crate::specs::Space::memory_in))]
    fn byte_if(&self, address: u64, access: Access) -> Option<u8>
        requires { address < 2 ^ 33 }
        ensures { result ≡ cell_byte (test_of access) (memory_of self.now address) }
    {
        let page = self.tables.page((address / 4096) as u32)?;
        if !allows(page, access) {
            return None;
        }
        Some(page.bytes[(address % 4096) as usize])
    }

    #[cold]
    #[inline(never)]
    #[tactic(auto, unfolding(rrv_model::specs::Memory::all_cells, rrv_model::specs::Memory::bytes_at))]
    fn fetch_across(&self, address: u32) -> Option<u32>
        ensures { result ≡ fetched_word (memory_of self.now) address }
    {
        let start = u64::from(address);
        let first = self.byte_if(start, Access::Execute)?;
        let second = self.byte_if(start + 1, Access::Execute)?;
        let third = self.byte_if(start + 2, Access::Execute)?;
        let fourth = self.byte_if(start + 3, Access::Execute)?;
        Some(u32::from_le_bytes([first, second, third, fourth]))
    }

    #[cold]
    #[inline(never)]
    #[tactic(auto, unfolding(rrv_model::specs::Memory::all_cells, rrv_model::specs::Memory::bytes_at))]
    fn load_half_across(&self, address: u32) -> Option<u16>
        ensures { result ≡ loaded_half (memory_of self.now) address }
    {
        let start = u64::from(address);
        let first = self.byte_if(start, Access::Read)?;
        let second = self.byte_if(start + 1, Access::Read)?;
        Some(u16::from_le_bytes([first, second]))
    }

    #[cold]
    #[inline(never)]
    #[tactic(auto, unfolding(rrv_model::specs::Memory::all_cells, rrv_model::specs::Memory::bytes_at))]
    fn load_word_across(&self, address: u32) -> Option<u32>
        ensures { result ≡ loaded_word (memory_of self.now) address }
    {
        let start = u64::from(address);
        let first = self.byte_if(start, Access::Read)?;
        let second = self.byte_if(start + 1, Access::Read)?;
        let third = self.byte_if(start + 2, Access::Read)?;
        let fourth = self.byte_if(start + 3, Access::Read)?;
        Some(u32::from_le_bytes([first, second, third, fourth]))
    }

    /// Stores a byte. Refused with NotMapped where it isn't there, else with NotAllowed where it may not be written.
    #[inline(always)]
    pub fn store_byte(&mut self, address: u32, value: u8) -> Result<(), PageFault>
        ensures { StoresBytes result address (to_le_bytes w8 value) self.old self.new }
    {
        self.tables
            .put_byte(address / 4096, (address % 4096) as usize, value)?;
        Ok(())
    }

    /// Stores a half-word, its low byte first: both bytes or none, refused as [`Space::store`] is.
    #[inline(always)]
    pub fn store_half(&mut self, address: u32, value: u16) -> Result<(), PageFault>
        ensures { StoresBytes result address (to_le_bytes w16 value) self.old self.new }
    {
        let at = (address % 4096) as usize;
        if at > 4094 {
            return self.store(address, &value.to_le_bytes());
        }
        self.tables.put_half(address / 4096, at, value)?;
        Ok(())
    }

    /// Stores a word, its low byte first: all bytes or none, refused as [`Space::store`] is.
    #[inline(always)]
    pub(crate) fn put_word(&mut self, address: u32, value: u32) -> Result<(), PageFault>
        ensures { StoresBytes result address (to_le_bytes w32 value) self.old self.new }
    {
        let at = (address % 4096) as usize;
        if at > 4092 {
            return self.store(address, &value.to_le_bytes());
        }
        self.tables.put_word(address / 4096, at, value)?;
        Ok(())
    }

    /// Stores bytes: all or none. Refused with NotMapped where any byte isn't there, else with NotAllowed where any may not
    /// be written. To store no byte is never refused.
    #[inline(never)]
    pub fn store(&mut self, address: u32, bytes: &[u8]) -> Result<(), PageFault>
        ensures stores { StoresBytes result address bytes.now self.old self.new }
        ensures some { OnErr result (1 ≤ length bytes.now) }
    {
        self.prepare(address, bytes.len())?;
        self.fill(address, bytes);
        Ok(())
    }

    /// Makes the pages of some bytes that are there the space's own, all or none.
    pub(crate) fn own_pages(&mut self, address: u32, count: usize) -> Result<(), PageFault>
        requires some { 1 ≤ count }
        requires low { address + count ≤ 2 ^ 32 }
        requires there { IsTrue (present (memory_of self.old) address count) }
        ensures prepared { Prepares result address count self.old self.new }
        ensures refused { IfErr result (λ fault. fault ≡ PageFault.Memory) }
    {
        let first = address / 4096;
        let last = ((u64::from(address) + count as u64 - 1) / 4096) as u32;
        let Ok(numbers) = list_not_own(self.alloc, &self.tables, first, last - first + 1) else {
            return Err(PageFault::Memory);
        };
        let Ok(()) = self.tables.own_each(numbers.as_slice()) else {
            return Err(PageFault::Memory);
        };
        Ok(())
    }

    /// Writes bytes that are there into a space with no snapshot, whatever their permissions. It takes no memory.
    pub fn fill_unshared(&mut self, address: u32, bytes: &[u8])
        requires there { IsTrue (present (memory_of self.old) address (length bytes.now)) }
        requires alone { (n : ℕ) → snapshots_of self.old n ≡ None }
        ensures { Fills address bytes.now self.old self.new }
    {
        self.tables.all_own();
        self.fill_pages(address, bytes);
    }

    pub(crate) fn fill_pages(&mut self, address: u32, bytes: &[u8])
        requires fill { CanFill self.old address (length bytes.now) }
        requires low { address + length bytes.now ≤ 2 ^ 32 }
        ensures { Fills address bytes.now self.old self.new }
    {
        let mut at = u64::from(address);
        let mut rest = bytes;
        while !rest.is_empty() {
            let room = 4096 - (at % 4096) as usize;
            let (part, others) = rest.split_at(room.min(rest.len()));
            self.fill_page(at, part);
            at += part.len() as u64;
            rest = others;
        }
    }

    fn fill_page(&mut self, address: u64, bytes: &[u8])
        requires low { address < 2 ^ 32 }
        requires own { IsOwn (contents_of self.old) (address / page_bytes) }
        requires fits { address % 4096 + length bytes.now ≤ 4096 }
        ensures { Fills address bytes.now self.old self.new }
    {
        self.tables
            .write((address / 4096) as u32, (address % 4096) as usize, bytes);
    }

    /// Whether all bytes of a range pass.
    pub(crate) fn passes(&self, address: u32, count: usize, access: Access) -> bool
        ensures { result ≡ all_cells (test_of access) (memory_of self.now) address count }
    {
        let Ok(count) = u32::try_from(count) else {
            // the proof opens the space here, for what holds of its pages
            let _ = &self.tables;
            return false;
        };
        if count == 0 {
            return true;
        }
        let last = (u64::from(address) + u64::from(count) - 1) / 4096;
        self.pages_pass(address / 4096, last as u32, access)
    }

    fn pages_pass(&self, first: u32, last: u32, access: Access) -> bool
        requires { last < 2 ^ 21 }
        ensures all { result ≡ true → (n : ℕ) → first ≤ n → n ≤ last →
            page_passes (test_of access) (page_at (contents_of self.now).pages n) ≡ true }
        ensures one { result ≡ false → (n : ℕ) × (first ≤ n) × (n ≤ last)
            × (page_passes (test_of access) (page_at (contents_of self.now).pages n) ≡ false) }
    {
        for number in first..last + 1 {
            if !self.page_passes(number, access) {
                return false;
            }
        }
        true
    }

    fn page_passes(&self, number: u32, access: Access) -> bool
        ensures { result ≡ page_passes (test_of access) (page_at (contents_of self.now).pages number) }
    {
        match self.tables.page(number) {
            Some(page) => allows(page, access),
            None => false,
        }
    }
}
