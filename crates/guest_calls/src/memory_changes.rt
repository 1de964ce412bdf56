//! Changes of a guest's memory by whole pages.

ghost use Rattle.std.specs.Prelude.{◌≡◌, ◌+◌, ◌*◌, ◌/◌, ◌^◌, ◌<◌, ◌≤◌, not, nat_lt, IsTrue};
ghost use Rattle.std.specs.Prelude.{IfOk, OnErr};
ghost use Rattle.rrv_model.specs.Memory.{all_mapped, unmapped, protected, page_bytes, page_count, pages_for};
ghost use Rattle.rrv_model.specs.CallRows.{page_limit, permissions_of, with_memory};
ghost use Rattle.guest_calls.specs.Guest.{state_of};
ghost use Rattle.guest_calls.specs.Carries.{Becomes, BecomesIf, pages_mapped};

use crate::guest::Guest;
use guest_pages::{AddressSpace, PageFault};
use rrv_model::limits::PAGE_BYTES;
use rrv_model::machine::Permissions;
use rrv_model::refusal::Memory;

/// The permissions that `prot` tells: READ 1, WRITE 2, EXEC 4. A page with W has R.
pub(crate) fn permissions_of(prot: u32) -> Permissions
    ensures { result ≡ permissions_of prot }
{
    Permissions {
        read: prot & 1 == 1 || prot & 2 == 2,
        write: prot & 2 == 2,
        execute: prot & 4 == 4,
    }
}

/// So many bytes, rounded up to pages.
pub(crate) fn pages_for(bytes: u32) -> u32
    ensures { result ≡ pages_for bytes }
{
    bytes.div_ceil(PAGE_BYTES)
}

impl Guest {
    /// Maps pages of zeros in place of what was there, unless more pages than the limit would be mapped: false.
    pub(crate) fn map_pages(
        &mut self,
        page: u32,
        count: u32,
        permissions: Permissions,
    ) -> Result<bool, Memory>
        requires low { 1 ≤ page }
        requires high { page + count ≤ 0x80000 }
        requires readable { IsTrue permissions.write → IsTrue permissions.read }
        ensures limit { IfOk result (λ fits. fits
            ≡ not (nat_lt page_limit (page_count (pages_mapped page count permissions (state_of self.old).memory)))) }
        ensures mapped { IfOk result (λ fits. BecomesIf fits
            (with_memory (pages_mapped page count permissions (state_of self.old).memory) (state_of self.old))
            self.old self.new) }
        ensures memory { OnErr result
            (page_count (pages_mapped page count permissions (state_of self.old).memory) ≤ page_limit) }
        ensures refused { OnErr result (self.new ≡ self.old) }
    {
        match self.space.map(page, count, permissions) {
            Ok(()) => {
                // the proof opens the space here: that the pages are no more than the limit is a rule of it
                let _limit = self.space.page_count();
                Ok(true)
            }
            Err(PageFault::Memory) => Err(Memory),
            Err(_) => Ok(false),
        }
    }

    /// Takes pages away.
    pub(crate) fn unmap_pages(&mut self, page: u32, count: u32)
        requires { page + count < 2 ^ 32 }
        ensures { Becomes
            (with_memory (unmapped (page * page_bytes) (count * page_bytes) (state_of self.old).memory) (state_of self.old))
            self.old self.new }
    {
        self.space.unmap(page, count);
    }

    /// Sets the permissions of pages, unless one of them isn't mapped: false.
    pub(crate) fn protect_pages(&mut self, page: u32, count: u32, permissions: Permissions) -> bool
        requires low { page + count < 2 ^ 32 }
        requires readable { IsTrue permissions.write → IsTrue permissions.read }
        ensures mapped { result ≡ all_mapped (state_of self.old).memory page count }
        ensures protected { BecomesIf result (with_memory
            (protected (page * page_bytes) (count * page_bytes) permissions (state_of self.old).memory)
            (state_of self.old)) self.old self.new }
    {
        self.space.protect(page, count, permissions).is_ok()
    }

    /// Sets the break.
    pub(crate) fn set_break(&mut self, address: u32)
        requires low { (state_of self.old).opening_break ≤ address }
        requires high { address ≤ 0x70000000 }
        ensures { Becomes (record (state_of self.old) { program_break = address }) self.old self.new }
    {
        self.program_break = address;
    }
}
