//! The address space.

ghost use Rattle.std.specs.Prelude.{◌≡◌, ◌≢◌, ℕ, ◌+◌, ◌<◌, ◌≤◌, ◌^◌, OnOk, OnErr, IfErr, IfOk, IsTrue, IsSome, IsSomeAnd, Some, None, false, ◌↔◌, true, ◌%◌, length, ◌/◌};
ghost use Rattle.std.specs.Option.{option_map};
ghost use Rattle.std.specs.Result.{IsErrOf};
ghost use Rattle.rrv_model.specs.Memory.{all_free, all_mapped, highest_free_up_to, mapped, no_memory, page_count, is_mapped, IsMemory};
ghost use Rattle.guest_pages.specs.Live.{HasNoSnapshot, added_for, freed_for, live_of};
ghost use Rattle.guest_pages.specs.Space.{memory_of, snapshots_of, Becomes, BecomesOrStays};
ghost use Rattle.guest_pages.specs.Mapping.{IsMapRefusal};
ghost use Rattle.guest_pages.specs.Snapshots.{AreChanges, IsNextPage, IsPageFrom, IsPageOf};
ghost use Rattle.guest_pages.specs.WholePages.{with_page, MayHave};

use crate::fault::PageFault;
use crate::mapping::{all_there, first_there, is_there, list_changed, same_pages, view_of};
use crate::page::{PageView, has_page_bytes};
use crate::snapshot::Snapshot;
use page_tables::PageTables;
use rrv_model::limits::MAX_PAGES;
use rrv_model::refusal::Memory;
use std::alloc::Global;
use std::marker::Model;

/// A guest's memory. Contracts see it as the memory that it stands for. Its pages and those of its snapshots are shared until one
/// is written.
#[derive(Drop)]
pub struct Space {
    pub(crate) alloc: Global,
    pub(crate) tables: PageTables,
    /// How many pages are mapped.
    pub(crate) mapped: u32,
}

impl Model for Space {
    ghost use Rattle.guest_pages.specs.Space.{SpaceValue, IsSpace};

    ghost Value = { SpaceValue };

    ghost view = { λ s. s.tables };

    ghost invariant = { λ s. IsSpace s.tables s.mapped };
}

impl Space {
    /// A space with nothing mapped and no snapshot, which takes no memory.
    pub fn new(alloc: Global) -> Space
        ensures memory { memory_of result ≡ no_memory }
        ensures snapshots { (n : ℕ) → snapshots_of result n ≡ None }
        ensures live { live_of result ≡ 0 }
    {
        Space {
            alloc,
            tables: PageTables::new(alloc),
            mapped: 0,
        }
    }

    /// How many pages there are in all: those of the space and of its live snapshots, a shared one counted once. With no snapshot
    /// they are those that are mapped. It takes no memory.
    pub fn live(&self) -> usize
        ensures count { result ≡ live_of self.now }
        ensures least { page_count (memory_of self.now) ≤ result }
        ensures alone { HasNoSnapshot self.now → result ≡ page_count (memory_of self.now) }
    {
        self.tables.all_own();
        self.tables.live()
    }

    /// How many pages are mapped. That they make up a guest's memory is told here, too.
    pub fn page_count(&self) -> u32
        ensures count { result ≡ page_count (memory_of self.now) }
        ensures is_memory { IsMemory (memory_of self.now) }
    {
        self.mapped
    }

    /// Whether two spaces are the same memory.
    pub fn same(&self, other: &Space) -> bool
        ensures { IsTrue result ↔ memory_of self.now ≡ memory_of other.now }
    {
        same_pages(&self.tables, &other.tables)
    }

    /// Whether all pages of a range are mapped.
    pub fn is_mapped(&self, page: u32, count: u32) -> bool
        requires { page + count < 2 ^ 32 }
        ensures { result ≡ all_mapped (memory_of self.now) page count }
    {
        all_there(&self.tables, page, count)
    }

    /// Whether no page of a range is mapped.
    pub fn is_free(&self, page: u32, count: u32) -> bool
        requires { page + count < 2 ^ 32 }
        ensures { result ≡ all_free (memory_of self.now) page count }
    {
        first_there(&self.tables, page, count).is_none()
    }

    /// The greatest page from 1 up to this one from which so many pages are free.
    pub fn highest_free(&self, up_to: u32, count: u32) -> Option<u32>
        requires { up_to + count < 2 ^ 32 }
        ensures { result ≡ highest_free_up_to up_to (memory_of self.now) count }
    {
        let mut page = up_to;
        while page > 0 {
            let Some(taken) = first_there(&self.tables, page, count) else {
                return Some(page);
            };
            page = taken.saturating_sub(count);
        }
        None
    }

    /// Puts a page in place of what was there.
    pub(crate) fn put_page(&mut self, number: u32, page: PageView<'_>) -> Result<(), PageFault>
        requires { MayHave number (Some page) }
        ensures set { BecomesOrStays result
            (with_page number (Some page.entry) (memory_of self.old)) self.old self.new }
        ensures refused { IfErr result (IsMapRefusal (with_page number (Some page.entry) (memory_of self.old))) }
        ensures too_many { IsErrOf result PageFault.TooManyPages → is_mapped (memory_of self.old) number ≡ false }
        ensures live { OnOk result (live_of self.new ≡ live_of self.old + added_for self.old number) }
    {
        has_page_bytes(page.bytes);
        if is_there(&self.tables, number) {
            let Ok(()) = self.tables.place(number, page.permissions, page.bytes) else {
                return Err(PageFault::Memory);
            };
            return Ok(());
        }
        if self.mapped >= MAX_PAGES {
            return Err(PageFault::TooManyPages);
        }
        let Ok(()) = self.tables.place(number, page.permissions, page.bytes) else {
            return Err(PageFault::Memory);
        };
        self.mapped += 1;
        Ok(())
    }

    /// Takes a page away, where there is one.
    pub(crate) fn remove_page(&mut self, number: u32)
        ensures removed { Becomes (with_page number None (memory_of self.old)) self.old self.new }
        ensures live { live_of self.new + freed_for self.old number ≡ live_of self.old }
    {
        // a page that isn't there is counted nowhere
        self.tables.all_own();
        if !is_there(&self.tables, number) {
            return;
        }
        self.tables.remove(number);
        self.mapped -= 1;
    }

    /// The numbers of the pages that differ from a live snapshot's in bytes, in permissions or in being mapped, rising.
    /// Refused where a growth is, which is only where some page differs.
    #[tactic(auto, using(crate::proofs::SnapshotPages::kept_there))]
    pub fn changed_since(&self, snapshot: &Snapshot) -> Result<Vec<u32>, Memory>
        requires { IsSome (snapshots_of self.now snapshot.now) }
        ensures changes { IfOk result (λ numbers. IsSomeAnd (snapshots_of self.now snapshot.now) (λ before.
            AreChanges before (memory_of self.now) numbers.items)) }
        ensures grows { OnErr result (snapshots_of self.now snapshot.now ≢ Some (memory_of self.now)) }
    {
        let numbers = list_changed(self.alloc, &self.tables, snapshot.number())?;
        Ok(numbers)
    }

    /// A page's permissions and bytes, whatever its permissions; None where it isn't mapped. It takes no memory.
    pub fn page(&self, number: u32) -> Option<PageView<'_>>
        ensures { IsPageOf (memory_of self.now) number result }
    {
        view_of(self.tables.page(number))
    }

    /// The byte at an address, whatever the permissions of its page; None where it isn't mapped. It takes no memory.
    pub fn byte(&self, address: u64) -> Option<u8>
        requires { address < 17179869184 }
        ensures { result ≡ option_map (λ c. c.byte) (memory_of self.now address) }
    {
        match self.page((address / 4096) as u32) {
            Some(view) => Some(view.bytes[(address % 4096) as usize]),
            None => None,
        }
    }

    /// The least mapped page from a number on. It takes no memory.
    pub fn next_page(&self, least: u32) -> Option<u32>
        ensures { IsNextPage (memory_of self.now) least result }
    {
        self.tables.next(least)
    }

    /// The least mapped page from a number on, with its permissions and bytes. It takes no memory.
    pub fn page_from(&self, least: u32) -> Option<(u32, PageView<'_>)>
        ensures { IsPageFrom (memory_of self.now) least result }
    {
        let number = self.next_page(least)?;
        let page = self.page(number)?;
        Some((number, page))
    }

    /// A page as a live snapshot has it, as [`Space::page`] reads it.
    #[tactic(auto, using(crate::proofs::SnapshotPages::kept_there))]
    pub fn snapshot_page(&self, snapshot: &Snapshot, number: u32) -> Option<PageView<'_>>
        requires { IsSome (snapshots_of self.now snapshot.now) }
        ensures { IsSomeAnd (snapshots_of self.now snapshot.now) (λ before. IsPageOf before number result) }
    {
        view_of(self.tables.kept_page(snapshot.number(), number))
    }

    /// The least page from a number on that a live snapshot has mapped.
    #[tactic(auto, using(crate::proofs::SnapshotPages::kept_there))]
    pub fn snapshot_next_page(&self, snapshot: &Snapshot, least: u32) -> Option<u32>
        requires { IsSome (snapshots_of self.now snapshot.now) }
        ensures { IsSomeAnd (snapshots_of self.now snapshot.now) (λ before. IsNextPage before least result) }
    {
        self.tables.kept_next(snapshot.number(), least)
    }
}
