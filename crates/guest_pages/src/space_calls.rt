//! The changes of an address space.

use crate::address_space::Space;
use crate::addressing::AddressSpace;
use crate::fault::PageFault;
use crate::mapping::{
    clear_pages, count_missing, list_not_own, protect_range, remove_range, union,
};
use crate::page::{Access, PageView};
use crate::snapshot::Snapshot;
use rrv_model::limits::MAX_PAGES;
use rrv_model::machine::Permissions;
use rrv_model::refusal::Memory;

impl AddressSpace for Space {
    ghost space = { λ s. s };

    fn map(&mut self, page: u32, count: u32, permissions: Permissions) -> Result<(), PageFault> {
        let more = count_missing(&self.tables, page, count);
        if self.mapped + more > MAX_PAGES {
            return Err(PageFault::TooManyPages);
        }
        let Ok(numbers) = list_not_own(self.alloc, &self.tables, page, count) else {
            return Err(PageFault::Memory);
        };
        let Ok(()) = self.tables.own_each(numbers.as_slice()) else {
            return Err(PageFault::Memory);
        };
        clear_pages(&mut self.tables, page, count, permissions);
        self.mapped += more;
        Ok(())
    }

    fn unmap(&mut self, page: u32, count: u32) {
        let gone = remove_range(&mut self.tables, page, count);
        self.mapped -= gone;
    }

    fn protect(
        &mut self,
        page: u32,
        count: u32,
        permissions: Permissions,
    ) -> Result<(), PageFault> {
        if !self.is_mapped(page, count) {
            return Err(PageFault::NotMapped);
        }
        protect_range(&mut self.tables, page, count, permissions);
        Ok(())
    }

    fn cover(&mut self, page: u32, permissions: Permissions) -> Result<(), PageFault> {
        // a page that isn't there is counted nowhere
        self.tables.all_own();
        if let Some(there) = self.tables.page(page) {
            let joined = union(there.permissions, permissions);
            self.tables.set_permissions(page, joined);
            return Ok(());
        }
        if self.mapped >= MAX_PAGES {
            return Err(PageFault::TooManyPages);
        }
        let Ok(()) = self.tables.place(page, permissions, &[0; 4096]) else {
            return Err(PageFault::Memory);
        };
        self.mapped += 1;
        Ok(())
    }

    fn set_page(&mut self, number: u32, page: Option<PageView<'_>>) -> Result<(), PageFault> {
        match page {
            Some(page) => self.put_page(number, page),
            None => {
                self.remove_page(number);
                Ok(())
            }
        }
    }

    #[inline(always)]
    fn store_word(&mut self, address: u32, value: u32) -> Result<(), PageFault> {
        self.put_word(address, value)
    }

    fn store_words(&mut self, places: &[u32], word: u32) -> Result<(), Memory> {
        self.own_words(places)?;
        for place in places {
            self.fill(*place, &word.to_le_bytes());
        }
        Ok(())
    }

    fn prepare(&mut self, address: u32, count: usize) -> Result<(), PageFault> {
        if !self.passes(address, count, Access::Presence) {
            return Err(PageFault::NotMapped);
        }
        if !self.passes(address, count, Access::Write) {
            return Err(PageFault::NotAllowed);
        }
        if count == 0 {
            return Ok(());
        }
        // the proof opens the space here, for what holds of its pages
        let _ = &self.tables;
        self.own_pages(address, count)
    }

    fn fill(&mut self, address: u32, bytes: &[u8]) {
        // the proof opens the space here, for what holds of its pages
        let _ = &self.tables;
        self.fill_pages(address, bytes);
    }

    fn snapshot(&mut self) -> Result<Snapshot, Memory> {
        let number = self.tables.keep()?;
        Ok(Snapshot::new(number))
    }

    #[tactic(auto, using(crate::proofs::SnapshotPages::kept_there))]
    fn drop_snapshot(&mut self, snapshot: Snapshot) {
        self.tables.release(snapshot.number());
        self.tables.all_own();
    }
}
