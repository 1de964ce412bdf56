//! A copy of an address space.

ghost use Rattle.std.specs.Prelude.{◌≡◌, ℕ, None, IfOk};
ghost use Rattle.page_tables.specs.Contents.{contents_of};
ghost use Rattle.guest_pages.specs.Live.{HasNoSnapshot};
ghost use Rattle.guest_pages.specs.Space.{memory_of};

use crate::address_space::Space;
use page_tables::PageTables;
use rrv_model::refusal::Memory;
use std::alloc::{AllocError, Global};

impl Space {
    /// The same memory once more, in pages of its own and without the snapshots. Refused where a growth is.
    pub fn try_clone(&self) -> Result<Space, Memory>
        ensures memory { IfOk result (λ copy. memory_of copy ≡ memory_of self.now) }
        ensures snapshots { IfOk result HasNoSnapshot }
    {
        let tables = copy_pages(self.alloc, &self.tables)?;
        Ok(Space {
            alloc: self.alloc,
            tables,
            mapped: self.mapped,
        })
    }
}

/// The current pages of some tables once more, each its own.
fn copy_pages(alloc: Global, from: &PageTables) -> Result<PageTables, AllocError>
    ensures pages { IfOk result (λ copy. (contents_of copy).pages ≡ (contents_of from.now).pages) }
    ensures kept { IfOk result (λ copy. (i : ℕ) → (contents_of copy).kept i ≡ None) }
{
    let mut copy = PageTables::new(alloc);
    let mut least = 0;
    while let Some(number) = from.next(least) {
        if let Some(page) = from.page(number) {
            copy.place(number, page.permissions, page.bytes)?;
        }
        least = number + 1;
    }
    Ok(copy)
}
