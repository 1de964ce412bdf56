//! Pages that come into a table. All copies are made before the first takes its place, so that a growth that is refused changes nothing.

ghost use Rattle.std.specs.Prelude.{◌≡◌, ◌≢◌, ℕ, ◌+◌, ◌<◌, ◌≤◌, ◌^◌, IfOk, OnOk, OnErr, Some, true, false, List, [], length};
ghost use Rattle.std.specs.List.{All};
ghost use Rattle.slab.specs.Slab.{get, slab_len};
ghost use Rattle.page_tables.specs.Changes.{IsPlaced, IsRoomyFor, KeepsPages, AreOwned, page_or_zeros};
ghost use Rattle.page_tables.specs.NewPages.{new_value, AreUnshared, AreCopies};
ghost use Rattle.page_tables.specs.Sharing.{IsTableOf, AreShared, pages_in, counts_in, contents_in};
ghost use Rattle.page_tables.specs.Table.{entry_at, has_leaf, Extends};

use crate::entries::{attach, detach};
use crate::pool::{Page, copy_bytes, reserve_pages};
use crate::table::{NO_PAGE, Table};
use page_permissions::Permissions;
use slab::Slab;
use std::alloc::{AllocError, Global};

/// A page that is to come into a table.
#[derive(Drop)]
pub struct NewPage {
    /// Its number.
    pub number: u32,
    /// What may be done with its bytes.
    pub permissions: Permissions,
    /// Its bytes, by their place in the page.
    pub bytes: Box<[u8; 4096]>,
}

/// What a table lacks so that the pages of these numbers are its own: copies of shared pages, and pages of zeros where there is none.
/// Where it lacks nothing this takes no memory. Refused where a growth is.
pub(crate) fn copy_each(
    alloc: Global,
    pool: &Slab<Page>,
    table: &Table,
    numbers: &[u32],
) -> Result<Vec<NewPage>, AllocError>
    requires there { IsTableOf (get pool.now) (entry_at table.now) }
    ensures copies { IfOk result (λ copies. AreCopies numbers.now
        (pages_in (get pool.now) (entry_at table.now)) (counts_in (get pool.now) (entry_at table.now)) copies.items) }
    ensures none { IfOk result (λ copies.
        AreUnshared numbers.now (counts_in (get pool.now) (entry_at table.now)) → copies.items ≡ []) }
    ensures grows { OnErr result
        (AreUnshared numbers.now (counts_in (get pool.now) (entry_at table.now)) → ⊥) }
{
    let mut copies = Vec::new(alloc);
    for number in numbers {
        if is_own(pool, table, *number) {
            continue;
        }
        let copy = copy_page(alloc, pool, table, *number)?;
        copies.push(copy)?;
    }
    Ok(copies)
}

/// Whether there is a page at a number, which one table alone has.
pub(crate) fn is_own(pool: &Slab<Page>, table: &Table, number: u32) -> bool
    requires { IsTableOf (get pool.now) (entry_at table.now) }
    ensures own { result ≡ true → counts_in (get pool.now) (entry_at table.now) number ≡ Some 1 }
    ensures shared { result ≡ false → counts_in (get pool.now) (entry_at table.now) number ≢ Some 1 }
{
    let entry = table.entry(number);
    if !entry.mapped {
        return false;
    }
    let page = &pool[entry.key as usize];
    page.count == 1
}

/// A copy of the page at a number, or where there is none a page of zeros that allows nothing.
fn copy_page(
    alloc: Global,
    pool: &Slab<Page>,
    table: &Table,
    number: u32,
) -> Result<NewPage, AllocError>
    requires { IsTableOf (get pool.now) (entry_at table.now) }
    ensures number { IfOk result (λ page. page.number ≡ number) }
    ensures value { IfOk result (λ page.
        new_value page ≡ page_or_zeros (pages_in (get pool.now) (entry_at table.now) number)) }
{
    let entry = table.entry(number);
    if !entry.mapped {
        let bytes = copy_bytes(alloc, &[0; 4096])?;
        return Ok(NewPage {
            number,
            permissions: NO_PAGE.permissions,
            bytes,
        });
    }
    let page = &pool[entry.key as usize];
    let bytes = copy_bytes(alloc, &page.bytes)?;
    Ok(NewPage {
        number,
        permissions: entry.permissions,
        bytes,
    })
}

/// Makes room for pages in the pool and in a table, which changes none that are there. Refused where a growth is.
pub(crate) fn make_room_for(
    pool: &mut Slab<Page>,
    table: &mut Table,
    pages: &[NewPage],
) -> Result<(), AllocError>
    requires { All (λ p. p.number < 0x80000) pages.now }
    ensures extends { Extends table.old table.new }
    ensures keeps { KeepsPages pool.old pool.new }
    ensures leaves { OnOk result (All (λ p. has_leaf table.new p.number ≡ true) pages.now) }
    ensures roomy { OnOk result (IsRoomyFor pool.new (length pages.now)) }
{
    for page in pages {
        table.make_room(page.number)?;
    }
    reserve_pages(pool, pages.len())
}

/// Puts a page into the current table, in place of what was there. There is room for it. The tables of the snapshots are for the
/// proof alone.
pub(crate) fn install(
    pool: &mut Slab<Page>,
    table: &mut Table,
    kept: &Vec<Option<Table>>,
    page: NewPage,
)
    requires low { page.number < 0x80000 }
    requires shared { AreShared (get pool.old) (entry_at table.old) kept.now.items }
    requires roomy { IsRoomyFor pool.old 1 }
    requires leaf { has_leaf table.old page.number ≡ true }
    ensures shared { AreShared (get pool.new) (entry_at table.new) kept.now.items }
    ensures placed { IsPlaced page.number (new_value page)
        (contents_in pool.old table.old kept.now.items) (contents_in pool.new table.new kept.now.items) }
    ensures len { slab_len pool.new ≤ slab_len pool.old + 1 }
    ensures room { pool.new.capacity ≡ pool.old.capacity }
    ensures leaves { (n : ℕ) → has_leaf table.new n ≡ has_leaf table.old n }
{
    let _ = kept;
    let NewPage {
        number,
        permissions,
        bytes,
    } = page;
    detach(pool, table, number);
    attach(pool, table, number, permissions, bytes);
}

/// Puts pages into the current table, each in place of what was there. There is room for them. The tables of the snapshots are for
/// the proof alone.
pub(crate) fn install_all(
    pool: &mut Slab<Page>,
    table: &mut Table,
    kept: &Vec<Option<Table>>,
    mut pages: Vec<NewPage>,
)
    requires shared { AreShared (get pool.old) (entry_at table.old) kept.now.items }
    requires roomy { IsRoomyFor pool.old (length pages.items) }
    requires low { All (λ p. p.number < 0x80000) pages.items }
    requires leaves { All (λ p. has_leaf table.old p.number ≡ true) pages.items }
    ensures shared { AreShared (get pool.new) (entry_at table.new) kept.now.items }
    ensures owned { (numbers : List ℕ) → AreCopies numbers
        (pages_in (get pool.old) (entry_at table.old)) (counts_in (get pool.old) (entry_at table.old)) pages.items
        → AreOwned numbers
        (contents_in pool.old table.old kept.now.items) (contents_in pool.new table.new kept.now.items) }
{
    while let Some(page) = pages.pop() {
        install(pool, table, kept, page);
    }
}
