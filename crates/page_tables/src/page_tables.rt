//! The current table, those of live snapshots, and the pool of the pages that they share.

ghost use Rattle.std.specs.Prelude.{◌≡◌, ◌≢◌, ℕ, ◌+◌, ◌<◌, ◌≤◌, OnOk, OnErr, IfOk, IfSome, IsSome, IsSomeAnd, None, true, false, length, replicate, option_copied, IsTrue, Some, ◌↔◌};
ghost use Rattle.std.specs.Int.{w8, w16, w32, to_le_bytes};
ghost use Rattle.page_tables.specs.Contents.{contents_of, page_total, ArePages};
ghost use Rattle.page_tables.specs.Changes.{IsOwn, AreOwn, AreOwned, allows, allows_read, allows_write, allows_execute, put_refusal, bytes_if, IsWritten, IsPlaced, IsRemoved, IsProtected, IsKept, IsReleased, IsNext, IsUnshared, Puts, is_listed, shown};
ghost use Rattle.page_tables.specs.Sharing.{IsTableOf, IsOwnKey, pages_in, counts_in};
ghost use Rattle.page_tables.specs.Access.{has_access};
ghost use Rattle.page_tables.specs.Table.{entry_at};
ghost use Rattle.slab.specs.Slab.{get};

use crate::entries::detach;
use crate::new_pages::{NewPage, copy_each, install, install_all, is_own, make_room_for};
use crate::pool::{
    Page, copy_bytes, lower_all, put_byte, put_bytes, put_half, put_word, raise_all,
};
use crate::snapshots::{free_number, kept_under, store, take};
use crate::table::{Entry, Table};
use page_permissions::Permissions;
use slab::Slab;
use std::alloc::{AllocError, Global};
use std::marker::Model;
use std::slice::from_ref;
use thiserror::Error;

/// A page as a reader sees it.
#[derive(Clone, Copy)]
pub struct PageView<'a> {
    /// What may be done with its bytes.
    pub permissions: Permissions,
    /// Its bytes, by their place in the page.
    pub bytes: &'a [u8; 4096],
}

/// Why a page was not written. All is then as before.
#[derive(Clone, Copy, Debug, PartialEq, Eq, Error)]
pub enum PutFault {
    /// There is no page.
    #[error("not mapped")]
    NotMapped,
    /// It may not be written.
    #[error("not allowed")]
    NotAllowed,
    /// A growth was refused.
    #[error("out of memory")]
    Memory,
}

/// What bytes are asked for.
#[derive(Clone, Copy)]
enum Access {
    Read,
    Execute,
}

#[inline(always)]
fn is_allowed(access: Access, permissions: Permissions) -> bool
    ensures { result ≡ has_access access permissions }
{
    match access {
        Access::Read => permissions.read,
        Access::Execute => permissions.execute,
    }
}

/// The pages of a guest and of its live snapshots. Page numbers lie below 0x80000. A snapshot shares its pages with the current
/// table; a shared page is copied before it is written.
pub struct PageTables {
    alloc: Global,
    pool: Slab<Page>,
    table: Table,
    kept: Vec<Option<Table>>,
}

impl Model for PageTables {
    ghost use Rattle.std.specs.Prelude.{◌≡◌};
    ghost use Rattle.slab.specs.Slab.{get};
    ghost use Rattle.page_tables.specs.Contents.{TablesValue, value_of};

    ghost Value = { TablesValue };

    ghost use Rattle.page_tables.specs.Table.{entry_at};
    ghost use Rattle.page_tables.specs.Sharing.{contents_in, AreShared};

    ghost view = { λ s. value_of (contents_in s.pool s.table s.kept.items) };

    ghost invariant = { λ s. AreShared (get s.pool) (entry_at s.table) s.kept.items };
}

// Written out: where one goes, a proof has one call, and not one for each of its parts.
impl Drop for PageTables {
    fn drop(self) {
        let PageTables {
            alloc: _,
            pool: _,
            table: _,
            kept: _,
        } = self;
    }
}

impl PageTables {
    /// No page and no snapshot, which takes no memory.
    pub fn new(alloc: Global) -> PageTables
        ensures pages { (n : ℕ) → (contents_of result).pages n ≡ None }
        ensures counts { (n : ℕ) → (contents_of result).counts n ≡ None }
        ensures kept { (i : ℕ) → (contents_of result).kept i ≡ None }
        ensures live { (contents_of result).live ≡ 0 }
    {
        PageTables {
            alloc,
            pool: Slab::new(alloc),
            table: Table::new(alloc),
            kept: Vec::new(alloc),
        }
    }

    /// How many pages there are in all, a shared one counted once. It takes no memory.
    pub fn live(&self) -> usize
        ensures { result ≡ (contents_of self.now).live }
    {
        self.pool.len()
    }

    /// A law: with no live snapshot each page is its own, and there are no others; a count stands exactly where a page does; a page
    /// has 4,096 bytes.
    pub fn all_own(&self)
        ensures own { ((i : ℕ) → (contents_of self.now).kept i ≡ None) →
            (n : ℕ) → IsSome ((contents_of self.now).pages n) → IsOwn (contents_of self.now) n }
        ensures counted { (n : ℕ) → (IsSome ((contents_of self.now).pages n) → IsSome ((contents_of self.now).counts n))
            × (IsSome ((contents_of self.now).counts n) → IsSome ((contents_of self.now).pages n)) }
        ensures least { page_total (contents_of self.now).pages ≤ (contents_of self.now).live }
        ensures live { ((i : ℕ) → (contents_of self.now).kept i ≡ None) →
            (contents_of self.now).live ≡ page_total (contents_of self.now).pages }
        ensures bytes { ArePages (contents_of self.now).pages }
        ensures kept_bytes { (i : ℕ) → IfSome ((contents_of self.now).kept i) ArePages }
    {
        let _ = &self.pool;
    }

    /// The page at a number.
    #[inline(always)]
    pub fn page(&self, number: u32) -> Option<PageView<'_>>
        ensures { shown result ≡ (contents_of self.now).pages number }
    {
        let entry = self.table.entry(number);
        if !entry.mapped {
            return None;
        }
        let page = &self.pool[entry.key as usize];
        Some(PageView {
            permissions: entry.permissions,
            bytes: &page.bytes,
        })
    }

    /// The bytes of the page at a number, where they may be read.
    #[inline(always)]
    pub fn readable(&self, number: u32) -> Option<&[u8; 4096]>
        ensures { option_copied result
            ≡ bytes_if (allows_read ((contents_of self.now).pages number)) ((contents_of self.now).pages number) }
    {
        self.allowed(number, Access::Read)
    }

    /// The bytes of the page at a number, where they may be executed.
    #[inline(always)]
    pub fn executable(&self, number: u32) -> Option<&[u8; 4096]>
        ensures { option_copied result
            ≡ bytes_if (allows_execute ((contents_of self.now).pages number)) ((contents_of self.now).pages number) }
    {
        self.allowed(number, Access::Execute)
    }

    /// The bytes of the page at a number, where its permissions allow this access.
    #[inline(always)]
    fn allowed(&self, number: u32, access: Access) -> Option<&[u8; 4096]>
        ensures { option_copied result ≡ bytes_if (allows (has_access access) ((contents_of self.now).pages number))
            ((contents_of self.now).pages number) }
    {
        let entry = self.table.entry(number);
        if !is_allowed(access, entry.permissions) {
            return None;
        }
        let page = &self.pool[entry.key as usize];
        Some(&page.bytes)
    }

    /// The least number from this one on that has a page. It takes no memory.
    pub fn next(&self, least: u32) -> Option<u32>
        ensures { IsNext (contents_of self.now).pages least result }
    {
        next_in(&self.pool, &self.table, least)
    }

    /// Whether there is a page at a number that the current table alone has: to write it takes no memory.
    pub fn is_own(&self, number: u32) -> bool
        ensures yes { result ≡ true → IsOwn (contents_of self.now) number }
        ensures no { result ≡ false → IsOwn (contents_of self.now) number → ⊥ }
    {
        is_own(&self.pool, &self.table, number)
    }

    /// Puts a page of its own at a number, in place of what was there; snapshots keep theirs. Refused where a growth is.
    pub fn place(
        &mut self,
        number: u32,
        permissions: Permissions,
        bytes: &[u8; 4096],
    ) -> Result<(), AllocError>
        requires { number < 0x80000 }
        ensures placed { OnOk result (IsPlaced number (record { permissions = permissions; bytes = bytes.now })
            (contents_of self.old) (contents_of self.new)) }
        ensures err { OnErr result (self.new ≡ self.old) }
    {
        let copy = copy_bytes(self.alloc, bytes)?;
        self.install(number, permissions, copy)
    }

    /// Makes the page at a number one of its own, by a copy where snapshots share it: to write it then takes no memory. Refused
    /// where a growth is, which is only where it is shared.
    fn unshare(&mut self, number: u32) -> Result<(), AllocError>
        requires { IsSome ((contents_of self.old).pages number) }
        ensures unshared { OnOk result (IsUnshared number (contents_of self.old) (contents_of self.new)) }
        ensures err { OnErr result (self.new ≡ self.old) }
        ensures shared { OnErr result (IsOwn (contents_of self.old) number → ⊥) }
    {
        let entry = self.table.entry(number);
        let page = &self.pool[entry.key as usize];
        if page.count == 1 {
            return Ok(());
        }
        let copy = copy_bytes(self.alloc, &page.bytes)?;
        self.install(number, entry.permissions, copy)?;
        Ok(())
    }

    /// Puts these bytes at a number as a page of its own.
    #[tactic(auto, using(crate::proofs::PlacedPages::roomy_value))]
    fn install(
        &mut self,
        number: u32,
        permissions: Permissions,
        bytes: Box<[u8; 4096]>,
    ) -> Result<(), AllocError>
        requires { number < 0x80000 }
        ensures placed { OnOk result (IsPlaced number (record { permissions = permissions; bytes = bytes.value })
            (contents_of self.old) (contents_of self.new)) }
        ensures err { OnErr result (self.new ≡ self.old) }
    {
        let page = NewPage {
            number,
            permissions,
            bytes,
        };
        make_room_for(&mut self.pool, &mut self.table, from_ref(&page))?;
        install(&mut self.pool, &mut self.table, &self.kept, page);
        Ok(())
    }

    /// Makes the pages of these numbers pages of their own, all or none: one that snapshots share is copied, and where there is none
    /// a page of zeros comes that allows nothing. To write them then takes no memory. A number may stand there twice. Refused where a
    /// growth is, which is only where some of them isn't its own.
    #[tactic(auto, using(crate::proofs::PlacedPages::roomy_value))]
    pub fn own_each(&mut self, numbers: &[u32]) -> Result<(), AllocError>
        requires { (n : ℕ) → is_listed numbers.now n ≡ true → n < 0x80000 }
        ensures owned { OnOk result (AreOwned numbers.now (contents_of self.old) (contents_of self.new)) }
        ensures err { OnErr result (self.new ≡ self.old) }
        ensures grows { OnErr result (AreOwn numbers.now (contents_of self.old) → ⊥) }
    {
        let copies = copy_each(self.alloc, &self.pool, &self.table, numbers)?;
        if copies.is_empty() {
            return Ok(());
        }
        make_room_for(&mut self.pool, &mut self.table, &copies)?;
        install_all(&mut self.pool, &mut self.table, &self.kept, copies);
        Ok(())
    }

    /// Writes a byte at a place in a page. The page is copied first where snapshots share it. Refused with
    /// NotMapped where there is no page, with NotAllowed where it may not be written, with Memory where a growth is refused.
    #[inline(always)]
    pub fn put_byte(&mut self, number: u32, at: usize, value: u8) -> Result<(), PutFault>
        requires { at + 1 ≤ 4096 }
        ensures { Puts result number at (to_le_bytes w8 value) self.old self.new }
    {
        let Some(key) = own_key(&self.pool, &self.table, number) else {
            return self.put_slowly(number, at, &value.to_le_bytes());
        };
        put_byte(&mut self.pool, key, at, value);
        Ok(())
    }

    /// Writes a half-word at a place in a page, its low byte first. The page is copied first where snapshots share it. Refused with
    /// NotMapped where there is no page, with NotAllowed where it may not be written, with Memory where a growth is refused.
    #[inline(always)]
    pub fn put_half(&mut self, number: u32, at: usize, value: u16) -> Result<(), PutFault>
        requires { at + 2 ≤ 4096 }
        ensures { Puts result number at (to_le_bytes w16 value) self.old self.new }
    {
        let Some(key) = own_key(&self.pool, &self.table, number) else {
            return self.put_slowly(number, at, &value.to_le_bytes());
        };
        put_half(&mut self.pool, key, at, value);
        Ok(())
    }

    /// Writes a word at a place in a page, its low byte first. The page is copied first where snapshots share it. Refused with
    /// NotMapped where there is no page, with NotAllowed where it may not be written, with Memory where a growth is refused.
    #[inline(always)]
    pub fn put_word(&mut self, number: u32, at: usize, value: u32) -> Result<(), PutFault>
        requires { at + 4 ≤ 4096 }
        ensures { Puts result number at (to_le_bytes w32 value) self.old self.new }
    {
        let Some(key) = own_key(&self.pool, &self.table, number) else {
            return self.put_slowly(number, at, &value.to_le_bytes());
        };
        put_word(&mut self.pool, key, at, value);
        Ok(())
    }

    /// Writes into a page that may not be written where it stands. Where snapshots share it, the copy comes first.
    #[cold]
    #[inline(never)]
    fn put_slowly(&mut self, number: u32, at: usize, bytes: &[u8]) -> Result<(), PutFault>
        requires { at + length bytes.now ≤ 4096 }
        ensures { Puts result number at bytes.now self.old self.new }
    {
        if let Some(fault) = self.refusal(number) {
            return Err(fault);
        }
        let Ok(()) = self.unshare(number) else {
            return Err(PutFault::Memory);
        };
        self.write(number, at, bytes);
        Ok(())
    }

    /// Why a page may not be written, if it may not.
    fn refusal(&self, number: u32) -> Option<PutFault>
        ensures { result ≡ put_refusal ((contents_of self.now).pages number) }
    {
        match self.page(number) {
            Some(page) if page.permissions.write => None,
            Some(_) => Some(PutFault::NotAllowed),
            None => Some(PutFault::NotMapped),
        }
    }

    /// Writes bytes from a place in a page on that no snapshot shares, whatever its permissions. It takes no memory.
    pub fn write(&mut self, number: u32, at: usize, bytes: &[u8])
        requires own { IsOwn (contents_of self.old) number }
        requires fits { at + length bytes.now ≤ 4096 }
        ensures { IsWritten number at bytes.now (contents_of self.old) (contents_of self.new) }
    {
        let entry = self.table.entry(number);
        put_bytes(&mut self.pool, entry.key as usize, at, bytes);
    }

    /// Fills a page of its own with zeros, and sets its permissions. It takes no memory.
    pub fn clear(&mut self, number: u32, permissions: Permissions)
        requires { IsOwn (contents_of self.old) number }
        ensures { IsPlaced number (record { permissions = permissions; bytes = replicate 4096 0 })
            (contents_of self.old) (contents_of self.new) }
    {
        self.all_own();
        self.write(number, 0, &[0; 4096]);
        self.set_permissions(number, permissions);
    }

    /// Sets the permissions of the page at a number, where there is one; snapshots keep theirs. It takes no memory.
    pub fn set_permissions(&mut self, number: u32, permissions: Permissions)
        ensures { IsProtected number permissions (contents_of self.old) (contents_of self.new) }
    {
        let entry = self.table.entry(number);
        if !entry.mapped {
            return;
        }
        let key = entry.key;
        self.table.set(
            number,
            Entry {
                key,
                mapped: true,
                permissions,
            },
        );
    }

    /// Whether two guests have the same page at a number, or neither has one.
    pub fn same_page(&self, other: &PageTables, number: u32) -> bool
        ensures same { result ≡ true → (contents_of self.now).pages number ≡ (contents_of other.now).pages number }
        ensures differ { result ≡ false → (contents_of self.now).pages number ≢ (contents_of other.now).pages number }
    {
        same_view(self.page(number), other.page(number))
    }

    /// Whether a snapshot has the same page at a number, or neither has one. The bytes of a page that they share are not compared.
    #[tactic(auto, using(crate::proofs::Values::slot_there, crate::proofs::Values::slot_table))]
    pub fn same_as_kept(&self, snapshot: usize, number: u32) -> bool
        requires { IsSome ((contents_of self.now).kept snapshot) }
        ensures same { result ≡ true → IsSomeAnd ((contents_of self.now).kept snapshot)
            (λ pages. (contents_of self.now).pages number ≡ pages number) }
        ensures differ { result ≡ false → IsSomeAnd ((contents_of self.now).kept snapshot)
            (λ pages. (contents_of self.now).pages number ≢ pages number) }
    {
        same_in(
            &self.pool,
            &self.table,
            kept_under(&self.kept, snapshot),
            number,
        )
    }

    /// Takes the page at a number out of the current table, where there is one; snapshots keep theirs. It takes no memory.
    pub fn remove(&mut self, number: u32)
        ensures { IsRemoved number (contents_of self.old) (contents_of self.new) }
    {
        detach(&mut self.pool, &mut self.table, number);
    }

    /// Keeps the current pages as a snapshot, under the least number that none has; each page is then shared. Refused where a
    /// growth is.
    pub fn keep(&mut self) -> Result<usize, AllocError>
        ensures kept { IfOk result (λ number. IsKept number (contents_of self.old) (contents_of self.new)) }
        ensures err { OnErr result (self.new ≡ self.old) }
    {
        if self.kept.len() >= 0xFFFF_FFFD {
            return Err(AllocError);
        }
        let copy = self.table.copy(self.alloc)?;
        let number = free_number(&self.kept);
        store(&mut self.kept, number, copy)?;
        raise_all(&mut self.pool, &self.table);
        Ok(number)
    }

    /// Lets a snapshot go. It takes no memory.
    #[tactic(auto, using(crate::proofs::Values::slot_there, crate::proofs::Values::slot_table))]
    pub fn release(&mut self, number: usize)
        requires { IsSome ((contents_of self.old).kept number) }
        ensures { IsReleased number (contents_of self.old) (contents_of self.new) }
    {
        let table = take(&mut self.kept, number);
        lower_all(&mut self.pool, &table);
    }

    /// The page that a snapshot has at a number.
    #[tactic(auto, using(crate::proofs::Values::slot_there, crate::proofs::Values::slot_table))]
    pub fn kept_page(&self, snapshot: usize, number: u32) -> Option<PageView<'_>>
        requires { IsSome ((contents_of self.now).kept snapshot) }
        ensures { IsSomeAnd ((contents_of self.now).kept snapshot) (λ pages. shown result ≡ pages number) }
    {
        view_in(&self.pool, kept_under(&self.kept, snapshot), number)
    }

    /// The least number from this one on at which a snapshot has a page. It takes no memory.
    #[tactic(auto, using(crate::proofs::Values::slot_there, crate::proofs::Values::slot_table))]
    pub fn kept_next(&self, snapshot: usize, least: u32) -> Option<u32>
        requires { IsSome ((contents_of self.now).kept snapshot) }
        ensures { IsSomeAnd ((contents_of self.now).kept snapshot) (λ pages. IsNext pages least result) }
    {
        next_in(&self.pool, kept_under(&self.kept, snapshot), least)
    }
}

/// The key of the page at a number that may be written where it stands: no other table has it.
#[inline(always)]
fn own_key(pool: &Slab<Page>, table: &Table, number: u32) -> Option<usize>
    requires { IsTableOf (get pool.now) (entry_at table.now) }
    ensures own { IfSome result (IsOwnKey (get pool.now) (entry_at table.now) number) }
    ensures none { result ≡ None → (entry_at table.now number).permissions.write ≡ true →
        counts_in (get pool.now) (entry_at table.now) number ≢ Some 1 }
{
    let entry = table.entry(number);
    if !entry.permissions.write {
        return None;
    }
    let page = &pool[entry.key as usize];
    if page.count != 1 {
        return None;
    }
    Some(entry.key as usize)
}

/// The page that a table has at a number.
fn view_in<'a>(pool: &'a Slab<Page>, table: &Table, number: u32) -> Option<PageView<'a>>
    requires { IsTableOf (get pool.now) (entry_at table.now) }
    ensures { shown result ≡ pages_in (get pool.now) (entry_at table.now) number }
{
    let entry = table.entry(number);
    if !entry.mapped {
        return None;
    }
    let page = &pool[entry.key as usize];
    Some(PageView {
        permissions: entry.permissions,
        bytes: &page.bytes,
    })
}

/// The least number from this one on at which a table has a page. The pool is for the proof alone.
fn next_in(pool: &Slab<Page>, table: &Table, least: u32) -> Option<u32>
    requires { IsTableOf (get pool.now) (entry_at table.now) }
    ensures { IsNext (pages_in (get pool.now) (entry_at table.now)) least result }
{
    let _ = pool;
    let number = table.next_or_end(least);
    if number < 0x80000 { Some(number) } else { None }
}

/// Whether two tables have the same page at a number, or neither has one. The bytes of a page that they share are not compared.
fn same_in(pool: &Slab<Page>, table: &Table, other: &Table, number: u32) -> bool
    requires table { IsTableOf (get pool.now) (entry_at table.now) }
    requires other { IsTableOf (get pool.now) (entry_at other.now) }
    ensures same { result ≡ true →
        pages_in (get pool.now) (entry_at table.now) number ≡ pages_in (get pool.now) (entry_at other.now) number }
    ensures differ { result ≡ false →
        pages_in (get pool.now) (entry_at table.now) number ≢ pages_in (get pool.now) (entry_at other.now) number }
{
    if table.entry(number) == other.entry(number) {
        return true;
    }
    same_view(view_in(pool, table, number), view_in(pool, other, number))
}

/// Whether two readers see the same.
fn same_view(view: Option<PageView<'_>>, other: Option<PageView<'_>>) -> bool
    ensures same { result ≡ true → shown view.entry ≡ shown other.entry }
    ensures differ { result ≡ false → shown view.entry ≢ shown other.entry }
{
    let Some(view) = view else {
        return other.is_none();
    };
    let Some(other) = other else {
        return false;
    };
    view.permissions == other.permissions && view.bytes.as_slice() == other.bytes.as_slice()
}
