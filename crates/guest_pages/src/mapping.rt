//! The steps of a mapping, over the tables of a space.

ghost use Rattle.std.specs.Prelude.{◌≡◌, ℕ, ◌+◌, ◌<◌, ◌≤◌, ◌^◌, IfOk, OnErr, IfSome, IfNone, Some, None, IsSomeAnd, IsSome, is_some, true, false, length, ◌≢◌};
ghost use Rattle.std.specs.Option.{option_map};
ghost use Rattle.rrv_model.specs.Memory.{all_mapped, is_mapped, page_count};
ghost use Rattle.page_tables.specs.Contents.{contents_of};
ghost use Rattle.page_tables.specs.Changes.{IsOwn, is_listed, shown, with_permissions};
ghost use Rattle.guest_pages.specs.Live.{freed_in, live_of};
ghost use Rattle.guest_pages.specs.Space.{memory_of, AreEachPage};
ghost use Rattle.guest_pages.specs.Mapping.{missing, clear_page, union, AreOwnIn, KeepsOutside, SameAt, ListsOthers, SkipsTo};
ghost use Rattle.guest_pages.specs.Stores.{word_pages};
ghost use Rattle.guest_pages.specs.WholePages.{page_of};

use crate::page::PageView;
use page_tables::PageTables;
use rrv_model::machine::Permissions;
use std::alloc::{AllocError, Global};

/// How many of some pages aren't there. Where some aren't, not all of them are the current table's own.
#[tactic(auto, using(crate::proofs::MissingPages::missing_none))]
pub(crate) fn count_missing(tables: &PageTables, first: u32, count: u32) -> u32
    requires { first + count < 2 ^ 32 }
    ensures count { result ≡ length (missing (contents_of tables.now).pages first count) }
    ensures few { result ≤ count }
    ensures grows { 1 ≤ result → AreOwnIn tables.now first count → ⊥ }
{
    tables.all_own();
    let mut missing = 0;
    for number in first..first + count {
        if is_there(tables, number) {
            continue;
        }
        missing += 1;
    }
    missing
}

/// Whether there is a page at a number.
pub(crate) fn is_there(tables: &PageTables, number: u32) -> bool
    ensures { result ≡ is_some ((contents_of tables.now).pages number) }
{
    tables.page(number).is_some()
}

/// The numbers of the pages of a range that aren't the current table's own. It takes no memory where all are.
pub(crate) fn list_not_own(
    alloc: Global,
    tables: &PageTables,
    first: u32,
    count: u32,
) -> Result<Vec<u32>, AllocError>
    requires { first + count < 2 ^ 32 }
    ensures from { IfOk result (λ numbers. (q : ℕ) → is_listed numbers.items q ≡ true → first ≤ q) }
    ensures to { IfOk result (λ numbers. (q : ℕ) → is_listed numbers.items q ≡ true → q < first + count) }
    ensures others { IfOk result (λ numbers. (q : ℕ) → first ≤ q → q < first + count →
        is_listed numbers.items q ≡ false → IsOwn (contents_of tables.now) q) }
    ensures grows { OnErr result (AreOwnIn tables.now first count → ⊥) }
{
    let mut numbers = Vec::new(alloc);
    for number in first..first + count {
        if tables.is_own(number) {
            continue;
        }
        numbers.push(number)?;
    }
    Ok(numbers)
}

/// The pages that words at some places lie in, which may be several times the same. It takes no memory where there is no place.
pub(crate) fn list_word_pages(alloc: Global, places: &[u32]) -> Result<Vec<u32>, AllocError>
    ensures listed { IfOk result (λ numbers. numbers.items ≡ word_pages places.now) }
    ensures some { OnErr result (1 ≤ length places.now) }
{
    let mut numbers = Vec::new(alloc);
    for place in places {
        let last = (u64::from(*place) + 3) / 4096;
        numbers.push(*place / 4096)?;
        numbers.push(last as u32)?;
    }
    Ok(numbers)
}

/// Fills the pages of a range, which are the current table's own, with zeros, and sets their permissions.
#[tactic(auto, using(crate::proofs::Live::cleared_live))]
pub(crate) fn clear_pages(tables: &mut PageTables, first: u32, count: u32, permissions: Permissions)
    requires low { first + count < 2 ^ 32 }
    requires own { AreOwnIn tables.old first count }
    ensures cleared { (q : ℕ) → first ≤ q → q < first + count →
        (contents_of tables.new).pages q ≡ Some (clear_page permissions) }
    ensures others { KeepsOutside first count tables.old tables.new }
    ensures live { live_of tables.new ≡ live_of tables.old }
{
    for number in first..first + count {
        tables.clear(number, permissions);
    }
}

/// What either allows.
pub(crate) fn union(first: Permissions, second: Permissions) -> Permissions
    ensures { result ≡ union first second }
{
    Permissions {
        read: first.read || second.read,
        write: first.write || second.write,
        execute: first.execute || second.execute,
    }
}

/// Takes the pages of a range away, and answers how many there were.
pub(crate) fn remove_range(tables: &mut PageTables, first: u32, count: u32) -> u32
    requires low { first + count < 2 ^ 32 }
    requires each { AreEachPage (contents_of tables.old).pages }
    ensures removed { (q : ℕ) → first ≤ q → q < first + count → (contents_of tables.new).pages q ≡ None }
    ensures others { KeepsOutside first count tables.old tables.new }
    ensures count { page_count (memory_of tables.new) + result ≡ page_count (memory_of tables.old) }
    ensures live { live_of tables.new + freed_in tables.old first count ≡ live_of tables.old }
{
    // a page that isn't there is counted nowhere
    tables.all_own();
    let mut gone = 0;
    for number in first..first + count {
        if !is_there(tables, number) {
            continue;
        }
        tables.remove(number);
        gone += 1;
    }
    gone
}

/// Sets the permissions of the pages of a range that are there.
pub(crate) fn protect_range(
    tables: &mut PageTables,
    first: u32,
    count: u32,
    permissions: Permissions,
)
    requires low { first + count < 2 ^ 32 }
    ensures protected { (q : ℕ) → first ≤ q → q < first + count → (contents_of tables.new).pages q
        ≡ option_map (with_permissions permissions) ((contents_of tables.old).pages q) }
    ensures others { KeepsOutside first count tables.old tables.new }
    ensures live { live_of tables.new ≡ live_of tables.old }
{
    for number in first..first + count {
        tables.set_permissions(number, permissions);
    }
}

/// Whether all pages of a range are there.
#[tactic(auto, unfolding(rrv_model::specs::Memory::all_mapped), using(crate::proofs::Ranges::one_absent, crate::proofs::Ranges::all_mapped_more))]
pub(crate) fn all_there(tables: &PageTables, first: u32, count: u32) -> bool
    requires { first + count < 2 ^ 32 }
    ensures { result ≡ all_mapped (memory_of tables.now) first count }
{
    for number in first..first + count {
        if !is_there(tables, number) {
            return false;
        }
    }
    true
}

/// The least page of a range that is there.
#[tactic(auto, using(crate::proofs::Facts::is_mapped_in))]
pub(crate) fn first_there(tables: &PageTables, first: u32, count: u32) -> Option<u32>
    requires { first + count < 2 ^ 32 }
    ensures some { IfSome result (λ number. (first ≤ number) × (number < first + count)
        × (is_mapped (memory_of tables.now) number ≡ true)) }
    ensures none { IfNone result ((q : ℕ) → first ≤ q → q < first + count →
        is_mapped (memory_of tables.now) q ≡ false) }
{
    for number in first..first + count {
        if is_there(tables, number) {
            return Some(number);
        }
    }
    None
}

/// What a reader sees of a page.
pub(crate) fn view_of(page: Option<page_tables::PageView<'_>>) -> Option<PageView<'_>>
    ensures { option_map page_of result ≡ shown page.entry }
{
    let page = page?;
    Some(PageView {
        permissions: page.permissions,
        bytes: page.bytes,
    })
}

/// The least number from this one on that has a page, else the end of all pages.
fn next_or_end(tables: &PageTables, least: u32) -> u32
    ensures { SkipsTo least result (λ q. (contents_of tables.now).pages q ≡ None) }
{
    match tables.next(least) {
        Some(number) => number,
        None => 0x80000,
    }
}

/// The least number from this one on at which a snapshot has a page, else the end of all pages.
fn kept_or_end(tables: &PageTables, snapshot: usize, least: u32) -> u32
    requires { IsSome ((contents_of tables.now).kept snapshot) }
    ensures { SkipsTo least result (λ q. IsSomeAnd ((contents_of tables.now).kept snapshot) (λ pages. pages q ≡ None)) }
{
    match tables.kept_next(snapshot, least) {
        Some(number) => number,
        None => 0x80000,
    }
}

/// The least number from this one on at which one of two spaces has a page, else the end of all pages.
fn next_of_either(tables: &PageTables, others: &PageTables, least: u32) -> u32
    ensures { SkipsTo least result (SameAt (contents_of tables.now).pages (contents_of others.now).pages) }
{
    let here = next_or_end(tables, least);
    let there = next_or_end(others, least);
    here.min(there)
}

/// Whether two spaces have the same pages.
pub(crate) fn same_pages(tables: &PageTables, others: &PageTables) -> bool
    ensures all { result ≡ true → (q : ℕ) → q < 0x80000 →
        SameAt (contents_of tables.now).pages (contents_of others.now).pages q }
    ensures one { result ≡ false → (q : ℕ)
        × (SameAt (contents_of tables.now).pages (contents_of others.now).pages q → ⊥) }
{
    let mut number = next_of_either(tables, others, 0);
    while number < 0x80000 && tables.same_page(others, number) {
        number = next_of_either(tables, others, number + 1);
    }
    number == 0x80000
}

/// The least number from this one on at which the space or a snapshot has a page, else the end of all pages.
fn next_of_both(tables: &PageTables, snapshot: usize, least: u32) -> u32
    requires { IsSome ((contents_of tables.now).kept snapshot) }
    ensures { SkipsTo least result (λ q. IsSomeAnd ((contents_of tables.now).kept snapshot)
        (λ pages. SameAt pages (contents_of tables.now).pages q)) }
{
    let here = next_or_end(tables, least);
    let there = kept_or_end(tables, snapshot, least);
    here.min(there)
}

/// The numbers of the pages at which a space differs from a snapshot, rising. It takes no memory where none does.
pub(crate) fn list_changed(
    alloc: Global,
    tables: &PageTables,
    snapshot: usize,
) -> Result<Vec<u32>, AllocError>
    requires { IsSome ((contents_of tables.now).kept snapshot) }
    ensures listed { IfOk result (λ numbers. IsSomeAnd ((contents_of tables.now).kept snapshot)
        (λ pages. ListsOthers (SameAt pages (contents_of tables.now).pages) 0x80000 numbers.items)) }
    ensures grows { OnErr result (IsSomeAnd ((contents_of tables.now).kept snapshot)
        (λ pages. (q : ℕ) × (SameAt pages (contents_of tables.now).pages q → ⊥))) }
{
    let mut numbers = Vec::new(alloc);
    let mut number = next_of_both(tables, snapshot, 0);
    while number < 0x80000 {
        if !tables.same_as_kept(snapshot, number) {
            numbers.push(number)?;
        }
        number = next_of_both(tables, snapshot, number + 1);
    }
    Ok(numbers)
}
