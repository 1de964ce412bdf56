//! The pages of a pool, and how many tables have each.

ghost use Rattle.std.specs.Prelude.{◌≡◌, ◌≢◌, ℕ, ◌+◌, ◌-◌, ◌<◌, ◌≤◌, ◌^◌, ◌==◌, if◌then◌else◌, IfOk, OnOk, IfSome, IsSomeAnd, Some, None, length, OnErr, true, false, IsSome};
ghost use Rattle.std.specs.Int.{w8, w16, w32, to_le_bytes};
ghost use Rattle.slab.specs.Slab.{get, slab_len, ContainsKey};
ghost use Rattle.page_tables.specs.Changes.{ChangesPage, Recounts, Adds, IsRoomyFor, HasPlace, KeepsPages, Rewrites, WritesOver};
ghost use Rattle.page_tables.specs.Contents.{FillPage};
ghost use Rattle.page_tables.specs.Sharing.{with_count, lowered, lowered_by, raised, raised_by, IsTableOf};
ghost use Rattle.page_tables.specs.Table.{entry_at};

use crate::table::Table;
use slab::Slab;
use std::alloc::{AllocError, Global};

/// A page of the pool.
#[derive(Drop)]
pub struct Page {
    /// Its number in each table that has it.
    pub number: u32,
    /// How many tables have it.
    pub count: u32,
    /// Its bytes, by their place in the page.
    pub bytes: Box<[u8; 4096]>,
}

/// Sets how many tables have a page.
pub(crate) fn set_count(pool: &mut Slab<Page>, key: usize, count: u32)
    requires { ContainsKey pool.old key }
    ensures { Recounts key (with_count count) pool.old pool.new }
{
    let page = &mut pool[key];
    page.count = count;
}

/// One table less has a page. One that none has leaves the pool.
pub(crate) fn lower(pool: &mut Slab<Page>, key: usize)
    requires { IsSomeAnd (get pool.old key) (λ p. 1 ≤ p.count) }
    ensures count { ChangesPage key lowered pool.old pool.new }
    ensures len { IfSome (get pool.old key) (λ p.
        slab_len pool.new + (if p.count == 1 then 1 else 0) ≡ slab_len pool.old) }
{
    let count = pool[key].count;
    if count > 1 {
        set_count(pool, key, count - 1);
    } else {
        let _ = pool.remove(key);
    }
}

/// One table more has each page that a table has.
pub(crate) fn raise_all(pool: &mut Slab<Page>, table: &Table)
    requires there { IsTableOf (get pool.old) (entry_at table.now) }
    requires small { (k : ℕ) → IfSome (get pool.old k) (λ p. p.count < 2 ^ 32 - 1) }
    ensures pages { (k : ℕ) → get pool.new k ≡ raised_by (entry_at table.now) 0x80000 k (get pool.old k) }
    ensures len { slab_len pool.new ≡ slab_len pool.old }
{
    let mut number = table.next_or_end(0);
    while number < 0x80000 {
        raise(pool, table.entry(number).key as usize);
        number = table.next_or_end(number + 1);
    }
}

fn raise(pool: &mut Slab<Page>, key: usize)
    requires { IsSomeAnd (get pool.old key) (λ p. p.count < 2 ^ 32 - 1) }
    ensures { Recounts key raised pool.old pool.new }
{
    let count = pool[key].count;
    set_count(pool, key, count + 1);
}

/// One table less has each page that a table has.
pub(crate) fn lower_all(pool: &mut Slab<Page>, table: &Table)
    requires there { IsTableOf (get pool.old) (entry_at table.now) }
    requires some { (k : ℕ) → IfSome (get pool.old k) (λ p. 1 ≤ p.count) }
    ensures pages { (k : ℕ) → get pool.new k ≡ lowered_by (entry_at table.now) 0x80000 k (get pool.old k) }
    ensures len { slab_len pool.new ≤ slab_len pool.old }
{
    let mut number = table.next_or_end(0);
    while number < 0x80000 {
        lower(pool, table.entry(number).key as usize);
        number = table.next_or_end(number + 1);
    }
}

/// Writes a byte into a page.
#[inline(always)]
pub(crate) fn put_byte(pool: &mut Slab<Page>, key: usize, at: usize, value: u8)
    requires { HasPlace pool.old key at 1 }
    ensures { Rewrites key at (to_le_bytes w8 value) pool.old pool.new }
{
    let page = &mut pool[key];
    write_byte(&mut page.bytes, at, value);
}

/// Writes a half-word into a page, its low byte first.
#[inline(always)]
pub(crate) fn put_half(pool: &mut Slab<Page>, key: usize, at: usize, value: u16)
    requires { HasPlace pool.old key at 2 }
    ensures { Rewrites key at (to_le_bytes w16 value) pool.old pool.new }
{
    let page = &mut pool[key];
    write_half(&mut page.bytes, at, value);
}

/// Writes a word into a page, its low byte first.
#[inline(always)]
pub(crate) fn put_word(pool: &mut Slab<Page>, key: usize, at: usize, value: u32)
    requires { HasPlace pool.old key at 4 }
    ensures { Rewrites key at (to_le_bytes w32 value) pool.old pool.new }
{
    let page = &mut pool[key];
    write_word(&mut page.bytes, at, value);
}

/// Writes bytes into a page.
pub(crate) fn put_bytes(pool: &mut Slab<Page>, key: usize, at: usize, from: &[u8])
    requires { HasPlace pool.old key at (length from.now) }
    ensures { Rewrites key at from.now pool.old pool.new }
{
    let page = &mut pool[key];
    write_bytes(&mut page.bytes, at, from);
}

#[inline(always)]
fn write_byte(bytes: &mut [u8; 4096], at: usize, value: u8)
    requires { at + 1 ≤ 4096 }
    ensures { WritesOver at (to_le_bytes w8 value) bytes.old bytes.new }
{
    bytes[at] = value;
}

#[inline(always)]
fn write_half(bytes: &mut [u8; 4096], at: usize, value: u16)
    requires { at + 2 ≤ 4096 }
    ensures { WritesOver at (to_le_bytes w16 value) bytes.old bytes.new }
{
    let [first, second] = value.to_le_bytes();
    bytes[at] = first;
    bytes[at + 1] = second;
}

#[inline(always)]
fn write_word(bytes: &mut [u8; 4096], at: usize, value: u32)
    requires { at + 4 ≤ 4096 }
    ensures { WritesOver at (to_le_bytes w32 value) bytes.old bytes.new }
{
    let [first, second, third, fourth] = value.to_le_bytes();
    bytes[at] = first;
    bytes[at + 1] = second;
    bytes[at + 2] = third;
    bytes[at + 3] = fourth;
}

fn write_bytes(bytes: &mut [u8; 4096], at: usize, from: &[u8])
    requires { at + length from.now ≤ 4096 }
    ensures { WritesOver at from.now bytes.old bytes.new }
{
    bytes[at..at + from.len()].copy_from_slice(from);
    fill_page(bytes);
}

/// Makes room for so many more pages, which changes none of them. Refused where a growth is, or a key would be too great for an entry.
pub(crate) fn reserve_pages(pool: &mut Slab<Page>, count: usize) -> Result<(), AllocError>
    ensures keeps { KeepsPages pool.old pool.new }
    ensures roomy { OnOk result (IsRoomyFor pool.new count) }
{
    pool.reserve(count)?;
    if pool.capacity() > 0x1_0000_0000 {
        return Err(AllocError);
    }
    Ok(())
}

/// Adds a page that one table has, where there is room.
pub(crate) fn add(pool: &mut Slab<Page>, number: u32, bytes: Box<[u8; 4096]>) -> u32
    requires { IsRoomyFor pool.old 1 }
    ensures { Adds result (record { number = number; count = 1; bytes = bytes }) pool.old pool.new }
{
    pool.insert_reserved(Page {
        number,
        count: 1,
        bytes,
    }) as u32
}

/// A law: the bytes of a page fill it.
#[inline(always)]
pub(crate) fn fill_page(bytes: &[u8; 4096])
    ensures { FillPage bytes.now }
{
    let _first = bytes[0];
}

/// A copy of the bytes of a page.
pub(crate) fn copy_bytes(alloc: Global, bytes: &[u8; 4096]) -> Result<Box<[u8; 4096]>, AllocError>
    ensures { IfOk result (λ copy. copy.value ≡ bytes.now) }
{
    let copy = Box::new(alloc, *bytes)?;
    Ok(copy)
}
