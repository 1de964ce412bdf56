//! A table of two levels: what stands at each page number.

ghost use Rattle.std.specs.Prelude.{◌≡◌, ◌<◌, length, slice_set};
ghost use Rattle.page_tables.specs.Directory.{AreThere, AreApart, leaf_count};

use page_permissions::Permissions;
use std::alloc::{AllocError, Global};

/// What a table has at a page number.
// In this order: what is looked up is a word of 8 bytes, and a test of its low half takes one instruction.
#[derive(Clone, Copy, PartialEq, Eq)]
#[repr(C)]
pub struct Entry {
    /// Whether there is a page.
    pub mapped: bool,
    /// What may be done with the bytes; nothing where there is no page.
    pub permissions: Permissions,
    /// The page's key in the pool, where there is a page.
    pub key: u32,
}

/// What a table has where there is no page.
pub const NO_PAGE: Entry = Entry {
    mapped: false,
    permissions: Permissions {
        read: false,
        write: false,
        execute: false,
    },
    key: 0,
};

/// What a directory has where there is no leaf.
pub const NO_LEAF: u16 = 0xFFFF;

/// What stands at each page number: at first nothing.
#[derive(Drop)]
pub struct Table {
    /// The entries of 1,024 numbers in a row, for each row that has room.
    leaves: Vec<[Entry; 1024]>,
    /// The place of each row's leaf, or NO_LEAF.
    directory: [u16; 1024],
    ghost rows: { length directory ≡ 1024 },
    ghost there: { AreThere directory (length leaves.items) },
    ghost apart: { AreApart directory },
    ghost whole: { leaf_count directory ≡ length leaves.items },
}

impl Table {
    ghost use Rattle.std.specs.Prelude.{◌≡◌, ℕ, ◌<◌, ◌≤◌, IfOk, OnOk, true, false, option_copied};
    ghost use Rattle.page_tables.specs.Table.{entry_at, leaf_in, has_leaf, AreAlike, Extends, SetsEntry};

    /// A table with no page, which takes no memory.
    pub(crate) fn new(alloc: Global) -> Table
        ensures { (n : ℕ) → entry_at result n ≡ NO_PAGE }
    {
        Table {
            leaves: Vec::new(alloc),
            directory: [NO_LEAF; 1024],
        }
    }

    /// What stands at a number.
    #[inline(always)]
    #[tactic(auto, unfolding(crate::specs::Table::entry_at))]
    pub(crate) fn entry(&self, number: u32) -> Entry
        ensures { result ≡ entry_at self.now number }
    {
        match self.leaf(number) {
            Some(leaf) => leaf[(number % 1024) as usize],
            None => NO_PAGE,
        }
    }

    /// Puts an entry at a number that there is room for.
    pub(crate) fn set(&mut self, number: u32, entry: Entry)
        requires { has_leaf self.old number ≡ true }
        ensures { SetsEntry number entry self.old self.new }
    {
        let place = self.directory[(number / 1024) as usize] as usize;
        put_entry(&mut self.leaves[place], (number % 1024) as usize, entry);
    }

    /// Makes room for an entry at a number, which changes none. Refused where a growth is.
    pub(crate) fn make_room(&mut self, number: u32) -> Result<(), AllocError>
        requires { number < 0x80000 }
        ensures extends { Extends self.old self.new }
        ensures room { OnOk result (has_leaf self.new number ≡ true) }
    {
        if self.has_leaf(number) {
            return Ok(());
        }
        let place = self.leaves.len() as u16;
        self.leaves.push([NO_PAGE; 1024])?;
        self.directory[(number / 1024) as usize] = place;
        Ok(())
    }

    /// The same once more. Refused where a growth is.
    pub(crate) fn copy(&self, alloc: Global) -> Result<Table, AllocError>
        ensures { IfOk result (AreAlike self.now) }
    {
        let leaves = Vec::from_slice(alloc, &self.leaves)?;
        Ok(Table {
            leaves,
            directory: self.directory,
        })
    }

    /// The least number from this one on that has a page, else the end of all pages, 0x80000.
    pub(crate) fn next_or_end(&self, least: u32) -> u32
        ensures low { least ≤ 0x80000 → least ≤ result }
        ensures from { result < 0x80000 → least ≤ result }
        ensures high { result ≤ 0x80000 }
        ensures free { (n : ℕ) → least ≤ n → n < result → (entry_at self.now n).mapped ≡ false }
        ensures here { result < 0x80000 → (entry_at self.now result).mapped ≡ true }
    {
        let mut number = least;
        while number < 0x80000 {
            if !self.has_leaf(number) {
                number = (number / 1024 + 1) * 1024;
                continue;
            }
            if self.entry(number).mapped {
                return number;
            }
            number += 1;
        }
        0x80000
    }

    /// Whether there is room for an entry at a number.
    #[tactic(auto, unfolding(crate::specs::Table::has_leaf))]
    fn has_leaf(&self, number: u32) -> bool
        ensures { result ≡ has_leaf self.now number }
    {
        self.leaf(number).is_some()
    }

    /// The leaf of a number, where there is one.
    #[inline(always)]
    fn leaf(&self, number: u32) -> Option<&[Entry; 1024]>
        ensures { option_copied result ≡ leaf_in self.now.directory self.now.leaves.items number }
    {
        let place = *self.directory.get((number / 1024) as usize)?;
        self.leaves.get(place as usize)
    }
}

#[inline(always)]
fn put_entry(entries: &mut [Entry; 1024], at: usize, entry: Entry)
    requires { at < 1024 }
    ensures put { entries.new ≡ slice_set entries.old at entry }
    ensures full { length entries.old ≡ 1024 }
{
    entries[at] = entry;
}
