//! Lines of address spaces: what is done to one, and what then stands in it. What a call requires is tested here.

use crate::answers::{done, listed, told, told_if_some};
use crate::lines::number;
use elf_load::parse;
use guest_buffers::{join_buffers, list_buffers, total_len};
use guest_opening::{open_space, opening_keeps_rules, opening_thread};
use guest_pages::{AddressSpace, PageFault, PageView, Space};
use rrv_model::machine::{Permissions, Version};
use std::alloc::Global;
use test_guests::bytes::bytes_of;
use test_guests::files::{EXIT_FIVE, file_of};
use test_guests::permissions::{ALL, CODE, CONSTANTS, DATA};

/// What a call on a space answers.
type Answer = Result<(), PageFault>;

const NAMES: [(&str, Permissions); 4] = [
    ("rw-", DATA),
    ("r--", CONSTANTS),
    ("--x", CODE),
    ("rwx", ALL),
];

/// The permissions of this name.
fn permissions(name: &str) -> Option<Permissions> {
    for (known, permissions) in NAMES {
        if known == name {
            return Some(permissions);
        }
    }
    None
}

/// The name of permissions.
fn name_of(permissions: Permissions) -> Option<&'static str> {
    for (name, known) in NAMES {
        if known == permissions {
            return Some(name);
        }
    }
    None
}

fn map<S: AddressSpace>(
    space: &mut S,
    page: u32,
    count: u32,
    permissions: Permissions,
) -> Option<Answer> {
    let end = u64::from(page) + u64::from(count);
    if page < 1 || end > 0x80000 || (permissions.write && !permissions.read) {
        return None;
    }
    Some(space.map(page, count, permissions))
}

fn cover<S: AddressSpace>(space: &mut S, page: u32, permissions: Permissions) -> Option<Answer> {
    if page < 1 || page >= 0x80000 || (permissions.write && !permissions.read) {
        return None;
    }
    Some(space.cover(page, permissions))
}

fn protect<S: AddressSpace>(
    space: &mut S,
    page: u32,
    count: u32,
    permissions: Permissions,
) -> Option<Answer> {
    let end = u64::from(page) + u64::from(count);
    if end > 0x80000 || (permissions.write && !permissions.read) {
        return None;
    }
    Some(space.protect(page, count, permissions))
}

fn unmap<S: AddressSpace>(space: &mut S, page: u32, count: u32) -> Option<Answer> {
    if u64::from(page) + u64::from(count) > 0x80000 {
        return None;
    }
    space.unmap(page, count);
    Some(Ok(()))
}

/// The page at a number becomes one that begins with these bytes, and has the last of them in all other places but its last.
fn set<S: AddressSpace>(
    space: &mut S,
    number: u32,
    permissions: Permissions,
    first: &[u8],
    last: u8,
) -> Option<Answer> {
    if number < 1 || number >= 0x80000 || (permissions.write && !permissions.read) {
        return None;
    }
    let mut bytes = [*first.last()?; 4096];
    for (byte, value) in bytes.iter_mut().zip(first) {
        *byte = *value;
    }
    bytes[4095] = last;
    let page = PageView {
        permissions,
        bytes: &bytes,
    };
    Some(space.set_page(number, Some(page)))
}

/// Bytes are put where there is room made ready for as many.
fn fill<S: AddressSpace>(space: &mut S, address: u32, bytes: &[u8]) -> Answer {
    space.prepare(address, bytes.len())?;
    space.fill(address, bytes);
    Ok(())
}

/// The byte that a word is, in hex digits.
fn byte(word: &str) -> Option<u8> {
    u8::from_str_radix(word, 16).ok()
}

/// Does what words say to an address space; None where it may not be done.
pub fn change<S: AddressSpace>(alloc: Global, space: &mut S, words: &[&str]) -> Option<Answer> {
    let (name, rest) = words.split_first()?;
    match (*name, rest) {
        ("map", [page, count, name]) => {
            map(space, number(page)?, number(count)?, permissions(name)?)
        }
        ("cover", [page, name]) => cover(space, number(page)?, permissions(name)?),
        ("protect", [page, count, name]) => {
            protect(space, number(page)?, number(count)?, permissions(name)?)
        }
        ("unmap", [page, count]) => unmap(space, number(page)?, number(count)?),
        ("clear", [page]) => Some(space.set_page(number(page)?, None)),
        ("set", [page, name, first, last]) => {
            let first = bytes_of(alloc, first)?;
            set(
                space,
                number(page)?,
                permissions(name)?,
                &first,
                byte(last)?,
            )
        }
        ("store-word", [address, word]) => Some(space.store_word(number(address)?, number(word)?)),
        ("prepare", [address, count]) => {
            Some(space.prepare(number(address)?, number(count)? as usize))
        }
        ("fill", [address, bytes]) => {
            Some(fill(space, number(address)?, &bytes_of(alloc, bytes)?))
        }
        _ => None,
    }
}

/// Loads 4,999 bytes behind the first of 5,000 nines: the first, the second and the last of these then, behind a refusal.
fn load_text(alloc: Global, space: &Space, address: u32) -> Option<String> {
    let mut bytes = [9; 5000];
    let answer = space.load(address, &mut bytes[1..]);
    let (first, second, last) = (bytes[0], bytes[1], bytes[4999]);
    match answer {
        Ok(()) => format!(in alloc; "{first} {second} {last}").ok(),
        Err(fault) => format!(in alloc; "{fault} {first} {second} {last}").ok(),
    }
}

/// A page by its permissions, its first byte and its last.
fn page_text(alloc: Global, page: Option<PageView<'_>>) -> Option<String> {
    let Some(page) = page else {
        return "none".to_string(alloc).ok();
    };
    let name = name_of(page.permissions)?;
    let (first, last) = (page.bytes[0], page.bytes[4095]);
    format!(in alloc; "{name} {first} {last}").ok()
}

/// The buffers that a list of so many at an address says, how many bytes they have, and these bytes.
fn buffers_text(alloc: Global, space: &Space, address: u32, count: u32) -> Option<String> {
    if count > 1024 || !space.is_readable(address, 8 * count) {
        return "not readable".to_string(alloc).ok();
    }
    let buffers = list_buffers(alloc, space, address, count).ok()?;
    let total = total_len(&buffers);
    let bytes = joined_text(alloc, space, &buffers)?;
    format!(in alloc; "{buffers:?} {total} {bytes}").ok()
}

/// The bytes of all buffers.
fn joined_text(alloc: Global, space: &Space, buffers: &[(u32, u32)]) -> Option<String> {
    match join_buffers(alloc, space, buffers).ok()? {
        Some(bytes) => listed(alloc, bytes.as_slice()),
        None => "not readable".to_string(alloc).ok(),
    }
}

/// What is found in ranges of pages.
fn range_text(alloc: Global, space: &Space, name: &str, page: u32, count: u32) -> Option<String> {
    page.checked_add(count)?;
    match name {
        "mapped" => told(alloc, &space.is_mapped(page, count)),
        "free" => told(alloc, &space.is_free(page, count)),
        "highest-free" => told_if_some(alloc, space.highest_free(page, count)),
        "readable" => told(alloc, &space.is_readable(page, count)),
        "writable" => told(alloc, &space.is_writable(page, count)),
        "buffers" => buffers_text(alloc, space, page, count),
        _ => None,
    }
}

/// What is found at an address, or at the page of a number.
fn place_text(alloc: Global, space: &Space, name: &str, place: u32) -> Option<String> {
    match name {
        "byte" => told_if_some(alloc, space.load_byte(place).map(u32::from)),
        "half" => told_if_some(alloc, space.load_half(place).map(u32::from)),
        "word" => told_if_some(alloc, space.load_word(place)),
        "fetch" => told_if_some(alloc, space.fetch(place)),
        "load" => load_text(alloc, space, place),
        "page" => page_text(alloc, space.page(place)),
        _ => None,
    }
}

/// Two address spaces, of which lines ask one.
#[derive(Drop)]
pub struct Pages {
    space: Space,
    other: Space,
}

impl Pages {
    /// With nothing mapped.
    pub fn new(alloc: Global) -> Pages {
        Pages {
            space: Space::new(alloc),
            other: Space::new(alloc),
        }
    }

    /// Opens the program that exits with 5, and tells where its thread and its stack begin.
    fn open(&mut self, alloc: Global) -> Option<String> {
        let elf = file_of(alloc, &EXIT_FIVE).ok()?;
        let image = parse(alloc, &elf).ok()?;
        opening_keeps_rules(Version::One, &image, b"a", &[7; 16]);
        self.space = open_space(alloc, &image, b"a", &[7; 16]).ok()?;
        let regs = opening_thread(&image, b"a").regs;
        let (pc, stack) = (regs.pc, regs.registers[2]);
        format!(in alloc; "{pc:#x} {stack:#x}").ok()
    }

    /// Does what words say; None where it may not be done.
    fn change(&mut self, alloc: Global, words: &[&str]) -> Option<Answer> {
        let (name, rest) = words.split_first()?;
        match (*name, rest) {
            ("store-byte", [address, value]) => {
                Some(self.space.store_byte(number(address)?, byte(value)?))
            }
            ("store-half", [address, value]) => {
                let half = u16::try_from(number(value)?).ok()?;
                Some(self.space.store_half(number(address)?, half))
            }
            ("store", [address, bytes]) => {
                let bytes = bytes_of(alloc, bytes)?;
                Some(self.space.store(number(address)?, &bytes))
            }
            _ => change(alloc, &mut self.space, words),
        }
    }

    /// What is found where words ask something; None where they do something.
    fn find(&self, alloc: Global, words: &[&str]) -> Option<String> {
        let (name, rest) = words.split_first()?;
        match (*name, rest) {
            ("same", []) => told(alloc, &self.space.same(&self.other)),
            ("pages", []) => told(alloc, &self.space.page_count()),
            (_, [place]) => place_text(alloc, &self.space, name, number(place)?),
            (_, [first, count]) => {
                range_text(alloc, &self.space, name, number(first)?, number(count)?)
            }
            _ => None,
        }
    }

    /// What is found where words ask something or do something.
    pub fn answer(&mut self, alloc: Global, words: &[&str]) -> Option<String> {
        match words.first().copied()? {
            "new" => self.space = Space::new(alloc),
            "swap" => std::mem::swap(&mut self.space, &mut self.other),
            "open" => return self.open(alloc),
            _ => {
                if let Some(found) = self.find(alloc, words) {
                    return Some(found);
                }
                return done(alloc, self.change(alloc, words)?);
            }
        }
        Some(String::new(alloc))
    }
}
