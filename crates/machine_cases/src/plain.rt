//! A plain reading of a short file: the refusals one after another, as their rules say them.

ghost use Rattle.std.specs.Prelude.{◌<◌};

use elf_load::ElfFault;
use std::alloc::{AllocError, Global};

/// A PT_LOAD, as the rules speak of it.
#[derive(Clone, Copy)]
struct Load {
    offset: u32,
    address: u32,
    file_len: u32,
    memory_len: u32,
}

impl Load {
    fn end(&self) -> u64 {
        u64::from(self.address) + u64::from(self.memory_len)
    }

    fn file_end(&self) -> u64 {
        u64::from(self.offset) + u64::from(self.file_len)
    }

    fn shares(&self, other: &Load) -> bool {
        let first = self.address.max(other.address);
        u64::from(first) < self.end() && u64::from(first) < other.end()
    }

    fn touches(&self, page: u64) -> bool {
        self.memory_len > 0
            && u64::from(self.address) / 4096 <= page
            && page < self.end().div_ceil(4096)
    }
}

fn byte(elf: &[u8], place: usize) -> u32
    ensures { result < 256 }
{
    match elf.get(place) {
        Some(byte) => u32::from(*byte),
        None => 0,
    }
}

fn half(elf: &[u8], place: usize) -> u32
    ensures { result < 65_536 }
{
    byte(elf, place) + 256 * byte(elf, place.wrapping_add(1))
}

fn word(elf: &[u8], place: usize) -> u32 {
    half(elf, place) + 65_536 * half(elf, place.wrapping_add(2))
}

/// The refusals 1 to 8.
fn fault_of_file_header(elf: &[u8]) -> Option<ElfFault> {
    let count = u64::from(half(elf, 44));
    let passes = u64::from(word(elf, 28)) + 32 * count > elf.len() as u64;
    let tests = [
        (elf.len() < 52, ElfFault::TooShort),
        (word(elf, 0) != 0x464C_457F, ElfFault::NotElf),
        (byte(elf, 4) != 1, ElfFault::NotClass32),
        (byte(elf, 5) != 1, ElfFault::NotLittle),
        (half(elf, 16) != 2, ElfFault::NotExec),
        (half(elf, 18) != 243, ElfFault::NotRiscV),
        (byte(elf, 36) % 2 == 1, ElfFault::Compressed),
        (
            count > 0 && (half(elf, 42) != 32 || passes),
            ElfFault::BadTable,
        ),
    ];
    first_of(&tests)
}

/// The first fault whose test says so.
fn first_of(tests: &[(bool, ElfFault)]) -> Option<ElfFault> {
    for (says_so, fault) in tests {
        if *says_so {
            return Some(*fault);
        }
    }
    None
}

/// Some program header has the type.
fn has_type(elf: &[u8], kind: u32) -> bool {
    (0..half(elf, 44)).any(|index| word(elf, header_place(elf, index)) == kind)
}

fn header_place(elf: &[u8], index: u32) -> usize {
    (word(elf, 28) as usize).wrapping_add(32 * index as usize)
}

/// The PT_LOADs of a file whose table is right.
fn loads(alloc: Global, elf: &[u8]) -> Result<Vec<Load>, AllocError> {
    let mut found = Vec::new(alloc);
    for index in 0..half(elf, 44) {
        let place = header_place(elf, index);
        if word(elf, place) == 1 {
            found.push(Load {
                offset: word(elf, place.wrapping_add(4)),
                address: word(elf, place.wrapping_add(8)),
                file_len: word(elf, place.wrapping_add(16)),
                memory_len: word(elf, place.wrapping_add(20)),
            })?;
        }
    }
    Ok(found)
}

fn any_two_share(loads: &[Load]) -> bool {
    for (index, load) in loads.iter().enumerate() {
        if loads.iter().take(index).any(|other| load.shares(other)) {
            return true;
        }
    }
    false
}

/// The loads touch more than 16,128 pages; they share no byte and are within the range.
fn touch_too_many_pages(loads: &[Load]) -> bool {
    let mut count = 0usize;
    for (index, load) in loads.iter().enumerate() {
        let first = u64::from(load.address) / 4096;
        let touched = (first..first + 16_130).take_while(|page| load.touches(*page));
        let new = touched.filter(|page| !loads
            .iter()
            .take(index)
            .any(|other| other.touches(*page)));
        count = count.wrapping_add(new.count());
    }
    count > 16_128
}

/// The refusals 10 to 15, of a file that the refusals before spare.
fn fault_of_loads(elf: &[u8], loads: &[Load]) -> Option<ElfFault> {
    let len = elf.len() as u64;
    if loads
        .iter()
        .any(|load| load.file_len > 0 && load.file_end() > len)
    {
        return Some(ElfFault::OutsideFile);
    }
    if loads.iter().any(|load| load.file_len > load.memory_len) {
        return Some(ElfFault::SizesCrossed);
    }
    if loads.iter().any(|load| load.memory_len > 0
        && (load.address < 0x1000 || load.end() > 0x7000_0000))
    {
        return Some(ElfFault::AddressRange);
    }
    let tests = [
        (any_two_share(loads), ElfFault::Overlap),
        (touch_too_many_pages(loads), ElfFault::TooLarge),
        (
            loads.iter().all(|load| load.memory_len == 0),
            ElfFault::NoLoad,
        ),
    ];
    first_of(&tests)
}

/// The lowest of the refusals 1 to 15 that applies to a short file.
pub fn expected_fault(alloc: Global, elf: &[u8]) -> Result<Option<ElfFault>, AllocError> {
    if let Some(fault) = fault_of_file_header(elf) {
        return Ok(Some(fault));
    }
    if has_type(elf, 3) {
        return Ok(Some(ElfFault::Interp));
    }
    let found = loads(alloc, elf)?;
    Ok(fault_of_loads(elf, &found))
}
