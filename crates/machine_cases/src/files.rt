//! Lines of ELF files.

use crate::lines::{bytes, number, number_or_none, numbers};
use crate::mutations::all_answered;
use elf_load::{Image, parse};
use std::alloc::{AllocError, Global};

/// The bytes of an ELF header, and those of a program header.
const FILE_HEADER_BYTES: usize = 52;

const HEADER_BYTES: usize = 32;

/// Where the ELF header counts the program headers.
const E_PHNUM: usize = 44;

/// The number of the refusal of a file; None where it is an image.
fn refusal_of(alloc: Global, elf: &[u8]) -> Option<u32> {
    match parse(alloc, elf) {
        Ok(_) => None,
        Err(fault) => Some(u32::from(fault.number())),
    }
}

/// Puts bytes at a place of a file; None where the file has no room for them there.
fn put_bytes(elf: &mut [u8], place: usize, bytes: &[u8]) -> Option<()> {
    if elf.len() < place || elf.len() - place < bytes.len() {
        return None;
    }
    for (byte, value) in elf.iter_mut().skip(place).zip(bytes) {
        *byte = *value;
    }
    Some(())
}

/// What an image tells of itself: entry, address and count of its program headers, opening break, count of its PT_LOADs.
fn told_of(image: &Image) -> Option<[u32; 5]> {
    Some([
        image.entry(),
        image.headers_address(),
        u32::from(image.header_count()),
        image.end(),
        u32::try_from(image.loads().len()).ok()?,
    ])
}

/// The PT_LOAD at a place: kind, offset, address, length in the file and in memory, flags.
fn load_of(image: &Image, index: u32) -> Option<[u32; 6]> {
    let load = image.loads().get(index as usize)?;
    Some([
        load.kind(),
        load.offset(),
        load.address(),
        load.file_len(),
        load.memory_len(),
        load.flags(),
    ])
}

/// The file that lines speak of.
#[derive(Drop)]
pub struct Subject {
    elf: Vec<u8>,
    kept: Vec<u8>,
}

impl Subject {
    /// An empty file.
    pub fn new(alloc: Global) -> Subject {
        Subject {
            elf: Vec::new(alloc),
            kept: Vec::new(alloc),
        }
    }

    /// Takes a line, and tells whether it holds; None where it isn't understood, or no memory is left.
    pub fn take(&mut self, alloc: Global, first: &str, rest: &str) -> Option<bool> {
        match first {
            "refusal" => Some(refusal_of(alloc, &self.elf) == number_or_none(rest)?),
            "patch" => self.patch(alloc, rest),
            "cut" => self.cut(alloc, rest),
            "image" => self.image(alloc, rest),
            "load" => self.load(alloc, rest),
            "mutate" => self.mutate(alloc, rest),
            _ => {
                self.change(alloc, first, rest)?;
                Some(true)
            }
        }
    }

    /// Takes a line that makes the file.
    fn change(&mut self, alloc: Global, first: &str, rest: &str) -> Option<()> {
        match first {
            "file" => self.elf.clear(),
            "bytes" => self.elf.extend_from_slice(&bytes(alloc, rest)?).ok()?,
            "words" => self.add_words(&numbers(alloc, rest)?).ok()?,
            "length" => self.set_length(number(rest)? as usize).ok()?,
            "put" => self.put(alloc, rest)?,
            "series" => self.add_series(alloc, rest)?,
            "header" => self.put_header(&numbers(alloc, rest)?)?,
            "keep" => self.kept = self.elf.clone().ok()?,
            "again" => self.elf = self.kept.clone().ok()?,
            _ => return None,
        }
        Some(())
    }

    fn add_words(&mut self, words: &[u32]) -> Result<(), AllocError> {
        for word in words {
            self.elf.extend_from_slice(&word.to_le_bytes())?;
        }
        Ok(())
    }

    /// Adds words so many times, of which the one at a place is less by 1 each time.
    fn add_series(&mut self, alloc: Global, rest: &str) -> Option<()> {
        let (count, rest) = rest.split_once(' ')?;
        let (place, words) = rest.split_once(' ')?;
        let place = number(place)? as usize;
        let mut words = numbers(alloc, words)?;
        for _ in 0..number(count)? {
            self.add_words(&words).ok()?;
            let word = words.get_mut(place)?;
            *word = word.wrapping_sub(1);
        }
        Some(())
    }

    fn set_length(&mut self, len: usize) -> Result<(), AllocError> {
        self.elf.truncate(len);
        for _ in self.elf.len()..len {
            self.elf.push(0)?;
        }
        Ok(())
    }

    fn put(&mut self, alloc: Global, rest: &str) -> Option<()> {
        let (place, values) = rest.split_once(' ')?;
        put_bytes(
            &mut self.elf,
            number(place)? as usize,
            &bytes(alloc, values)?,
        )
    }

    /// Puts a program header behind those that the file has.
    fn put_header(&mut self, words: &[u32]) -> Option<()> {
        let count = *self.elf.get(E_PHNUM)?;
        let table = FILE_HEADER_BYTES + HEADER_BYTES * count as usize;
        for (index, word) in words.iter().enumerate() {
            let place = table.wrapping_add(index.wrapping_mul(4));
            put_bytes(&mut self.elf, place, &word.to_le_bytes())?;
        }
        put_bytes(&mut self.elf, E_PHNUM, &[count.wrapping_add(1)])
    }

    fn patch(&self, alloc: Global, rest: &str) -> Option<bool> {
        let (patch, refusal) = rest.split_once(" refusal ")?;
        let (place, values) = patch.split_once(' ')?;
        let mut copy = self.elf.clone().ok()?;
        put_bytes(&mut copy, number(place)? as usize, &bytes(alloc, values)?)?;
        Some(refusal_of(alloc, &copy) == number_or_none(refusal)?)
    }

    fn cut(&self, alloc: Global, rest: &str) -> Option<bool> {
        let (range, refusal) = rest.split_once(" refusal ")?;
        let (first, last) = range.split_once(' ')?;
        let (first, last) = (number(first)?, number(last)?);
        let wanted = number_or_none(refusal)?;
        if last < first {
            return None;
        }
        for len in first..last.checked_add(1)? {
            let beginning = self.elf.get(..len as usize)?;
            if refusal_of(alloc, beginning) != wanted {
                return Some(false);
            }
        }
        Some(true)
    }

    fn image(&self, alloc: Global, rest: &str) -> Option<bool> {
        let wanted = numbers(alloc, rest)?;
        let Ok(image) = parse(alloc, &self.elf) else {
            return Some(false);
        };
        let found = told_of(&image)?;
        Some(found.as_slice() == wanted.as_slice() && image.elf() == self.elf.as_slice())
    }

    fn load(&self, alloc: Global, rest: &str) -> Option<bool> {
        let (index, values) = rest.split_once(' ')?;
        let index = number(index)?;
        let wanted = numbers(alloc, values)?;
        let Ok(image) = parse(alloc, &self.elf) else {
            return Some(false);
        };
        let Some(found) = load_of(&image, index) else {
            return Some(false);
        };
        Some(found.as_slice() == wanted.as_slice())
    }

    fn mutate(&self, alloc: Global, rest: &str) -> Option<bool> {
        let (copies, seed) = rest.split_once(' ')?;
        let copies = number(copies)?;
        if copies == 0 {
            return None;
        }
        all_answered(alloc, &self.elf, copies, number(seed)?)
    }
}
