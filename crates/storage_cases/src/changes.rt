//! Changes of a store's bytes.

use std::alloc::Global;

/// One change of bytes.
#[derive(Clone, Copy, Debug)]
pub enum Change {
    /// None is made.
    Whole,
    /// So many bytes are left.
    Cut(usize),
    /// These bits of the byte at a place are changed.
    Flip(usize, u8),
    /// This byte stands at a place.
    Put(usize, u8),
}

impl Change {
    /// The changed bytes; None where there is no such place.
    pub fn of(self, alloc: Global, bytes: &[u8]) -> Option<Vec<u8>> {
        let mut changed = bytes.to_vec(alloc).ok()?;
        match self {
            Change::Whole => {}
            Change::Cut(len) => changed.truncate(len),
            Change::Flip(place, bits) => *changed.get_mut(place)? ^= bits,
            Change::Put(place, byte) => *changed.get_mut(place)? = byte,
        }
        Some(changed)
    }
}

/// The number at a place among words.
fn number(words: &[&str], place: usize) -> Option<usize> {
    words.get(place)?.parse::<usize>().ok()
}

fn cuts(alloc: Global, from: usize, to: usize) -> Option<Vec<Change>> {
    let mut changes = Vec::new(alloc);
    for len in from..to.checked_add(1)? {
        changes.push(Change::Cut(len)).ok()?;
    }
    Some(changes)
}

fn flips(alloc: Global, from: usize, to: usize) -> Option<Vec<Change>> {
    let mut changes = Vec::new(alloc);
    for place in from..to.checked_add(1)? {
        changes.push(Change::Flip(place, 0x01)).ok()?;
        changes.push(Change::Flip(place, 0x80)).ok()?;
        changes.push(Change::Flip(place, 0xFF)).ok()?;
    }
    Some(changes)
}

fn puts(alloc: Global, place: usize, from: usize, to: usize) -> Option<Vec<Change>> {
    let mut changes = Vec::new(alloc);
    for byte in from..to.checked_add(1)? {
        let byte = u8::try_from(byte).ok()?;
        changes.push(Change::Put(place, byte)).ok()?;
    }
    Some(changes)
}

/// The changes that words say, as `cut 0 16`; no word says that none is made, and None is answered where they say nothing.
pub fn changes_of(alloc: Global, words: &[&str]) -> Option<Vec<Change>> {
    let Some(kind) = words.first().copied() else {
        return Vec::from_slice(alloc, &[Change::Whole]).ok();
    };
    let one = number(words, 1)?;
    let two = number(words, 2)?;
    match kind {
        "cut" => cuts(alloc, one, two),
        "flip" => flips(alloc, one, two),
        "put" => puts(alloc, one, two, number(words, 3)?),
        _ => None,
    }
}
