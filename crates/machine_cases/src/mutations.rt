//! Copies of a file with wrong bytes.

ghost use Rattle.std.specs.Prelude.{◌<◌};

use crate::plain::expected_fault;
use elf_load::parse;
use std::alloc::{AllocError, Global};

/// Numbers at the edges of the rules.
const EDGES: [u32; 16] = [
    0,
    1,
    2,
    3,
    31,
    32,
    96,
    308,
    0xFFF,
    0x1000,
    0x10000,
    0x20000,
    0x03F0_0000,
    0x03F0_0001,
    0x7000_0000,
    0xFFFF_FFFF,
];

/// A generator of pseudo-random numbers: a linear congruential one, of which the upper bits count.
#[derive(Drop)]
struct Random {
    state: u32,
}

impl Random {
    /// A number below a bound.
    fn below(&mut self, bound: usize) -> usize
        ensures { 0 < bound → result < bound }
    {
        self.state = self
            .state
            .wrapping_mul(1_664_525)
            .wrapping_add(1_013_904_223);
        if bound == 0 {
            return 0;
        }
        (self.state >> 12) as usize % bound
    }
}

/// Changes a byte, or the four bytes of a word, to a number at an edge or to any number.
fn mutate(elf: &mut [u8], random: &mut Random) {
    let place = random.below(elf.len());
    let number = if random.below(2) == 0 {
        random.below(0x10_0000) as u32
    } else {
        *EDGES.get(random.below(EDGES.len())).unwrap_or(&0)
    };
    let (first, count) = if random.below(2) == 0 {
        (place, 1)
    } else {
        (place / 4 * 4, 4)
    };
    for (at, byte) in elf
        .iter_mut()
        .skip(first)
        .take(count)
        .zip(number.to_le_bytes())
    {
        *at = byte;
    }
}

/// A copy with one to four changes, one in eight of them cut.
fn mutated(alloc: Global, good: &[u8], random: &mut Random) -> Result<Vec<u8>, AllocError> {
    let mut elf = good.to_vec(alloc)?;
    for _ in 0..random.below(4) + 1 {
        mutate(&mut elf, random);
    }
    if random.below(8) == 0 {
        let len = random.below(elf.len());
        elf.truncate(len);
    }
    Ok(elf)
}

/// Tells whether each of so many mutated copies of a file is an image, or is refused by the fault that a plain reading finds; None
/// where no memory is left.
pub fn all_answered(alloc: Global, good: &[u8], copies: u32, seed: u32) -> Option<bool> {
    let mut random = Random { state: seed };
    for _ in 0..copies {
        let elf = mutated(alloc, good, &mut random).ok()?;
        let expected = expected_fault(alloc, &elf).ok()?;
        if parse(alloc, &elf).err() != expected {
            return Some(false);
        }
    }
    Some(true)
}
