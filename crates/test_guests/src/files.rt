//! Small static programs (System V ABI, ELF32), and guests of them.

use elf_load::parse;
use guest_calls::Guest;
use rrv_model::machine::Version;
use std::alloc::{AllocError, Global};

/// An ELF header and the header of one LOAD: the whole file, at 0x10000, to be read and run from its byte 84 on.
const ONE_LOAD: [u8; 84] = [
    0x7F, 0x45, 0x4C, 0x46, 1, 1, 1, 0, 0, 0, 0, 0, 0, 0, 0, 0, // identification
    2, 0, 0xF3, 0, 1, 0, 0, 0, // type, machine, version
    0x54, 0, 1, 0, 52, 0, 0, 0, 0, 0, 0, 0, // entry, e_phoff, e_shoff
    0, 0, 0, 0, 52, 0, 32, 0, 1, 0, 0, 0, 0, 0, 0, 0, // flags, sizes and counts
    1, 0, 0, 0, 0, 0, 0, 0, 0, 0, 1, 0, 0, 0, 1, 0, // PT_LOAD, offset, addresses
    0, 0, 0, 0, 0, 0, 0, 0, 5, 0, 0, 0, 4, 0, 0, 0, // sizes, flags, alignment
];

/// An ELF header and the headers of two LOADs: the whole file, at 0x10000, to be read and run from its byte 116 on; and its
/// first word once more at 0x11000, to be read and written.
const TWO_LOADS: [u8; 116] = [
    0x7F, 0x45, 0x4C, 0x46, 1, 1, 1, 0, 0, 0, 0, 0, 0, 0, 0, 0, // identification
    2, 0, 0xF3, 0, 1, 0, 0, 0, // type, machine, version
    0x74, 0, 1, 0, 52, 0, 0, 0, 0, 0, 0, 0, // entry, e_phoff, e_shoff
    0, 0, 0, 0, 52, 0, 32, 0, 2, 0, 0, 0, 0, 0, 0, 0, // flags, sizes and counts
    1, 0, 0, 0, 0, 0, 0, 0, 0, 0, 1, 0, 0, 0, 1, 0, // PT_LOAD, offset, addresses
    0, 0, 0, 0, 0, 0, 0, 0, 5, 0, 0, 0, 0, 0x10, 0, 0, // sizes, flags, alignment
    1, 0, 0, 0, 0, 0, 0, 0, 0, 0x10, 1, 0, 0, 0x10, 1, 0, // PT_LOAD, offset, addresses
    4, 0, 0, 0, 4, 0, 0, 0, 6, 0, 0, 0, 0, 0x10, 0, 0, // sizes, flags, alignment
];

/// `li a0, 5; li a7, 93; ecall`: exits with 5.
pub const EXIT_FIVE: [u32; 3] = [0x0050_0513, 0x05D0_0893, 0x0000_0073];

/// It stores `hi` and a newline below the stack pointer by its fourth instruction, writes these three bytes by its eighth, and
/// exits with 0 by its eleventh.
pub const HELLO: [u32; 11] = [
    0xFF01_0593, // addi a1, sp, -16
    0x000A_7537, // lui a0, 0xA7
    0x9685_0513, // addi a0, a0, -1688
    0x00A5_A023, // sw a0, 0(a1)
    0x0010_0513, // li a0, 1
    0x0030_0613, // li a2, 3
    0x0400_0893, // li a7, 64
    0x0000_0073, // ecall
    0x0000_0513, // li a0, 0
    0x05D0_0893, // li a7, 93
    0x0000_0073, // ecall
];

/// It waits for 5,000,000 nanoseconds at a word of its stack by its tenth instruction, and exits with the low byte of what it finds.
pub const ONE_WAIT: [u32; 12] = [
    0xFC01_0113, // addi sp, sp, -64
    0x004C_52B7, // lui t0, 0x4C5
    0xB402_8293, // addi t0, t0, -1216
    0x0051_2423, // sw t0, 8(sp)
    0x0201_0513, // addi a0, sp, 32
    0x0000_0593, // li a1, 0
    0x0000_0613, // li a2, 0
    0x0001_0693, // mv a3, sp
    0x0620_0893, // li a7, 98
    0x0000_0073, // ecall
    0x05D0_0893, // li a7, 93
    0x0000_0073, // ecall
];

/// It counts up in s0, and stores each count at 0x7FF00000, in the stack: each third instruction is a store.
pub const COUNT_UP: [u32; 4] = [
    0x7FF0_05B7, // lui a1, 0x7FF00
    0x0014_0413, // addi s0, s0, 1
    0x0085_A023, // sw s0, 0(a1)
    0xFF9F_F06F, // j to the second
];

/// The bytes of headers and words, with the file's length at two places of the headers.
fn joined(alloc: Global, headers: &[u8], words: &[u32]) -> Result<Vec<u8>, AllocError> {
    let mut elf = Vec::from_slice(alloc, headers)?;
    for word in words {
        elf.extend_from_slice(&word.to_le_bytes())?;
    }
    Ok(elf)
}

/// Puts the file's length where the header of its first LOAD has its sizes.
fn with_sizes(mut elf: Vec<u8>, at: usize) -> Vec<u8> {
    let len = u32::try_from(elf.len()).unwrap_or(u32::MAX);
    for (place, byte) in len.to_le_bytes().iter().enumerate() {
        if let Some(slot) = elf.get_mut(at.wrapping_add(place)) {
            *slot = *byte;
        }
        if let Some(slot) = elf.get_mut(at.wrapping_add(place).wrapping_add(4)) {
            *slot = *byte;
        }
    }
    elf
}

/// A file of these instructions: one LOAD, at 0x10000, which starts with the first of them at 0x10054.
pub fn file_of(alloc: Global, words: &[u32]) -> Result<Vec<u8>, AllocError> {
    let elf = joined(alloc, &ONE_LOAD, words)?;
    Ok(with_sizes(elf, 68))
}

/// The same with a word at 0x11000 that may be written, the file's first; it starts at 0x10074.
pub fn file_with_data(alloc: Global, words: &[u32]) -> Result<Vec<u8>, AllocError> {
    let elf = joined(alloc, &TWO_LOADS, words)?;
    Ok(with_sizes(elf, 68))
}

/// A guest of a version and a file, with this byte as each of its random ones; None where the file is none that runs, or no memory is
/// left.
pub fn guest_of_version(alloc: Global, version: Version, elf: &[u8], random: u8) -> Option<Guest> {
    let image = parse(alloc, elf).ok()?;
    Guest::open(alloc, version, &image, b"a", [random; 16]).ok()
}

/// One of version 1.
pub fn guest_of_file(alloc: Global, elf: &[u8], random: u8) -> Option<Guest> {
    guest_of_version(alloc, Version::One, elf, random)
}
