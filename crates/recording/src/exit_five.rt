//! The guest of the demonstration: a static RISC-V program of three instructions that exits with status 5.

/// An ELF header of 52 bytes, one program header of 32, and 12 bytes of code, all loaded at 0x10000.
pub const EXIT_FIVE: [u8; 96] = [
    // e_ident: ELF, 32 bits, little-endian, version 1
    0x7F, 0x45, 0x4C, 0x46, 1, 1, 1, 0, 0, 0, 0, 0, 0, 0, 0, 0,
    // e_type executable, e_machine RISC-V, e_version 1
    2, 0, 0xF3, 0, 1, 0, 0, 0,
    // e_entry 0x10054, e_phoff 52, e_shoff 0, e_flags 0
    0x54, 0, 1, 0, 52, 0, 0, 0, 0, 0, 0, 0, 0, 0, 0, 0,
    // e_ehsize 52, e_phentsize 32, e_phnum 1, e_shentsize 0, e_shnum 0, e_shstrndx 0
    52, 0, 32, 0, 1, 0, 0, 0, 0, 0, 0, 0,
    // PT_LOAD: offset 0, vaddr and paddr 0x10000, filesz and memsz 96, flags R and X, align 4
    1, 0, 0, 0, 0, 0, 0, 0, 0, 0, 1, 0, 0, 0, 1, 0, 96, 0, 0, 0, 96, 0, 0, 0, 5, 0, 0, 0, 4, 0, 0,
    0,
    // li a0, 5
    0x13, 0x05, 0x50, 0x00,
    // li a7, 93
    0x93, 0x08, 0xD0, 0x05,
    // ecall
    0x73, 0x00, 0x00, 0x00,
];
