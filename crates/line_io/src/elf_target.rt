//! What the header of an ELF file says that the file is for.

ghost use Rattle.std.specs.Prelude.{◌≤◌};

use std::fmt;
use std::fmt::{Display, Formatter};

/// The places of fields (System V ABI, "ELF Header"), which are the same for 32 and 64 bits.
const EI_CLASS: usize = 4;

const EI_DATA: usize = 5;

const E_TYPE: usize = 16;

const E_MACHINE: usize = 18;

const ELFCLASS32: u8 = 1;

const ELFCLASS64: u8 = 2;

/// The high byte of a number comes first.
const ELFDATA2MSB: u8 = 2;

const ET_REL: u16 = 1;

const ET_DYN: u16 = 3;

const ET_CORE: u16 = 4;

/// What an ELF file is for, as its header has it. Its text is how many bits, the order of bytes where the high one comes first, and the
/// machine, as in `64 bits, x86-64`.
#[derive(Clone, Copy, Debug, PartialEq, Eq)]
pub struct ElfTarget {
    class: u8,
    is_high_first: bool,
    kind: u16,
    machine: u16,
}

impl ElfTarget {
    /// What a file is for, with zeros for what it is too short to have.
    pub(crate) fn of(elf: &[u8]) -> Self {
        let is_high_first = byte_at(elf, EI_DATA) == ELFDATA2MSB;
        ElfTarget {
            class: byte_at(elf, EI_CLASS),
            is_high_first,
            kind: half_at(elf, E_TYPE, is_high_first),
            machine: half_at(elf, E_MACHINE, is_high_first),
        }
    }

    /// What to do about a file that isn't of type EXEC, behind a colon.
    pub(crate) fn remedy_of_type(self) -> &'static str {
        match self.kind {
            ET_REL => ": an object file; link it",
            ET_DYN => ": a position-independent file; link with -static -no-pie",
            ET_CORE => ": a core file; name the program",
            _ => ": link with -static",
        }
    }
}

impl Display for ElfTarget {
    fn fmt<W: fmt::Write>(&self, f: &mut Formatter<W>) -> fmt::Result {
        match self.class {
            ELFCLASS32 => f.write_str("32 bits")?,
            ELFCLASS64 => f.write_str("64 bits")?,
            class => write!(f, "class {class}")?,
        }
        if self.is_high_first {
            f.write_str(", high byte first")?;
        }
        match machine_name(self.machine) {
            Some(name) => write!(f, ", {name}"),
            None => {
                let machine = self.machine;
                write!(f, ", machine {machine}")
            }
        }
    }
}

/// The name of a machine by its number; None of those that nobody is likely to name here.
fn machine_name(machine: u16) -> Option<&'static str> {
    match machine {
        3 => Some("x86"),
        8 => Some("MIPS"),
        20 => Some("PowerPC"),
        21 => Some("PowerPC64"),
        22 => Some("S/390"),
        40 => Some("ARM"),
        62 => Some("x86-64"),
        183 => Some("AArch64"),
        243 => Some("RISC-V"),
        258 => Some("LoongArch"),
        _ => None,
    }
}

/// The byte at a place of a file, or 0 where there is none.
fn byte_at(elf: &[u8], place: usize) -> u8 {
    match elf.get(place) {
        Some(byte) => *byte,
        None => 0,
    }
}

/// The two bytes from a place of a file on, with zeros where there are none.
fn half_at(elf: &[u8], place: usize, is_high_first: bool) -> u16
    requires { place ≤ 52 }
{
    let bytes = [byte_at(elf, place), byte_at(elf, place + 1)];
    if is_high_first {
        u16::from_be_bytes(bytes)
    } else {
        u16::from_le_bytes(bytes)
    }
}
