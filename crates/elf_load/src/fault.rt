//! Why an ELF file is refused.

ghost use Rattle.std.specs.Prelude.{◌≡◌};
ghost use Rattle.elf_load.specs.Fault.{refusal_number};

use std::alloc::{AllocError, AllocFailed};
use std::error::Error;
use std::fmt;

/// Why a file is no image, numbered 1 to 16 in this order: the first test that fails decides. Its text is `elf refusal` and that
/// number, and of the last `out of memory`.
#[derive(Clone, Copy, Debug, PartialEq, Eq)]
pub enum ElfFault {
    /// The file ends within the ELF header.
    TooShort,
    /// The first four bytes aren't `7F 45 4C 46`.
    NotElf,
    /// The class isn't ELFCLASS32.
    NotClass32,
    /// The byte order isn't ELFDATA2LSB.
    NotLittle,
    /// The type isn't ET_EXEC.
    NotExec,
    /// The machine isn't EM_RISCV.
    NotRiscV,
    /// The flags say that there are compressed instructions.
    Compressed,
    /// There are program headers, and they aren't 32 bytes each or pass the end of the file.
    BadTable,
    /// Some program header is a PT_INTERP.
    Interp,
    /// The bytes of a PT_LOAD pass the end of the file.
    OutsideFile,
    /// A PT_LOAD has more bytes in the file than in memory.
    SizesCrossed,
    /// A PT_LOAD that isn't empty leaves the addresses 0x1000 to 0x6FFFFFFF.
    AddressRange,
    /// Two PT_LOADs share a byte of memory.
    Overlap,
    /// The file or the memory that it asks for is above its limit.
    TooLarge,
    /// No PT_LOAD has a byte of memory.
    NoLoad,
    /// A growth was refused.
    Memory,
}

impl ElfFault {
    /// The fault's number, 1 to 16.
    pub fn number(self) -> u8
        ensures { result ≡ refusal_number self }
    {
        self as u8 + 1
    }
}

impl fmt::Display for ElfFault {
    ghost use Rattle.std.specs.Prelude.{Some};
    ghost use Rattle.elf_load.specs.Fault.{text_of};

    ghost output = { λ fault. Some (text_of fault) };

    fn fmt<W: fmt::Write>(&self, f: &mut fmt::Formatter<W>) -> fmt::Result {
        match self {
            ElfFault::Memory => f.write_str("out of memory"),
            fault => write!(f, "elf refusal {}", fault.number()),
        }
    }
}

impl Error for ElfFault {}

impl From<AllocError> for ElfFault {
    ghost use Rattle.elf_load.specs.declared.fault.ElfFault.TheVariants.{Memory};
    ghost use Rattle.std.specs.Prelude.{◌≡◌};

    ghost from_gives = { λ _ fault. fault ≡ Memory };

    fn from(_: AllocError) -> Self {
        ElfFault::Memory
    }
}

impl<T: Drop> From<AllocFailed<T>> for ElfFault {
    ghost use Rattle.elf_load.specs.declared.fault.ElfFault.TheVariants.{Memory};
    ghost use Rattle.std.specs.Prelude.{◌≡◌};

    ghost from_gives = { λ _ fault. fault ≡ Memory };

    fn from(_: AllocFailed<T>) -> Self {
        ElfFault::Memory
    }
}
