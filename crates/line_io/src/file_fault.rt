//! Why a file of a line isn't taken, in words.

ghost use Rattle.std.specs.Prelude.{◌≡◌, ◌≢◌};
ghost use Rattle.std.specs.IoError.{error_kind};

use crate::elf_target::ElfTarget;
use elf_load::ElfFault;
use rrv_model::limits::MAX_ELF;
use std::alloc::{AllocError, AllocFailed};
use std::fmt::{Display, Formatter};
use std::io::ErrorKind;
use std::{fmt, io};

/// Why a file isn't taken. The text says it in words, and what to do about it.
#[derive(Clone, Copy, Debug)]
pub enum FileFault {
    /// It can't be opened, or a read of it failed.
    Unread(ErrorKind),
    /// It has more than so many bytes, which are the most that it may have.
    TooLong { most: u32 },
    /// It is no program that a guest can run. Its header says that it is for this.
    NoProgram { fault: ElfFault, target: ElfTarget },
    /// A growth was refused.
    Memory,
}

impl FileFault {
    /// That of a file that can't be opened, or that could not be read: `Memory` where that was for want of memory.
    pub fn of_read(error: &io::Error) -> Self
        ensures memory { error_kind error.now ≡ ErrorKind.OutOfMemory → result ≡ FileFault.Memory }
        ensures other { error_kind error.now ≢ ErrorKind.OutOfMemory
            → result ≡ FileFault.Unread (error_kind error.now) }
    {
        match error.kind() {
            ErrorKind::OutOfMemory => FileFault::Memory,
            kind => FileFault::Unread(kind),
        }
    }
}

impl Display for FileFault {
    fn fmt<W: fmt::Write>(&self, f: &mut Formatter<W>) -> fmt::Result {
        match *self {
            FileFault::Unread(ErrorKind::NotFound) => f.write_str("not found"),
            FileFault::Unread(ErrorKind::PermissionDenied) => f.write_str("may not be read"),
            FileFault::Unread(ErrorKind::IsADirectory) => f.write_str("is a folder"),
            FileFault::Unread(_) => f.write_str("can't be read"),
            FileFault::TooLong { most: MAX_ELF } => {
                write!(f, "longer than {MAX_ELF} bytes: strip --strip-debug")
            }
            FileFault::TooLong { most } => write!(f, "longer than {most} bytes"),
            FileFault::NoProgram { fault, target } => write_refusal(f, fault, target),
            FileFault::Memory => f.write_str("out of memory"),
        }
    }
}

impl From<AllocError> for FileFault {
    ghost use Rattle.line_io.specs.declared.file_fault.FileFault.TheVariants.{Memory};

    ghost from_gives = { λ _ e. e ≡ Memory };

    fn from(_: AllocError) -> Self {
        FileFault::Memory
    }
}

impl<T: Drop> From<AllocFailed<T>> for FileFault {
    ghost use Rattle.line_io.specs.declared.file_fault.FileFault.TheVariants.{Memory};

    ghost from_gives = { λ _ e. e ≡ Memory };

    fn from(_: AllocFailed<T>) -> Self {
        FileFault::Memory
    }
}

/// How the refusal of a file of a recording is told without words. If it is a program, then of this guest.
#[derive(Clone, Copy, Debug)]
pub struct FirstLine {
    guest: u32,
    fault: FileFault,
}

impl FirstLine {
    /// That of this file.
    pub fn new(guest: u32, fault: FileFault) -> Self
        ensures { result ≡ record { guest = guest; fault = fault } }
    {
        FirstLine { guest, fault }
    }
}

impl Display for FirstLine {
    fn fmt<W: fmt::Write>(&self, f: &mut Formatter<W>) -> fmt::Result {
        match self.fault {
            FileFault::NoProgram { fault, .. } => {
                let guest = self.guest;
                write!(f, "guest {guest}: {fault}")
            }
            _ => f.write_str("cannot read file"),
        }
    }
}

/// Writes why a file is no program, the number of that refusal, and a remedy or what the file is for.
fn write_refusal<W: fmt::Write>(
    f: &mut Formatter<W>,
    fault: ElfFault,
    target: ElfTarget,
) -> fmt::Result {
    let number = fault.number();
    let reason = reason_of(fault);
    write!(f, "{reason} (refusal {number})")?;
    match fault {
        ElfFault::NotClass32 | ElfFault::NotLittle | ElfFault::NotRiscV => {
            write!(f, ": {target}")
        }
        ElfFault::NotExec => f.write_str(target.remedy_of_type()),
        fault => f.write_str(remedy_of(fault)),
    }
}

/// Why a file is no program.
fn reason_of(fault: ElfFault) -> &'static str {
    match fault {
        ElfFault::TooShort => "shorter than an ELF header",
        ElfFault::NotElf => "no ELF file",
        ElfFault::NotClass32 | ElfFault::NotLittle | ElfFault::NotRiscV => "for another machine",
        ElfFault::NotExec => "not of type EXEC",
        ElfFault::Compressed => "may have compressed instructions",
        ElfFault::BadTable => "its table of program headers is wrong",
        ElfFault::Interp => "asks for an interpreter",
        ElfFault::OutsideFile => "a segment lies outside the file",
        ElfFault::SizesCrossed => "a segment has more bytes in the file than in memory",
        ElfFault::AddressRange => "a segment is not within 0x1000 to 0x6fffffff",
        ElfFault::Overlap => "two segments share a byte",
        ElfFault::TooLarge => "its segments touch more than 16128 pages",
        ElfFault::NoLoad => "no segment is loaded",
        ElfFault::Memory => "out of memory",
    }
}

/// What to do about a file that is no program, behind a colon; nothing where there is no general remedy.
fn remedy_of(fault: ElfFault) -> &'static str {
    match fault {
        ElfFault::TooShort | ElfFault::BadTable | ElfFault::OutsideFile => ": is it whole?",
        ElfFault::NotElf => ": name the file that the linker wrote",
        ElfFault::Compressed => ": build with -march=rv32ima",
        ElfFault::Interp => ": link with -static",
        ElfFault::AddressRange => ": link with -Wl,-Ttext-segment=0x10000",
        ElfFault::TooLarge => ": take less static memory",
        _ => "",
    }
}
