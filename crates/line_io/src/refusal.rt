//! Why a line of the program did not do what it asks for.

ghost use Rattle.std.specs.Prelude.{◌≡◌, ◌≢◌, false};
ghost use Rattle.line_io.specs.Told.{IsChecked, IsInWords, copy_told, create_told, elf_told, file_told, log_told, open_told, output_told, read_told, seek_told, session_told, verify_told};
ghost use Rattle.line_io.specs.declared.refusal.Refusal.TheVariants as refusals;

use crate::file_fault::{FileFault, FirstLine};
use crate::printing::OutputFailed;
use command_line::BadSeed;
use copying::CopyFault;
use elf_load::ElfFault;
use escapes::Escaped;
use faults::{OutputFault, SeekFault, SessionFault, VerifyFault};
use recover::{OpenFault, ReadFault};
use rrv_model::refusal;
use std::alloc::{AllocError, AllocFailed, Global};
use thiserror::Error;
use trace_disk::{CannotOpen, CreateFault, DiskFailed};
use trace_log::LogFault;

/// Why a line was refused. The text is what the program prints behind `rrv: `. It repeats names of files with their control characters
/// escaped.
#[derive(Debug, Drop, Error)]
pub enum Refusal {
    /// The seed isn't 32 hexadecimal digits.
    #[error("bad seed")]
    BadSeed,
    /// The file of a store can't be opened or made.
    #[error("cannot open store")]
    CannotOpenStore,
    /// The file can't be read, or it is above its limit.
    #[error("cannot read file")]
    CannotReadFile,
    /// The file, which is to be checked, isn't taken.
    #[error("{}: {fault}", Escaped::path(.file.as_str()))]
    BadFile {
        file: String,
        fault: FileFault,
    },
    /// A file of a recording isn't taken. The text's first line is that of the same refusal without words, and the second names the file.
    #[error("{first}\n{}: {fault}", Escaped::path(.file.as_str()))]
    InWords {
        first: FirstLine,
        file: String,
        fault: FileFault,
    },
    /// This line of a file of choices is none. The text's second line names the file and the line, counted from 1.
    #[error("bad choices\n{}:{line}", Escaped::path(.file.as_str()))]
    BadChoices {
        file: String,
        line: u64,
    },
    /// The file is no program that a guest can run.
    #[error("guest {guest}: {fault}")]
    Elf {
        guest: u32,
        fault: ElfFault,
    },
    /// A call of the disk failed.
    #[error("device failed")]
    DeviceFailed,
    /// The disk holds no store that can be opened.
    #[error("{fault}")]
    Open {
        fault: OpenFault,
    },
    /// The guest's records are no recording, or one of them was not read.
    #[error("{fault}")]
    Verify {
        fault: VerifyFault,
    },
    /// The store has no guest of this number.
    #[error("no such guest")]
    NoSuchGuest,
    /// The place lies outside the recording.
    #[error("{fault}")]
    Seek {
        fault: SeekFault,
    },
    /// The session met what only a session meets.
    #[error("{fault}")]
    Session {
        fault: SessionFault,
    },
    /// The file of a core can't be made; one that is there is kept.
    #[error("cannot make core file")]
    CannotMakeCore,
    /// The file of a core can't be written whole; nothing of it is left.
    #[error("cannot write core file")]
    CannotWriteCore,
    /// A guest is to be copied to the store in which it is.
    #[error("same store")]
    SameStore,
    /// The guest can't be copied, or not whole, for what only a copy meets.
    #[error("{fault}")]
    Copy {
        fault: CopyFault,
    },
    /// The host doesn't tell the time.
    #[error("cannot read clock")]
    NoClock,
    /// The output could not be written.
    #[error("output failed")]
    OutputFailed,
    /// The reader of the output went away, who has what he wanted: this is told by the status alone.
    #[error("output failed")]
    ReaderGone,
    /// A growth was refused.
    #[error("out of memory")]
    Memory,
}

impl From<OutputFailed> for Refusal {
    ghost from_gives = { λ _ e. e ≡ refusals.OutputFailed };

    fn from(_: OutputFailed) -> Self {
        Refusal::OutputFailed
    }
}

impl From<SessionFault> for Refusal {
    ghost from_gives = { λ fault e. e ≡ session_told fault };

    fn from(fault: SessionFault) -> Self {
        match fault {
            SessionFault::DeviceFailed => Refusal::DeviceFailed,
            SessionFault::Memory => Refusal::Memory,
            SessionFault::SinkFailed { .. } => Refusal::OutputFailed,
            fault => Refusal::Session { fault },
        }
    }
}

impl From<BadSeed> for Refusal {
    ghost from_gives = { λ _ e. e ≡ refusals.BadSeed };

    fn from(_: BadSeed) -> Self {
        Refusal::BadSeed
    }
}

impl From<CannotOpen> for Refusal {
    ghost from_gives = { λ _ e. e ≡ refusals.CannotOpenStore };

    fn from(_: CannotOpen) -> Self {
        Refusal::CannotOpenStore
    }
}

impl From<DiskFailed> for Refusal {
    ghost from_gives = { λ _ e. e ≡ refusals.DeviceFailed };

    fn from(_: DiskFailed) -> Self {
        Refusal::DeviceFailed
    }
}

impl From<CreateFault> for Refusal {
    ghost from_gives = { λ fault e. e ≡ create_told fault };

    fn from(fault: CreateFault) -> Self {
        match fault {
            CreateFault::CannotOpen => Refusal::CannotOpenStore,
            CreateFault::DeviceFailed => Refusal::DeviceFailed,
        }
    }
}

impl From<SeekFault> for Refusal {
    ghost from_gives = { λ fault e. e ≡ seek_told fault };

    fn from(fault: SeekFault) -> Self {
        match fault {
            SeekFault::Memory => Refusal::Memory,
            fault => Refusal::Seek { fault },
        }
    }
}

impl From<OutputFault> for Refusal {
    ghost from_gives = { λ fault e. e ≡ output_told fault };

    fn from(fault: OutputFault) -> Self {
        match fault {
            OutputFault::SinkFailed => Refusal::OutputFailed,
            OutputFault::Memory => Refusal::Memory,
        }
    }
}

impl From<refusal::Memory> for Refusal {
    ghost from_gives = { λ _ e. e ≡ refusals.Memory };

    fn from(_: refusal::Memory) -> Self {
        Refusal::Memory
    }
}

impl From<CopyFault> for Refusal {
    ghost from_gives = { λ fault e. e ≡ copy_told fault };

    fn from(fault: CopyFault) -> Self {
        match fault {
            CopyFault::Unread { index, fault } => Refusal::of_record(index, fault),
            CopyFault::DeviceFailed => Refusal::DeviceFailed,
            CopyFault::Memory => Refusal::Memory,
            fault => Refusal::Copy { fault },
        }
    }
}

impl From<AllocError> for Refusal {
    ghost from_gives = { λ _ e. e ≡ refusals.Memory };

    fn from(_: AllocError) -> Self {
        Refusal::Memory
    }
}

impl<T: Drop> From<AllocFailed<T>> for Refusal {
    ghost from_gives = { λ _ e. e ≡ refusals.Memory };

    fn from(_: AllocFailed<T>) -> Self {
        Refusal::Memory
    }
}

impl From<VerifyFault> for Refusal {
    ghost from_gives = { λ fault e. e ≡ verify_told fault };

    fn from(fault: VerifyFault) -> Self {
        match fault {
            VerifyFault::Memory => Refusal::Memory,
            fault => Refusal::Verify { fault },
        }
    }
}

impl From<LogFault> for Refusal {
    ghost from_gives = { λ fault e. e ≡ log_told fault };

    fn from(fault: LogFault) -> Self {
        match fault {
            LogFault::Memory => Refusal::Memory,
            LogFault::TooLong => Refusal::from(SessionFault::StoreFull),
            LogFault::DeviceFailed | LogFault::Broken | LogFault::NotEmpty => Refusal::DeviceFailed,
        }
    }
}

impl From<OpenFault> for Refusal {
    ghost from_gives = { λ fault e. e ≡ open_told fault };

    fn from(fault: OpenFault) -> Self {
        match fault {
            OpenFault::DeviceFailed => Refusal::DeviceFailed,
            OpenFault::Memory => Refusal::Memory,
            fault => Refusal::Open { fault },
        }
    }
}

impl Refusal {
    /// The refusal of a file of a recording. If it is a program, then of this guest.
    pub fn of_file(guest: u32, fault: FileFault) -> Self
        ensures { result ≡ file_told guest fault }
    {
        match fault {
            FileFault::Unread(_) | FileFault::TooLong { .. } => Refusal::CannotReadFile,
            FileFault::NoProgram { fault, .. } => Refusal::of_elf(guest, fault),
            FileFault::Memory => Refusal::Memory,
        }
    }

    /// The same, told in words where `in_words` says so. Where there is no memory for these, it is told without.
    pub(crate) fn of_file_at(
        alloc: Global,
        guest: u32,
        path: &str,
        fault: FileFault,
        in_words: bool,
    ) -> Self
        ensures plain { in_words ≡ false → result ≡ file_told guest fault }
        ensures memory { fault ≡ FileFault.Memory → result ≡ Refusal.Memory }
        ensures words { IsInWords guest path.now fault result }
    {
        if !in_words || matches!(fault, FileFault::Memory) {
            return Refusal::of_file(guest, fault);
        }
        match String::from_str(alloc, path) {
            Ok(file) => Refusal::InWords {
                first: FirstLine::new(guest, fault),
                file,
                fault,
            },
            Err(_) => Refusal::of_file(guest, fault),
        }
    }

    /// The refusal of a file that is to be checked.
    pub fn of_checked(alloc: Global, path: &str, fault: FileFault) -> Self
        ensures memory { fault ≡ FileFault.Memory → result ≡ Refusal.Memory }
        ensures checked { IsChecked path.now fault result }
    {
        if matches!(fault, FileFault::Memory) {
            return Refusal::Memory;
        }
        match String::from_str(alloc, path) {
            Ok(file) => Refusal::BadFile { file, fault },
            Err(_) => Refusal::Memory,
        }
    }

    /// The refusal of what is done over a disk in memory, which fails only for want of that.
    pub fn in_memory(self) -> Self
        ensures disk { self ≡ Refusal.DeviceFailed → result ≡ Refusal.Memory }
        ensures other { self ≢ Refusal.DeviceFailed → result ≡ self }
    {
        match self {
            Refusal::DeviceFailed => Refusal::Memory,
            other => other,
        }
    }

    /// The refusal of a guest's record of this index, which was not read.
    pub fn of_record(index: u32, fault: ReadFault) -> Self
        ensures { result ≡ read_told index fault }
    {
        match fault {
            ReadFault::DeviceFailed => Refusal::DeviceFailed,
            ReadFault::Damaged => Refusal::Verify {
                fault: VerifyFault::Unreadable {
                    index: index as usize,
                },
            },
            ReadFault::Memory => Refusal::Memory,
        }
    }

    /// The refusal of a file as the program of this guest.
    pub fn of_elf(guest: u32, fault: ElfFault) -> Self
        ensures { result ≡ elf_told guest fault }
    {
        match fault {
            ElfFault::Memory => Refusal::Memory,
            fault => Refusal::Elf { guest, fault },
        }
    }
}
