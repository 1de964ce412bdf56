//! How refusals are told: each has its text, and those of the layers below become the program's.

use super::{same, shows};
use command_line::BadSeed;
use commands::{report, report_unread};
use copying::CopyFault;
use elf_load::ElfFault;
use guest_calls::{SetPageFault, SetRestFault};
use line_io::{FileFault, Refusal};
use recover::{OpenFault, ReadFault};
use replayer::{OutputFault, VerifyFault};
use reverse_step::SeekFault;
use serial_sched::{FollowFault, SliceFault};
use session::SessionFault;
use std::alloc::AllocError;
use std::fmt::Display;
use std::io::{self, ErrorKind};
use std::process::Abort;
use std::test::Fail;
use trace_disk::CannotOpen;

/// Ends the test where one of these is shown by another text than the one beside it.
fn show<R: Abort + AllocGlobal, T: Display>(rt: &R, rows: &[(T, &str)]) -> Result<(), Fail> {
    for (shown, want) in rows {
        shows(rt, shown, want)?;
    }
    Ok(())
}

#[test]
fn texts_of_refusals(rt: HostRuntime) -> Result<(), Fail> {
    show(
        &rt,
        &[
            (Refusal::from(BadSeed), "bad seed"),
            (Refusal::from(CannotOpen), "cannot open store"),
            (Refusal::CannotReadFile, "cannot read file"),
            (
                Refusal::of_elf(0, ElfFault::Compressed),
                "guest 0: elf refusal 7",
            ),
            (
                Refusal::of_elf(3, ElfFault::NotElf),
                "guest 3: elf refusal 2",
            ),
            (Refusal::of_elf(0, ElfFault::Memory), "out of memory"),
            (Refusal::DeviceFailed, "device failed"),
            (Refusal::NoSuchGuest, "no such guest"),
            (Refusal::from(SeekFault::BeforeStart), "before the start"),
            (Refusal::from(SeekFault::PastEnd), "past the end"),
            (Refusal::from(SeekFault::Memory), "out of memory"),
            (Refusal::NoClock, "cannot read clock"),
            (Refusal::OutputFailed, "output failed"),
            (Refusal::from(OutputFault::SinkFailed), "output failed"),
            (Refusal::from(OutputFault::Memory), "out of memory"),
            (Refusal::Memory, "out of memory"),
            (Refusal::DeviceFailed.in_memory(), "out of memory"),
            (
                Refusal::from(SessionFault::SinkFailed { guest: 0 }).in_memory(),
                "output failed",
            ),
            (
                Refusal::from(SessionFault::Held { guest: 0 }).in_memory(),
                "guest 0: held",
            ),
            (
                Refusal::from(SessionFault::StoreFull).in_memory(),
                "store full",
            ),
        ],
    )
}

#[test]
fn names_of_files_are_escaped(rt: HostRuntime) -> Result<(), Fail> {
    let name = "\u{1b}[31m\t\u{7f}\u{9b}\u{a0} \\x1b";
    let shown = "\\x1b[31m\\x09\\x7f\\xc2\\x9b\u{a0} \\x1b";
    let refused = Refusal::BadChoices {
        file: String::from_str(rt.alloc(), name)?,
        line: 3,
    };
    let want = format!(in rt.alloc(); "bad choices\n{shown}:3")?;
    shows(&rt, &refused, want.as_str())?;
    let refused = Refusal::of_checked(rt.alloc(), name, FileFault::TooLong { most: 8 });
    let want = format!(in rt.alloc(); "{shown}: longer than 8 bytes")?;
    shows(&rt, &refused, want.as_str())
}

#[test]
fn refusals_of_a_session(rt: HostRuntime) -> Result<(), Fail> {
    let sink = SessionFault::SinkFailed { guest: 2 };
    shows(&rt, &sink, "guest 2: output failed")?;
    shows(&rt, &Refusal::from(sink), "output failed")?;
    let faults = [
        (SessionFault::DeviceFailed, "device failed"),
        (SessionFault::Held { guest: 3 }, "guest 3: held"),
        (SessionFault::Memory, "out of memory"),
        (SessionFault::TooManyGuests, "too many guests"),
        (SessionFault::StoreFull, "store full"),
        (
            SessionFault::BadOpening { guest: 1 },
            "guest 1: bad opening",
        ),
        (
            SessionFault::NeedsMark { guest: 1 },
            "guest 1: store needs the mark",
        ),
    ];
    for (fault, want) in faults {
        shows(&rt, &fault, want)?;
        shows(&rt, &Refusal::from(fault), want)?;
    }
    Ok(())
}

#[test]
fn refusals_of_a_store(rt: HostRuntime) -> Result<(), Fail> {
    show(
        &rt,
        &[
            (Refusal::from(OpenFault::NotAStore), "not a store"),
            (
                Refusal::from(OpenFault::Damaged { segment: 3 }),
                "damaged segment 3",
            ),
            (Refusal::from(OpenFault::DeviceFailed), "device failed"),
            (Refusal::from(OpenFault::Memory), "out of memory"),
            (Refusal::from(OpenFault::NewerVersion), "newer version"),
        ],
    )
}

#[test]
fn refusals_of_a_read(rt: HostRuntime) -> Result<(), Fail> {
    let faults = [
        (ReadFault::Damaged, "record 4 unreadable"),
        (ReadFault::DeviceFailed, "device failed"),
        (ReadFault::Memory, "out of memory"),
    ];
    for (fault, want) in faults {
        shows(&rt, &Refusal::of_record(4, fault), want)?;
    }
    Ok(())
}

#[test]
fn refusals_of_a_copy(rt: HostRuntime) -> Result<(), Fail> {
    let damaged = CopyFault::Unread {
        index: 4,
        fault: ReadFault::Damaged,
    };
    shows(&rt, &damaged, "record 4: damaged record")?;
    shows(&rt, &Refusal::from(damaged), "record 4 unreadable")?;
    shows(&rt, &Refusal::SameStore, "same store")?;
    let faults = [
        (CopyFault::DeviceFailed, "device failed"),
        (CopyFault::StoreFull, "store full"),
        (CopyFault::TooManyGuests, "too many guests"),
        (CopyFault::NeedsMark, "store needs the mark"),
        (CopyFault::Memory, "out of memory"),
    ];
    for (fault, want) in faults {
        shows(&rt, &fault, want)?;
        shows(&rt, &Refusal::from(fault), want)?;
    }
    Ok(())
}

#[test]
fn refusals_of_a_verification(rt: HostRuntime) -> Result<(), Fail> {
    let faults = [
        (
            VerifyFault::Mismatch { index: 1 },
            "record 1 does not replay",
        ),
        (
            VerifyFault::BadCheckpoint { index: 7 },
            "checkpoint 7 is wrong",
        ),
        (VerifyFault::BadOpening, "bad opening"),
        (VerifyFault::Unreadable { index: 1 }, "record 1 unreadable"),
        (VerifyFault::Memory, "out of memory"),
    ];
    for (fault, want) in faults {
        shows(&rt, &fault, want)?;
        shows(&rt, &Refusal::from(fault), want)?;
    }
    Ok(())
}

#[test]
fn refusals_of_slices_and_frames(rt: HostRuntime) -> Result<(), Fail> {
    show(
        &rt,
        &[
            (SliceFault::NotRunnable, "the thread is not runnable"),
            (SliceFault::BadQuantum, "the quantum is outside the limits"),
            (SliceFault::Ended, "the guest has ended"),
            (SliceFault::Memory, "out of memory"),
            (
                SliceFault::Waiting,
                "all threads wait, and a wait has a timeout",
            ),
            (SliceFault::NotTimed, "the thread has no timed wait"),
        ],
    )?;
    show(
        &rt,
        &[
            (FollowFault::GoesNowhere, "the frame leads nowhere"),
            (FollowFault::Memory, "out of memory"),
        ],
    )
}

#[test]
fn refusals_of_parts_of_a_checkpoint(rt: HostRuntime) -> Result<(), Fail> {
    show(
        &rt,
        &[
            (SetPageFault::NoState, "no state has this page"),
            (SetPageFault::TooManyPages, "too many pages"),
            (SetPageFault::Memory, "out of memory"),
        ],
    )?;
    show(
        &rt,
        &[
            (SetRestFault::NoState, "no state has this rest"),
            (SetRestFault::Memory, "out of memory"),
        ],
    )
}

#[test]
fn words_that_find_no_memory_are_told(rt: HostRuntime) {
    let want: &[u8] = b"rrv: out of memory\n";
    let mut err = Vec::new(rt.alloc());
    let status = report_unread(
        rt.alloc(),
        &io::Error::from(ErrorKind::OutOfMemory),
        &mut err,
    );
    same(&rt, &want, (status, err.as_slice()), (1, want));
}

#[test]
fn a_parser_that_is_out_of_memory_is_told(rt: HostRuntime) {
    let want: &[u8] = b"rrv: out of memory\n";
    let mut out = Vec::new(rt.alloc());
    let mut err = Vec::new(rt.alloc());
    let status = report(
        rt.alloc(),
        &clap::Error::from(AllocError),
        "0123456789ab",
        &mut out,
        &mut err,
    );
    same(
        &rt,
        &want,
        (status, out.is_empty(), err.as_slice()),
        (1, true, want),
    );
}
