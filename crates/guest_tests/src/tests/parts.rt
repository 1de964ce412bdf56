//! Snapshots of a guest, and the parts of a checkpoint that are put into it.

ghost use Rattle.std.specs.Prelude.{◌≡◌, IfOk, IsSome};
ghost use Rattle.guest_calls.specs.Snapshots.{guest_snapshots};

use crate::tests::rows::{Row, play, same, trial_of};
use guest_calls::{Guest, SetPageFault, SetRestFault};
use guest_pages::{PageView, Snapshot};
use rrv_model::machine::{GuestEnd, Permissions, Thread, Timeout, Version};
use rrv_model::record::CheckpointRest;
use rrv_model::sequence::Sequence;
use std::alloc::Global;
use std::fmt::Display;
use std::process::Abort;
use std::test::Fail;
use test_guests::files::file_of;
use test_guests::harts::{part_of, timed_part_of};
use test_guests::permissions::{CODE, DATA};
use test_guests::trial::{Question, Trial, open_version};

const MMAP: u32 = 222;

const WRITE_ALONE: Permissions = Permissions {
    read: false,
    write: true,
    execute: false,
};

/// Puts a page full of one byte into a guest; None unmaps it.
pub(crate) fn put_page(
    guest: &mut Guest,
    number: u32,
    page: Option<(Permissions, u8)>,
) -> Result<(), SetPageFault>
    ensures { guest_snapshots guest.new ≡ guest_snapshots guest.old }
{
    let Some((permissions, byte)) = page else {
        return guest.set_page(number, None);
    };
    let bytes = [byte; 4096];
    let page = PageView {
        permissions,
        bytes: &bytes,
    };
    guest.set_page(number, Some(page))
}

/// A guest, with one page in place of the image's, one more, and one fewer, and the snapshot of what it was before.
fn with_other_pages(alloc: Global) -> Result<(Trial<'static>, Snapshot), Fail>
    ensures { IfOk result (λ made. IsSome (guest_snapshots made.0.guest made.1)) }
{
    let mut trial = trial_of(alloc, &[0; 8], &[])?;
    let before = trial.guest.snapshot()?;
    put_page(&mut trial.guest, 0x10, Some((CODE, 3)))?;
    put_page(&mut trial.guest, 1, Some((CODE, 3)))?;
    put_page(&mut trial.guest, 0x7_FFFF, None)?;
    Ok((trial, before))
}

#[test]
fn pages_are_put_into_a_guest(rt: HostRuntime) -> Result<(), Fail> {
    let (mut trial, _) = with_other_pages(rt.alloc())?;
    let rows = [
        Row::Finds(Question::Pages, Some(257)),
        Row::Finds(Question::Code(0x1_0000), Some(0x0303_0303)),
        Row::Finds(Question::Byte(0x7FFF_FFFF), None),
        Row::Finds(Question::Ran, Some(0)),
    ];
    play(&rt, rt.alloc(), &mut trial, &rows)
}

/// The second byte of a page that a snapshot of a guest keeps.
fn kept_byte(guest: &Guest, before: &Snapshot, number: u32) -> Option<u8>
    requires { IsSome (guest_snapshots guest.now before.now) }
{
    guest
        .space()
        .snapshot_page(before, number)
        .map(|page| page.bytes[1])
}

/// The second byte of the image's page and of page 1, as the snapshot of a guest with other pages keeps them.
fn kept_bytes(alloc: Global) -> Result<[Option<u8>; 2], Fail> {
    let (trial, before) = with_other_pages(alloc)?;
    let image = kept_byte(&trial.guest, &before, 0x10);
    Ok([image, kept_byte(&trial.guest, &before, 1)])
}

/// The pages of a guest with other pages that aren't as its snapshot keeps them.
fn changed_pages(alloc: Global) -> Result<Vec<u32>, Fail> {
    let (trial, before) = with_other_pages(alloc)?;
    Ok(trial.guest.space().changed_since(&before)?)
}

#[test]
fn a_snapshot_stays_while_pages_are_put(rt: HostRuntime) -> Result<(), Fail> {
    let kept = kept_bytes(rt.alloc())?;
    same(&rt, &"kept bytes", kept, [Some(0x45), None]);
    let changed = changed_pages(rt.alloc())?;
    let want: [u32; 3] = [1, 0x10, 0x7_FFFF];
    same(&rt, &"changed pages", changed.as_slice(), want.as_slice());
    Ok(())
}

/// Puts a page of another guest into a guest.
fn copy_page(guest: &mut Guest, other: &Guest, number: u32) -> Result<(), SetPageFault>
    ensures { guest_snapshots guest.new ≡ guest_snapshots guest.old }
{
    guest.set_page(number, other.space().page(number))
}

/// Puts pages of another guest in place of a guest's other pages, and tells whether they are in the same state: before, after,
/// and once the snapshot is gone.
fn put_back(alloc: Global) -> Result<[bool; 3], Fail> {
    let (mut trial, before) = with_other_pages(alloc)?;
    let other = trial_of(alloc, &[0; 8], &[])?;
    let first = trial.same(&other);
    copy_page(&mut trial.guest, &other.guest, 1)?;
    copy_page(&mut trial.guest, &other.guest, 0x10)?;
    copy_page(&mut trial.guest, &other.guest, 0x7_FFFF)?;
    let second = trial.same(&other);
    trial.guest.drop_snapshot(before);
    Ok([first, second, trial.same(&other)])
}

#[test]
fn pages_that_were_read_are_put_back(rt: HostRuntime) -> Result<(), Fail> {
    let told = put_back(rt.alloc())?;
    same(&rt, &"the same state", told, [false, true, true]);
    Ok(())
}

#[test]
fn no_state_has_these_pages(rt: HostRuntime) -> Result<(), Fail> {
    let mut trial = trial_of(rt.alloc(), &[0; 8], &[])?;
    let other = trial_of(rt.alloc(), &[0; 8], &[])?;
    for number in [0, 0x8_0000, 0xF_FFFF, 0x10_0000, u32::MAX] {
        let rows = [
            Row::PutPage(number, Some((DATA, 1)), Err(SetPageFault::NoState)),
            Row::PutPage(number, None, Ok(())),
        ];
        play(&rt, rt.alloc(), &mut trial, &rows)?;
    }
    let page = Some((WRITE_ALONE, 1));
    let rows = [Row::PutPage(0x10, page, Err(SetPageFault::NoState))];
    play(&rt, rt.alloc(), &mut trial, &rows)?;
    same(&rt, &"the same state", trial.same(&other), true);
    Ok(())
}

#[test]
fn the_limit_of_pages_put_into_a_guest(rt: HostRuntime) -> Result<(), Fail> {
    let mut trial = trial_of(rt.alloc(), &[0; 8], &[])?;
    let page = Some((DATA, 1));
    let full = Row::Finds(Question::Pages, Some(16_384));
    let rows = [
        Row::Call(1, MMAP, [0x100_0000, 0x3EF_F000, 3, 0x32, 0], 0x100_0000),
        full,
        Row::PutPage(0, page, Err(SetPageFault::NoState)),
        full,
        Row::PutPage(1, page, Err(SetPageFault::TooManyPages)),
        full,
        Row::PutPage(0x1000, page, Ok(())),
        full,
        Row::Finds(Question::Byte(0x100_0000), Some(1)),
        Row::PutPage(0x1001, None, Ok(())),
        Row::PutPage(1, page, Ok(())),
        full,
    ];
    play(&rt, rt.alloc(), &mut trial, &rows)
}

/// A rest with a thread that waits and one that runs, up to the given break.
fn rest_with(alloc: Global, program_break: u32, tids: [u32; 2]) -> Result<CheckpointRest, Fail> {
    let threads = [part_of(tids[0], Some(8)), part_of(tids[1], None)];
    Ok(CheckpointRest {
        program_break,
        next_tid: 8,
        threads: Sequence::from_vec(threads.to_vec(alloc)?),
        waiting: Sequence::from_vec([tids[0]].to_vec(alloc)?),
    })
}

/// Puts a rest into a guest: the break, and the tids of a thread that waits and one that runs.
fn set_rest(
    alloc: Global,
    trial: &mut Trial<'_>,
    program_break: u32,
    tids: [u32; 2],
) -> Result<Result<(), SetRestFault>, Fail> {
    let rest = rest_with(alloc, program_break, tids)?;
    Ok(trial.guest.set_rest(alloc, &rest))
}

/// Ends a guest and then puts a rest into it, and gives the pages that this changes.
fn changed_by_rest(alloc: Global, trial: &mut Trial<'_>) -> Result<Vec<u32>, Fail> {
    let rest = rest_with(alloc, 0x1_1010, [3, 7])?;
    let before = trial.guest.snapshot()?;
    trial.guest.close_slice(Some(GuestEnd::Exited(5)));
    trial.guest.set_rest(alloc, &rest)?;
    Ok(trial.guest.space().changed_since(&before)?)
}

/// A thread of a guest.
fn thread_of(trial: &Trial<'_>, tid: u32) -> Option<Thread> {
    trial.guest.thread(tid)
}

#[test]
fn the_rest_of_a_checkpoint_is_taken(rt: HostRuntime) -> Result<(), Fail> {
    let mut trial = trial_of(rt.alloc(), &[0; 8], &[])?;
    let changed = changed_by_rest(rt.alloc(), &mut trial)?;
    same(&rt, &"pages that it changes", changed.is_empty(), true);
    let rows = [
        Row::Ended(None),
        Row::Finds(Question::Reservation, None),
        Row::Finds(Question::Break, Some(0x1_1010)),
        Row::Finds(Question::NextTid, Some(8)),
        Row::Waiting(&[3]),
        Row::Finds(Question::Runs(7), Some(1)),
        Row::Finds(Question::Runs(3), Some(0)),
    ];
    play(&rt, rt.alloc(), &mut trial, &rows)?;
    same(&rt, &"thread 1", thread_of(&trial, 1), None);
    let thread = part_of(7, None).thread;
    same(&rt, &"thread 7", thread_of(&trial, 7), Some(thread));
    Ok(())
}

#[test]
fn a_guest_of_the_same_rest_is_in_the_same_state(rt: HostRuntime) -> Result<(), Fail> {
    let mut trial = trial_of(rt.alloc(), &[0; 8], &[])?;
    let _ = changed_by_rest(rt.alloc(), &mut trial)?;
    let mut other = trial_of(rt.alloc(), &[0; 8], &[])?;
    same(&rt, &"before", other.same(&trial), false);
    let taken = set_rest(rt.alloc(), &mut other, 0x1_1010, [3, 7])?;
    same(&rt, &"the rest is taken", taken, Ok(()));
    same(&rt, &"after", other.same(&trial), true);
    Ok(())
}

#[test]
fn no_state_has_this_rest(rt: HostRuntime) -> Result<(), Fail> {
    let mut trial = trial_of(rt.alloc(), &[0; 8], &[])?;
    let other = trial_of(rt.alloc(), &[0; 8], &[])?;
    let cases = [
        (0x1_0FFF, [3, 7], "below the opening break"),
        (0x7000_0001, [3, 7], "past the highest break"),
        (0x1_1000, [7, 3], "falling tids"),
        (0x1_1000, [3, 8], "the next tid"),
    ];
    for (program_break, tids, why) in cases {
        let taken = set_rest(rt.alloc(), &mut trial, program_break, tids)?;
        same(&rt, &why, taken, Err(SetRestFault::NoState));
        same(&rt, &why, trial.same(&other), true);
    }
    for program_break in [0x1_1000, 0x7000_0000] {
        let taken = set_rest(rt.alloc(), &mut trial, program_break, [3, 7])?;
        same(&rt, &program_break, taken, Ok(()));
    }
    Ok(())
}

/// A rest with a thread that waits for a time and one that runs.
fn rest_that_waits(alloc: Global, timeout: Timeout) -> Result<CheckpointRest, Fail> {
    let threads = [timed_part_of(3, 8, timeout), part_of(7, None)];
    Ok(CheckpointRest {
        program_break: 0x1_1000,
        next_tid: 8,
        threads: Sequence::from_vec(threads.to_vec(alloc)?),
        waiting: Sequence::from_vec([3].to_vec(alloc)?),
    })
}

/// Puts a rest with this timeout into a guest of a version.
fn set_timeout(
    alloc: Global,
    version: Version,
    timeout: Timeout,
) -> Result<Result<(), SetRestFault>, Fail> {
    let elf = file_of(alloc, &[0; 8])?;
    let mut trial = open_version(alloc, version, &elf, &[]).ok_or("no guest")?;
    let rest = rest_that_waits(alloc, timeout)?;
    Ok(trial.guest.set_rest(alloc, &rest))
}

#[test]
fn a_state_of_version_2_has_this_timeout(rt: HostRuntime) -> Result<(), Fail> {
    let none = Err(SetRestFault::NoState);
    let cases = [
        (Version::One, 0, 5, none),
        (Version::Two, 0, 5, Ok(())),
        (Version::Two, 0x7FFF_FFFF_FFFF_FFFF, 999_999_999, Ok(())),
        (Version::Two, 0, 1_000_000_000, none),
        (Version::Two, 0x8000_0000_0000_0000, 0, none),
    ];
    for (version, seconds, nanoseconds, want) in cases {
        let timeout = Timeout {
            seconds,
            nanoseconds,
        };
        let taken = set_timeout(rt.alloc(), version, timeout)?;
        same(&rt, &seconds, taken, want);
    }
    Ok(())
}

/// Tests what a value's text is.
fn check_text(
    rt: &impl Abort,
    alloc: Global,
    value: &impl Display,
    text: &str,
) -> Result<(), Fail> {
    let told = format!(in alloc; "{value}")?;
    same(rt, &text, told.as_str(), text);
    Ok(())
}

#[test]
fn says_why_it_refuses(rt: HostRuntime) -> Result<(), Fail> {
    for (fault, text) in [
        (SetPageFault::NoState, "no state has this page"),
        (SetPageFault::TooManyPages, "too many pages"),
        (SetPageFault::Memory, "out of memory"),
    ] {
        check_text(&rt, rt.alloc(), &fault, text)?;
    }
    for (fault, text) in [
        (SetRestFault::NoState, "no state has this rest"),
        (SetRestFault::Memory, "out of memory"),
    ] {
        check_text(&rt, rt.alloc(), &fault, text)?;
    }
    Ok(())
}
