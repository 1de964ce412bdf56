//! A guest all of whose pages hold something, and its stores.

ghost use Rattle.std.specs.Prelude.{◌≡◌};
ghost use Rattle.guest_calls.specs.Snapshots.{guest_snapshots};

use guest_calls::{Guest, RunEnd};
use guest_pages::PageView;
use rrv_model::machine::Permissions;
use std::alloc::Global;
use test_guests::files::{file_of, guest_of_file};

/// The pages that are put into the guest, beside its program's own, begin here.
const FIRST_PAGE: u32 = 0x100;

/// The pages of the stack, which an opened guest has.
const STACK: (u32, u32) = (0x7_FF00, 0x8_0000);

/// What stands in each page that is put into the guest.
const BYTES: [u8; 4096] = [0x11; 4096];

const DATA: Permissions = Permissions {
    read: true,
    write: true,
    execute: false,
};

/// Where a guest stores.
#[derive(Clone, Copy, Debug)]
pub enum Stores {
    /// In the words of one page, one after the other, and then from its first again.
    OverOnePage,
    /// In the first word of each of 16 pages, and then from the first page again.
    OverPages,
}

/// How many instructions run before those of the first store.
const START_STEPS: u32 = 4;

/// How many instructions a store takes, with those that lead to the next one.
const STORE_STEPS: u32 = 5;

/// The program that stores without end.
fn program(stores: Stores) -> [u32; 9] {
    let (step, window) = match stores {
        // li t3, 4; lui t2, 1
        Stores::OverOnePage => (0x0040_0E13, 0x0000_13B7),
        // lui t3, 1; lui t2, 16
        Stores::OverPages => (0x0000_1E37, 0x0001_03B7),
    };
    [
        0x0010_0537, // lui a0, 0x100
        step, // t3: from one store to the next
        window, // t2: how many bytes are stored to
        0xFFC3_8393, // addi t2, t2, -4
        0x0072_F333, // and t1, t0, t2
        0x00A3_0333, // add t1, t1, a0
        0x0053_2023, // sw t0, (t1)
        0x01C2_82B3, // add t0, t0, t3
        0xFF1F_F06F, // j, to the and
    ]
}

/// Puts pages into a guest, from a number up to another.
fn put_pages(guest: &mut Guest, first: u32, end: u32) -> Option<()> {
    for number in first..end {
        let page = PageView {
            permissions: DATA,
            bytes: &BYTES,
        };
        guest.set_page(number, Some(page)).ok()?;
    }
    Some(())
}

/// Tests whether a page has a byte that isn't zero.
fn is_filled(page: PageView<'_>) -> bool {
    let bytes = page.bytes;
    bytes.iter().any(|byte| *byte != 0)
}

/// How many pages of a guest have a byte that isn't zero.
fn count_filled(guest: &Guest) -> u32 {
    let mut filled = 0u32;
    for number in 0..STACK.1 {
        if let Some(page) = guest.space().page(number)
            && is_filled(page)
        {
            filled = filled.saturating_add(1);
        }
    }
    filled
}

/// Runs so many instructions of a guest; None where something ends them.
fn run(guest: &mut Guest, steps: u32) -> Option<()>
    ensures { guest_snapshots guest.new ≡ guest_snapshots guest.old }
{
    if !guest.is_running(1) {
        return None;
    }
    let run = guest.run_thread(1, steps);
    if run.end == RunEnd::Limit && run.count == steps {
        Some(())
    } else {
        None
    }
}

/// Makes so many stores of a guest.
pub fn store(guest: &mut Guest, count: u32) -> Option<()>
    ensures { guest_snapshots guest.new ≡ guest_snapshots guest.old }
{
    let steps = count.checked_mul(STORE_STEPS)?;
    run(guest, steps)
}

/// A guest before its first store, with so many pages mapped, none of them all zeros; None where there is none such.
pub fn filled_guest(alloc: Global, stores: Stores, pages: u32) -> Option<Guest> {
    let elf = file_of(alloc, &program(stores)).ok()?;
    let mut guest = guest_of_file(alloc, &elf, 0)?;
    let more = pages.checked_sub(guest.page_count())?;
    put_pages(&mut guest, FIRST_PAGE, FIRST_PAGE.checked_add(more)?)?;
    put_pages(&mut guest, STACK.0, STACK.1)?;
    if guest.page_count() != pages || count_filled(&guest) != pages {
        return None;
    }
    run(&mut guest, START_STEPS)?;
    Some(guest)
}
