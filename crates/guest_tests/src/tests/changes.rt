//! Which pages a checkpoint names, and which lines of them. The proofs know which snapshot lives, so the changes are no rows.

ghost use Rattle.std.specs.Prelude.{◌≡◌};
ghost use Rattle.guest_calls.specs.Snapshots.{guest_snapshots};

use crate::tests::rows::same;
use checkpoint::make;
use guest_calls::{Guest, SetPageFault};
use guest_pages::PageView;
use rrv_model::machine::Permissions;
use rrv_model::record::Part;
use std::alloc::Global;
use std::process::Abort;
use std::test::Fail;
use test_guests::files::{EXIT_FIVE, file_of, guest_of_file};
use test_guests::permissions::{CONSTANTS, DATA};

/// What a checkpoint names: a page's number, its permissions and its mask.
type Named = (u32, Option<Permissions>, u64);

/// Puts a page of zeros, but for one byte at a place, into a guest; None unmaps it.
fn put(
    guest: &mut Guest,
    number: u32,
    page: Option<(Permissions, usize, u8)>,
) -> Result<(), SetPageFault>
    ensures { guest_snapshots guest.new ≡ guest_snapshots guest.old }
{
    let Some((permissions, place, byte)) = page else {
        return guest.set_page(number, None);
    };
    let mut bytes = [0; 4096];
    if let Some(there) = bytes.get_mut(place) {
        *there = byte;
    }
    let page = PageView {
        permissions,
        bytes: &bytes,
    };
    guest.set_page(number, Some(page))
}

/// What the parts of a checkpoint name, in their order.
fn named(alloc: Global, parts: &[Part]) -> Result<Vec<Named>, Fail> {
    let mut all = Vec::new(alloc);
    for part in parts {
        for page in part.pages.as_slice() {
            all.push((page.number, page.permissions, page.mask))?;
        }
    }
    Ok(all)
}

/// Ends the test where a checkpoint has more parts than one, or names something else.
fn names(
    rt: &impl Abort,
    alloc: Global,
    what: &'static str,
    parts: &[Part],
    want: &[Named],
) -> Result<(), Fail> {
    same(rt, &what, parts.len(), 1);
    let found = named(alloc, parts)?;
    same(rt, &what, found.as_slice(), want);
    Ok(())
}

#[test]
fn a_checkpoint_names_what_changed(rt: HostRuntime) -> Result<(), Fail> {
    let alloc = rt.alloc();
    let file = file_of(alloc, &EXIT_FIVE)?;
    let mut guest = guest_of_file(alloc, &file, 0).ok_or("no guest")?;
    for number in 0x100..0x106u32 {
        put(&mut guest, number, Some((DATA, 64, 7)))?;
    }
    let base = guest.snapshot()?;
    let parts = make(alloc, &guest, &base)?;
    names(&rt, alloc, "nothing", &parts, &[])?;

    put(&mut guest, 0x100, None)?;
    put(&mut guest, 0x101, Some((CONSTANTS, 64, 7)))?;
    put(&mut guest, 0x102, Some((DATA, 64, 8)))?;
    put(&mut guest, 0x103, Some((DATA, 4095, 7)))?;
    put(&mut guest, 0x104, Some((DATA, 64, 7)))?;
    put(&mut guest, 0x106, Some((DATA, 0, 0)))?;
    put(&mut guest, 0x107, Some((DATA, 128, 1)))?;
    let parts = make(alloc, &guest, &base)?;
    let want = [
        (0x100, None, 0),
        (0x101, Some(CONSTANTS), 0),
        (0x102, Some(DATA), 0x0000_0000_0000_0002),
        (0x103, Some(DATA), 0x8000_0000_0000_0002),
        (0x106, Some(DATA), 0),
        (0x107, Some(DATA), 0x0000_0000_0000_0004),
    ];
    names(&rt, alloc, "pages", &parts, &want)?;
    guest.drop_snapshot(base);
    Ok(())
}
