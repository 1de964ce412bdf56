//! Snapshots, with changes between them.

use super::{same, same_numbers};
use guest_pages::{AddressSpace, PageView, Space};
use rrv_model::machine::Permissions;
use std::test::Fail;
use test_guests::permissions::{CODE, CONSTANTS, DATA};

/// A page by its permissions, its first byte and its last.
type Edges = (Permissions, u8, u8);

/// The edges of a page that is there.
fn edges(page: Option<PageView<'_>>) -> Option<Edges> {
    page.map(|page| (page.permissions, page.bytes[0], page.bytes[4095]))
}

/// A page of data with these bytes at its edges.
fn data(first: u8, last: u8) -> Option<Edges> {
    Some((DATA, first, last))
}

#[test]
fn two_snapshots_keep_their_memory(rt: HostRuntime) -> Result<(), Fail> {
    let mut space = Space::new(rt.alloc());
    space.map(1, 3, DATA)?;
    space.store_byte(0x1000, 1)?;
    let first = space.snapshot()?;
    space.store_byte(0x1000, 2)?;
    space.unmap(2, 1);
    let second = space.snapshot()?;
    space.protect(3, 1, CONSTANTS)?;
    space.map(5, 1, CODE)?;
    space.store_byte(0x1FFF, 9)?;

    let page = edges(space.snapshot_page(&first, 1));
    same(&rt, &"the first's page 1", page, data(1, 0));
    let page = edges(space.snapshot_page(&second, 1));
    same(&rt, &"the second's page 1", page, data(2, 0));
    same(&rt, &"page 1", edges(space.page(1)), data(2, 9));
    let page = edges(space.snapshot_page(&first, 2));
    same(&rt, &"the first's page 2", page, data(0, 0));
    let page = edges(space.snapshot_page(&second, 2));
    same(&rt, &"the second's page 2", page, None);
    let changed = space.changed_since(&first)?;
    same_numbers(&rt, &"since the first", &changed, &[1, 2, 3, 5]);
    let changed = space.changed_since(&second)?;
    same_numbers(&rt, &"since the second", &changed, &[1, 3, 5]);
    space.drop_snapshot(first);
    space.drop_snapshot(second);
    Ok(())
}

#[test]
fn a_dropped_snapshot_leaves_the_others(rt: HostRuntime) -> Result<(), Fail> {
    let mut space = Space::new(rt.alloc());
    space.map(1, 1, DATA)?;
    let first = space.snapshot()?;
    space.store_byte(0x1000, 1)?;
    let second = space.snapshot()?;
    space.drop_snapshot(first);
    space.map(1, 1, DATA)?;
    let third = space.snapshot()?;
    let changed = space.changed_since(&second)?;
    same_numbers(&rt, &"since the second", &changed, &[1]);
    let changed = space.changed_since(&third)?;
    same_numbers(&rt, &"since the third", &changed, &[]);
    let page = edges(space.snapshot_page(&second, 1));
    same(&rt, &"the second's page 1", page, data(1, 0));
    let page = edges(space.snapshot_page(&third, 1));
    same(&rt, &"the third's page 1", page, data(0, 0));
    Ok(())
}

#[test]
fn each_kind_of_change(rt: HostRuntime) -> Result<(), Fail> {
    let mut space = Space::new(rt.alloc());
    space.map(1, 4, DATA)?;
    let before = space.snapshot()?;
    let changed = space.changed_since(&before)?;
    same_numbers(&rt, &"none", &changed, &[]);
    space.store_byte(0x1FFF, 1)?;
    space.protect(2, 1, CONSTANTS)?;
    space.unmap(3, 1);
    space.map(4, 1, DATA)?;
    space.map(0x7_FFFF, 1, CODE)?;
    let changed = space.changed_since(&before)?;
    same_numbers(&rt, &"each kind", &changed, &[1, 2, 3, 0x7_FFFF]);
    space.store_byte(0x1FFF, 0)?;
    space.protect(2, 1, DATA)?;
    space.map(3, 1, DATA)?;
    space.unmap(0x7_FFFF, 1);
    let changed = space.changed_since(&before)?;
    same_numbers(&rt, &"all back", &changed, &[]);
    Ok(())
}

#[test]
fn a_snapshot_stays_while_pages_are_put(rt: HostRuntime) -> Result<(), Fail> {
    let mut space = Space::new(rt.alloc());
    space.map(1, 3, DATA)?;
    space.store_byte(0x2FFF, 5)?;
    let before = space.snapshot()?;
    let page = PageView {
        permissions: CODE,
        bytes: &[3; 4096],
    };
    space.set_page(2, Some(page))?;
    space.set_page(3, None)?;
    space.set_page(4, None)?;
    let page = edges(space.snapshot_page(&before, 2));
    same(&rt, &"page 2 as it was", page, data(0, 5));
    let changed = space.changed_since(&before)?;
    same_numbers(&rt, &"put", &changed, &[2, 3]);
    space.drop_snapshot(before);
    Ok(())
}
