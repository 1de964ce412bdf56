//! Growths that may be refused, as under `rt try --test --fail-alloc N`.

use super::code_space::{answers, space_of_code};
use super::{same, same_numbers};
use guest_pages::{AddressSpace, PageFault, Space};
use rrv_model::refusal::Memory;
use std::test::Fail;
use test_guests::permissions::{CODE, DATA};

#[test]
fn a_refused_mapping_leaves_all_as_before(rt: HostRuntime) -> Result<(), Fail> {
    let mut space = Space::new(rt.alloc());
    if let Err(fault) = space.map(1, 3, DATA) {
        same(&rt, &"the first", fault, PageFault::Memory);
        same(&rt, &"no page", space.page_count(), 0);
        space.map(1, 3, DATA)?;
    }
    space.store_word(0x3FFC, 0x0403_0201)?;
    if let Err(fault) = space.map(3, 3, CODE) {
        same(&rt, &"the second", fault, PageFault::Memory);
        same(&rt, &"three pages", space.page_count(), 3);
        let word = space.load_word(0x3FFC);
        same(&rt, &"the word as it was", word, Some(0x0403_0201));
        space.map(3, 3, CODE)?;
    }
    if let Err(fault) = space.cover(6, DATA) {
        same(&rt, &"the third", fault, PageFault::Memory);
        same(&rt, &"five pages", space.page_count(), 5);
        space.cover(6, DATA)?;
    }
    same(&rt, &"six pages", space.page_count(), 6);
    Ok(())
}

#[test]
fn a_refused_snapshot_leaves_all_as_before(rt: HostRuntime) -> Result<(), Fail> {
    let mut space = Space::new(rt.alloc());
    match space.map(1, 3, DATA) {
        Ok(()) => {}
        Err(_) => space.map(1, 3, DATA)?,
    }
    space.store_word(0x1FFE, 0x0403_0201)?;
    let first = match space.snapshot() {
        Ok(token) => token,
        Err(Memory) => space.snapshot()?,
    };
    match space.store_word(0x1FFE, 0) {
        Ok(()) => {}
        Err(_) => space.store_word(0x1FFE, 0)?,
    }
    let second = match space.snapshot() {
        Ok(token) => token,
        Err(Memory) => {
            same(&rt, &"the word", space.load_word(0x1FFE), Some(0));
            let page = space.snapshot_page(&first, 1);
            let byte = page.map(|page| page.bytes[0xFFE]);
            same(&rt, &"the byte as it was", byte, Some(1));
            space.snapshot()?
        }
    };
    let changed = match space.changed_since(&first) {
        Ok(changed) => changed,
        Err(Memory) => space.changed_since(&first)?,
    };
    same_numbers(&rt, &"since the first", &changed, &[1, 2]);
    space.drop_snapshot(first);
    space.drop_snapshot(second);
    Ok(())
}

#[test]
fn a_refused_copy_leaves_all_as_before(rt: HostRuntime) -> Result<(), Fail> {
    let mut space = Space::new(rt.alloc());
    space.map(1, 2, DATA)?;
    space.store_word(0x1FFE, 0x0403_0201)?;
    let token = space.snapshot()?;
    if let Err(fault) = space.store_word(0x1FFE, 0x0807_0605) {
        same(&rt, &"a store", fault, PageFault::Memory);
        same(&rt, &"no copy", space.live(), 2);
        let word = space.load_word(0x1FFE);
        same(&rt, &"the word as it was", word, Some(0x0403_0201));
        let changed = space.changed_since(&token)?;
        same_numbers(&rt, &"no change", &changed, &[]);
        space.store_word(0x1FFE, 0x0807_0605)?;
    }
    same(&rt, &"two copies", space.live(), 4);
    let word = space.load_word(0x1FFE);
    same(&rt, &"the word", word, Some(0x0807_0605));
    let page = space.snapshot_page(&token, 2);
    let byte = page.map(|page| page.bytes[0]);
    same(&rt, &"the byte as it was", byte, Some(3));
    space.drop_snapshot(token);
    same(&rt, &"the copies alone", space.live(), 2);
    Ok(())
}

#[test]
fn a_refused_clone_leaves_all_as_before(rt: HostRuntime) -> Result<(), Fail> {
    let mut space = Space::new(rt.alloc());
    space.map(1, 2, DATA)?;
    space.store_word(0x1FFE, 0x0403_0201)?;
    let token = space.snapshot()?;
    let copy = match space.try_clone() {
        Ok(copy) => copy,
        Err(Memory) => {
            same(&rt, &"the space's pages alone", space.live(), 2);
            space.try_clone()?
        }
    };
    let word = copy.load_word(0x1FFE);
    same(&rt, &"the copy's word", word, Some(0x0403_0201));
    same(&rt, &"pages of its own", copy.live(), 2);
    space.drop_snapshot(token);
    Ok(())
}

#[test]
fn a_refused_decoding_is_told_by_nothing(rt: HostRuntime) -> Result<(), Fail> {
    let mut space = space_of_code(rt.alloc())?;
    answers(&rt, "at first", &mut space, 1);
    answers(&rt, "once more", &mut space, 1);
    Ok(())
}
