//! The 96-byte guest at its start, with a snapshot.

use super::same;
use elf_load::parse;
use guest_opening::open_space;
use guest_pages::AddressSpace;
use std::test::Fail;
use test_guests::files::{EXIT_FIVE, file_of};

const STACK_POINTER: u32 = 0x7FFF_FFA0;

#[test]
fn counts_a_shared_page_once(rt: HostRuntime) -> Result<(), Fail> {
    let elf = file_of(rt.alloc(), &EXIT_FIVE)?;
    let image = parse(rt.alloc(), &elf)?;
    let mut space = open_space(rt.alloc(), &image, b"a", &[7; 16])?;
    same(&rt, &"opened", space.live(), 257);
    let token = space.snapshot()?;
    same(&rt, &"with a snapshot", space.live(), 257);
    space.store_byte(STACK_POINTER, 9)?;
    same(&rt, &"a page is copied", space.live(), 258);
    space.store_byte(0x7FFF_F000, 8)?;
    same(&rt, &"and no second time", space.live(), 258);
    let page = space.snapshot_page(&token, 0x7_FFFF);
    let bytes = page.map(|page| (page.bytes[0xFA0], page.bytes[0]));
    same(&rt, &"the snapshot's bytes", bytes, Some((1, 0)));
    same(&rt, &"the byte", space.load_byte(STACK_POINTER), Some(9));
    space.drop_snapshot(token);
    same(&rt, &"with none", space.live(), 257);
    Ok(())
}
