//! What a proof has to know where it is called: laws, and a loader's fill.

use super::same;
use guest_pages::{AddressSpace, Space};
use rrv_model::instr::Instr;
use rv_decode::{decode, encode, laws};
use std::test::Fail;
use test_guests::permissions::CONSTANTS;

#[test]
fn laws_hold(rt: HostRuntime) {
    laws::one_answer();
    laws::decode_encoded();
    let found = decode(encode(Instr::Ecall));
    same(&rt, &"ecall", found, Some(Instr::Ecall));
}

#[test]
#[tactic(auto, unfolding(rrv_model::specs::Memory::all_cells))]
fn a_loader_fills_what_it_covers(rt: HostRuntime) -> Result<(), Fail> {
    let mut space = Space::new(rt.alloc());
    space.cover(3, CONSTANTS)?;
    space.fill_unshared(0x3FFE, &[1, 2]);
    same(&rt, &"two bytes", space.load_half(0x3FFE), Some(0x0201));
    Ok(())
}
