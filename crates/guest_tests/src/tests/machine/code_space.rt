//! Code that changes between two runs of it, with a snapshot: it is run as it then is, though its pages are kept decoded.

ghost use Rattle.guest_pages.specs.Space.{snapshots_of};
ghost use Rattle.std.specs.Prelude.{◌≡◌};

use super::same;
use guest_pages::{AddressSpace, Space};
use rv_machine::{CodeSpace, Run, RunEnd, run_hart};
use std::alloc::Global;
use std::process::Abort;
use std::test::Fail;
use test_guests::harts::regs_with;
use test_guests::permissions::{CODE, DATA};

/// The code's page, and where it begins.
const PAGE: u32 = 0x10;

const START: u32 = 0x1_0000;

/// `li a0, 1`
const LI_1: u32 = 0x0010_0513;
/// `li a0, 2`
const LI_2: u32 = 0x0020_0513;

const ECALL: u32 = 0x0000_0073;

/// A run that ends so after so many instructions.
const fn ran(count: u32, end: RunEnd) -> Run {
    Run { count, end }
}

/// Runs from the code's first instruction on, with the address of its second one in a1 and `li a0, 2` in a2. Tells how the run
/// went, and a0.
fn run_code(space: &mut CodeSpace) -> (Run, u32)
    ensures { snapshots_of space.new ≡ snapshots_of space.old }
{
    let mut regs = regs_with(START, [0, START + 4, LI_2, 0]);
    let run = run_hart(&mut regs, space, &mut None, 9);
    (run, regs.registers[10])
}

/// Ends the test where the code doesn't put this number into a0 and then call.
pub(crate) fn answers(rt: &impl Abort, what: &str, space: &mut CodeSpace, number: u32)
    ensures { snapshots_of space.new ≡ snapshots_of space.old }
{
    let found = run_code(space);
    same(rt, &what, found, (ran(2, RunEnd::Call), number));
}

/// Puts two instructions into the code's page, which may be executed then and not written.
fn put_code(space: &mut CodeSpace, words: [u32; 2]) -> Result<(), Fail>
    ensures { snapshots_of space.new ≡ snapshots_of space.old }
{
    space.protect(PAGE, 1, DATA)?;
    space.store_word(START, words[0])?;
    space.store_word(START + 4, words[1])?;
    space.protect(PAGE, 1, CODE)?;
    Ok(())
}

/// A space whose code puts 1 into a0 and calls.
pub(crate) fn space_of_code(alloc: Global) -> Result<CodeSpace, Fail> {
    let mut space = CodeSpace::new(alloc, Space::new(alloc));
    space.map(PAGE, 1, DATA)?;
    put_code(&mut space, [LI_1, ECALL])?;
    Ok(space)
}

#[test]
fn code_that_copies_share_is_run_as_it_is(rt: HostRuntime) -> Result<(), Fail> {
    let mut space = space_of_code(rt.alloc())?;
    answers(&rt, "at first", &mut space, 1);
    let token = space.snapshot()?;
    answers(&rt, "with a snapshot", &mut space, 1);
    put_code(&mut space, [LI_2, ECALL])?;
    answers(&rt, "other code", &mut space, 2);
    space.drop_snapshot(token);
    answers(&rt, "with none", &mut space, 2);
    Ok(())
}
