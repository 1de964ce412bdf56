//! Lines of code that changes between two runs of it: it is run as it then is, though its pages are kept decoded.

use crate::answers::done;
use crate::lines::number;
use crate::pages::change;
use guest_pages::Space;
use rv_machine::{CodeSpace, run_hart};
use std::alloc::Global;
use test_guests::harts::regs_with;

/// Runs so many instructions at most from a place on, with these words in a0 to a2: how many ran, why no more did, a0 and `pc`.
fn run_text(
    alloc: Global,
    code: &mut CodeSpace,
    limit: u32,
    pc: u32,
    arguments: [u32; 3],
) -> Option<String> {
    let [a0, a1, a2] = arguments;
    let mut regs = regs_with(pc, [a0, a1, a2, 0]);
    let run = run_hart(&mut regs, code, &mut None, limit);
    let (count, end) = (run.count, run.end);
    let (a0, pc) = (regs.registers[10], regs.pc);
    format!(in alloc; "{count} {end:?} {a0} {pc:#x}").ok()
}

/// What is found where words ask this of a space.
pub fn answer(alloc: Global, code: &mut CodeSpace, words: &[&str]) -> Option<String> {
    let (name, rest) = words.split_first()?;
    match (*name, rest) {
        ("new", []) => {
            *code = CodeSpace::new(alloc, Space::new(alloc));
            Some(String::new(alloc))
        }
        ("run", [limit, pc, a0, a1, a2]) => {
            let arguments = [number(a0)?, number(a1)?, number(a2)?];
            run_text(alloc, code, number(limit)?, number(pc)?, arguments)
        }
        _ => done(alloc, change(alloc, code, words)?),
    }
}
