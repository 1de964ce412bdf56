//! Several instructions of a hart.

ghost use Rattle.std.specs.Prelude.{◌≡◌, ◌+◌, ◌<◌, ◌≤◌, ◌/◌, ◌%◌, ◌^◌};
ghost use Rattle.rrv_model.specs.State.{AreRegs};
ghost use Rattle.guest_pages.specs.Space.{memory_of};
ghost use Rattle.rv_machine.specs.Outcome.{hart};
ghost use Rattle.rv_machine.specs.HartRuns.{Runs, RunsAtMost, run_of, stop};
ghost use Rattle.rv_machine.specs.Flows.{answer_of, place_of};
ghost use Rattle.rv_machine.specs.DecodedPages.{IsDecodedPage};

use crate::Stepped;
use crate::code_space::CodeSpace;
use crate::decoded::perform;
use crate::decoded_pages::DecodedPage;
use crate::flow::{Flow, address_in, go_on};
use crate::hart::step;
use crate::page_decoding::PAGE_INSTRS;
use guest_pages::Space;
use rrv_model::machine::{FaultKind, Regs, Reservation};
use rrv_model::refusal::Memory;

/// So many instructions are run undecoded at most before a decoded page is looked for again.
const UNDECODED_STEPS: u32 = 256;

/// Why a run of instructions stopped.
#[derive(Clone, Copy, Debug, PartialEq, Eq)]
pub enum RunEnd {
    /// It ran as many instructions as it may.
    Limit,
    /// Its last instruction is a call.
    Call,
    /// Its last instruction is a fault.
    Fault(FaultKind),
    /// The next instruction found no memory; it has not run.
    Memory,
}

/// How many instructions ran, with a call or a fault, and why they stopped.
#[derive(Clone, Copy, Debug, PartialEq, Eq)]
pub struct Run {
    pub count: u32,
    pub end: RunEnd,
}

/// What a run comes to that has done so many instructions and then this one; None where it goes on.
#[inline(always)]
pub(crate) fn stopped(count: u32, stepped: Result<Stepped, Memory>) -> Option<Run>
    requires { count + 1 < 2 ^ 32 }
    ensures { result ≡ stop count stepped }
{
    match stepped {
        Ok(Stepped::Next) => None,
        Ok(Stepped::Call) => Some(Run {
            count: count + 1,
            end: RunEnd::Call,
        }),
        Ok(Stepped::Fault(kind)) => Some(Run {
            count: count + 1,
            end: RunEnd::Fault(kind),
        }),
        Err(Memory) => Some(Run {
            count,
            end: RunEnd::Memory,
        }),
    }
}

/// Up to limit instructions, each decoded where it stands.
#[inline(never)]
fn run_steps(regs: &mut Regs, space: &mut Space, reservation: &mut Reservation, limit: u32) -> Run
    requires { AreRegs regs.old }
    ensures { Runs limit result (hart regs.old (memory_of space.old) reservation.old)
        (hart regs.new (memory_of space.new) reservation.new) space.old space.new }
{
    for count in 0..limit {
        match stopped(count, step(regs, space, reservation)) {
            None => {}
            Some(run) => return run,
        }
    }
    Run {
        count: limit,
        end: RunEnd::Limit,
    }
}

/// Some instructions, at least one, where no page is decoded: so many that looking for one again costs little.
fn run_undecoded(
    regs: &mut Regs,
    space: &mut Space,
    reservation: &mut Reservation,
    limit: u32,
) -> Run
    requires regs { AreRegs regs.old }
    requires limit { 1 ≤ limit }
    ensures { RunsAtMost limit result (hart regs.old (memory_of space.old) reservation.old)
        (hart regs.new (memory_of space.new) reservation.new) space.old space.new }
{
    run_steps(regs, space, reservation, limit.min(UNDECODED_STEPS))
}

/// What a run comes to that has done so many instructions and ends with this one, which is at `pc`.
#[inline(always)]
pub(crate) fn leave(regs: &mut Regs, pc: u32, count: u32, flow: Result<Flow, Memory>) -> Run
    requires regs { AreRegs regs.old }
    requires count { count + 1 < 2 ^ 32 }
    ensures run { result ≡ run_of count (answer_of flow) }
    ensures place { regs.new ≡ record regs.old { pc = place_of pc flow } }
    ensures regs { AreRegs regs.new }
{
    let stepped = go_on(regs, pc, flow);
    stopped(count, stepped).unwrap_or(Run {
        count: count + 1,
        end: RunEnd::Limit,
    })
}

/// How many may still run from an index of a page on, if they would end, straight on, at this one.
// The remainder changes nothing: without it the compiler counts this down at each instruction, where a jump alone needs it.
#[inline(always)]
pub(crate) fn left_at(until: usize, index: usize) -> usize
    requires page { index < 1024 }
    requires within { index ≤ until }
    ensures { result + index ≡ until }
{
    until - index % PAGE_INSTRS
}

/// Some instructions, at least one, of a decoded page: straight on to a jump, and from there again, as long as that leads into the page and
/// so many may still run at least. As many as the page has need not be counted on the way.
#[inline(always)]
fn run_page<const LEAST: usize>(
    regs: &mut Regs,
    space: &mut Space,
    reservation: &mut Reservation,
    page: &DecodedPage,
    limit: u32,
) -> Run
    requires regs { AreRegs regs.old }
    requires decoded { IsDecodedPage (memory_of space.old) page.now }
    requires place { regs.old.pc / 4096 ≡ page.now.number }
    requires aligned { regs.old.pc % 4 ≡ 0 }
    requires some { 1 ≤ LEAST }
    requires limit { LEAST ≤ limit }
    ensures { RunsAtMost limit result (hart regs.old (memory_of space.old) reservation.old)
        (hart regs.new (memory_of space.new) reservation.new) space.old space.new }
{
    let number = page.number;
    let base = number * 4096;
    let instrs = page.instrs.as_slice();
    let mut index = (regs.pc % 4096 / 4) as usize;
    // straight on, as many as may run would end here
    let mut until = index + limit as usize;
    let mut end = until.min(PAGE_INSTRS);
    while LEAST == PAGE_INSTRS || index < end {
        let flow = perform::<LEAST>(regs, space, reservation, &instrs[index], number, index);
        match flow {
            Ok(Flow::Next | Flow::Stored(_)) => index += 1,
            Ok(Flow::In(to)) if LEAST < left_at(until, index) => {
                let entry = to.index as usize;
                let left = left_at(until, index) - 1;
                index = entry;
                until = entry + left;
                end = (entry + left).min(PAGE_INSTRS);
            }
            Ok(Flow::Jump(target))
                if target.wrapping_sub(base) < 4096 && LEAST < left_at(until, index) => {
                let first = (target.wrapping_sub(base) / 4) as usize;
                until = first + left_at(until, index) - 1;
                index = first;
                end = until.min(PAGE_INSTRS);
            }
            _ if index == PAGE_INSTRS => break,
            _ => {
                let done = limit - left_at(until, index) as u32;
                return leave(regs, address_in(number, index), done, flow);
            }
        }
    }
    regs.pc = base + index as u32 * 4;
    Run {
        count: limit - (until - index) as u32,
        end: RunEnd::Limit,
    }
}

/// Some instructions, at least one, where a page is decoded: as long as they stand in it, or undecoded if the first does not.
#[inline(always)]
fn run_decoded(
    regs: &mut Regs,
    space: &mut Space,
    reservation: &mut Reservation,
    page: &DecodedPage,
    limit: u32,
) -> Run
    requires regs { AreRegs regs.old }
    requires decoded { IsDecodedPage (memory_of space.old) page.now }
    requires limit { 1 ≤ limit }
    ensures { RunsAtMost limit result (hart regs.old (memory_of space.old) reservation.old)
        (hart regs.new (memory_of space.new) reservation.new) space.old space.new }
{
    if regs.pc / 4096 != page.number || regs.pc % 4 != 0 {
        return run_undecoded(regs, space, reservation, limit);
    }
    if limit as usize >= PAGE_INSTRS {
        return run_page::<PAGE_INSTRS>(regs, space, reservation, page, limit);
    }
    run_page::<1>(regs, space, reservation, page, limit)
}

impl CodeSpace {
    /// Some instructions, at least one.
    #[inline(always)]
    fn run_some(&mut self, regs: &mut Regs, reservation: &mut Reservation, limit: u32) -> Run
        requires regs { AreRegs regs.old }
        requires limit { 1 ≤ limit }
        ensures { RunsAtMost limit result (hart regs.old (memory_of self.old) reservation.old)
            (hart regs.new (memory_of self.new) reservation.new) self.old self.new }
    {
        let number = regs.pc / 4096;
        self.pages.ready(&self.space, number);
        let Some(page) = self.pages.find(number) else {
            return run_undecoded(regs, &mut self.space, reservation, limit);
        };
        run_decoded(regs, &mut self.space, reservation, page, limit)
    }
}

/// Does up to `limit` instructions from `pc` on. It stops after a call's ECALL; at a fault, which is counted and where `pc` stays; and
/// before an instruction that finds no memory, which isn't counted.
pub fn run_hart(
    regs: &mut Regs,
    space: &mut CodeSpace,
    reservation: &mut Reservation,
    limit: u32,
) -> Run
    requires { AreRegs regs.old }
    ensures { Runs limit result (hart regs.old (memory_of space.old) reservation.old)
        (hart regs.new (memory_of space.new) reservation.new) space.old space.new }
{
    let mut done = 0;
    while done < limit {
        let run = space.run_some(regs, reservation, limit - done);
        done += run.count;
        match run.end {
            RunEnd::Limit => {}
            end => {
                return Run { count: done, end };
            }
        }
    }
    Run {
        count: done,
        end: RunEnd::Limit,
    }
}
