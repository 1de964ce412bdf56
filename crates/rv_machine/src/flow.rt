//! Where a hart goes on behind an instruction.

ghost use Rattle.std.specs.Prelude.{◌≡◌, ◌<◌, ◌^◌};
ghost use Rattle.rrv_model.specs.State.{AreRegs};
ghost use Rattle.rv_machine.specs.Flows.{address_at, entry_at, place_of, answer_of};

use crate::Stepped;
use crate::page_decoding::PAGE_INSTRS;
use crate::page_index::PageIndex;
use rrv_model::machine::{FaultKind, Regs};
use rrv_model::refusal::Memory;

/// What an instruction came to whose place is kept elsewhere than in the registers.
#[derive(Clone, Copy, Debug, PartialEq, Eq)]
pub enum Flow {
    /// It is done, memory is as before, and the hart goes on at the next one.
    Next,
    /// It is done, memory is as before, and the hart goes on at this address.
    Jump(u32),
    /// It is done, memory is as before, and the hart goes on at this index of the same page.
    In(PageIndex),
    /// It is done, may have changed four bytes of memory from this address on, and the hart goes on at the next one.
    Stored(u32),
    /// It is an ECALL, and the hart goes on at the next one.
    Call,
    /// It failed, and changed no register, no memory and no reservation.
    Fault(FaultKind),
}

/// The address of the instruction at an index of a page.
// The least of two changes nothing: without it the compiler counts this up at each instruction, where a jump alone needs it.
#[inline(always)]
pub(crate) fn address_in(page: u32, index: usize) -> u32
    requires { page < 2 ^ 20 }
    ensures { result ≡ address_at page index }
{
    (page * 1024 + index.min(PAGE_INSTRS - 1) as u32) * 4
}

/// The address at an index of the page of an address.
#[inline(always)]
pub(crate) fn entry_in(address: u32, to: PageIndex) -> u32
    ensures { result ≡ entry_at address to.index }
{
    address / 4096 * 4096 + u32::from(to.index) * 4
}

/// Puts into the registers where the hart goes on after an instruction at `pc`.
#[inline(always)]
pub(crate) fn go_on(regs: &mut Regs, pc: u32, flow: Result<Flow, Memory>) -> Result<Stepped, Memory>
    requires { AreRegs regs.old }
    ensures answer { result ≡ answer_of flow }
    ensures place { regs.new ≡ record regs.old { pc = place_of pc flow } }
    ensures regs { AreRegs regs.new }
{
    let (place, stepped) = match flow {
        Ok(Flow::Next | Flow::Stored(_)) => (pc.wrapping_add(4), Ok(Stepped::Next)),
        Ok(Flow::Jump(target)) => (target, Ok(Stepped::Next)),
        Ok(Flow::In(to)) => (entry_in(pc, to), Ok(Stepped::Next)),
        Ok(Flow::Call) => (pc.wrapping_add(4), Ok(Stepped::Call)),
        Ok(Flow::Fault(kind)) => (pc, Ok(Stepped::Fault(kind))),
        Err(Memory) => (pc, Err(Memory)),
    };
    regs.pc = place;
    stepped
}
