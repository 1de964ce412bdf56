//! The instruction that faulted, and the address of its fault.

ghost use Rattle.std.specs.Prelude.{◌≡◌};
ghost use Rattle.rrv_model.specs.State.{register};
ghost use Rattle.rrv_model.specs.WordReader.{read};
ghost use Rattle.rrv_model.specs.Words.{plus};
ghost use Rattle.guest_pages.specs.Space.{memory_of};
ghost use Rattle.end_text.specs.Ends as ends;

use guest_pages::Space;
use rrv_model::fields::{Immediate, Register};
use rrv_model::instr::Instr;
use rrv_model::machine::{FaultKind, Regs};
use rv_decode::decode;
use rv_decode::laws::one_answer;

/// The word at an address, its low byte first, if its four bytes are mapped.
#[tactic(auto, unfolding(rrv_model::specs::Memory::all_cells, rrv_model::specs::Memory::bytes_at))]
pub(crate) fn mapped_word(space: &Space, address: u32) -> Option<u32>
    ensures { result ≡ ends.mapped_word (memory_of space.now) address }
{
    let start = u64::from(address);
    let first = space.byte(start)?;
    let second = space.byte(start + 1)?;
    let third = space.byte(start + 2)?;
    let fourth = space.byte(start + 3)?;
    Some(u32::from_le_bytes([first, second, third, fourth]))
}

/// The instruction that a word stands for, if there is a word and it stands for one.
pub(crate) fn instruction_of(word: Option<u32>) -> Option<Instr>
    ensures { result ≡ ends.instruction_of word }
{
    match word {
        Some(word) => decoded(word),
        None => None,
    }
}

/// The instruction that a word stands for, as the definitions read it.
fn decoded(word: u32) -> Option<Instr>
    ensures { result ≡ read word }
{
    one_answer();
    decode(word)
}

/// The address that a fault of this kind is at, with these registers at this instruction.
pub(crate) fn fault_address(kind: FaultKind, regs: &Regs, instr: Option<Instr>) -> Option<u32>
    ensures { result ≡ ends.fault_address kind regs.now instr }
{
    match kind {
        FaultKind::BadInstruction | FaultKind::Breakpoint => None,
        FaultKind::MisalignedTarget if regs.pc % 4 == 0 => target(regs, instr),
        FaultKind::MisalignedTarget | FaultKind::Fetch => Some(regs.pc),
        FaultKind::MisalignedAtomic | FaultKind::Load | FaultKind::Store => accessed(regs, instr),
    }
}

/// The address that an instruction loads from or stores to.
#[tactic(auto, unfolding(crate::specs::Ends::accessed))]
fn accessed(regs: &Regs, instr: Option<Instr>) -> Option<u32>
    ensures { result ≡ ends.accessed regs.now instr }
{
    match instr? {
        Instr::Load { rs1, immediate, .. } | Instr::Store { rs1, immediate, .. } => {
            Some(sum(regs, rs1, immediate))
        }
        Instr::Lr { rs1, .. } | Instr::Sc { rs1, .. } | Instr::Amo { rs1, .. } => {
            Some(register(regs, rs1))
        }
        _ => None,
    }
}

/// The address that an instruction jumps or branches to.
#[tactic(auto, unfolding(crate::specs::Ends::target))]
fn target(regs: &Regs, instr: Option<Instr>) -> Option<u32>
    ensures { result ≡ ends.target regs.now instr }
{
    match instr? {
        Instr::Jal { offset, .. } => Some(regs.pc.wrapping_add(offset.word())),
        Instr::Jalr { rs1, immediate, .. } => {
            let address = sum(regs, rs1, immediate);
            Some(address - address % 2)
        }
        Instr::Branch { offset, .. } => Some(regs.pc.wrapping_add(offset.word())),
        _ => None,
    }
}

/// A register and an offset.
fn sum(regs: &Regs, source: Register, offset: Immediate) -> u32
    ensures { result ≡ plus (register regs.now source) offset }
{
    register(regs, source).wrapping_add(offset.word())
}

/// The word in a register; x0 holds 0.
fn register(regs: &Regs, source: Register) -> u32
    ensures { result ≡ register regs.now source }
{
    match source.number() {
        0 => 0,
        number => regs.registers[number as usize],
    }
}
