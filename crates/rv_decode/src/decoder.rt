//! From a word to its instruction.

ghost use Rattle.std.specs.Prelude.{◌≡◌, None};
ghost use Rattle.rrv_model.specs.Instructions.{opcode, funct3, funct5, Decodes};
ghost use Rattle.rrv_model.specs.WordReader.{immediate_of, read};

use crate::rows::{
    amo_op, branch_test, immediate_op, load_kind, register_op, shift_op, store_kind,
};
use crate::word;
use rrv_model::instr::Instr;

#[inline(always)]
fn jalr(word: u32) -> Option<Instr>
    requires { opcode word ≡ 0b1100111 }
    ensures { read word ≡ result }
{
    match word::funct3_of(word) {
        0b000 => Some(Instr::Jalr {
            rd: word::rd(word),
            rs1: word::rs1(word),
            immediate: word::immediate(word),
        }),
        _ => None,
    }
}

#[inline(always)]
fn branch(word: u32) -> Option<Instr>
    requires { opcode word ≡ 0b1100011 }
    ensures { read word ≡ result }
{
    let test = branch_test(word::funct3_of(word))?;
    Some(Instr::Branch {
        test,
        rs1: word::rs1(word),
        rs2: word::rs2(word),
        offset: word::branch_offset(word),
    })
}

#[inline(always)]
fn load(word: u32) -> Option<Instr>
    requires { opcode word ≡ 0b0000011 }
    ensures { read word ≡ result }
{
    let kind = load_kind(word::funct3_of(word))?;
    Some(Instr::Load {
        kind,
        rd: word::rd(word),
        rs1: word::rs1(word),
        immediate: word::immediate(word),
    })
}

#[inline(always)]
fn store(word: u32) -> Option<Instr>
    requires { opcode word ≡ 0b0100011 }
    ensures { read word ≡ result }
{
    let kind = store_kind(word::funct3_of(word))?;
    Some(Instr::Store {
        kind,
        rs1: word::rs1(word),
        rs2: word::rs2(word),
        immediate: word::store_immediate(word),
    })
}

#[inline(always)]
fn shift(word: u32) -> Option<Instr>
    requires code { opcode word ≡ 0b0010011 }
    requires not_immediate { immediate_of (funct3 word) ≡ None }
    ensures { read word ≡ result }
{
    let op = shift_op(word::funct3_of(word), word::funct7_of(word))?;
    Some(Instr::Shift {
        op,
        rd: word::rd(word),
        rs1: word::rs1(word),
        amount: word::shift_amount(word),
    })
}

/// An operation with an immediate, or a shift by one.
#[inline(always)]
fn immediate(word: u32) -> Option<Instr>
    requires { opcode word ≡ 0b0010011 }
    ensures { read word ≡ result }
{
    match immediate_op(word::funct3_of(word)) {
        Some(op) => Some(Instr::OpImm {
            op,
            rd: word::rd(word),
            rs1: word::rs1(word),
            immediate: word::immediate(word),
        }),
        None => shift(word),
    }
}

#[inline(always)]
fn registers(word: u32) -> Option<Instr>
    requires { opcode word ≡ 0b0110011 }
    ensures { read word ≡ result }
{
    let op = register_op(word::funct3_of(word), word::funct7_of(word))?;
    Some(Instr::Op {
        op,
        rd: word::rd(word),
        rs1: word::rs1(word),
        rs2: word::rs2(word),
    })
}

#[inline(always)]
fn fence(word: u32) -> Option<Instr>
    requires { opcode word ≡ 0b0001111 }
    ensures { read word ≡ result }
{
    match word::funct3_of(word) {
        0b000 => Some(Instr::Fence),
        0b001 => Some(Instr::FenceI),
        _ => None,
    }
}

#[inline(always)]
fn system(word: u32) -> Option<Instr>
    requires { opcode word ≡ 0b1110011 }
    ensures { read word ≡ result }
{
    match word {
        0x0000_0073 => Some(Instr::Ecall),
        0x0010_0073 => Some(Instr::Ebreak),
        _ => None,
    }
}

#[inline(always)]
fn load_reserved(word: u32) -> Option<Instr>
    requires code { opcode word ≡ 0b0101111 }
    requires width { funct3 word ≡ 0b010 }
    requires kind { funct5 word ≡ 0b00010 }
    ensures { read word ≡ result }
{
    if word::rs2(word).number() != 0 {
        return None;
    }
    Some(Instr::Lr {
        ordering: word::ordering(word),
        rd: word::rd(word),
        rs1: word::rs1(word),
    })
}

#[inline(always)]
fn atomic(word: u32) -> Option<Instr>
    requires { opcode word ≡ 0b0101111 }
    ensures { read word ≡ result }
{
    if word::funct3_of(word) != 0b010 {
        return None;
    }
    match word::funct5_of(word) {
        0b00010 => load_reserved(word),
        0b00011 => Some(Instr::Sc {
            ordering: word::ordering(word),
            rd: word::rd(word),
            rs1: word::rs1(word),
            rs2: word::rs2(word),
        }),
        funct5 => {
            let op = amo_op(funct5)?;
            Some(Instr::Amo {
                op,
                ordering: word::ordering(word),
                rd: word::rd(word),
                rs1: word::rs1(word),
                rs2: word::rs2(word),
            })
        }
    }
}

/// The instruction that `word` stands for, `None` where it is in no row of the table.
#[inline(always)]
#[tactic(auto, using(rrv_model::proofs::Decoding::decodes))]
pub fn decode(word: u32) -> Option<Instr>
    ensures decodes { Decodes word result }
{
    match word::opcode_of(word) {
        0b0110111 => Some(Instr::Lui {
            rd: word::rd(word),
            immediate: word::upper_immediate(word),
        }),
        0b0010111 => Some(Instr::Auipc {
            rd: word::rd(word),
            immediate: word::upper_immediate(word),
        }),
        0b1101111 => Some(Instr::Jal {
            rd: word::rd(word),
            offset: word::jump_offset(word),
        }),
        0b1100111 => jalr(word),
        0b1100011 => branch(word),
        0b0000011 => load(word),
        0b0100011 => store(word),
        0b0010011 => immediate(word),
        0b0110011 => registers(word),
        0b0001111 => fence(word),
        0b1110011 => system(word),
        0b0101111 => atomic(word),
        _ => None,
    }
}
