//! The fields of an instruction's word.

ghost use Rattle.std.specs.Prelude.{◌≡◌, ◌<◌, ◌≤◌, ◌^◌};
ghost use Rattle.rrv_model.specs.Words.{field, sign_extend};
ghost use Rattle.rrv_model.specs.Instructions.{opcode, rd_of, rs1_of, rs2_of, funct3, funct5, funct7, i_immediate, s_immediate, b_immediate, u_immediate, j_immediate};
ghost use Rattle.rrv_model.specs.WordReader.{ordering_of};

use rrv_model::fields::{
    BranchOffset, Immediate, JumpOffset, Register, ShiftAmount, UpperImmediate,
};
use rrv_model::instr::Ordering;

/// `count` bits of the word from bit `low` upward.
#[inline(always)]
fn bits(word: u32, low: u32, count: u32) -> u32
    requires low_in { low < 32 }
    requires count_in { count < 32 }
    ensures { result ≡ field word low count }
{
    (word >> low) % (1 << count)
}

/// Bits 6..0.
#[inline(always)]
pub fn opcode_of(word: u32) -> u32
    ensures { result ≡ opcode word }
{
    bits(word, 0, 7)
}

/// Bits 14..12.
#[inline(always)]
pub fn funct3_of(word: u32) -> u32
    ensures { result ≡ funct3 word }
{
    bits(word, 12, 3)
}

/// Bits 31..27, of an atomic instruction.
#[inline(always)]
pub fn funct5_of(word: u32) -> u32
    ensures { result ≡ funct5 word }
{
    bits(word, 27, 5)
}

/// Bits 31..25.
#[inline(always)]
pub fn funct7_of(word: u32) -> u32
    ensures { result ≡ funct7 word }
{
    bits(word, 25, 7)
}

/// Bits 11..7.
#[inline(always)]
pub fn rd(word: u32) -> Register
    ensures { result ≡ rd_of word }
{
    Register::new(bits(word, 7, 5) as u8)
}

/// Bits 19..15.
#[inline(always)]
pub fn rs1(word: u32) -> Register
    ensures { result ≡ rs1_of word }
{
    Register::new(bits(word, 15, 5) as u8)
}

/// Bits 24..20.
#[inline(always)]
pub fn rs2(word: u32) -> Register
    ensures { result ≡ rs2_of word }
{
    Register::new(bits(word, 20, 5) as u8)
}

/// Bits 24..20 of a shift by an immediate: how far it goes.
#[inline(always)]
pub fn shift_amount(word: u32) -> ShiftAmount
    ensures { result ≡ rs2_of word }
{
    ShiftAmount::new(bits(word, 20, 5) as u8)
}

/// Bits 26 (acquire) and 25 (release) of an atomic instruction.
#[inline(always)]
pub fn ordering(word: u32) -> Ordering
    ensures { result ≡ ordering_of word }
{
    match (bits(word, 26, 1) == 1, bits(word, 25, 1) == 1) {
        (false, false) => Ordering::Relaxed,
        (true, false) => Ordering::Acquire,
        (false, true) => Ordering::Release,
        (true, true) => Ordering::AcquireRelease,
    }
}

/// Twelve bits with their sign extended.
#[inline(always)]
fn extended(bits: u32) -> Immediate
    requires { bits < 2 ^ 12 }
    ensures { result ≡ sign_extend 12 bits }
{
    Immediate::new(if bits < 0x800 {
        bits
    } else {
        bits + 0xFFFF_F000
    })
}

/// The immediate of form I.
#[inline(always)]
pub fn immediate(word: u32) -> Immediate
    ensures { result ≡ i_immediate word }
{
    extended(bits(word, 20, 12))
}

/// The immediate of form S.
#[inline(always)]
pub fn store_immediate(word: u32) -> Immediate
    ensures { result ≡ s_immediate word }
{
    extended((bits(word, 25, 7) << 5) + bits(word, 7, 5))
}

/// The immediate of form U.
#[inline(always)]
pub fn upper_immediate(word: u32) -> UpperImmediate
    ensures { result ≡ u_immediate word }
{
    UpperImmediate::new(bits(word, 12, 20) << 12)
}

/// The offset of form B.
#[inline(always)]
pub fn branch_offset(word: u32) -> BranchOffset
    ensures { result ≡ b_immediate word }
{
    let offset = (bits(word, 31, 1) << 12)
        + (bits(word, 7, 1) << 11)
        + (bits(word, 25, 6) << 5)
        + (bits(word, 8, 4) << 1);
    BranchOffset::new(if offset < 0x1000 {
        offset
    } else {
        offset + 0xFFFF_E000
    })
}

/// The offset of form J.
#[inline(always)]
pub fn jump_offset(word: u32) -> JumpOffset
    ensures { result ≡ j_immediate word }
{
    let offset = (bits(word, 31, 1) << 20)
        + (bits(word, 12, 8) << 12)
        + (bits(word, 20, 1) << 11)
        + (bits(word, 21, 10) << 1);
    JumpOffset::new(if offset < 0x10_0000 {
        offset
    } else {
        offset + 0xFFE0_0000
    })
}
