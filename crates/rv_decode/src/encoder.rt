//! From an instruction to its word.

ghost use Rattle.std.specs.Prelude.{◌≡◌, ◌≢◌, ◌<◌, ◌^◌, ◌%◌, ℕ};
ghost use Rattle.rrv_model.specs.Words.{sign_extend, flag};
ghost use Rattle.rrv_model.specs.Instructions.{IsU, IsJ, IsI, IsS, IsB, IsR, IsA, Stands, shift_row, op_row};

use crate::rows::{
    funct3_of_branch, funct3_of_immediate, funct3_of_load, funct3_of_store, funct5_of_amo,
    row_of_op, row_of_shift,
};
use rrv_model::fields::{
    BranchOffset, Immediate, JumpOffset, Register, ShiftAmount, UpperImmediate,
};
use rrv_model::instr::{Instr, Ordering, RegisterOp, ShiftOp};

fn register_number(register: Register) -> u32
    ensures value { result ≡ register }
    ensures range { result < 32 }
{
    u32::from(register.number())
}

/// The twelve bits of an immediate.
fn immediate_bits(immediate: Immediate) -> u32
    ensures range { result < 2 ^ 12 }
    ensures extends { sign_extend 12 result ≡ immediate }
    ensures only { (bits : ℕ) → bits < 2 ^ 12 → sign_extend 12 bits ≡ immediate → bits ≡ result }
{
    immediate.word() % 0x1000
}

/// The word of form U.
fn upper_word(code: u32, rd: Register, immediate: UpperImmediate) -> u32
    requires { code < 128 }
    ensures stands { IsU result code rd immediate }
    ensures back { (w : ℕ) → w < 2 ^ 32 → IsU w code rd immediate → w ≡ result }
{
    code + (register_number(rd) << 7) + immediate.word()
}

/// The word of form I.
fn immediate_word(code: u32, funct3: u32, rd: Register, rs1: Register, immediate: Immediate) -> u32
    requires code_in { code < 128 }
    requires funct3_in { funct3 < 8 }
    ensures stands { IsI result code funct3 rd rs1 immediate }
    ensures back { (w : ℕ) → w < 2 ^ 32 → IsI w code funct3 rd rs1 immediate → w ≡ result }
{
    code + (register_number(rd) << 7)
        + (funct3 << 12)
        + (register_number(rs1) << 15)
        + (immediate_bits(immediate) << 20)
}

/// The word of form R.
fn register_word(code: u32, funct3: u32, funct7: u32, rd: Register, rs1: Register, rs2: u32) -> u32
    requires code_in { code < 128 }
    requires funct3_in { funct3 < 8 }
    requires funct7_in { funct7 < 128 }
    requires rs2_in { rs2 < 32 }
    ensures stands { IsR result code funct3 funct7 rd rs1 rs2 }
    ensures back { (w : ℕ) → w < 2 ^ 32 → IsR w code funct3 funct7 rd rs1 rs2 → w ≡ result }
{
    code + (register_number(rd) << 7)
        + (funct3 << 12)
        + (register_number(rs1) << 15)
        + (rs2 << 20)
        + (funct7 << 25)
}

/// The word of form S.
fn store_word(code: u32, funct3: u32, rs1: Register, rs2: Register, immediate: Immediate) -> u32
    requires code_in { code < 128 }
    requires funct3_in { funct3 < 8 }
    ensures stands { IsS result code funct3 rs1 rs2 immediate }
    ensures back { (w : ℕ) → w < 2 ^ 32 → IsS w code funct3 rs1 rs2 immediate → w ≡ result }
{
    let bits = immediate_bits(immediate);
    code + (bits % 32 << 7)
        + (funct3 << 12)
        + (register_number(rs1) << 15)
        + (register_number(rs2) << 20)
        + (bits / 32 << 25)
}

/// The thirteen bits of a branch's offset.
fn branch_bits(offset: BranchOffset) -> u32
    ensures range { result < 2 ^ 13 }
    ensures even { result % 2 ≡ 0 }
    ensures extends { sign_extend 13 result ≡ offset }
    ensures only { (bits : ℕ) → bits < 2 ^ 13 → sign_extend 13 bits ≡ offset → bits ≡ result }
{
    offset.word() % 0x2000
}

/// The word of form B.
fn branch_word(code: u32, funct3: u32, rs1: Register, rs2: Register, offset: BranchOffset) -> u32
    requires code_in { code < 128 }
    requires funct3_in { funct3 < 8 }
    ensures stands { IsB result code funct3 rs1 rs2 offset }
    ensures back { (w : ℕ) → w < 2 ^ 32 → IsB w code funct3 rs1 rs2 offset → w ≡ result }
{
    let bits = branch_bits(offset);
    let low = (bits >> 1) % 16 * 2 + (bits >> 11) % 2;
    let high = (bits >> 12) * 64 + (bits >> 5) % 64;
    code + (low << 7)
        + (funct3 << 12)
        + (register_number(rs1) << 15)
        + (register_number(rs2) << 20)
        + (high << 25)
}

/// The 21 bits of a jump's offset.
fn jump_bits(offset: JumpOffset) -> u32
    ensures range { result < 2 ^ 21 }
    ensures even { result % 2 ≡ 0 }
    ensures extends { sign_extend 21 result ≡ offset }
    ensures only { (bits : ℕ) → bits < 2 ^ 21 → sign_extend 21 bits ≡ offset → bits ≡ result }
{
    offset.word() % 0x20_0000
}

/// The word of form J.
fn jump_word(code: u32, rd: Register, offset: JumpOffset) -> u32
    requires { code < 128 }
    ensures stands { IsJ result code rd offset }
    ensures back { (w : ℕ) → w < 2 ^ 32 → IsJ w code rd offset → w ≡ result }
{
    let bits = jump_bits(offset);
    code + (register_number(rd) << 7)
        + ((bits >> 12) % 256 << 12)
        + ((bits >> 11) % 2 << 20)
        + ((bits >> 1) % 1024 << 21)
        + (bits >> 20 << 31)
}

fn flag_of(bit: bool) -> u32
    ensures value { result ≡ flag bit }
    ensures range { result < 2 }
{
    u32::from(bit)
}

/// The word of an atomic instruction.
fn atomic_word(funct5: u32, ordering: Ordering, rd: Register, rs1: Register, rs2: u32) -> u32
    requires funct5_in { funct5 < 32 }
    requires rs2_in { rs2 < 32 }
    ensures stands { IsA result funct5 ordering rd rs1 rs2 }
    ensures back { (w : ℕ) → w < 2 ^ 32 → IsA w funct5 ordering rd rs1 rs2 → w ≡ result }
{
    let acquire = flag_of(ordering.acquires());
    let release = flag_of(ordering.releases());
    0b0101111
        + (register_number(rd) << 7)
        + (0b010 << 12)
        + (register_number(rs1) << 15)
        + (rs2 << 20)
        + (release << 25)
        + (acquire << 26)
        + (funct5 << 27)
}

/// The word of a shift by an immediate amount.
fn shift_word(op: ShiftOp, rd: Register, rs1: Register, amount: ShiftAmount) -> u32
    ensures stands { IsR result 0b0010011 (shift_row op).0 (shift_row op).1 rd rs1 amount }
    ensures back { (w : ℕ) → w < 2 ^ 32 →
        IsR w 0b0010011 (shift_row op).0 (shift_row op).1 rd rs1 amount → w ≡ result }
{
    let (funct3, funct7) = row_of_shift(op);
    register_word(
        0b0010011,
        funct3,
        funct7,
        rd,
        rs1,
        u32::from(amount.amount()),
    )
}

/// The word of an operation of two registers.
fn op_word(op: RegisterOp, rd: Register, rs1: Register, rs2: Register) -> u32
    ensures stands { IsR result 0b0110011 (op_row op).0 (op_row op).1 rd rs1 rs2 }
    ensures back { (w : ℕ) → w < 2 ^ 32 → IsR w 0b0110011 (op_row op).0 (op_row op).1 rd rs1 rs2 → w ≡ result }
{
    let (funct3, funct7) = row_of_op(op);
    register_word(0b0110011, funct3, funct7, rd, rs1, register_number(rs2))
}

/// The word of `instr`. Many words stand for `Fence` and for `FenceI`: the one whose ignored fields are zero.
pub fn encode(instr: Instr) -> u32
    ensures stands { Stands result instr }
    ensures back { (w : ℕ) → w < 2 ^ 32 → Stands w instr →
        instr ≢ Instr.Fence → instr ≢ Instr.FenceI → w ≡ result }
    ensures fence { instr ≡ Instr.Fence → result ≡ 0x0000000F }
    ensures fence_i { instr ≡ Instr.FenceI → result ≡ 0x0000100F }
{
    match instr {
        Instr::Lui { rd, immediate } => upper_word(0b0110111, rd, immediate),
        Instr::Auipc { rd, immediate } => upper_word(0b0010111, rd, immediate),
        Instr::Jal { rd, offset } => jump_word(0b1101111, rd, offset),
        Instr::Jalr { rd, rs1, immediate } => immediate_word(0b1100111, 0b000, rd, rs1, immediate),
        Instr::Branch {
            test,
            rs1,
            rs2,
            offset,
        } => branch_word(0b1100011, funct3_of_branch(test), rs1, rs2, offset),
        Instr::Load {
            kind,
            rd,
            rs1,
            immediate,
        } => immediate_word(0b0000011, funct3_of_load(kind), rd, rs1, immediate),
        Instr::Store {
            kind,
            rs1,
            rs2,
            immediate,
        } => store_word(0b0100011, funct3_of_store(kind), rs1, rs2, immediate),
        Instr::OpImm {
            op,
            rd,
            rs1,
            immediate,
        } => immediate_word(0b0010011, funct3_of_immediate(op), rd, rs1, immediate),
        Instr::Shift {
            op,
            rd,
            rs1,
            amount,
        } => shift_word(op, rd, rs1, amount),
        Instr::Op { op, rd, rs1, rs2 } => op_word(op, rd, rs1, rs2),
        Instr::Fence => 0x0000_000F,
        Instr::FenceI => 0x0000_100F,
        Instr::Ecall => 0x0000_0073,
        Instr::Ebreak => 0x0010_0073,
        Instr::Lr { ordering, rd, rs1 } => atomic_word(0b00010, ordering, rd, rs1, 0),
        Instr::Sc {
            ordering,
            rd,
            rs1,
            rs2,
        } => atomic_word(0b00011, ordering, rd, rs1, register_number(rs2)),
        Instr::Amo {
            op,
            ordering,
            rd,
            rs1,
            rs2,
        } => atomic_word(funct5_of_amo(op), ordering, rd, rs1, register_number(rs2)),
    }
}
