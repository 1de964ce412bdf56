//! The rows of the table that share an opcode: which funct3, funct7 or funct5 each has, and back.

ghost use Rattle.std.specs.Prelude.{◌≡◌, ◌<◌};
ghost use Rattle.rrv_model.specs.Instructions.{branch_row, load_row, store_row, immediate_row, shift_row, op_row, amo_row};
ghost use Rattle.rrv_model.specs.WordReader.{branch_of, load_of, store_of, immediate_of, shift_of, op_of, amo_of};

use rrv_model::instr::{AmoOp, BranchTest, ImmediateOp, LoadKind, RegisterOp, ShiftOp, StoreKind};

#[inline(always)]
pub(crate) fn branch_test(funct3: u32) -> Option<BranchTest>
    ensures { result ≡ branch_of funct3 }
{
    match funct3 {
        0b000 => Some(BranchTest::Beq),
        0b001 => Some(BranchTest::Bne),
        0b100 => Some(BranchTest::Blt),
        0b101 => Some(BranchTest::Bge),
        0b110 => Some(BranchTest::Bltu),
        0b111 => Some(BranchTest::Bgeu),
        _ => None,
    }
}

pub(crate) fn funct3_of_branch(test: BranchTest) -> u32
    ensures value { result ≡ branch_row test }
    ensures range { result < 8 }
{
    match test {
        BranchTest::Beq => 0b000,
        BranchTest::Bne => 0b001,
        BranchTest::Blt => 0b100,
        BranchTest::Bge => 0b101,
        BranchTest::Bltu => 0b110,
        BranchTest::Bgeu => 0b111,
    }
}

#[inline(always)]
pub(crate) fn load_kind(funct3: u32) -> Option<LoadKind>
    ensures { result ≡ load_of funct3 }
{
    match funct3 {
        0b000 => Some(LoadKind::Lb),
        0b001 => Some(LoadKind::Lh),
        0b010 => Some(LoadKind::Lw),
        0b100 => Some(LoadKind::Lbu),
        0b101 => Some(LoadKind::Lhu),
        _ => None,
    }
}

pub(crate) fn funct3_of_load(kind: LoadKind) -> u32
    ensures value { result ≡ load_row kind }
    ensures range { result < 8 }
{
    match kind {
        LoadKind::Lb => 0b000,
        LoadKind::Lh => 0b001,
        LoadKind::Lw => 0b010,
        LoadKind::Lbu => 0b100,
        LoadKind::Lhu => 0b101,
    }
}

#[inline(always)]
pub(crate) fn store_kind(funct3: u32) -> Option<StoreKind>
    ensures { result ≡ store_of funct3 }
{
    match funct3 {
        0b000 => Some(StoreKind::Sb),
        0b001 => Some(StoreKind::Sh),
        0b010 => Some(StoreKind::Sw),
        _ => None,
    }
}

pub(crate) fn funct3_of_store(kind: StoreKind) -> u32
    ensures value { result ≡ store_row kind }
    ensures range { result < 8 }
{
    match kind {
        StoreKind::Sb => 0b000,
        StoreKind::Sh => 0b001,
        StoreKind::Sw => 0b010,
    }
}

#[inline(always)]
pub(crate) fn immediate_op(funct3: u32) -> Option<ImmediateOp>
    ensures { result ≡ immediate_of funct3 }
{
    match funct3 {
        0b000 => Some(ImmediateOp::Addi),
        0b010 => Some(ImmediateOp::Slti),
        0b011 => Some(ImmediateOp::Sltiu),
        0b100 => Some(ImmediateOp::Xori),
        0b110 => Some(ImmediateOp::Ori),
        0b111 => Some(ImmediateOp::Andi),
        _ => None,
    }
}

pub(crate) fn funct3_of_immediate(op: ImmediateOp) -> u32
    ensures value { result ≡ immediate_row op }
    ensures range { result < 8 }
{
    match op {
        ImmediateOp::Addi => 0b000,
        ImmediateOp::Slti => 0b010,
        ImmediateOp::Sltiu => 0b011,
        ImmediateOp::Xori => 0b100,
        ImmediateOp::Ori => 0b110,
        ImmediateOp::Andi => 0b111,
    }
}

#[inline(always)]
pub(crate) fn shift_op(funct3: u32, funct7: u32) -> Option<ShiftOp>
    ensures { result ≡ shift_of funct3 funct7 }
{
    match (funct3, funct7) {
        (0b001, 0b0000000) => Some(ShiftOp::Slli),
        (0b101, 0b0000000) => Some(ShiftOp::Srli),
        (0b101, 0b0100000) => Some(ShiftOp::Srai),
        _ => None,
    }
}

pub(crate) fn row_of_shift(op: ShiftOp) -> (u32, u32)
    ensures row { result ≡ shift_row op }
    ensures range { (result.0 < 8) × (result.1 < 128) }
{
    match op {
        ShiftOp::Slli => (0b001, 0b0000000),
        ShiftOp::Srli => (0b101, 0b0000000),
        ShiftOp::Srai => (0b101, 0b0100000),
    }
}

#[inline(always)]
fn base_op(funct3: u32) -> Option<RegisterOp>
    ensures { result ≡ op_of funct3 0b0000000 }
{
    match funct3 {
        0b000 => Some(RegisterOp::Add),
        0b001 => Some(RegisterOp::Sll),
        0b010 => Some(RegisterOp::Slt),
        0b011 => Some(RegisterOp::Sltu),
        0b100 => Some(RegisterOp::Xor),
        0b101 => Some(RegisterOp::Srl),
        0b110 => Some(RegisterOp::Or),
        0b111 => Some(RegisterOp::And),
        _ => None,
    }
}

#[inline(always)]
fn multiply_op(funct3: u32) -> Option<RegisterOp>
    ensures { result ≡ op_of funct3 0b0000001 }
{
    match funct3 {
        0b000 => Some(RegisterOp::Mul),
        0b001 => Some(RegisterOp::Mulh),
        0b010 => Some(RegisterOp::Mulhsu),
        0b011 => Some(RegisterOp::Mulhu),
        0b100 => Some(RegisterOp::Div),
        0b101 => Some(RegisterOp::Divu),
        0b110 => Some(RegisterOp::Rem),
        0b111 => Some(RegisterOp::Remu),
        _ => None,
    }
}

#[inline(always)]
pub(crate) fn register_op(funct3: u32, funct7: u32) -> Option<RegisterOp>
    ensures { result ≡ op_of funct3 funct7 }
{
    match funct7 {
        0b0000000 => base_op(funct3),
        0b0000001 => multiply_op(funct3),
        0b0100000 => match funct3 {
            0b000 => Some(RegisterOp::Sub),
            0b101 => Some(RegisterOp::Sra),
            _ => None,
        },
        _ => None,
    }
}

pub(crate) fn row_of_op(op: RegisterOp) -> (u32, u32)
    ensures row { result ≡ op_row op }
    ensures range { (result.0 < 8) × (result.1 < 128) }
{
    match op {
        RegisterOp::Add => (0b000, 0b0000000),
        RegisterOp::Sub => (0b000, 0b0100000),
        RegisterOp::Sll => (0b001, 0b0000000),
        RegisterOp::Slt => (0b010, 0b0000000),
        RegisterOp::Sltu => (0b011, 0b0000000),
        RegisterOp::Xor => (0b100, 0b0000000),
        RegisterOp::Srl => (0b101, 0b0000000),
        RegisterOp::Sra => (0b101, 0b0100000),
        RegisterOp::Or => (0b110, 0b0000000),
        RegisterOp::And => (0b111, 0b0000000),
        RegisterOp::Mul => (0b000, 0b0000001),
        RegisterOp::Mulh => (0b001, 0b0000001),
        RegisterOp::Mulhsu => (0b010, 0b0000001),
        RegisterOp::Mulhu => (0b011, 0b0000001),
        RegisterOp::Div => (0b100, 0b0000001),
        RegisterOp::Divu => (0b101, 0b0000001),
        RegisterOp::Rem => (0b110, 0b0000001),
        RegisterOp::Remu => (0b111, 0b0000001),
    }
}

#[inline(always)]
pub(crate) fn amo_op(funct5: u32) -> Option<AmoOp>
    ensures { result ≡ amo_of funct5 }
{
    match funct5 {
        0b00000 => Some(AmoOp::Add),
        0b00001 => Some(AmoOp::Swap),
        0b00100 => Some(AmoOp::Xor),
        0b01000 => Some(AmoOp::Or),
        0b01100 => Some(AmoOp::And),
        0b10000 => Some(AmoOp::Min),
        0b10100 => Some(AmoOp::Max),
        0b11000 => Some(AmoOp::Minu),
        0b11100 => Some(AmoOp::Maxu),
        _ => None,
    }
}

pub(crate) fn funct5_of_amo(op: AmoOp) -> u32
    ensures value { result ≡ amo_row op }
    ensures range { result < 32 }
{
    match op {
        AmoOp::Swap => 0b00001,
        AmoOp::Add => 0b00000,
        AmoOp::Xor => 0b00100,
        AmoOp::And => 0b01100,
        AmoOp::Or => 0b01000,
        AmoOp::Min => 0b10000,
        AmoOp::Max => 0b10100,
        AmoOp::Minu => 0b11000,
        AmoOp::Maxu => 0b11100,
    }
}
