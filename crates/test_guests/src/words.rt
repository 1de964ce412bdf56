//! Words of instructions (RISC-V Unprivileged ISA 20191213, chapters 2 and 8), as an assembler gives them.

/// `ecall`
pub const ECALL: u32 = 0x0000_0073;
/// `nop`
pub const NO_OP: u32 = 0x0000_0013;
/// `lui a1, 0x10`: where the small files are loaded.
pub const A1_FILE: u32 = 0x0001_05B7;
/// `lui a1, 0x11`: the page behind these.
pub const A1_BEHIND: u32 = 0x0001_15B7;
/// `lr.w a0, (a1)`
pub const RESERVE: u32 = 0x1005_A52F;
/// `sc.w a2, a3, (a1)`
pub const STORE_CONDITIONAL: u32 = 0x18D5_A62F;

/// `li a0, n`, for n below 2,048.
pub fn a0(n: u32) -> u32 {
    n.wrapping_shl(20) | 0x513
}

/// `li a2, n`, for n below 2,048.
pub fn a2(n: u32) -> u32 {
    n.wrapping_shl(20) | 0x613
}

/// `li a7, n`, for n below 2,048.
pub fn a7(n: u32) -> u32 {
    n.wrapping_shl(20) | 0x893
}
