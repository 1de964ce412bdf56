//! A small program that counts down and makes a call.

/// `li t0, 1000`: with it first, the program counts down within a slice.
pub const SHORT: u32 = 0x3E80_0293;

/// `lui t0, 15`: with it first, the program counts down from 61,440, in three slices.
pub const LONG: u32 = 0x0000_F2B7;

/// Counts down from what its first instruction puts into t0, and exits with 0.
pub fn count_down(first: u32) -> [u32; 5] {
    [
        first,
        0xFFF2_8293, // addi t0, t0, -1
        0xFE02_9EE3, // bnez t0, to the line before
        0x05D0_0893, // li a7, 93
        0x0000_0073, // ecall
    ]
}
