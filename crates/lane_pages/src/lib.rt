//! The lines of a page, 64 bytes each, by vectors of as many lanes: which of them differ from another page's, whether all are
//! zero, and those that a mask names, replaced. None of these takes memory.
//!
//! Tests: machine_cases.
//!
//! # Contracts
//!
//! - `changed`: bit i is set exactly if some byte of line i differs, which is bytes 64i to 64i + 63.
//! - `is_zero`: whether all bytes are zero.
//! - `merge`: the lines of the set bits are replaced, in order, and no other byte. That there are as many lines as set bits is
//!   the caller's condition.
//! - `checkpoint` stands on `changed` and `merge`. Rows of `machine_cases` see all three.
#![tactic(auto)]

ghost use Rattle.std.specs.Prelude.{◌≡◌, ◌↔◌, ◌+◌, ◌*◌, ◌<◌, ◌≤◌, ℕ, IsTrue, count_ones, length, slice_index};
ghost use Rattle.rrv_model.specs.LineMask.{IsLineMask, IsMerged, IsZeroPage};
ghost use Rattle.lane_pages.specs.Lines.{AreZero, Differ};

use rrv_model::record::Line;
use std::simd::prelude::*;

/// A line of a page.
#[inline(always)]
fn line_at(page: &[u8; 4096], line: usize) -> &[u8; 64]
    requires { line < 64 }
    ensures { (k : ℕ) → k < 64 → slice_index result.now k ≡ slice_index page.now (64 * line + k) }
{
    let (lines, _) = page.as_chunks::<64>();
    &lines[line]
}

/// Replaces a line of a page.
#[inline(always)]
fn put_line(page: &mut [u8; 4096], line: usize, bytes: &[u8; 64])
    requires { line < 64 }
    ensures before { (k : ℕ) → k < 64 * line → slice_index page.new k ≡ slice_index page.old k }
    ensures line { (k : ℕ) → k < 64 → slice_index page.new (64 * line + k) ≡ slice_index bytes.now k }
    ensures after { (k : ℕ) → 64 * line + 64 ≤ k → slice_index page.new k ≡ slice_index page.old k }
{
    let lanes = u8x64::from_array(*bytes);
    lanes.copy_to_slice(&mut page[line * 64..line * 64 + 64]);
}

/// Tests whether some byte of two lines differs.
#[inline(always)]
fn differ(ours: &[u8; 64], theirs: &[u8; 64]) -> bool
    ensures { IsTrue result ↔ Differ ours.now theirs.now }
{
    let unlike = u8x64::from_array(*ours).simd_ne(u8x64::from_array(*theirs));
    unlike.to_bitmask() != 0
}

/// Tests whether all bytes of a line are zero.
#[inline(always)]
fn are_zero(line: &[u8; 64]) -> bool
    ensures { IsTrue result ↔ AreZero line.now }
{
    let set = u8x64::from_array(*line).simd_ne(u8x64::splat(0));
    set.to_bitmask() == 0
}

/// The mask of two pages: bit i is set exactly where some byte of line i differs, which is bytes 64 * i to 64 * i + 63.
pub fn changed(ours: &[u8; 4096], theirs: &[u8; 4096]) -> u64
    ensures { IsLineMask (slice_index ours.now) (slice_index theirs.now) result }
{
    let mut mask = 0u64;
    for line in 0..64usize {
        if differ(line_at(ours, line), line_at(theirs, line)) {
            mask |= 1 << line;
        }
    }
    mask
}

/// Tests whether all bytes of a page are zero.
pub fn is_zero(page: &[u8; 4096]) -> bool
    ensures { IsTrue result ↔ IsZeroPage (slice_index page.now) }
{
    for line in 0..64usize {
        if !are_zero(line_at(page, line)) {
            return false;
        }
    }
    true
}

/// Replaces the lines that a mask names, in order, and no other byte. That there are as many lines as set bits is the caller's
/// condition.
pub fn merge(page: &mut [u8; 4096], lines: &[Line], mask: u64)
    requires { length lines.now ≡ count_ones mask }
    ensures { IsMerged (slice_index page.old) mask lines.now (slice_index page.new) }
{
    let mut next = 0usize;
    for line in 0..64usize {
        if (mask >> line) & 1 == 1 {
            put_line(page, line, &lines[next].bytes);
            next += 1;
        }
    }
}
