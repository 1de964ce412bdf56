//! Whether parts may describe a state at all.

ghost use Rattle.std.specs.Prelude.{◌≡◌, ◌↔◌, ◌<◌, ◌≤◌, ℕ, IsTrue, MatchOption, slice_index};
ghost use Rattle.std.specs.List.{AllByRecursion};
ghost use Rattle.rrv_model.specs.Checkpoint.{EndsWithRest};
ghost use Rattle.checkpoint.specs.Fitting.{AreFit, Fits, HasBytes, IsLine, PartsFit, next_number};

use rrv_model::limits::MAX_PART_PAGES;
use rrv_model::record::{CheckpointRest, Line, PagePart, Part};

/// The pages that may be mapped lie below this one.
pub(crate) const END_PAGE: u32 = 0x8_0000;

/// The rest, where the last part has one and no part before it.
pub(crate) fn rest_of(parts: &[Part]) -> Option<&CheckpointRest>
    ensures { MatchOption result ((rest : _) → ¬ EndsWithRest parts.now rest)
        (λ rest. EndsWithRest parts.now rest.now) }
{
    let mut left = parts;
    while let [first, after @ ..] = left {
        if after.is_empty() {
            return first.rest.as_ref();
        }
        if first.rest.is_some() {
            return None;
        }
        left = after;
    }
    None
}

/// A law: bytes are bytes.
fn are_bytes(bytes: &[u8])
    ensures { (k : ℕ) → slice_index bytes.now k < 256 }
{
    let _ = bytes;
}

/// A law: so are those of each line.
fn are_lines(lines: &[Line])
    ensures { AllByRecursion IsLine lines.now }
{
    let mut left = lines;
    while let [first, after @ ..] = left {
        are_bytes(&first.bytes);
        left = after;
    }
}

/// Tests whether a guest may have this page, and it has a line for each bit of its mask.
fn page_fits(page: &PagePart) -> bool
    ensures fits { IsTrue result ↔ Fits page.now }
    ensures bytes { HasBytes page.now }
{
    let lines = page.lines.as_slice();
    are_lines(lines);
    if lines.len() != page.mask.count_ones() as usize {
        return false;
    }
    match page.permissions {
        Some(permissions) => {
            1 <= page.number && page.number < END_PAGE && (permissions.read || !permissions.write)
        }
        None => page.mask == 0,
    }
}

/// The number behind the last one's, where the pages fit and their numbers rise from the least on.
fn pages_fit(least: u64, pages: &[PagePart]) -> Option<u64>
    requires { least ≤ 4294967296 }
    ensures { MatchOption result (¬ AreFit least pages.now) (λ next. AreFit least pages.now
        × (next ≡ next_number least pages.now) × AllByRecursion HasBytes pages.now × (next ≤ 4294967296)) }
{
    let mut least = least;
    let mut left = pages;
    while let [first, after @ ..] = left {
        if u64::from(first.number) < least || !page_fits(first) {
            return None;
        }
        least = u64::from(first.number) + 1;
        left = after;
    }
    Some(least)
}

/// Tests whether each part names few enough pages, all of which fit, and their numbers rise through all parts.
pub(crate) fn parts_fit(parts: &[Part]) -> bool
    ensures fits { IsTrue result ↔ PartsFit 0 parts.now }
    ensures bytes { IsTrue result → AllByRecursion (λ part. AllByRecursion HasBytes part.pages) parts.now }
{
    let mut least = 0u64;
    let mut left = parts;
    while let [first, after @ ..] = left {
        let pages = first.pages.as_slice();
        if pages.len() > MAX_PART_PAGES as usize {
            return false;
        }
        let Some(next) = pages_fit(least, pages) else {
            return false;
        };
        least = next;
        left = after;
    }
    true
}
