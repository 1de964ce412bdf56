//! Pages of a checkpoint, put into a guest's memory.

ghost use Rattle.std.specs.Prelude.{◌≡◌, ℕ, ◌+◌, ◌*◌, ◌<◌, ◌≤◌, [], ◌∷◌, IsErrOf, count_ones, length, slice_index};
ghost use Rattle.std.specs.List.{AllByRecursion};
ghost use Rattle.rrv_model.specs.Checkpoint.{patched_byte};
ghost use Rattle.rrv_model.specs.Memory.{page_bytes, page_count};
ghost use Rattle.rrv_model.specs.declared.limits.TheConstants.{MAX_PAGES};
ghost use Rattle.guest_calls.specs.Carries.{Becomes};
ghost use Rattle.guest_calls.specs.Guest.{state_of};
ghost use Rattle.checkpoint.specs.Fitting.{Fits};
ghost use Rattle.checkpoint.specs.Patches.{BecomesOrRefuses, with_all_cleared, with_all_set, with_parts_cleared, with_parts_set};

use crate::fault::ApplyFault;
use guest_calls::{Guest, SetPageFault};
use guest_pages::PageView;
use lane_pages::merge;
use rrv_model::record::{PagePart, Part};

/// A page of zeros.
pub(crate) fn zero_page() -> [u8; 4096]
    ensures { (k : ℕ) → k < 4096 → slice_index result k ≡ 0 }
{
    [0; 4096]
}

/// The bytes of a page: of the lines that it names, and else those that are there, or zeros.
fn patched_bytes(guest: &Guest, page: &PagePart) -> [u8; 4096]
    requires { length page.now.lines ≡ count_ones page.now.mask }
    ensures { (k : ℕ) → k < 4096 → slice_index result k
        ≡ patched_byte page.now ((state_of guest.now).memory (page.now.number * page_bytes + k)) k }
{
    let mut bytes = match guest.space().page(page.number) {
        Some(view) => *view.bytes,
        None => zero_page(),
    };
    merge(&mut bytes, page.lines.as_slice(), page.mask);
    bytes
}

/// Unmaps a page where the checkpoint does.
fn clear_page(guest: &mut Guest, page: &PagePart)
    ensures { Becomes (with_all_cleared (page.now ∷ []) (state_of guest.old)) guest.old guest.new }
{
    if page.permissions.is_some() {
        return;
    }
    let Ok(()) = guest.set_page(page.number, None) else {
        unreachable!()
    };
}

/// Puts a page into the memory where the checkpoint maps it.
fn set_page(guest: &mut Guest, page: &PagePart) -> Result<(), ApplyFault>
    requires { Fits page.now }
    ensures becomes { BecomesOrRefuses result (with_all_set (page.now ∷ []) (state_of guest.old)) guest.old guest.new }
    ensures memory { IsErrOf result ApplyFault.Memory
        → page_count (with_all_set (page.now ∷ []) (state_of guest.old)).memory ≤ MAX_PAGES }
{
    let Some(permissions) = page.permissions else {
        return Ok(());
    };
    let bytes = patched_bytes(guest, page);
    let view = PageView {
        permissions,
        bytes: &bytes,
    };
    match guest.set_page(page.number, Some(view)) {
        Ok(()) => Ok(()),
        Err(SetPageFault::TooManyPages) => Err(ApplyFault::TooManyPages),
        Err(SetPageFault::Memory) => Err(ApplyFault::Memory),
        Err(SetPageFault::NoState) => unreachable!(),
    }
}

fn clear_pages(guest: &mut Guest, pages: &[PagePart])
    ensures { Becomes (with_all_cleared pages.now (state_of guest.old)) guest.old guest.new }
{
    let mut left = pages;
    while let [first, after @ ..] = left {
        clear_page(guest, first);
        left = after;
    }
}

/// Unmaps all pages that the checkpoint unmaps.
pub(crate) fn clear_parts(guest: &mut Guest, parts: &[Part])
    ensures { Becomes (with_parts_cleared parts.now (state_of guest.old)) guest.old guest.new }
{
    let mut left = parts;
    while let [first, after @ ..] = left {
        clear_pages(guest, first.pages.as_slice());
        left = after;
    }
}

fn set_pages(guest: &mut Guest, pages: &[PagePart]) -> Result<(), ApplyFault>
    requires { AllByRecursion Fits pages.now }
    ensures { BecomesOrRefuses result (with_all_set pages.now (state_of guest.old)) guest.old guest.new }
{
    let mut left = pages;
    while let [first, after @ ..] = left {
        set_page(guest, first)?;
        left = after;
    }
    Ok(())
}

/// Puts all pages into the memory that the checkpoint maps, one after the other.
pub(crate) fn set_parts(guest: &mut Guest, parts: &[Part]) -> Result<(), ApplyFault>
    requires { AllByRecursion (λ part. AllByRecursion Fits part.pages) parts.now }
    ensures { BecomesOrRefuses result (with_parts_set parts.now (state_of guest.old)) guest.old guest.new }
{
    let mut left = parts;
    while let [first, after @ ..] = left {
        set_pages(guest, first.pages.as_slice())?;
        left = after;
    }
    Ok(())
}
