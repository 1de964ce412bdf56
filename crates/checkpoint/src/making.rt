//! The parts of a guest's checkpoint.

ghost use Rattle.std.specs.Prelude.{◌≡◌, ◌<◌, ◌++◌, ◌∷◌, [], OnOk, IfOk, IsSome, length, map, slice_index};
ghost use Rattle.std.specs.List.{AllByRecursion};
ghost use Rattle.rrv_model.specs.Checkpoint.{Describes, all_pages};
ghost use Rattle.rrv_model.specs.LineMask.{IsLineMask};
ghost use Rattle.rrv_model.specs.RecordText.{HasLineText, HasPartText};
ghost use Rattle.rrv_model.specs.State.{IsState, State};
ghost use Rattle.guest_calls.specs.Guest.{state_of};
ghost use Rattle.guest_calls.specs.Snapshots.{guest_snapshots};
ghost use Rattle.guest_pages.specs.Snapshots.{AreChanges, DifferOn};
ghost use Rattle.checkpoint.specs.Made.{AreLinesOf, IsBaseOf, IsLineOf, IsMade, IsRestOf, NamesChanges, bytes_of, kept_memory};

use crate::fitting::END_PAGE;
use crate::pages::zero_page;
use guest_calls::Guest;
use guest_pages::{PageView, Snapshot};
use lane_pages::changed;
use rrv_model::limits::MAX_PART_PAGES;
use rrv_model::record::{CheckpointRest, Line, PagePart, Part};
use rrv_model::refusal::Memory;
use rrv_model::sequence::Sequence;
use std::alloc::Global;

/// A line of a page.
fn line_at(bytes: &[u8; 4096], line: usize) -> Line
    requires { line < 64 }
    ensures bytes { IsLineOf bytes.now line result }
    ensures text { HasLineText result }
{
    let mut copy = [0; 64];
    copy.copy_from_slice(&bytes[line * 64..line * 64 + 64]);
    Line { bytes: copy }
}

/// The lines of a page that a mask names.
fn masked_lines(alloc: Global, bytes: &[u8; 4096], mask: u64) -> Result<Sequence<Line>, Memory>
    ensures lines { IfOk result (AreLinesOf bytes.now mask) }
    ensures texts { IfOk result (AllByRecursion HasLineText) }
{
    let mut lines = Vec::with_capacity(alloc, mask.count_ones() as usize)?;
    for line in 0..64usize {
        if (mask >> line) & 1 == 1 {
            let Ok(()) = lines.push(line_at(bytes, line)) else {
                return Err(Memory);
            };
        }
    }
    Ok(Sequence::from_vec(lines))
}

/// The mask of a page's bytes against those of a page of the base, or against zeros where it has none.
fn mask_against(bytes: &[u8; 4096], old: Option<PageView<'_>>) -> u64
    ensures { IsLineMask (slice_index bytes.now) (bytes_of old.entry) result }
{
    match old {
        Some(view) => changed(bytes, view.bytes),
        None => changed(bytes, &zero_page()),
    }
}

/// A law: a page that differs from the base's is one that a guest may have.
fn is_low(guest: &Guest, base: &Snapshot, number: u32)
    requires kept { IsSome (guest_snapshots guest.now base.now) }
    requires differs { DifferOn number (kept_memory guest.now base.now) (state_of guest.now).memory }
    ensures { number < 0x80000 }
{
    let _ = guest.page_count();
    let space = guest.space();
    let _ = space.snapshot_page(base, number);
    let _ = space.snapshot_next_page(base, END_PAGE);
}

/// A page that differs from the base's, as the guest has it, or that the guest has none there.
fn page_at(alloc: Global, guest: &Guest, base: &Snapshot, number: u32) -> Result<PagePart, Memory>
    requires kept { IsSome (guest_snapshots guest.now base.now) }
    requires differs { DifferOn number (kept_memory guest.now base.now) (state_of guest.now).memory }
    ensures number { IfOk result (λ page. page.number ≡ number) }
    ensures made { IfOk result (IsMade (kept_memory guest.now base.now) (state_of guest.now).memory) }
{
    is_low(guest, base, number);
    let Some(view) = guest.space().page(number) else {
        return Ok(PagePart {
            number,
            permissions: None,
            mask: 0,
            lines: Sequence::from_vec(Vec::new(alloc)),
        });
    };
    let mask = mask_against(view.bytes, guest.space().snapshot_page(base, number));
    let lines = masked_lines(alloc, view.bytes, mask)?;
    Ok(PagePart {
        number,
        permissions: Some(view.permissions),
        mask,
        lines,
    })
}

/// The pages of these numbers, each of which differs from the base's.
fn list_pages(
    alloc: Global,
    guest: &Guest,
    base: &Snapshot,
    numbers: &[u32],
) -> Result<Vec<PagePart>, Memory>
    requires kept { IsSome (guest_snapshots guest.now base.now) }
    requires differ { AllByRecursion
        (λ n. DifferOn n (kept_memory guest.now base.now) (state_of guest.now).memory) numbers.now }
    ensures numbers { IfOk result (λ pages. map (λ p. p.number) pages.items ≡ numbers.now) }
    ensures made { IfOk result (λ pages.
        AllByRecursion (IsMade (kept_memory guest.now base.now) (state_of guest.now).memory) pages.items) }
{
    let mut pages = Vec::new(alloc);
    let mut left = numbers;
    while let [first, after @ ..] = left {
        let page = page_at(alloc, guest, base, *first)?;
        let Ok(()) = pages.push(page) else {
            return Err(Memory);
        };
        left = after;
    }
    Ok(pages)
}

/// A copy of tids.
fn copied(alloc: Global, tids: &[u32]) -> Result<Sequence<u32>, Memory>
    ensures { IfOk result (λ copy. copy ≡ tids.now) }
{
    let copy = tids.to_vec(alloc)?;
    Ok(Sequence::from_vec(copy))
}

/// What a checkpoint says beside its pages.
fn rest_of(alloc: Global, guest: &Guest) -> Result<CheckpointRest, Memory>
    ensures rest { IfOk result (IsRestOf (state_of guest.now)) }
    ensures is_state { IsState (state_of guest.now) }
{
    let threads = guest.threads();
    let parts = threads.to_parts(alloc)?;
    let waiting = copied(alloc, threads.waiting())?;
    Ok(CheckpointRest {
        program_break: guest.program_break(),
        next_tid: threads.next_tid(),
        threads: Sequence::from_vec(parts),
        waiting,
    })
}

/// Adds a part behind others.
fn add_part(
    parts: &mut Vec<Part>,
    pages: Vec<PagePart>,
    rest: Option<CheckpointRest>,
) -> Result<(), Memory>
    ensures { OnOk result (parts.new.items ≡ parts.old.items ++ record { pages = pages.items; rest = rest } ∷ []) }
{
    let part = Part {
        pages: Sequence::from_vec(pages),
        rest,
    };
    match parts.push(part) {
        Ok(()) => Ok(()),
        Err(_) => Err(Memory),
    }
}

/// The numbers of the pages that differ from the base's, rising.
fn changed_pages(guest: &Guest, base: &Snapshot) -> Result<Vec<u32>, Memory>
    requires { IsSome (guest_snapshots guest.now base.now) }
    ensures { IfOk result (λ numbers.
        AreChanges (kept_memory guest.now base.now) (state_of guest.now).memory numbers.items) }
{
    guest.space().changed_since(base)
}

/// The parts of a checkpoint of a guest, against a state whose memory a live snapshot keeps. Put onto that state they give
/// the guest's, where both have one version and one opening break, and the guest has neither ended nor a reservation. They
/// name exactly the pages that differ from that state's, each with the lines that do. Refused where a growth is.
pub fn make(alloc: Global, guest: &Guest, base: &Snapshot) -> Result<Vec<Part>, Memory>
    requires { IsSome (guest_snapshots guest.now base.now) }
    ensures texts { IfOk result (λ parts. AllByRecursion HasPartText parts.items) }
    ensures describes { IfOk result (λ parts. (old : State)
        → IsBaseOf (kept_memory guest.now base.now) old (state_of guest.now)
        → Describes old parts.items (state_of guest.now)) }
    ensures changes { IfOk result (λ parts.
        NamesChanges (kept_memory guest.now base.now) (state_of guest.now).memory (all_pages parts.items)) }
{
    let rest = rest_of(alloc, guest)?;
    let numbers = changed_pages(guest, base)?;
    let mut parts = Vec::new(alloc);
    let mut left = numbers.as_slice();
    while left.len() > MAX_PART_PAGES as usize {
        let (first, behind) = left.split_at(MAX_PART_PAGES as usize);
        let pages = list_pages(alloc, guest, base, first)?;
        add_part(&mut parts, pages, None)?;
        left = behind;
    }
    let pages = list_pages(alloc, guest, base, left)?;
    add_part(&mut parts, pages, Some(rest))?;
    Ok(parts)
}
