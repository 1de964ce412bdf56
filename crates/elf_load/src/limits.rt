//! What the PT_LOADs ask for together.

ghost use Rattle.std.specs.Prelude.{◌≡◌, ◌||◌, ◌*◌, ◌≤◌, ◌<◌, ℕ, None, Some, IfOk, IfErr, OnOk, ◌≢◌, All, length, slice_index_or, true, false, count_by};
ghost use Rattle.std.specs.List.{list_any};
ghost use Rattle.rrv_model.specs.Elf.{loads, load_end, touches, touched_below, leaves_range};
ghost use Rattle.elf_load.specs.Fault.{refusal_number};
ghost use Rattle.elf_load.specs.Refusals.{has_memory, limit_refusal};

use crate::fault::ElfFault;
use crate::header::ProgramHeader;
use crate::loads::highest_end;
use crate::overlap::any_share;
use rrv_model::limits::{MAX_ELF, PAGE_BYTES};
use std::alloc::{AllocError, Global};

/// Pages that the PT_LOADs may touch.
const MAX_LOADED_PAGES: usize = 16_128;

/// Why a file is refused that passes the tests before and has no byte of memory: refusal 14 or 15.
#[tactic(auto, using(crate::proofs::Refusal::too_large_without_memory, crate::proofs::Refusal::no_load_without_memory))]
pub(crate) fn refusal_without_memory(elf: &[u8]) -> ElfFault
    requires { list_any has_memory (loads elf.now) ≡ false }
    ensures refused { limit_refusal elf.now ≡ Some (refusal_number result) }
    ensures no_growth { result ≢ ElfFault.Memory }
{
    if elf.len() > MAX_ELF as usize {
        ElfFault::TooLarge
    } else {
        ElfFault::NoLoad
    }
}

/// Tests that no two share a byte, the file's length and the number of pages: refusals 13 and 14.
#[tactic(auto, unfolding(crate::specs::Refusals::limit_refusal))]
pub(crate) fn check_limits(
    alloc: Global,
    elf: &[u8],
    found: &[ProgramHeader],
) -> Result<(), ElfFault>
    requires loads_are { found.now ≡ loads elf.now }
    requires in_range { list_any leaves_range found.now ≡ false }
    requires memory { list_any has_memory found.now ≡ true }
    ensures passes { OnOk result (limit_refusal elf.now ≡ None) }
    ensures refused { IfErr result (λ fault. fault ≢ ElfFault.Memory
        → limit_refusal elf.now ≡ Some (refusal_number fault)) }
{
    if any_share(alloc, found)? {
        return Err(ElfFault::Overlap);
    }
    let pages = pages_to_end(found);
    if elf.len() > MAX_ELF as usize || touched_pages(alloc, found, pages)? > MAX_LOADED_PAGES {
        return Err(ElfFault::TooLarge);
    }
    Ok(())
}

/// The pages from address 0 to the highest end of a PT_LOAD: no page behind them is touched.
fn pages_to_end(found: &[ProgramHeader]) -> usize
    requires { list_any leaves_range found.now ≡ false }
    ensures within { All (λ load. 0 < load.memory_len → load_end load ≤ result * 4096) found.now }
    ensures all { touched_below result found.now ≡ touched_below 0x70000 found.now }
{
    let end = highest_end(found);
    let pages = end.div_ceil(u64::from(PAGE_BYTES));
    pages as usize
}

/// How many of so many pages the PT_LOADs touch.
fn touched_pages(alloc: Global, found: &[ProgramHeader], pages: usize) -> Result<usize, AllocError>
    requires { All (λ load. 0 < load.memory_len → load_end load ≤ pages * 4096) found.now }
    ensures { IfOk result (λ count. count ≡ touched_below pages found.now) }
{
    let mut marks = vec![in alloc; false; pages]?;
    for load in found {
        mark_pages(&mut marks, load);
    }
    Ok(count_marks(&marks))
}

fn count_marks(marks: &[bool]) -> usize
    ensures { result ≡ count_by (λ mark. mark) marks.now }
{
    marks.iter().filter(|mark| **mark).count()
}

/// Marks the pages of a PT_LOAD.
fn mark_pages(marks: &mut [bool], load: &ProgramHeader)
    requires { 0 < load.now.memory_len → load_end load.now ≤ length marks.old * 4096 }
    ensures { (page : ℕ) → page < length marks.old
        → slice_index_or marks.new page false ≡ (slice_index_or marks.old page false || touches page load.now) }
{
    if load.is_empty() {
        return;
    }
    let first = u64::from(load.address()) / u64::from(PAGE_BYTES);
    let last = (load.end() - 1) / u64::from(PAGE_BYTES);
    for page in first..last + 1 {
        marks[page as usize] = true;
    }
}
