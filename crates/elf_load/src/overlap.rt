//! Whether two PT_LOADs share a byte of memory.

ghost use Rattle.std.specs.Prelude.{◌≡◌, ◌<◌, ◌≤◌, All, IfOk, filter};
ghost use Rattle.std.specs.List.Sorted.{IsNonDecreasingBy};
ghost use Rattle.rrv_model.specs.Elf.{any_share};
ghost use Rattle.elf_load.specs.Refusals.{has_memory};

use crate::header::ProgramHeader;
use std::alloc::{AllocError, Global};

/// Some two share a byte of memory. In order of their addresses, only neighbours can.
pub(crate) fn any_share(alloc: Global, found: &[ProgramHeader]) -> Result<bool, AllocError>
    ensures { IfOk result (λ shared. shared ≡ any_share found.now) }
{
    let mut ordered = with_memory(alloc, found)?;
    ordered.sort_by_key(|load| load.address())?;
    Ok(any_neighbours_share(&ordered))
}

/// The loads that have a byte of memory.
fn with_memory(alloc: Global, found: &[ProgramHeader]) -> Result<Vec<ProgramHeader>, AllocError>
    ensures { IfOk result (λ kept. kept.items ≡ filter has_memory found.now) }
{
    let mut kept = Vec::new(alloc);
    for load in found {
        if !load.is_empty() {
            kept.push(*load)?;
        }
    }
    Ok(kept)
}

/// Some load shares a byte of memory with the next one.
fn any_neighbours_share(ordered: &[ProgramHeader]) -> bool
    requires rising { IsNonDecreasingBy (λ load. load.address) ordered.now }
    requires memory { All (λ load. 0 < load.memory_len) ordered.now }
    ensures { result ≡ any_share ordered.now }
{
    for index in 1..ordered.len() {
        if ordered[index - 1].shares(&ordered[index]) {
            return true;
        }
    }
    false
}
