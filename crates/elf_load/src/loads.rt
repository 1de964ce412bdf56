//! The highest end of the PT_LOADs of a file.

ghost use Rattle.std.specs.Prelude.{◌≡◌, ◌≤◌, false};
ghost use Rattle.std.specs.List.{list_any};
ghost use Rattle.rrv_model.specs.Elf.{leaves_range};
ghost use Rattle.elf_load.specs.Refusals.{highest_end};

use crate::header::ProgramHeader;

/// The highest end of a load with memory.
pub(crate) fn highest_end(found: &[ProgramHeader]) -> u64
    requires { list_any leaves_range found.now ≡ false }
    ensures value { result ≡ highest_end found.now }
    ensures within { result ≤ 0x70000000 }
{
    let mut highest = 0;
    for load in found {
        if !load.is_empty() {
            highest = load.end().max(highest);
        }
    }
    highest
}
