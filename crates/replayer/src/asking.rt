//! Asks a source for its records.

ghost use Rattle.std.specs.Prelude.{◌≡◌, ◌⊎◌, ◌<◌, IfErr, IfOk, Some, length, slice_get};
ghost use Rattle.faults.specs.declared.replay.VerifyFault.TheVariants as verify_faults;
ghost use Rattle.replayer.specs.Asked.{AsksSource};

use crate::fault::VerifyFault;
use crate::source::Source;
use recover::ReadFault;
use rrv_model::record::Record;
use std::alloc::Global;

/// The record at a place of a source. `Unreadable` where the source withholds it, and `Memory` where a growth is refused.
pub fn given<S: Source>(alloc: Global, source: &mut S, index: usize) -> Result<Record, VerifyFault>
    requires { index < length (S.records source.old) }
    ensures record { S.honest source.old → IfOk result (λ r. slice_get (S.records source.old) index ≡ Some r) }
    ensures refused { IfErr result (λ e. (e ≡ verify_faults.Memory) ⊎ (e ≡ verify_faults.Unreadable index)) }
    ensures asks { AsksSource S.Source result source.old source.new }
{
    match source.item(alloc, index) {
        Ok(entry) => Ok(entry),
        Err(ReadFault::Memory) => Err(VerifyFault::Memory),
        Err(ReadFault::DeviceFailed | ReadFault::Damaged) => Err(VerifyFault::Unreadable { index }),
    }
}
