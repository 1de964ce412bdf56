//! What is kept of records that are verified.

ghost use Rattle.std.specs.Prelude.{◌≡◌, ◌++◌, ⊤, List, IfErr, OnOk};
ghost use Rattle.rrv_model.specs.declared.record.Record.{Record};
ghost use Rattle.replayer.specs.Keepers.{IsKept};
ghost use Rattle.spans.specs.Keeping.{MayCome};

use replayer::{Keeper, VerifyFault};
use rrv_model::record::Record;
use std::alloc::Global;

/// What is kept of records that are verified, as they come.
pub(crate) trait Keep {
    /// That it is kept of just these records.
    ghost is_of: { Self → List Record → Type 0 };

    /// Keeps the next records. `Memory` where a growth is refused.
    fn keep_all(&mut self, alloc: Global, records: &[Record]) -> Result<(), VerifyFault>
        requires { MayCome (is_of self.old) records.now }
        ensures kept { OnOk result ((read : List Record) → is_of self.old read → is_of self.new (read ++ records.now)) }
        ensures memory { IfErr result (λ e. e ≡ VerifyFault.Memory) };
}

/// Nothing is kept.
#[derive(Clone, Copy, Debug, Drop)]
pub(crate) struct Nothing;

impl Keep for Nothing {
    ghost is_of = { λ _ _. ⊤ };

    fn keep_all(&mut self, _alloc: Global, _records: &[Record]) -> Result<(), VerifyFault> {
        Ok(())
    }
}

impl Keep for Keeper {
    ghost is_of = { IsKept };

    fn keep_all(&mut self, alloc: Global, records: &[Record]) -> Result<(), VerifyFault> {
        keep_each(self, alloc, records)
    }
}

fn keep_each(keeper: &mut Keeper, alloc: Global, records: &[Record]) -> Result<(), VerifyFault>
    requires { MayCome (IsKept keeper.old) records.now }
    ensures kept { OnOk result ((read : List Record)
        → IsKept keeper.old read → IsKept keeper.new (read ++ records.now)) }
    ensures memory { IfErr result (λ e. e ≡ VerifyFault.Memory) }
{
    for entry in records {
        keeper.keep(alloc, entry)?;
    }
    Ok(())
}
