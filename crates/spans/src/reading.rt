//! Records of a source, read several at a time.

ghost use Rattle.std.specs.Prelude.{◌≡◌, ◌⊎◌, ◌<◌, IfErr, IfOk, length};
ghost use Rattle.replayer.specs.Asked.{AsksSource};
ghost use Rattle.faults.specs.declared.replay.VerifyFault.TheVariants as verify_faults;
ghost use Rattle.spans.specs.Reading.{Reads};

use crate::cutting::load_of;
use replayer::{Source, VerifyFault, given};
use rrv_model::record::Record;
use std::alloc::Global;

/// So many records are read at a time at most.
const MOST_RECORDS: usize = 65536;

/// So much is read at a time at most: about so many instructions, or 16 MB.
const MOST_LOAD: u64 = 1 << 28;

/// Records from a place on, one at least. The first is asked for; those behind it are read ahead, up to one that isn't given, or
/// as many as are read at a time. `Unreadable` where the source withholds the first, and `Memory` where a growth is refused.
pub(crate) fn read_batch<S: Source>(
    alloc: Global,
    source: &mut S,
    from: usize,
) -> Result<Vec<Record>, VerifyFault>
    requires { from < length (S.records source.old) }
    ensures reads { IfOk result (λ batch. Reads S.Source from batch.items source.old) }
    ensures refused { IfErr result (λ e. (e ≡ verify_faults.Memory) ⊎ (e ≡ verify_faults.Unreadable from)) }
    ensures asks { AsksSource S.Source result source.old source.new }
{
    let len = source.len();
    let first = given(alloc, source, from)?;
    let mut load = load_of(&first);
    let mut batch = Vec::new(alloc);
    batch.push(first)?;
    for index in from + 1..len {
        if MOST_RECORDS <= batch.len() || MOST_LOAD <= load {
            return Ok(batch);
        }
        let Ok(entry) = source.ahead(alloc, index) else {
            return Ok(batch);
        };
        load = load.saturating_add(load_of(&entry));
        batch.push(entry)?;
    }
    Ok(batch)
}
