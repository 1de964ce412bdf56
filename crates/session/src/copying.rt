//! The opening of a job.

ghost use Rattle.std.specs.Prelude.{◌≡◌, IfOk, None};
ghost use Rattle.rrv_model.specs.Elf.{refusal};
ghost use Rattle.rrv_model.specs.Opening.{IsName};
ghost use Rattle.rrv_model.specs.RecordText.{HasOpeningText};

use rrv_model::machine::Version;
use rrv_model::record::Opening;
use rrv_model::sequence::Sequence;
use std::alloc::{AllocError, Global};

/// The opening of these bytes.
fn join(version: Version, elf: Vec<u8>, name: Vec<u8>, random: &[u8; 16]) -> Opening
    requires accepted { refusal elf.items ≡ None }
    requires name { IsName name.items }
    ensures is { result ≡ record { version = version; elf = elf.items; name = name.items; random = random.now } }
    ensures text { HasOpeningText result }
{
    Opening {
        version,
        elf: Sequence::from_vec(elf),
        name: Sequence::from_vec(name),
        random: *random,
    }
}

/// The opening of a copy of these bytes: the job keeps its own.
pub(crate) fn copy_opening(
    alloc: Global,
    version: Version,
    elf: &[u8],
    name: &[u8],
    random: &[u8; 16],
) -> Result<Opening, AllocError>
    requires accepted { refusal elf.now ≡ None }
    requires name { IsName name.now }
    ensures is { IfOk result (λ o.
        o ≡ record { version = version; elf = elf.now; name = name.now; random = random.now }) }
    ensures text { IfOk result HasOpeningText }
{
    let elf = Vec::from_slice(alloc, elf)?;
    let name = Vec::from_slice(alloc, name)?;
    Ok(join(version, elf, name, random))
}
