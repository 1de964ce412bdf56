//! Items that are sent: an opening of a file of one jump to itself, and frames of its thread.

ghost use Rattle.std.specs.Prelude.{◌≤◌, IfOk, length};
ghost use Rattle.rrv_model.specs.declared.limits.TheConstants.{MAX_ELF};
ghost use Rattle.rrv_model.specs.Opening.{IsName};
ghost use Rattle.rrv_model.specs.RecordText.{HasItemText};
ghost use Rattle.rrv_model.specs.Recovered.{IsOpening};

use rrv_model::limits::MAX_ELF;
use rrv_model::machine::Version;
use rrv_model::record::{End, Frame, Item, Opening};
use rrv_model::sequence::Sequence;
use std::alloc::Global;
use std::test::Fail;
use test_guests::files::file_of;

/// `j .`
const JUMP_TO_ITSELF: [u32; 1] = [0x0000_006F];

fn opening_of(version: Version, elf: Vec<u8>, name: Vec<u8>) -> Item
    requires fits { length elf.items ≤ MAX_ELF }
    requires named { IsName name.items }
    ensures { IsOpening result × HasItemText result }
{
    Item::Opening(Opening {
        version,
        elf: Sequence::from_vec(elf),
        name: Sequence::from_vec(name),
        random: [0; 16],
    })
}

/// The opening of a guest of a version, which is named `a`.
pub(crate) fn opening(alloc: Global, version: Version) -> Result<Item, Fail>
    ensures { IfOk result (λ item. IsOpening item × HasItemText item) }
{
    let elf = file_of(alloc, &JUMP_TO_ITSELF)?;
    if elf.len() > MAX_ELF as usize {
        return Err(Fail::new("a file too long"));
    }
    let name = Vec::from_slice(alloc, b"a")?;
    Ok(opening_of(version, elf, name))
}

/// The same of version 1 with a file as long as one may be, of zeros.
pub(crate) fn long_opening(alloc: Global) -> Result<Item, Fail>
    ensures { IfOk result (λ item. IsOpening item × HasItemText item) }
{
    let mut elf = Vec::new(alloc);
    elf.resize(MAX_ELF as usize, 0)?;
    let name = Vec::from_slice(alloc, b"a")?;
    Ok(opening_of(Version::One, elf, name))
}

/// The frame of a slice of 64 instructions.
pub(crate) fn preempted() -> Item
    ensures opens { IsOpening result → ⊥ }
    ensures text { HasItemText result }
{
    Item::Frame(Frame {
        tid: 1,
        count: 64,
        end: End::Preempt,
    })
}

/// The frame of a wait whose time was over.
pub(crate) fn expired() -> Item
    ensures opens { IsOpening result → ⊥ }
    ensures text { HasItemText result }
{
    Item::Frame(Frame {
        tid: 1,
        count: 0,
        end: End::Expire,
    })
}
