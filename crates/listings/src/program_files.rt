//! The program that a guest was recorded from.

ghost use Rattle.std.specs.Prelude.{◌≡◌, IfErr, OnOk};
ghost use Rattle.std.specs.Io.KnownBytes.{Appends};
ghost use Rattle.rrv_model.specs.Recovered.{of_guest};
ghost use Rattle.recover.specs.Spots.{records_of, StandOn};
ghost use Rattle.listings.specs.Printed.{first_file};
ghost use Rattle.listings.specs.Refused.{RefusesDump};

use line_io::{OutputFailed, Refusal, Store, finish, guest_in, in_blocks, record_in};
use recover::Lists;
use std::alloc::Global;
use std::io::Write;
use trace_disk::Disk;

/// Puts bytes out.
fn put_bytes<W: Write>(out: &mut W, bytes: &[u8]) -> Result<(), OutputFailed>
    ensures put { OnOk result (Appends (W.contents out.old) (W.contents out.new) bytes.now) }
{
    out.write_all(bytes).map_err(|_| OutputFailed)
}

/// Puts out the file in the opening of the guest of this number, which is its first record.
fn print_elf<D: Disk, W: Write>(
    alloc: Global,
    lists: &Lists,
    disk: &mut D,
    number: u64,
    out: &mut W,
) -> Result<(), Refusal>
    ensures printed { StandOn D.honest D.state disk.old lists.now
        → OnOk result (Appends (W.contents out.old) (W.contents out.new)
        (first_file (of_guest number (records_of lists.now)))) }
    ensures refused { StandOn D.honest D.state disk.old lists.now
        → IfErr result (λ e. RefusesDump e (of_guest number (records_of lists.now))) }
{
    let guest = guest_in(lists, number)?;
    let entry = record_in(alloc, lists, disk, guest, 0)?;
    match entry.item.into_opening() {
        Some(opening) => Ok(put_bytes(out, opening.elf.as_slice())?),
        None => Ok(()),
    }
}

/// Puts out the program of a guest, in blocks.
pub fn put_elf<D: Disk + Drop, O: Write>(
    alloc: Global,
    store: &mut Store<D>,
    number: u64,
    out: &mut O,
) -> Result<(), Refusal> {
    let mut out = in_blocks(alloc, out)?;
    print_elf(alloc, &store.lists, &mut store.disk, number, &mut out)?;
    finish(&mut out)
}
