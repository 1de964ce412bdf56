//! Copies of guests in other stores.

ghost use Rattle.std.specs.Prelude.{◌≡◌, ◌≢◌, ◌<◌, IfErr, List, OnOk, false};
ghost use Rattle.std.specs.Io.KnownBytes.{Appends};
ghost use Rattle.rrv_model.specs.declared.limits.TheConstants.{MAX_NUMBER};
ghost use Rattle.rrv_model.specs.declared.record.Record.{Record};
ghost use Rattle.rrv_model.specs.Recovered.{of_guest};
ghost use Rattle.recover.specs.Spots.{records_of, StandOn};
ghost use Rattle.copying.specs.Copied.{copies_of, AreCopies, Copies, KeepsRecords};
ghost use Rattle.commands.specs.CopyRefusals.{RefusesCopy};
ghost use Rattle.listings.specs.Printed.{guest_line};
ghost use Rattle.line_io.specs.Printed.{with_newline};

use command_line::GuestOf;
use copying::copy_guest;
use line_io::{Refusal, finish, guest_in, in_blocks, look_at, open_log};
use listings::{name_of, print_guest};
use recover::Lists;
use std::alloc::Global;
use std::fs;
use std::fs::File;
use std::io::Write;
use std::os::unix::fs::MetadataExt;
use std::rt::Files;
use trace_disk::Disk;
use trace_log::Log;

/// Copies a guest to a log, and prints the line that `list` prints of it in the log's store.
fn copy_to<S: Disk, D: Disk, W: Write>(
    alloc: Global,
    lists: &Lists,
    source: &mut S,
    guest: u32,
    log: &mut Log<D>,
    out: &mut W,
) -> Result<(), Refusal>
    requires { log.old.is_broken ≡ false }
    ensures copied { (earlier : List Record) → StandOn S.honest S.state source.old lists.now
        → KeepsRecords D.Disk log.old earlier
        → Copies D.Disk result log.old log.new earlier (copies_of log.old.next_guest guest lists.now) }
    ensures safe { (earlier : List Record) → KeepsRecords D.Disk log.old earlier → (read : List Record)
        × AreCopies log.old.marked log.old.next_guest 0 read × Copies D.Disk result log.old log.new earlier read }
    ensures too_many { MAX_NUMBER < log.old.next_guest → OnOk result ⊥ × (log.new ≡ log.old) }
    ensures refused { StandOn S.honest S.state source.old lists.now
        → IfErr result (RefusesCopy (copies_of log.old.next_guest guest lists.now) log.old log.new) }
    ensures mark { log.new.marked ≡ log.old.marked }
    ensures quiet { IfErr result (λ e. e ≢ Refusal.OutputFailed → out.new ≡ out.old) }
    ensures printed { StandOn S.honest S.state source.old lists.now
        → OnOk result (Appends (W.contents out.old) (W.contents out.new)
        (with_newline (guest_line log.old.next_guest (of_guest guest (records_of lists.now))))) }
{
    let name = name_of(alloc, lists, source, guest)?;
    let number = copy_guest(alloc, lists, source, guest, log)?;
    print_guest(lists, guest, number, name.as_slice(), out)?;
    Ok(())
}

/// Whether two paths lead to one file.
fn is_one_file<R: Files<File = File>>(rt: &R, path: &str, other: &str) -> bool {
    let Ok(one) = fs::metadata(rt, path) else {
        return false;
    };
    let Ok(two) = fs::metadata(rt, other) else {
        return false;
    };
    one.ino() == two.ino() && one.dev() == two.dev()
}

/// Copies a guest of the store in a file to that in another, and prints its line there in blocks. The first is only read, and may be
/// recorded to meanwhile; the second is opened as to record to it.
pub(crate) fn copy<R: Files<File = File> + AllocGlobal, O: Write>(
    rt: &R,
    guest: GuestOf<'_>,
    to: &str,
    out: &mut O,
) -> Result<(), Refusal> {
    let alloc = rt.alloc();
    let mut store = look_at(rt, guest.store)?;
    let number = guest_in(&store.lists, guest.number)?;
    if is_one_file(rt, guest.store, to) {
        return Err(Refusal::SameStore);
    }
    let mut log = open_log(rt, to)?;
    let mut out = in_blocks(alloc, out)?;
    copy_to(
        alloc,
        &store.lists,
        &mut store.disk,
        number,
        &mut log,
        &mut out,
    )?;
    finish(&mut out)
}
