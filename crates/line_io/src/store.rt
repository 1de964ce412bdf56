//! Stores in files, and the guests that they hold.

ghost use Rattle.std.specs.Prelude.{◌≡◌, ◌<◌, ◌≤◌, [], IfErr, IfOk, List, MatchBool, Some, false, length, slice_get, true, ℕ};
ghost use Rattle.rrv_model.specs.Recovered.{IsRecovered, of_guest};
ghost use Rattle.store_model.specs.StoreText.{IsStore};
ghost use Rattle.rrv_model.specs.declared.record.Record.{Record};
ghost use Rattle.recover.specs.Opened.{IsOpened, IsRead, IsReady};
ghost use Rattle.recover.specs.Spots.{records_of};
ghost use Rattle.trace_log.specs.Committed.{HasMarked};
ghost use Rattle.line_io.specs.Stores.{IsFailed, ReadsStore, RefusesMark, RefusesStore};
ghost use Rattle.line_io.specs.Told.{read_told};

use crate::refusal::Refusal;
use recover::{Lists, ReadFault, open, read, settle};
use rrv_model::record::Record;
use std::alloc::Global;
use std::fs::File;
use std::rt::Files;
use trace_disk::{Disk, FileDisk};
use trace_log::Log;

/// What an opened store holds, and where, and its disk, which from then on is only read.
#[derive(Drop)]
pub struct Store<D: Disk> {
    pub lists: Lists,
    pub disk: D,
}

/// Makes an empty store in a new file, which is removed again where it can't be written.
pub fn make_store<R: Files<File = File>>(rt: &R, path: &str) -> Result<(), Refusal> {
    let disk = FileDisk::create(rt, path)?;
    match Log::create(disk) {
        Ok(_) => Ok(()),
        Err((disk, _)) => {
            disk.remove(rt, path);
            Err(Refusal::DeviceFailed)
        }
    }
}

/// Opens a store, which repairs it: its log, and what it holds.
pub fn opened<D: Disk + Drop>(alloc: Global, disk: D) -> Result<(Log<D>, Lists), Refusal>
    ensures opened { D.honest disk
        → IfOk result (λ opened. IsOpened D.state (D.state disk).content opened.0 opened.1) }
    ensures ready { IfOk result (λ opened. IsReady opened.0 opened.1) }
    ensures refused { D.honest disk → IfErr result (RefusesStore (D.state disk).content) }
    ensures sound { (bodies : List (List ℕ)) (records : List Record) → D.honest disk
        → IsStore (D.state disk).content bodies → IsRecovered bodies records → IfErr result IsFailed }
{
    match open(alloc, disk) {
        Ok(opened) => Ok(opened),
        Err((_, fault)) => Err(Refusal::from(fault)),
    }
}

/// Opens the store in a file to write it.
pub fn open_log<R: Files<File = File> + AllocGlobal>(
    rt: &R,
    path: &str,
) -> Result<Log<FileDisk>, Refusal>
    ensures whole { IfOk result (λ log. log.is_broken ≡ false) }
{
    let disk = FileDisk::open(rt, path)?;
    let (log, _) = opened(rt.alloc(), disk)?;
    Ok(log)
}

/// A log whose store holds the Mark: it is committed if none is there.
pub fn marked<D: Disk + Drop>(alloc: Global, log: Log<D>) -> Result<Log<D>, Refusal>
    requires whole { log.is_broken ≡ false }
    ensures whole { IfOk result (λ new. new.is_broken ≡ false) }
    ensures marked { IfOk result (λ new. new.marked ≡ true) }
    ensures stored { IfOk result (λ new. MatchBool log.marked (new ≡ log) (HasMarked D.Disk log new)) }
    ensures refused { IfErr result (RefusesMark log) }
{
    let mut log = log;
    log.mark(alloc)?;
    Ok(log)
}

/// Opens the store in a file to read it. It is repaired if it may be written, and no other process holds it; else it is read as it is.
pub fn open_store<R: Files<File = File> + AllocGlobal>(
    rt: &R,
    path: &str,
) -> Result<Store<FileDisk>, Refusal> {
    let Ok(disk) = FileDisk::open(rt, path) else {
        return look_at(rt, path);
    };
    let (log, lists) = opened(rt.alloc(), disk)?;
    Ok(Store {
        lists,
        disk: log.close(),
    })
}

/// What a store holds that is only read.
fn looked<D: Disk>(alloc: Global, disk: &mut D) -> Result<Lists, Refusal>
    ensures read { D.honest disk.old → IfOk result (IsRead (D.state disk.old).content) }
    ensures refused { D.honest disk.old → IfErr result (RefusesStore (D.state disk.old).content) }
    ensures sound { (bodies : List (List ℕ)) (records : List Record) → D.honest disk.old
        → IsStore (D.state disk.old).content bodies → IsRecovered bodies records → IfErr result IsFailed }
    ensures state { D.honest disk.old → D.state disk.new ≡ D.state disk.old }
{
    match read(alloc, disk) {
        Ok(lists) => Ok(lists),
        Err(fault) => Err(Refusal::from(fault)),
    }
}

/// What a store in a file has committed. No byte of it is written, and another process may be writing to it.
pub fn look_at<R: Files<File = File> + AllocGlobal>(
    rt: &R,
    path: &str,
) -> Result<Store<FileDisk>, Refusal> {
    let mut disk = FileDisk::open_to_read(rt, path)?;
    settle(&mut disk)?;
    let lists = looked(rt.alloc(), &mut disk)?;
    Ok(Store { lists, disk })
}

/// The guest of this number.
pub fn guest_in(lists: &Lists, number: u64) -> Result<u32, Refusal>
    ensures there { IfOk result (λ guest. (guest ≡ number) × (1 ≤ length (of_guest guest (records_of lists.now)))) }
    ensures none { IfErr result (λ e. (e ≡ Refusal.NoSuchGuest) × (of_guest number (records_of lists.now) ≡ [])) }
{
    let guests = lists.guests();
    let Ok(guest) = u32::try_from(number) else {
        return Err(Refusal::NoSuchGuest);
    };
    if !guests.contains(&guest) {
        return Err(Refusal::NoSuchGuest);
    }
    Ok(guest)
}

/// A record of a guest.
pub fn record_in<D: Disk>(
    alloc: Global,
    lists: &Lists,
    disk: &mut D,
    guest: u32,
    index: u32,
) -> Result<Record, Refusal>
    requires { index < length (of_guest guest (records_of lists.now)) }
    ensures read { ReadsStore D.Disk lists.now result disk.old disk.new
        (λ r. slice_get (of_guest guest (records_of lists.now)) index ≡ Some r) }
    ensures told { IfErr result (λ e. (fault : ReadFault) × (e ≡ read_told index fault)) }
{
    match lists.item(alloc, disk, guest, index) {
        Ok(entry) => Ok(entry),
        Err(fault) => Err(Refusal::of_record(index, fault)),
    }
}
