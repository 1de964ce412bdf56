//! What a store has after a session.

ghost use Rattle.std.specs.Prelude.{◌≡◌, false, IfOk};

use recorder::MemSink;
use recover::{Lists, open};
use replayer::verify;
use rrv_model::machine::{GuestEnd, Version};
use rrv_model::record::{End, Item, Record};
use std::alloc::Global;
use std::sync::Wait;
use std::test::Fail;
use trace_disk::{Disk, MemDisk};
use trace_log::Log;

/// What a record is: its kind, and how many bytes of a file or instructions it has.
pub(super) type Kind = (&'static str, usize);

/// What a record is.
fn kind_of(record: &Record) -> Kind {
    match &record.item {
        Item::Opening(opening) => ("opening", opening.elf.as_slice().len()),
        Item::Frame(frame) => match frame.end {
            End::Preempt => ("preempt", frame.count as usize),
            _ => ("end", frame.count as usize),
        },
        Item::Part(_) => ("part", 0),
    }
}

/// The log of a new store that holds the Mark.
pub(super) fn marked_log(alloc: Global) -> Result<Log<MemDisk>, Fail>
    ensures { IfOk result (λ log. log.is_broken ≡ false) }
{
    let mut log = Log::create(MemDisk::new(alloc)).ok().ok_or("not made")?;
    log.mark(alloc)?;
    let (log, _) = open(alloc, log.close()).ok().ok_or("not opened")?;
    Ok(log)
}

/// All the bytes of a disk.
pub(super) fn contents(alloc: Global, disk: &mut MemDisk) -> Result<Vec<u8>, Fail> {
    let mut bytes = Vec::new(alloc);
    bytes.resize(usize::try_from(disk.len())?, 0)?;
    disk.read_at(0, &mut bytes)?;
    Ok(bytes)
}

/// What a store has of a guest, as it is replayed.
#[derive(Drop)]
pub(super) struct Kept {
    pub(super) records: usize,
    pub(super) output: MemSink,
    pub(super) end: Option<GuestEnd>,
}

/// A store that is opened again.
#[derive(Drop)]
pub(super) struct Store {
    lists: Lists,
    disk: MemDisk,
}

/// The records of a guest, read from the disk of its store.
fn records_of<D: Disk>(
    alloc: Global,
    lists: &Lists,
    disk: &mut D,
    guest: u32,
) -> Result<Vec<Record>, Fail> {
    let mut records = Vec::new(alloc);
    for index in 0..lists.len(guest) {
        records.push(lists.item(alloc, disk, guest, index)?)?;
    }
    Ok(records)
}

impl Store {
    /// Opens a disk.
    pub(super) fn of(alloc: Global, disk: MemDisk) -> Result<Store, Fail> {
        let (log, lists) = open(alloc, disk).ok().ok_or("not opened")?;
        Ok(Store {
            lists,
            disk: log.close(),
        })
    }

    /// The records of a guest.
    fn records(&mut self, alloc: Global, guest: u32) -> Result<Vec<Record>, Fail> {
        records_of(alloc, &self.lists, &mut self.disk, guest)
    }

    /// The version of a guest, which its opening has.
    pub(super) fn version(&mut self, alloc: Global, guest: u32) -> Result<Version, Fail> {
        match self.records(alloc, guest)?.first() {
            Some(record) => match &record.item {
                Item::Opening(opening) => Ok(opening.version),
                _ => Err(Fail::new("no opening")),
            },
            None => Err(Fail::new("no records")),
        }
    }

    /// What the records of a guest are.
    pub(super) fn kinds(&mut self, alloc: Global, guest: u32) -> Result<Vec<Kind>, Fail> {
        let records = self.records(alloc, guest)?;
        let mut kinds = Vec::new(alloc);
        for record in &records {
            kinds.push(kind_of(record))?;
        }
        Ok(kinds)
    }

    /// How many guests it has.
    pub(super) fn guests(&self) -> usize {
        self.lists.guests().len()
    }

    /// Replays a guest to the end of its records, from the first on.
    pub(super) fn replayed<R: AllocGlobal + Wait>(
        &mut self,
        rt: &R,
        guest: u32,
    ) -> Result<Kept, Fail> {
        let alloc = rt.alloc();
        let records = self.records(alloc, guest)?;
        let mut output = MemSink::new(alloc);
        let verified = verify(alloc, &records)?;
        verified.output(alloc, rt, &mut output)?;
        let last = verified.state_at(alloc, verified.total())?;
        Ok(Kept {
            records: records.len(),
            output,
            end: last.ended(),
        })
    }
}
