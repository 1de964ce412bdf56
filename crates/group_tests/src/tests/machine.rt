//! A group and a log on a disk in memory. What a call requires is tested here.

ghost use Rattle.std.specs.Prelude.{◌≡◌, false, length, IfOk};
ghost use Rattle.commit_group.specs.Seats.{AllOf};
ghost use Rattle.commit_group.specs.Submits.{CanSubmit};

use super::items::{expired, long_opening, opening, preempted};
use commit_group::{FlushFault, FlusherSeat, Group, RecorderSeat, Report, SubmitFault, Turn, end};
use rrv_model::machine::Version;
use rrv_model::record::Item;
use std::alloc::Global;
use std::sync::Wait;
use std::test::Fail;
use trace_disk::{Disk, FailOnce, MemDisk};
use trace_log::Log;

pub(crate) type Device = FailOnce<MemDisk>;

/// What the guest of a seat sends next: an opening at first, and then frames.
fn next_item(alloc: Global, seat: &RecorderSeat, manner: Manner) -> Result<Item, Fail>
    ensures { IfOk result (CanSubmit seat.now) }
{
    let _ = seat.guest();
    match (seat.sent(), manner) {
        (0, Manner::Long) => Ok(long_opening(alloc)?),
        (0, Manner::New) => Ok(opening(alloc, Version::Two)?),
        (0, _) => Ok(opening(alloc, Version::One)?),
        (u32::MAX, _) => Err(Fail::new("too many items")),
        (_, Manner::New) => Ok(expired()),
        (_, _) => Ok(preempted()),
    }
}

/// How an item is sent.
#[derive(Clone, Copy, Debug, PartialEq, Eq)]
pub(crate) enum Manner {
    Tries,
    /// It waits where there is no room.
    Waits,
    /// It tries, and an opening has the longest file.
    Long,
    /// It tries, and an opening is of version 2, and a frame ends a wait.
    New,
}

/// Sends an item. The seat stays of its group and guest.
fn send_by<R: Wait>(
    rt: &R,
    seat: &mut RecorderSeat,
    item: Item,
    manner: Manner,
) -> Result<(), (Item, SubmitFault)>
    requires { CanSubmit seat.old item }
    ensures stays { (seat.new.group ≡ seat.old.group) × (seat.new.guest ≡ seat.old.guest) }
{
    if manner == Manner::Waits {
        seat.submit(rt, item)
    } else {
        seat.try_submit(rt, item)
    }
}

/// The log of a new store. Its disk fails at this call of those from here on, counted from 1; at none with 0. Within its room,
/// which a small commit stays in, it takes no memory.
fn new_log(alloc: Global, fails: u64) -> Result<Log<Device>, Fail>
    ensures { IfOk result (λ log. log.is_broken ≡ false) }
{
    let disk = MemDisk::with_room(alloc, 2_000, 20)?;
    let Ok(log) = Log::create(FailOnce::new(disk, fails)) else {
        return Err(Fail::new("no store"));
    };
    Ok(log)
}

/// The log of a new store, which takes it to have so many segments.
fn log_behind(alloc: Global, segments: u32) -> Result<Log<Device>, Fail>
    ensures { IfOk result (λ log. log.is_broken ≡ false) }
{
    let disk = new_log(alloc, 0)?.close();
    if disk.len() != 17 {
        return Err(Fail::new("no empty store"));
    }
    Ok(Log::adopt(disk, 16, segments, false))
}

/// The seats of a group, and a log that takes a further commit unless the group has halted.
#[derive(Drop)]
pub(crate) struct Machine {
    seats: Vec<RecorderSeat>,
    flusher: FlusherSeat,
    log: Log<Device>,
    ghost whole: { flusher.halted ≡ false → log.is_broken ≡ false },
    ghost count: { length seats.items ≡ flusher.group.guests },
    ghost all: { AllOf flusher.group seats.items },
}

impl Machine {
    /// A group of so many guests and a new store, on a disk that fails at this call of those behind the store's making,
    /// counted from 1; at none with 0.
    pub(crate) fn new(alloc: Global, guests: u32, fails: u64) -> Result<Machine, Fail> {
        let fails = if fails == 0 {
            0
        } else {
            fails.saturating_add(2)
        };
        Machine::over(alloc, guests, new_log(alloc, fails)?)
    }

    /// A group of one guest and a new store, whose log takes it to have so many segments.
    pub(crate) fn behind(alloc: Global, segments: u32) -> Result<Machine, Fail> {
        Machine::over(alloc, 1, log_behind(alloc, segments)?)
    }

    /// A group of so many guests over a log.
    fn over(alloc: Global, guests: u32, log: Log<Device>) -> Result<Machine, Fail>
        requires { log.is_broken ≡ false }
    {
        if guests == 0 || guests > 16 {
            return Err(Fail::new("no such group"));
        }
        let (seats, flusher) = Group::make(alloc, guests)?;
        Ok(Machine {
            seats,
            flusher,
            log,
        })
    }

    /// The guest sends its next item; why it is refused.
    pub(crate) fn send<R: Wait>(
        &mut self,
        rt: &R,
        alloc: Global,
        guest: u32,
        manner: Manner,
    ) -> Result<Option<SubmitFault>, Fail> {
        let Some(seat) = self.seats.get_mut(guest as usize) else {
            return Err(Fail::new("no such guest"));
        };
        let item = next_item(alloc, seat, manner)?;
        match send_by(rt, seat, item, manner) {
            Ok(()) => Ok(None),
            Err((_, fault)) => Ok(Some(fault)),
        }
    }

    pub(crate) fn look(&mut self, guest: u32) -> Result<u32, Fail> {
        let Some(seat) = self.seats.get_mut(guest as usize) else {
            return Err(Fail::new("no such guest"));
        };
        Ok(seat.look())
    }

    pub(crate) fn look_halt(&mut self, guest: u32) -> Result<bool, Fail> {
        let Some(seat) = self.seats.get_mut(guest as usize) else {
            return Err(Fail::new("no such guest"));
        };
        Ok(seat.look_halt())
    }

    pub(crate) fn leave(&mut self, guest: u32) -> Result<(), Fail> {
        let Some(seat) = self.seats.get_mut(guest as usize) else {
            return Err(Fail::new("no such guest"));
        };
        seat.leave();
        Ok(())
    }

    pub(crate) fn sent(&self, guest: u32) -> Result<u32, Fail> {
        let Some(seat) = self.seats.get(guest as usize) else {
            return Err(Fail::new("no such guest"));
        };
        Ok(seat.sent())
    }

    pub(crate) fn turn<R: Wait>(
        &mut self,
        rt: &R,
        alloc: Global,
    ) -> Result<Result<Turn, FlushFault>, Fail> {
        if self.log.next_guest() > u32::MAX - self.flusher.guests() {
            return Err(Fail::new("no number for a guest"));
        }
        Ok(self.flusher.turn(rt, alloc, &mut self.log))
    }

    pub(crate) fn halt(&mut self) {
        self.flusher.halt();
    }

    pub(crate) fn publish(&mut self, guest: u32) -> Result<(), Fail> {
        if guest >= self.flusher.guests() {
            return Err(Fail::new("no such guest"));
        }
        self.flusher.publish(guest);
        Ok(())
    }

    pub(crate) fn look_left(&mut self, guest: u32) -> Result<u64, Fail> {
        if guest >= self.flusher.guests() {
            return Err(Fail::new("no such guest"));
        }
        Ok(self.flusher.look_left(guest))
    }

    pub(crate) fn next_guest(&self) -> u32 {
        self.log.next_guest()
    }

    /// The disk of the store, as it is now.
    pub(crate) fn close(self) -> MemDisk {
        let Machine {
            seats: _,
            flusher: _,
            log,
        } = self;
        log.close().into_inner()
    }
    /// Ends the group.
    pub(crate) fn end(self) -> Report {
        let Machine {
            seats,
            flusher,
            log: _,
        } = self;
        end(seats, flusher)
    }
}
