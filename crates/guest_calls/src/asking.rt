//! The calls that ask the outside. All that such a call grows is made before the outside is asked, so no input is lost.

ghost use Rattle.std.specs.Prelude.{◌≡◌, ◌<◌, ◌≤◌, [], All, length, IsTrue, IfOk, OnOk};
ghost use Rattle.rrv_model.specs.Memory.{writable, stored};
ghost use Rattle.rrv_model.specs.declared.limits.TheConstants.{MAX_TRANSFER};
ghost use Rattle.rrv_model.specs.declared.machine.Thread.{Thread};
ghost use Rattle.rrv_model.specs.CallRows.{range, with_memory};
ghost use Rattle.rrv_model.specs.Calls.{results};
ghost use Rattle.rrv_model.specs.RecordText.{HasCallText};
ghost use Rattle.guest_pages.specs.Space.{CanFill};
ghost use Rattle.guest_calls.specs.Guest.{state_of, chunks_of};
ghost use Rattle.guest_calls.specs.Asking.{Asks};
ghost use Rattle.guest_calls.specs.Carries.{BecomesOrStays, ComesTo, KeepsRest};
ghost use Rattle.guest_calls.specs.Requests.{requested_row, IsRequested, NamesClock};

use crate::calls::{BAD_ADDRESS, CallResult, failure};
use crate::guest::Guest;
use crate::outside::Outside;
use crate::request::Request;
use crate::room::Room;
use guest_opening::has_bytes;
use guest_pages::AddressSpace;
use rrv_model::record::CallRecord;
use rrv_model::refusal::Memory;
use std::alloc::Global;

impl Guest {
    /// Makes a call that asks the outside for bytes, unless its arguments are refused with an error number.
    pub(crate) fn ask<O: Outside>(
        &mut self,
        alloc: Global,
        tid: u32,
        requested: Result<Request, u32>,
        outside: &mut O,
    ) -> CallResult
        requires { IsRequested requested }
        ensures { (t : Thread) → NamesClock t requested →
            ComesTo O.gives (requested_row (state_of self.old) requested) (λ _. [])
            (Asks (requested_row (state_of self.old) requested))
            tid t self.old result self.new outside.old outside.new }
    {
        let request = match requested {
            Ok(request) => request,
            Err(errno) => return Ok(self.answer(alloc, tid, failure(errno))),
        };
        if request.count == 0 {
            return Ok(self.answer(alloc, tid, 0));
        }
        if !self.space.is_writable(request.address, request.count) {
            return Ok(self.answer(alloc, tid, failure(BAD_ADDRESS)));
        }
        let mut room = self.make_room(alloc, request.address, request.count)?;
        let value = room.take(request.wanted, outside);
        Ok(self.write_answer(tid, request.address, value, room))
    }

    /// Makes room for an answer of so many bytes, which are to be written at an address.
    fn make_room(&mut self, alloc: Global, address: u32, count: u32) -> Result<Room, Memory>
        requires { IsTrue (writable (state_of self.old).memory address count) }
        ensures bytes { IfOk result (λ room. length room.bytes.items ≡ count) }
        ensures ready { OnOk result (CanFill self.new.space address count) }
        ensures stays { BecomesOrStays result (state_of self.old) self.old self.new }
    {
        let room = Room::new(alloc, count)?;
        match self.space.prepare(address, count as usize) {
            Ok(()) => Ok(room),
            Err(_) => Err(Memory),
        }
    }

    /// Writes an answer for which there is room, and records it. It takes no memory.
    fn write_answer(&mut self, tid: u32, address: u32, value: u32, room: Room) -> CallRecord
        requires { CanFill self.old.space address (length room.bytes.items) }
        ensures record { result ≡ record { result = value; written = range address room.bytes.items } }
        ensures bytes { All (λ b. b < 256) room.bytes.items }
        ensures text { length room.bytes.items ≤ MAX_TRANSFER → HasCallText result }
        ensures state { state_of self.new ≡ results tid value
            (with_memory (stored address room.bytes.items (state_of self.old).memory) (state_of self.old)) }
        ensures puts { chunks_of self.new.put ≡ [] }
        ensures keeps { KeepsRest self.old self.new }
    {
        has_bytes(&room.bytes);
        self.space.fill(address, &room.bytes);
        self.set_result(tid, value);
        self.put = None;
        CallRecord {
            result: value,
            written: room.into_written(address),
        }
    }
}
