//! Room for what the outside answers.

ghost use Rattle.std.specs.Prelude.{◌≡◌, ◌≤◌, [], ◌++◌, length, vec_len, vec_capacity, IfOk};
ghost use Rattle.std.specs.Int.{w64, to_le_bytes};
ghost use Rattle.rrv_model.specs.declared.limits.TheConstants.{MAX_TRANSFER};
ghost use Rattle.rrv_model.specs.CallRows.{range};
ghost use Rattle.guest_calls.specs.Asking.{TellsMoment};
ghost use Rattle.guest_calls.specs.Requests.{HasRoom, Takes};

use crate::outside::Outside;
use crate::request::Wanted;
use rrv_model::record::Written;
use rrv_model::refusal::Memory;
use rrv_model::sequence::Sequence;
use std::alloc::Global;

/// Room for an answer: for its bytes, and in the list of what the call wrote for the range that tells them.
#[derive(Drop)]
pub(crate) struct Room {
    /// As many bytes as the answer may have, until they are cut to what it has.
    pub(crate) bytes: Vec<u8>,
    written: Vec<Written>,
    ghost empty: { written.items ≡ [] },
    ghost none: { vec_len written ≡ 0 },
    ghost room: { vec_capacity written ≡ 1 },
}

/// Writes a moment as a guest has it in memory, each number with its low byte first.
fn put_moment(into: &mut [u8], seconds: u64, nanoseconds: u32)
    requires { length into.old ≡ 16 }
    ensures { into.new ≡ to_le_bytes w64 seconds ++ to_le_bytes w64 nanoseconds }
{
    into[..8].copy_from_slice(&seconds.to_le_bytes());
    into[8..].copy_from_slice(&u64::from(nanoseconds).to_le_bytes());
}

impl Room {
    /// Room for an answer of so many bytes.
    pub(crate) fn new(alloc: Global, count: u32) -> Result<Room, Memory>
        ensures { IfOk result (λ room. length room.bytes.items ≡ count) }
    {
        let bytes = vec![in alloc; 0u8; count as usize]?;
        let written = Vec::with_capacity(alloc, 1)?;
        Ok(Room { bytes, written })
    }

    /// Takes what the outside answers, and tells what the call then returns.
    pub(crate) fn take<O: Outside>(&mut self, wanted: Wanted, outside: &mut O) -> u32
        requires most { length self.old.bytes.items ≤ MAX_TRANSFER }
        requires room { HasRoom wanted (length self.old.bytes.items) }
        ensures { Takes O.gives wanted (length self.old.bytes.items) result self.new.bytes.items
            outside.old outside.new }
    {
        match wanted {
            Wanted::Input => self.take_input(outside),
            Wanted::Random => self.take_random(outside),
            Wanted::Moment(clock) => {
                self.take_moment(clock, outside);
                0
            }
        }
    }

    /// Takes as much input as there is room for, and answers how much it is.
    fn take_input<O: Outside>(&mut self, outside: &mut O) -> u32
        requires { length self.old.bytes.items ≤ MAX_TRANSFER }
        ensures { Takes O.gives Wanted.Input (length self.old.bytes.items) result self.new.bytes.items
            outside.old outside.new }
    {
        let len = outside.read(self.bytes.as_mut_slice());
        self.bytes.truncate(len);
        len as u32
    }

    /// Takes as many random bytes as there is room for, and answers how many they are.
    fn take_random<O: Outside>(&mut self, outside: &mut O) -> u32
        requires { length self.old.bytes.items ≤ MAX_TRANSFER }
        ensures { Takes O.gives Wanted.Random (length self.old.bytes.items) result self.new.bytes.items
            outside.old outside.new }
    {
        outside.random(self.bytes.as_mut_slice());
        self.bytes.len() as u32
    }

    /// Takes the moment of a clock, for which there is room.
    fn take_moment<O: Outside>(&mut self, clock: u32, outside: &mut O)
        requires { length self.old.bytes.items ≡ 16 }
        ensures { TellsMoment O.gives clock self.new.bytes.items outside.old outside.new }
    {
        let moment = outside.now(clock);
        put_moment(self.bytes.as_mut_slice(), moment.0, moment.1);
    }

    /// What a call wrote that wrote these bytes. It takes no memory.
    pub(crate) fn into_written(self, address: u32) -> Sequence<Written>
        ensures { result ≡ range address self.bytes.items }
    {
        let Room { bytes, mut written } = self;
        if bytes.is_empty() {
            return Sequence::from_vec(written);
        }
        let bytes = Sequence::from_vec(bytes);
        written.push(Written { address, bytes }).unwrap();
        Sequence::from_vec(written)
    }
}
