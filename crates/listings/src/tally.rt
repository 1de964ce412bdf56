//! What a guest's records add up to as they are replayed.

ghost use Rattle.std.specs.Prelude.{◌≡◌, option_copied};
ghost use Rattle.rrv_model.specs.Ends.{call_in};
ghost use Rattle.guest_calls.specs.Guest.{state_of};
ghost use Rattle.listings.specs.LongList.{no_tally, read_by, turn_of, with_item};

use guest_calls::Guest;
use rrv_model::machine::Thread;
use rrv_model::record::{CallRecord, End, Item, Record};
use trace_text::written_bytes;

/// The number of read(2).
const READ: u32 = 63;

/// The register of a call's number, a7.
const CALL_NUMBER: usize = 17;

/// What a guest's frames add up to.
#[derive(Clone, Copy, Debug, PartialEq, Eq)]
pub(crate) struct Tally {
    /// The most instructions of a turn that ended since its quantum was used; 0 where none did.
    pub(crate) turns: u32,
    /// How many bytes of its input the guest read, up to 2^64 - 1.
    pub(crate) input: u64,
}

impl Tally {
    /// That of no frame.
    pub(crate) fn new() -> Self
        ensures { result ≡ no_tally }
    {
        Tally { turns: 0, input: 0 }
    }

    /// With a record more, behind which the guest is this one.
    pub(crate) fn with(self, entry: &Record, guest: &Guest) -> Self
        ensures { result ≡ with_item self entry.now.item (state_of guest.now) }
    {
        let Item::Frame(frame) = &entry.item else {
            return self;
        };
        let turn = turn_of(&frame.end, frame.count);
        let input = read_by(frame.end.call(), guest.thread(frame.tid));
        Tally {
            turns: self.turns.max(turn),
            input: self.input.saturating_add(input),
        }
    }
}

/// How long a turn was that ended since its quantum was used; 0 of any other.
fn turn_of(end: &End, count: u32) -> u32
    ensures { result ≡ turn_of end.now count }
{
    if end.is_preempt() { count } else { 0 }
}

/// How many bytes a thread's call read, if it was a read. Its number is still in a7.
fn read_by(call: Option<&CallRecord>, thread: Option<Thread>) -> u64
    ensures { result ≡ read_by (option_copied call.entry) thread }
{
    let Some(call) = call else {
        return 0;
    };
    let Some(thread) = thread else {
        return 0;
    };
    if thread.regs.registers[CALL_NUMBER] == READ {
        written_bytes(call)
    } else {
        0
    }
}
