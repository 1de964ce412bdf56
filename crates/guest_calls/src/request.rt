//! What a call asks of the outside.

ghost use Rattle.std.specs.Prelude.{◌≡◌, [], ℕ, IfSome, IfNone};
ghost use Rattle.rrv_model.specs.Memory.{Memory};
ghost use Rattle.rrv_model.specs.State.{State};
ghost use Rattle.rrv_model.specs.CallRows.{clock_gettime_row, getrandom_row, read_row, row_of};
ghost use Rattle.rrv_model.specs.Output.{puts};
ghost use Rattle.guest_calls.specs.Asking.{Asks};
ghost use Rattle.guest_calls.specs.Growth.{IsQuiet, MayGrow};
ghost use Rattle.guest_calls.specs.Requests.{requested_row, IsRequested, NamesClock, Requests};

use crate::calls::{BAD_DESCRIPTOR, INVALID};
use rrv_model::limits::MAX_TRANSFER;
use rrv_model::machine::Thread;
use rrv_model::syscall::Syscall;

/// The greatest flags of getrandom: those of GRND_NONBLOCK, GRND_RANDOM and GRND_INSECURE.
const MAX_FLAGS: u32 = 7;
/// The most random bytes of one call.
const MAX_RANDOM: u32 = 256;
/// CLOCK_MONOTONIC, the greater of the two clocks; CLOCK_REALTIME is 0.
const MONOTONIC: u32 = 1;
/// The bytes of a moment: seconds and nanoseconds, 8 bytes each.
const MOMENT_BYTES: u32 = 16;

/// What the outside is asked for.
#[derive(Clone, Copy)]
pub enum Wanted {
    /// The next input.
    Input,
    /// Random bytes.
    Random,
    /// The moment of a clock, which this number names.
    Moment(u32),
}

/// What a call asks of the outside, and where it writes the answer.
#[derive(Clone, Copy)]
pub struct Request {
    /// What it asks for.
    pub wanted: Wanted,
    /// Where the answer's bytes go.
    pub address: u32,
    /// The most bytes of the answer.
    pub count: u32,
}

/// What a call asks of the outside, or the error number with which its arguments are refused; None of a call that asks
/// nobody.
#[tactic(auto, unfolding(rrv_model::specs::CallRows::row_of))]
pub(crate) fn request_of(call: Syscall, thread: &Thread) -> Option<Result<Request, u32>>
    ensures row { IfSome result (λ requested. (tid : ℕ) (s : State) →
        row_of call tid s thread.now ≡ requested_row s requested) }
    ensures fits { IfSome result IsRequested }
    ensures clock { IfSome result (NamesClock thread.now) }
    ensures puts { IfSome result (λ _. (m : Memory) (value : ℕ) → puts call m thread.now value ≡ []) }
    ensures grows { IfSome result (λ _. (tid : ℕ) (s : State) →
        Asks (row_of call tid s thread.now) → MayGrow call tid s thread.now) }
    ensures quiet { IfNone result (IsQuiet call) }
{
    match call {
        Syscall::Read => Some(read_request(thread)),
        Syscall::Getrandom => Some(random_request(thread)),
        Syscall::ClockGettime => Some(clock_request(thread)),
        _ => None,
    }
}

/// read(fd, buf, len)
fn read_request(thread: &Thread) -> Result<Request, u32>
    ensures { Requests read_row thread.now result }
{
    if thread.regs.registers[10] != 0 {
        return Err(BAD_DESCRIPTOR);
    }
    Ok(Request {
        wanted: Wanted::Input,
        address: thread.regs.registers[11],
        count: thread.regs.registers[12].min(MAX_TRANSFER),
    })
}

/// getrandom(buf, len, flags)
fn random_request(thread: &Thread) -> Result<Request, u32>
    ensures { Requests getrandom_row thread.now result }
{
    if MAX_FLAGS < thread.regs.registers[12] {
        return Err(INVALID);
    }
    Ok(Request {
        wanted: Wanted::Random,
        address: thread.regs.registers[10],
        count: thread.regs.registers[11].min(MAX_RANDOM),
    })
}

/// clock_gettime(id, ts)
fn clock_request(thread: &Thread) -> Result<Request, u32>
    ensures { Requests clock_gettime_row thread.now result }
{
    let clock = thread.regs.registers[10];
    if MONOTONIC < clock {
        return Err(INVALID);
    }
    Ok(Request {
        wanted: Wanted::Moment(clock),
        address: thread.regs.registers[11],
        count: MOMENT_BYTES,
    })
}
