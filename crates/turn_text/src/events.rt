//! Frames as events of a trace.

ghost use Rattle.std.specs.Prelude.{◌≡◌, Some, option_copied};
ghost use Rattle.std.specs.Fmt.{WritesOnOk};
ghost use Rattle.rrv_model.specs.State.{thread_at};
ghost use Rattle.rrv_model.specs.CallRows.{call_name};
ghost use Rattle.guest_calls.specs.Guest.{state_of};
ghost use Rattle.turn_text.specs.Turns.{call_number, event_line, event_name, name_or_number, next_member};
ghost use Rattle.turn_text.specs.Turns.{call_outcome, fault_outcome, fault_text, outcome_text};
ghost use Rattle.turn_text.specs.Turns.{instant_event, run_arguments, run_event, run_members};

use guest_calls::Guest;
use rrv_model::machine::{FaultKind, Thread};
use rrv_model::record::{CallRecord, End, Frame};
use rrv_model::syscall::call_name;
use std::fmt;
use trace_text::{fault_name, write_word, written_bytes};

/// The number of `exit`, the only call that leaves no thread.
const EXIT: u32 = 93;

/// The register of a call's number, a7.
const CALL_NUMBER: usize = 17;

/// Writes a frame as an event of Chrome's trace-event format: an object on one line, without a comma or a newline. Its
/// times are instructions, its process is the guest, and its thread the frame's. The frame is the one at this index of
/// this guest's records, so many instructions ran before it, and behind it the guest is this one.
pub(crate) fn write_event<W: fmt::Write>(
    f: &mut fmt::Formatter<W>,
    guest_number: u32,
    index: u32,
    frame: &Frame,
    from: u64,
    guest: &Guest,
) -> fmt::Result
    ensures { WritesOnOk W.write_str_gives f.old result (event_line guest_number index frame.now.end from
        frame.now.tid frame.now.count (thread_at (state_of guest.now) frame.now.tid)) f.new }
{
    if !frame.end.runs_thread() {
        return write_instant(f, guest_number, index, frame, from);
    }
    write_run(f, guest_number, index, frame, from, guest.thread(frame.tid))
}

/// The event of a frame in which no thread ran.
fn write_instant<W: fmt::Write>(
    f: &mut fmt::Formatter<W>,
    guest: u32,
    index: u32,
    frame: &Frame,
    from: u64,
) -> fmt::Result
    ensures { WritesOnOk W.write_str_gives f.old result
        (instant_event guest index frame.now.end from frame.now.tid) f.new }
{
    let tid = frame.tid;
    f.write_str("{\"name\":\"")?;
    f.write_str(frame.end.kind().name())?;
    write!(
        f,
        "\",\"ph\":\"i\",\"ts\":{from},\"pid\":{guest},\
        \"tid\":{tid},\"s\":\"p\",\"args\":{{\"record\":{index}}}}}"
    )
}

/// The event of a thread's run.
#[tactic(auto, unfolding(crate::specs::Turns::run_event))]
fn write_run<W: fmt::Write>(
    f: &mut fmt::Formatter<W>,
    guest: u32,
    index: u32,
    frame: &Frame,
    from: u64,
    thread: Option<Thread>,
) -> fmt::Result
    ensures { WritesOnOk W.write_str_gives f.old result
        (run_event guest index frame.now.end from frame.now.tid frame.now.count thread) f.new }
{
    f.write_str("{\"name\":\"")?;
    write_name(f, &frame.end, thread)?;
    write_members(f, from, frame.count, guest, frame.tid)?;
    write_arguments(f, index, &frame.end, thread)
}

/// The name of an event.
fn write_name<W: fmt::Write>(
    f: &mut fmt::Formatter<W>,
    end: &End,
    thread: Option<Thread>,
) -> fmt::Result
    ensures { WritesOnOk W.write_str_gives f.old result (event_name end.now thread) f.new }
{
    match end.call() {
        Some(_) => write_call_name(f, call_number(thread)),
        None => {
            f.write_str(end.kind().name())?;
            write_fault(f, end.fault())
        }
    }
}

/// The name of a fault, if there is one.
fn write_fault<W: fmt::Write>(f: &mut fmt::Formatter<W>, fault: Option<FaultKind>) -> fmt::Result
    ensures { WritesOnOk W.write_str_gives f.old result (fault_text fault) f.new }
{
    let Some(kind) = fault else {
        return Ok(());
    };
    f.write_str(" ")?;
    f.write_str(fault_name(kind))
}

/// The name of a call, or its number.
fn write_call_name<W: fmt::Write>(f: &mut fmt::Formatter<W>, number: u32) -> fmt::Result
    ensures { WritesOnOk W.write_str_gives f.old result (name_or_number number (call_name number)) f.new }
{
    match call_name(number) {
        None => write!(f, "call {number}"),
        Some(name) => f.write_str(name),
    }
}

/// The number of the call that a thread made.
fn call_number(thread: Option<Thread>) -> u32
    ensures { result ≡ call_number thread }
{
    match thread {
        None => EXIT,
        Some(thread) => thread.regs.registers[CALL_NUMBER],
    }
}

/// When a run began, how long it was, and of which guest and thread.
fn write_members<W: fmt::Write>(
    f: &mut fmt::Formatter<W>,
    from: u64,
    count: u32,
    guest: u32,
    tid: u32,
) -> fmt::Result
    ensures { WritesOnOk W.write_str_gives f.old result (run_members from count guest tid) f.new }
{
    write!(
        f,
        "\",\"ph\":\"X\",\"ts\":{from},\"dur\":{count},\"pid\":{guest},\"tid\":{tid}"
    )
}

/// The arguments of a run's event.
#[tactic(auto, unfolding(crate::specs::Turns::run_arguments))]
fn write_arguments<W: fmt::Write>(
    f: &mut fmt::Formatter<W>,
    index: u32,
    end: &End,
    thread: Option<Thread>,
) -> fmt::Result
    ensures { WritesOnOk W.write_str_gives f.old result (run_arguments index end.now thread) f.new }
{
    write!(f, ",\"args\":{{\"record\":{index}")?;
    write_outcome(f, end)?;
    write_next(f, thread)?;
    f.write_str("}}")
}

/// What came of the last instruction.
fn write_outcome<W: fmt::Write>(f: &mut fmt::Formatter<W>, end: &End) -> fmt::Result
    ensures { WritesOnOk W.write_str_gives f.old result (outcome_text end.now) f.new }
{
    write_answer(f, end.call())?;
    write_kind(f, end.fault())
}

/// What a call answered, and how much it wrote, if there is one.
fn write_answer<W: fmt::Write>(f: &mut fmt::Formatter<W>, call: Option<&CallRecord>) -> fmt::Result
    ensures { WritesOnOk W.write_str_gives f.old result (call_outcome (option_copied call.entry)) f.new }
{
    let Some(call) = call else {
        return Ok(());
    };
    f.write_str(",\"result\":\"")?;
    write_word(f, call.result)?;
    let written = written_bytes(call);
    write!(f, "\",\"written\":{written}")
}

/// The number of a fault's kind, if there is one.
fn write_kind<W: fmt::Write>(f: &mut fmt::Formatter<W>, fault: Option<FaultKind>) -> fmt::Result
    ensures { WritesOnOk W.write_str_gives f.old result (fault_outcome fault) f.new }
{
    let Some(kind) = fault else {
        return Ok(());
    };
    let number = kind.number();
    write!(f, ",\"kind\":{number}")
}

/// Where a thread goes on.
fn write_next<W: fmt::Write>(f: &mut fmt::Formatter<W>, thread: Option<Thread>) -> fmt::Result
    ensures { WritesOnOk W.write_str_gives f.old result (next_member thread) f.new }
{
    match thread {
        None => f.write_str(",\"pc\":null"),
        Some(thread) => {
            f.write_str(",\"pc\":\"")?;
            write_word(f, thread.regs.pc)?;
            f.write_str("\"")
        }
    }
}
