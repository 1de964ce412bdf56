//! Which of the faults of a session is told, and how one of the flusher is.

ghost use Rattle.std.specs.Prelude.{◌≡◌, IsTrue, ◌↔◌};
ghost use Rattle.session.specs.Faults.{IsNoLater, flush_told, guest_of, rank};

use commit_group::FlushFault;
pub use faults::SessionFault;

/// The place of a fault's kind among the faults, from 1.
fn rank(fault: SessionFault) -> u32
    ensures { result ≡ rank fault }
{
    match fault {
        SessionFault::DeviceFailed => 1,
        SessionFault::SinkFailed { .. } => 2,
        SessionFault::Held { .. } => 3,
        SessionFault::Memory => 4,
        SessionFault::TooManyGuests => 5,
        SessionFault::StoreFull => 6,
        SessionFault::BadOpening { .. } => 7,
        SessionFault::NeedsMark { .. } => 8,
    }
}

/// The guest that a fault tells of, or 0.
fn guest_of(fault: SessionFault) -> u32
    ensures { result ≡ guest_of fault }
{
    match fault {
        SessionFault::SinkFailed { guest }
        | SessionFault::Held { guest }
        | SessionFault::BadOpening { guest }
        | SessionFault::NeedsMark { guest } => guest,
        _ => 0,
    }
}

/// Whether a fault is told in the place of the other.
pub(crate) fn is_no_later(one: SessionFault, other: SessionFault) -> bool
    ensures { IsTrue result ↔ IsNoLater one other }
{
    rank(one) < rank(other) || rank(one) == rank(other) && guest_of(one) <= guest_of(other)
}

/// The fault of a session whose flusher was refused a turn.
pub(crate) fn of_flush(fault: FlushFault) -> SessionFault
    ensures { result ≡ flush_told fault }
{
    match fault {
        FlushFault::DeviceFailed => SessionFault::DeviceFailed,
        FlushFault::TooLong => SessionFault::StoreFull,
        FlushFault::NeedsMark => SessionFault::NeedsMark { guest: 0 },
        FlushFault::Halted | FlushFault::Memory => SessionFault::Memory,
    }
}
