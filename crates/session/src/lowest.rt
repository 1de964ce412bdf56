//! Which fault of a session is told.

ghost use Rattle.std.specs.Prelude.{◌++◌};
ghost use Rattle.session.specs.Faults.{IsLower, IsLowest, flusher_met};
ghost use Rattle.session.specs.Tasks.{faults_met};

use crate::fault::{SessionFault, is_no_later, of_flush};
use crate::task::Worked;
use commit_group::FlushFault;
use guest_calls::Outside;
use rrv_model::sink::Sink;
use serial_sched::Chooser;

/// The first of the faults that the flusher and the workers met.
pub(crate) fn lowest_fault<C: Chooser + Drop, O: Outside + Drop, S: Sink + Drop>(
    flushed: Result<(), FlushFault>,
    done: &[Worked<C, O, S>],
) -> Option<SessionFault>
    ensures { IsLowest (flusher_met flushed ++ faults_met done.now) result }
{
    let mut lowest = match flushed {
        Ok(()) => None,
        Err(fault) => Some(of_flush(fault)),
    };
    for worked in done {
        lowest = lower(lowest, worked.fault);
    }
    lowest
}

/// The first of two faults, if there is one.
fn lower(first: Option<SessionFault>, second: Option<SessionFault>) -> Option<SessionFault>
    ensures { IsLower first second result }
{
    match (first, second) {
        (Some(a), Some(b)) => Some(if is_no_later(a, b) { a } else { b }),
        (Some(a), None) => Some(a),
        (None, other) => other,
    }
}
