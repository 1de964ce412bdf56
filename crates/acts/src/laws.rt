//! The laws of acts: functions that do nothing, whose contracts are facts.

ghost use Rattle.acts.specs.Laws.{ActsAreOne};
ghost use Rattle.acts.specs.Rows.{RowOfExits, RowOfFailedStores, RowOfFaults, RowsOfFences, RowsOfRefusedCalls, RowsOfSwaps};

/// The first instructions of a recording have one list of acts at most.
pub fn acts_are_one()
    ensures { ActsAreOne }
{}

/// What some instructions and calls do: fences by their words, an SC that fails, AMOs into x0, calls that were refused, the exit of a thread
/// without a clear address, and faults.
pub fn rules_hold_of_rows()
    ensures fences { RowsOfFences }
    ensures failed_stores { RowOfFailedStores }
    ensures swaps { RowsOfSwaps }
    ensures refused_calls { RowsOfRefusedCalls }
    ensures exits { RowOfExits }
    ensures faults { RowOfFaults }
{}
