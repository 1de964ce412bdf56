//! The laws of order, races and the detector: functions that do nothing, whose contracts are facts.

ghost use Rattle.std.specs.Prelude.{false};
ghost use Rattle.order.specs.Order.{HappensBefore, Race, run_of};
ghost use Rattle.order.specs.Example.{store_and_load, word_and_flag};
ghost use Rattle.order.specs.Laws.{ClocksAreExact, FoundAreRaces, OrderGoesForward, OrderIsDecided, OrderIsSettled, RacelessActsAreOrdered, RacelessReadsAreOrdered, RacesAreFound, RacesAreSettled, ThreadsAreChains};
ghost use Rattle.order.specs.Rows.{RowsOfBits, RowsOfBytes, RowsOfChanges, RowsOfDeclaredBytes, RowsOfFencedStores, RowsOfFences, RowsOfFullAtomics, RowsOfLives, RowsOfPlainWrites, RowsOfStarts, RowsOfTids, RowsOfWakes};

/// What comes before an act stands before it in the run.
pub fn order_goes_forward()
    ensures { OrderGoesForward }
{}

/// Acts that are added at the end change neither the order nor the races of those before.
pub fn order_is_settled()
    ensures order { OrderIsSettled }
    ensures races { RacesAreSettled }
{}

/// Of two acts one comes before the other, or it doesn't.
pub fn order_is_decided()
    ensures { OrderIsDecided }
{}

/// If no two acts race, what finds a plain write at a byte that it touches comes after that write: no plain load hangs on which thread was
/// faster. Nor do acts that touch a byte, one of them by a plain write, where an atomic write that left the byte stands between them.
pub fn raceless_reads_are_ordered()
    ensures reads { RacelessReadsAreOrdered }
    ensures acts { RacelessActsAreOrdered }
{}

/// The acts of one thread are in one order, so each thread may be a chain of its own.
pub fn threads_are_chains()
    ensures { ThreadsAreChains }
{}

/// A detector's clock has just the acts that come before the one that it looks at.
pub fn clocks_are_exact()
    ensures { ClocksAreExact }
{}

/// Each access that a detector finds races with the act that it looks at, on that byte.
pub fn found_are_races()
    ensures { FoundAreRaces }
{}

/// If an act races with any earlier one on a byte, a detector finds such a one there, at any point of the run, after other races too.
pub fn races_are_found()
    ensures { RacesAreFound }
{}

/// A store races with a load that nothing orders after it, and a word that is handed over by a flag between fences is ordered: what is
/// defined can be met.
pub fn definitions_can_be_met()
    ensures race { Race (λ b. false) (run_of store_and_load) 1 2 0x100 }
    ensures order { HappensBefore (λ b. false) (run_of word_and_flag) 1 6 }
{}

/// The rules, each by small runs: what races in a run that shows the rule, and in one that lacks what it asks for.
pub fn rules_hold_of_rows()
    ensures bytes { RowsOfBytes }
    ensures plain_writes { RowsOfPlainWrites }
    ensures starts { RowsOfStarts }
    ensures wakes { RowsOfWakes }
    ensures fences { RowsOfFences }
    ensures fenced_stores { RowsOfFencedStores }
    ensures bits { RowsOfBits }
    ensures changes { RowsOfChanges }
    ensures full_atomics { RowsOfFullAtomics }
    ensures tids { RowsOfTids }
    ensures lives { RowsOfLives }
    ensures declared { RowsOfDeclaredBytes }
{}
