//! What the calls of a group are in the world of a recording.

ghost use Rattle.commit_group.specs.Steps.{FlusherCallsAreEvents, RecorderCallsAreEvents};
ghost use Rattle.commit_group.specs.Worlds.{FailuresAreEvents, HaltedTurnsAreNoEvents, IdleTurnsAreEvents, LastTurnsAreEvents, LimitsAreEvents, ShortagesAreEvents, TurnsAreEvents, UnmarkedTurnsAreEvents};

use trace_disk::Disk;

/// What a turn of the flusher is there, by its answer: acts that the flusher may do by itself.
pub fn turns_are_events<D: Disk>()
    // One that commits receives, commits a body and publishes. One that a failed call of the disk stopped receives, makes calls of a
    // commit, the last of which fails, and halts.
    ensures commits { TurnsAreEvents D.Disk }
    ensures fails { FailuresAreEvents D.Disk }

    // One that found no memory only received. One whose records would have passed a limit of the store received, and
    // halted, and so did one whose records need the Mark.
    ensures shortage { ShortagesAreEvents D.Disk }
    ensures limit { LimitsAreEvents D.Disk }
    ensures unmarked { UnmarkedTurnsAreEvents D.Disk }

    // One of a group that was halted earlier did nothing.
    ensures halted { HaltedTurnsAreNoEvents D.Disk }

    // One that answered `Idle` loaded leave words, by which not all guests have left with all committed. One that answered `Done`
    // loaded those of all guests, by which all have.
    ensures idle { IdleTurnsAreEvents D.state }
    ensures done { LastTurnsAreEvents D.state }
{}

/// A look, a look for the halt, a leave and a push are one act each of the recorder. So `try_submit` is a look for the halt, and then a push
/// if it sent.
pub fn recorder_calls_are_events()
    ensures { RecorderCallsAreEvents }
{}

/// Each other call of the flusher's seat is one act of the flusher.
pub fn flusher_calls_are_events<D: Disk>()
    ensures { FlusherCallsAreEvents D.state }
{}
