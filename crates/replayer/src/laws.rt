//! Laws of what is known of a verified recording: functions that do nothing, whose contracts are the laws.

ghost use Rattle.replayer.specs.Verified.{CheckpointsAreLastParts, TotalIsTheEnd};

/// The places of the complete checkpoints are just those behind which the last part of one stands.
pub fn checkpoints_are_last_parts()
    ensures { CheckpointsAreLastParts }
{}

/// The state at the total is the one that the records end in.
pub fn total_is_the_end()
    ensures { TotalIsTheEnd }
{}
