//! What a recorder's output is, and what its calls are in the world of a recording.

ghost use Rattle.recorder.specs.Recorders.{OutputIsCommitted, OutputIsDurable, SettledHasPutAll};
ghost use Rattle.recorder.specs.RecorderWorlds.{RefusedStepsAreNoEvents, ReleasesAreEvents, SendsAreEvents, SettlesAreEvents, StepsAreEvents};

use guest_calls::Outside;
use rrv_model::sink::Sink;

/// What has left is output of durable records, and of committed ones once the group has ended. All output of a settled recorder has left.
pub fn output_is_of_durable_records()
    ensures durable { OutputIsDurable }
    ensures committed { OutputIsCommitted }
    ensures settled { SettledHasPutAll }
{}

/// A step that made a frame is as many slices of the world's recorder as it makes records, and one that was refused is no event. By itself
/// that recorder may make these slices.
pub fn steps_are_events<O: Outside>()
    ensures steps { StepsAreEvents O.gives }
    ensures refused { RefusedStepsAreNoEvents O.gives }
{}

/// What `send` came to, the world's recorder may do by itself, by looks for the halt and pushes of what waited, in order.
pub fn sends_are_events()
    ensures { SendsAreEvents }
{}

/// What `release` came to, it may do by a look, and then by what the sink takes, in any parts.
pub fn releases_are_events<S: Sink>()
    ensures { ReleasesAreEvents S.tells S.taken }
{}

/// What `settle` came to, it may do by both, round by round.
pub fn settles_are_events()
    ensures { SettlesAreEvents }
{}
