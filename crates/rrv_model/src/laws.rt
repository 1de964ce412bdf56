//! Laws of the definitions, each as the contract of a function that does nothing.

ghost use Rattle.rrv_model.specs.Instructions.{OneRow};
ghost use Rattle.rrv_model.specs.Memory.{HighestFreeIsFound};
ghost use Rattle.rrv_model.specs.Limits.{HasLimits};
ghost use Rattle.rrv_model.specs.FrameStep.{FramesKeepStates, OneStateAfterFrame};
ghost use Rattle.rrv_model.specs.Calls.{OneStateAfterCall};
ghost use Rattle.rrv_model.specs.Opening.{OpeningsAreStates};
ghost use Rattle.rrv_model.specs.StateAt.{RecordedStatesAreStates};
ghost use Rattle.rrv_model.specs.RecordText.{CheckpointsExist, OneReading, OneSpelling};
ghost use Rattle.rrv_model.specs.Recording.{BeginningsAreRecordings, FramesAppend, OneEnd};
ghost use Rattle.rrv_model.specs.Recovered.{MarkAddsNone, MarkIsNoText, MarkIsTold, BeginningsAreRecovered, OldGuestsNeedNoMark, OneBatch, OneRecovery};

/// A state, a thread and a call's record leave one state after at most, whatever the outside answered.
pub fn one_state_after_call()
    ensures { OneStateAfterCall }
{}

/// A record has one spelling.
pub fn one_spelling()
    ensures { OneSpelling }
{}

/// A beginning of a recording that is not empty is a recording.
pub fn beginnings_are_recordings()
    ensures { BeginningsAreRecordings }
{}

/// A word is one instruction at most.
pub fn one_row()
    ensures { OneRow }
{}

/// A state and a frame leave one state after at most.
pub fn one_state_after_frame()
    ensures { OneStateAfterFrame }
{}

/// What begins with a record's text begins with that one alone, and the rest is one.
pub fn one_reading()
    ensures { OneReading }
{}

/// Items leave one state after all their frames at most.
pub fn one_end()
    ensures { OneEnd }
{}

/// A frame from the state behind a recording makes a longer recording, which ends in the frame's new state.
pub fn frames_append()
    ensures { FramesAppend }
{}

/// A body is the text of one list of records at most.
pub fn one_batch()
    ensures { OneBatch }
{}

/// The Mark is the text of no records.
pub fn mark_is_no_text()
    ensures { MarkIsNoText }
{}

/// One of the batches is that of the Mark exactly if one of the bodies is the Mark.
pub fn mark_is_told()
    ensures { MarkIsTold }
{}

/// With the Mark behind them, bodies without it hold the same records.
pub fn mark_adds_none()
    ensures { MarkAddsNone }
{}

/// Each record of a guest of version 1 may stand before the Mark.
pub fn old_guests_need_no_mark()
    ensures { OldGuestsNeedNoMark }
{}

/// From bodies at most one list of records is recovered, and so of each guest.
pub fn one_recovery()
    ensures { OneRecovery }
{}

/// What is recovered from the first of some bodies is the first of what is recovered from all.
pub fn beginnings_are_recovered()
    ensures { BeginningsAreRecovered }
{}

/// The search for a free place finds the highest, and none only where there is none.
pub fn highest_free_is_found()
    ensures { HighestFreeIsFound }
{}

/// Each limit is the number that the definitions are meant for.
pub fn limits_are_these()
    ensures { HasLimits }
{}

/// A frame from a state leads to a state: all rules that hold of every state hold after it.
pub fn frames_keep_states()
    ensures { FramesKeepStates }
{}

/// A state that runs and has no reservation has a checkpoint, against any state of its version with its opening break.
pub fn checkpoints_exist()
    ensures { CheckpointsExist }
{}

/// A guest starts in a state.
pub fn openings_are_states()
    ensures { OpeningsAreStates }
{}

/// At each count of its instructions a recorded guest was in a state.
pub fn recorded_states_are_states()
    ensures { RecordedStatesAreStates }
{}
