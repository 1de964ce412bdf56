//! Laws of texts, of schedules and of a recording's choices: functions that do nothing, whose contracts are the laws.

ghost use Rattle.choices.specs.Again.{FramesRunAgain, RecordingsFollow, RunAgainIsAlike, RunAgainIsSame, RunAgainIsWhole};
ghost use Rattle.choices.specs.ChoiceText.{BadTextsSayNothing};
ghost use Rattle.choices.specs.Recorded.{ChoicesTellSlices, FramesAreOfGuests, FramesFitChoices, RecordingsSayChoices, TextSaysChoices};
ghost use Rattle.choices.specs.Schedule.{EmptyListIsTurns, OneTurn, SchedulesAreLists};
ghost use Rattle.choices.specs.Scheduled.{DoneIsAsked, LastChosenRanLast, NothingKeepsLast};
ghost use Rattle.choices.specs.Sliced.{FramesAreLists};

/// A text with a first bad line says no choices.
pub fn bad_texts_say_nothing()
    ensures { BadTextsSayNothing }
{}

/// What a schedule gives, for every list of sets of runnable threads, is its list up to the first choice that doesn't
/// fit, and then turns, or nothing.
pub fn schedules_are_lists()
    ensures { SchedulesAreLists }
{}

/// Behind an empty list turns go on from the least tid, each of which is the one that `RoundRobin` gives.
pub fn empty_list_is_turns()
    ensures empty { EmptyListIsTurns }
    ensures one { OneTurn }
{}

/// The text of frames says just their choices, in order, where their tids and counts are those of a guest. From each state
/// frames have such ones, and so have those of a recording.
pub fn text_says_choices()
    ensures says { TextSaysChoices }
    ensures frames { FramesAreOfGuests }
    ensures recordings { RecordingsSayChoices }
{}

/// Each frame is the slice of its choice.
pub fn frames_fit_choices()
    ensures { FramesFitChoices }
{}

/// A frame's choice has no other slice from the same state, but for what a call was answered and for want of memory.
pub fn choices_tell_slices()
    ensures { ChoicesTellSlices }
{}

/// The thread that a schedule chose last is the one that ran last, also where it then chose nothing.
pub fn last_chosen_ran_last()
    ensures ran { LastChosenRanLast }
    ensures nothing { NothingKeepsLast }
{}

/// A schedule that is done behind the frames that it chose was asked once more there, and chose nothing.
pub fn done_is_asked()
    ensures { DoneIsAsked }
{}

/// The frames that a schedule chose are the slices of its list, up to the first choice that doesn't fit, and then those of
/// turns.
pub fn frames_are_lists()
    ensures { FramesAreLists }
{}

/// Recorded again by its printed choices, a guest can run the same frames, and no others up to the first of which a
/// call is answered otherwise, or which want of memory cuts short. Where there is none, it runs all of them before it
/// ends. They may be those of a recording, from where its guest starts.
pub fn run_again_is_same()
    ensures allowed { FramesRunAgain }
    ensures alike { RunAgainIsAlike }
    ensures same { RunAgainIsSame }
    ensures whole { RunAgainIsWhole }
    ensures recordings { RecordingsFollow }
{}
