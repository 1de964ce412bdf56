//! The choices of a schedule: their text, a chooser that takes them from a list, and those of a recording.
//!
//! Tests: none; `cases.choices` and `cases.lines` run the program.
//!
//! # Contracts
//!
//! - `choices_in`: Ok exactly of the choices that the text says; else its first line that says none. `bad_texts_say_nothing`:
//!   such a text says none.
//! - `Schedule`: a chooser that takes a list while its choices fit, and then turns, or nothing. `schedules_are_lists`: so it is
//!   over any sets of runnable threads. `empty_list_is_turns`: with an empty list it is `RoundRobin`.
//! - `frames_are_lists`: the frames that a `Schedule` chose, one after another from some state, are the slices of its list's
//!   choices, up to the first that doesn't fit, and then those of turns. `done_is_asked`: if it is done then, it was asked once
//!   more and chose nothing.
//! - `last_chosen_ran_last`: the thread that a `Schedule` chose last, which `Schedule::last` returns, is that of the last frame
//!   in which one ran, or 0.
//! - `text_says_choices`: the printed choices of a recording's frames say just their choices. `frames_fit_choices`: each frame
//!   is the slice of its own. `choices_tell_slices`: no other slice of it leads on from that state, but for what a call was
//!   answered and for want of memory.
//! - `run_again_is_same`: the printed choices of frames, of which none was cut short below 64 instructions and none is the end
//!   of a timed wait, allow these frames, and no others up to the first of which a call is answered otherwise, or which want of
//!   memory cuts short, whatever turns come after the list. With the same answers and memory enough, neither the guest nor the
//!   list ends before all frames were run. The frames of a recording of version 1 are such frames, from where its guest starts,
//!   if none was cut short so.
#![tactic(auto)]

pub mod laws;
mod recorded;
mod schedule;
mod text;

pub use recorded::{ChoiceLine, choice_of, line_of};
pub use schedule::{Misfit, Schedule};
pub use text::{BadChoices, choices_in};
