//! The choices of a recording.

ghost use Rattle.std.specs.Prelude.{◌≡◌, Some};
ghost use Rattle.choices.specs.Recorded.{choice_of, line_of, line_text};

use rrv_model::limits::MIN_QUANTUM;
use rrv_model::record::{Choice, Frame};
use std::fmt;

/// A line of the text of a recording's choices, without the newline: `3 64`, or
/// `# thread 3 stopped after 5 for want of memory`, which says no choice.
#[derive(Clone, Copy, Debug, PartialEq, Eq)]
pub enum ChoiceLine {
    /// A frame's choice.
    Ran(Choice),
    /// A thread was preempted after fewer instructions than the least quantum, since memory was short.
    CutShort { tid: u32, count: u32 },
}

impl fmt::Display for ChoiceLine {
    ghost output = { λ line. Some (line_text line) };

    fn fmt<W: fmt::Write>(&self, f: &mut fmt::Formatter<W>) -> fmt::Result {
        match *self {
            ChoiceLine::Ran(choice) => {
                let tid = choice.tid;
                let quantum = choice.quantum;
                write!(f, "{tid} {quantum}")
            }
            ChoiceLine::CutShort { tid, count } => {
                write!(f, "# thread {tid} stopped after {count} for want of memory")
            }
        }
    }
}

/// The choice whose slice a frame is: its thread, for as many instructions as it counts, or for `MIN_QUANTUM` where it
/// ended in a call or a fault before so many. None where no thread ran, and where one was preempted before `MIN_QUANTUM`
/// instructions, for want of memory.
pub fn choice_of(frame: &Frame) -> Option<Choice>
    ensures { result ≡ choice_of frame.now }
{
    if !frame.end.runs_thread() {
        return None;
    }
    if !frame.end.is_preempt() {
        return Some(Choice {
            tid: frame.tid,
            quantum: frame.count.max(MIN_QUANTUM),
        });
    }
    if frame.count < MIN_QUANTUM {
        return None;
    }
    Some(Choice {
        tid: frame.tid,
        quantum: frame.count,
    })
}

/// The line of a frame; None where no thread ran.
pub fn line_of(frame: &Frame) -> Option<ChoiceLine>
    ensures { result ≡ line_of frame.now }
{
    if let Some(choice) = choice_of(frame) {
        return Some(ChoiceLine::Ran(choice));
    }
    if !frame.end.is_preempt() {
        return None;
    }
    Some(ChoiceLine::CutShort {
        tid: frame.tid,
        count: frame.count,
    })
}
