//! What a line asks.

use crate::lists::Made;
use crate::runs::{Counted, Left, Question};
use rrv_model::record::Choice;

/// What a line asks.
#[derive(Clone, Copy, Debug, PartialEq, Eq)]
pub enum Asked<'a> {
    /// A guest of this file, with this byte as each of its random ones.
    Guest(&'a str, u8),
    /// The slice of a choice.
    Choose(Choice),
    /// The end of the timed wait of a thread.
    Expire(u32),
    /// The guest's threads by turns to its end, each for so many instructions.
    Turns(u32),
    /// What the next call put out that put something out.
    Put,
    /// The last frame's line with its places.
    Places,
    /// The last frame as an event of a trace.
    Event,
    End,
    Frames,
    Instructions,
    /// Recordings by lists, from the first seed to the last.
    Lists(Made, u32, u32),
    /// Something of those.
    OfLists(Question),
}

/// The number at a place among words.
fn number(words: &[&str], place: usize) -> Option<u32> {
    words.get(place)?.parse::<u32>().ok()
}

fn counted_of(word: &str) -> Option<Counted> {
    match word {
        "frames" => Some(Counted::Frames),
        "preempts" => Some(Counted::Preempts),
        "instructions" => Some(Counted::Instructions),
        "unused" => Some(Counted::Unused),
        _ => None,
    }
}

fn left_of(word: &str) -> Option<Left> {
    match word {
        "ended" => Some(Left::Ended),
        "used" => Some(Left::Used),
        "unfit" => Some(Left::Unfit),
        _ => None,
    }
}

fn made_of(word: &str) -> Option<Made> {
    match word {
        "fitting" => Some(Made::Fitting),
        "blind" => Some(Made::Blind),
        _ => None,
    }
}

/// What the words behind `each` ask.
fn each_of(words: &[&str]) -> Option<Question> {
    match words.get(1).copied()? {
        "end" => Some(Question::EachEnd),
        "repeats" => Some(Question::EachRepeats(number(words, 2)? as usize)),
        "ran" => Some(Question::EachRan(number(words, 2)?, number(words, 3)?)),
        _ => None,
    }
}

/// What words ask of recordings by lists.
fn question_of(words: &[&str]) -> Option<Question> {
    match words.first().copied()? {
        "each" => each_of(words),
        "sum" => Some(Question::Sum(counted_of(words.get(1)?)?)),
        "outputs" => Some(Question::Outputs),
        "at-least" => {
            let count = number(words, 1)? as usize;
            Some(Question::AtLeast(count, left_of(words.get(2)?)?))
        }
        _ => None,
    }
}

fn choice_of(words: &[&str]) -> Option<Choice> {
    Some(Choice {
        tid: number(words, 1)?,
        quantum: number(words, 2)?,
    })
}

/// What words ask; None where they ask nothing.
pub fn asked_of<'a>(words: &[&'a str]) -> Option<Asked<'a>> {
    match words.first().copied()? {
        "guest" => {
            let random = words.get(2)?.parse::<u8>().ok()?;
            Some(Asked::Guest(words.get(1).copied()?, random))
        }
        "choose" => Some(Asked::Choose(choice_of(words)?)),
        "expire" => Some(Asked::Expire(number(words, 1)?)),
        "turns" => Some(Asked::Turns(number(words, 1)?)),
        "put" => Some(Asked::Put),
        "places" => Some(Asked::Places),
        "event" => Some(Asked::Event),
        "end" => Some(Asked::End),
        "frames" => Some(Asked::Frames),
        "instructions" => Some(Asked::Instructions),
        "lists" => {
            let made = made_of(words.get(1)?)?;
            Some(Asked::Lists(made, number(words, 2)?, number(words, 3)?))
        }
        _ => Some(Asked::OfLists(question_of(words)?)),
    }
}
