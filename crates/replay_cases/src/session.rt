//! A recording that lines ask about.

use crate::followed::tell_followed;
use crate::lists::{joined, read_list, texts_of};
use crate::made::record;
use crate::moves::{Move, go, move_of};
use crate::mutants::{Outcome, Random, count_of, mutate, outcome_named};
use crate::told::{State, Told, told_of};
use replayer::{Verified, verify};
use reverse_step::Cursor;
use rrv_model::machine::Version;
use rrv_model::record::Record;
use std::alloc::Global;
use std::fs::{self, File};
use std::rt::Files;
use test_guests::cases::Answers;

/// What lines ask about.
#[derive(Drop)]
pub struct Session {
    /// The last list of records; None before the first one, and where that was refused.
    verified: Option<Verified>,
    /// What became of the last lists that were changed.
    outcomes: Vec<Outcome>,
}

/// What is told of the state at a place.
fn tell_state(alloc: Global, verified: &Verified, words: &[&str]) -> Option<String> {
    let (place, told) = words.split_first()?;
    let place = place.parse().ok()?;
    let total = verified.total();
    if total < place {
        return None;
    }
    let guest = verified.state_at(alloc, place).ok()?;
    let mut text = String::new(alloc);
    let state = State {
        guest: &guest,
        place,
        total,
    };
    state.tell(alloc, told_of(told)?, &mut text).ok()?;
    Some(text)
}

/// The move that words say, if they say one.
fn move_in(words: &[&str]) -> Option<Move> {
    let [kind, number] = words else {
        return None;
    };
    move_of(kind, number)
}

/// Makes the moves that words say, adds what they answer, and answers what is asked behind them.
fn make_moves(
    alloc: Global,
    cursor: &mut Cursor<'_>,
    words: &[&str],
    text: &mut String,
) -> Option<Told> {
    let mut told = None;
    for pair in words.chunks(2) {
        match move_in(pair) {
            Some(step) => go(alloc, cursor, step, text)?,
            None => told = told_of(pair),
        }
    }
    told
}

/// What a cursor answers to moves, and what is told of the state where it then is.
fn tell_moves(alloc: Global, verified: &Verified, words: &[&str]) -> Option<String> {
    let mut cursor = Cursor::new(alloc, verified).ok()?;
    let mut text = String::new(alloc);
    let told = make_moves(alloc, &mut cursor, words, &mut text)?;
    let state = State {
        guest: cursor.guest(),
        place: cursor.place(),
        total: verified.total(),
    };
    state.tell(alloc, told, &mut text).ok()?;
    Some(text)
}

/// The texts of the records of a file.
fn texts_in<R: Files + AllocGlobal>(rt: &R, name: &str) -> Option<Vec<Vec<u8>>> {
    let alloc = rt.alloc();
    let path = format!(in alloc; "{name}.records").ok()?;
    let lines = fs::read_to_string(rt, path.as_str()).ok()?;
    texts_of(alloc, lines.as_str())
}

/// The records of the file that words name.
fn list_in<R: Files + AllocGlobal>(rt: &R, words: &[&str]) -> Option<Vec<Record>> {
    let alloc = rt.alloc();
    let bytes = joined(alloc, &texts_in(rt, words.first()?)?).ok()?;
    read_list(alloc, &bytes).ok()
}

/// What becomes of lists that are changed: of so many, by the numbers of a seed.
fn mutate_list<R: Files + AllocGlobal>(rt: &R, words: &[&str]) -> Option<Vec<Outcome>> {
    let [name, other, count, seed] = words else {
        return None;
    };
    let count = count.parse().ok()?;
    let mut random = Random {
        state: seed.parse().ok()?,
    };
    let texts = texts_in(rt, name)?;
    let others = texts_in(rt, other)?;
    mutate(rt.alloc(), &texts, &others, count, &mut random).ok()
}

/// The version of a guest that words begin with, `two` or nothing, and the other words.
fn version_in<'a, 'b>(words: &'a [&'b str]) -> (Version, &'a [&'b str]) {
    match words {
        ["two", rest @ ..] => (Version::Two, rest),
        _ => (Version::One, words),
    }
}

/// Records a guest of the version and the file that words name.
fn record_file<R: Files + AllocGlobal>(rt: &R, words: &[&str]) -> Option<Vec<Record>> {
    let (version, words) = version_in(words);
    let (path, said) = words.split_first()?;
    let elf = fs::read(rt, *path).ok()?;
    record(rt.alloc(), version, &elf, said)
}

impl Session {
    pub fn new(alloc: Global) -> Session {
        Session {
            verified: None,
            outcomes: Vec::new(alloc),
        }
    }

    /// Verifies a list, and keeps it.
    fn take(&mut self, alloc: Global, records: &[Record]) -> Option<String> {
        self.verified = None;
        match verify(alloc, records) {
            Ok(verified) => {
                let count = verified.len();
                let total = verified.total();
                self.verified = Some(verified);
                format!(in alloc; "{count} records, {total} instructions").ok()
            }
            Err(fault) => format!(in alloc; "{fault}").ok(),
        }
    }

    /// Keeps what became of lists, and tells how many pass.
    fn keep_outcomes(&mut self, alloc: Global, outcomes: Vec<Outcome>) -> Option<String> {
        let wrong = count_of(&outcomes, Outcome::Wrong);
        let pass = outcomes.len().saturating_sub(wrong);
        self.outcomes = outcomes;
        format!(in alloc; "{pass} pass").ok()
    }

    /// Whether so many lists came to what has this name, else how many did.
    fn has_met(&self, alloc: Global, words: &[&str]) -> Option<String> {
        let [least, name] = words else {
            return None;
        };
        let least: usize = least.parse().ok()?;
        let count = count_of(&self.outcomes, outcome_named(name)?);
        if least <= count {
            return "yes".to_string(alloc).ok();
        }
        format!(in alloc; "{count}").ok()
    }
}

impl Answers for Session {
    fn answer<R: Files<File = File> + AllocGlobal>(
        &mut self,
        rt: &R,
        asked: &str,
        _want: &str,
    ) -> Option<String> {
        let alloc = rt.alloc();
        let words: Vec<&str> = asked.split_whitespace().collect(alloc).ok()?;
        let (kind, rest) = words.split_first()?;
        match *kind {
            "records" => self.take(alloc, &list_in(rt, rest)?),
            "record" => self.take(alloc, &record_file(rt, rest)?),
            "follow" => tell_followed(alloc, &list_in(rt, rest)?, rest.get(1..)?),
            "mutate" => self.keep_outcomes(alloc, mutate_list(rt, rest)?),
            "met" => self.has_met(alloc, rest),
            "state" => tell_state(alloc, self.verified.as_ref()?, rest),
            _ => tell_moves(alloc, self.verified.as_ref()?, &words),
        }
    }
}
