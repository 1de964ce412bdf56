//! A guest that lines ask about.

use crate::lines::{Asked, asked_of};
use crate::lists::{Made, record_seed};
use crate::pair::{Pair, end_text, frame_text};
use crate::runs::{Outcome, answer};
use crate::wrong::Wrong;
use rrv_model::limits::{MAX_QUANTUM, MIN_QUANTUM};
use rrv_model::machine::Version;
use rrv_model::record::Choice;
use serial_sched::{RoundRobin, SliceFault};
use std::alloc::{AllocError, Global};
use std::fs;
use std::rt::Files;
use test_guests::files::file_of;

/// A file's bytes, and the guests of it.
#[derive(Drop)]
pub struct Session {
    elf: Vec<u8>,
    random: u8,
    /// None before the first guest.
    pair: Option<Pair>,
    /// How many calls' output was asked.
    puts: usize,
    /// What the last recordings by lists came to.
    outcomes: Vec<Outcome>,
}

impl Session {
    pub fn new(alloc: Global) -> Session {
        Session {
            elf: Vec::new(alloc),
            random: 0,
            pair: None,
            puts: 0,
            outcomes: Vec::new(alloc),
        }
    }

    /// What is found where a line asks this.
    pub fn answer<R: Files + AllocGlobal>(&mut self, rt: &R, line: &str) -> Result<String, Wrong> {
        let alloc = rt.alloc();
        if let Some(code) = line.strip_prefix("guest code ") {
            return self.open(alloc, Version::One, file_of_code(alloc, code)?, 0);
        }
        if let Some(code) = line.strip_prefix("guest two code ") {
            return self.open(alloc, Version::Two, file_of_code(alloc, code)?, 0);
        }
        let words: Vec<&str> = line.split_whitespace().collect(alloc)?;
        match asked_of(&words).ok_or(Wrong::AsksNothing)? {
            Asked::Guest(path, random) => {
                let Ok(elf) = fs::read(rt, path) else {
                    return Err(Wrong::NoFile);
                };
                self.open(alloc, Version::One, elf, random)
            }
            Asked::Lists(made, first, last) => self.record_lists(alloc, made, first, last),
            Asked::OfLists(question) => Ok(answer(alloc, &self.outcomes, question)?),
            asked => self.answer_of_pair(alloc, asked),
        }
    }

    fn open(
        &mut self,
        alloc: Global,
        version: Version,
        elf: Vec<u8>,
        random: u8,
    ) -> Result<String, Wrong> {
        self.pair = Some(Pair::open(alloc, version, &elf, random)?);
        self.elf = elf;
        self.random = random;
        self.puts = 0;
        self.outcomes = Vec::new(alloc);
        Ok(String::new(alloc))
    }

    /// Records the lists of seeds.
    fn record_lists(
        &mut self,
        alloc: Global,
        made: Made,
        first: u32,
        last: u32,
    ) -> Result<String, Wrong> {
        let mut outcomes = Vec::new(alloc);
        for seed in first..=last {
            match record_seed(alloc, &self.elf, self.random, made, seed) {
                Ok(outcome) => outcomes.push(outcome).map_err(AllocError::from)?,
                Err(wrong) => return Ok(format!(in alloc; "seed {seed}: {wrong}")?),
            }
        }
        let count = outcomes.len();
        self.outcomes = outcomes;
        Ok(format!(in alloc; "{count} followed")?)
    }

    /// What is found of the guest itself.
    fn answer_of_pair(&mut self, alloc: Global, asked: Asked<'_>) -> Result<String, Wrong> {
        let Some(pair) = &mut self.pair else {
            return Err(Wrong::NoGuest);
        };
        match asked {
            Asked::Choose(choice) => choose(alloc, pair, choice),
            Asked::Expire(tid) => expire(alloc, pair, tid),
            Asked::Turns(quantum) => turns(alloc, pair, quantum),
            Asked::Put => {
                let text = pair.put(self.puts).unwrap_or("nothing");
                self.puts = self.puts.saturating_add(1);
                Ok(String::from_str(alloc, text)?)
            }
            Asked::Places => pair.places(alloc),
            Asked::Event => pair.event(alloc),
            Asked::End => Ok(end_text(alloc, pair.ended())?),
            Asked::Frames => {
                let count = pair.frames().len();
                Ok(format!(in alloc; "{count}")?)
            }
            Asked::Instructions => {
                let count = pair.ran();
                Ok(format!(in alloc; "{count}")?)
            }
            _ => Err(Wrong::AsksNothing),
        }
    }
}

/// A file of the instructions that these words are, in hexadecimal digits.
fn file_of_code(alloc: Global, text: &str) -> Result<Vec<u8>, Wrong> {
    let mut code = Vec::new(alloc);
    for word in text.split_whitespace() {
        let Ok(word) = u32::from_str_radix(word, 16) else {
            return Err(Wrong::AsksNothing);
        };
        code.push(word).map_err(AllocError::from)?;
    }
    Ok(file_of(alloc, &code)?)
}

/// Tells the last frame.
fn told(alloc: Global, pair: &Pair) -> Result<String, Wrong> {
    pair.check()?;
    let frame = pair.frames().last().ok_or(Wrong::NoEnd)?;
    Ok(frame_text(alloc, frame)?)
}

/// Records the slice of a choice, and tells its frame.
fn choose(alloc: Global, pair: &mut Pair, choice: Choice) -> Result<String, Wrong> {
    pair.slice(alloc, choice)?;
    told(alloc, pair)
}

/// Records the end of a thread's timed wait, and tells its frame.
fn expire(alloc: Global, pair: &mut Pair, tid: u32) -> Result<String, Wrong> {
    pair.expire(alloc, tid)?;
    told(alloc, pair)
}

/// Records the guest's threads by turns.
fn turns(alloc: Global, pair: &mut Pair, quantum: u32) -> Result<String, Wrong> {
    if quantum < MIN_QUANTUM || MAX_QUANTUM < quantum {
        return Err(Wrong::Refused(SliceFault::BadQuantum));
    }
    pair.record(alloc, &mut RoundRobin::new(quantum))?;
    pair.check()?;
    Ok(String::from_str(alloc, "followed")?)
}
