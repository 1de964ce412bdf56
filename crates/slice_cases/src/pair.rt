//! A guest that is recorded, and another that follows it.

use crate::wrong::Wrong;
use guest_calls::Guest;
use rrv_model::limits::{MAX_QUANTUM, MIN_QUANTUM};
use rrv_model::machine::{GuestEnd, Version};
use rrv_model::record::{Choice, Frame, Item, Record};
use serial_sched::{Chooser, SliceFault, expire, follow, slice};
use std::alloc::{AllocError, Global};
use test_guests::files::guest_of_version;
use test_guests::outsides::Nothing;
use trace_text::{EndText, RecordLine};
use turn_text::{EventText, PlacesLine};

/// A recording has fewer frames.
const FRAMES: u32 = 10_000;

/// A guest that is recorded, and another of the same file, which follows its frames.
#[derive(Drop)]
pub struct Pair {
    recorded: Guest,
    follower: Guest,
    frames: Vec<Frame>,
    /// What the calls put out.
    output: Vec<u8>,
    /// The same, a text for each call: its descriptor, and the bytes in hex.
    puts: Vec<String>,
}

impl Pair {
    /// Two guests at their opening.
    pub fn open(alloc: Global, version: Version, elf: &[u8], random: u8) -> Result<Pair, Wrong> {
        Ok(Pair {
            recorded: guest_of_version(alloc, version, elf, random).ok_or(Wrong::NoGuest)?,
            follower: guest_of_version(alloc, version, elf, random).ok_or(Wrong::NoGuest)?,
            frames: Vec::new(alloc),
            output: Vec::new(alloc),
            puts: Vec::new(alloc),
        })
    }

    /// Records a slice, and follows it. A refused one changes nothing.
    pub fn slice(&mut self, alloc: Global, choice: Choice) -> Result<(), Wrong> {
        let frame = match slice(alloc, &mut self.recorded, choice, &mut Nothing) {
            Ok(frame) => frame,
            Err(fault) => return self.refused(fault),
        };
        self.follow(alloc, &frame, choice.tid)?;
        self.keep_output(alloc, &frame)?;
        Ok(self.frames.push(frame).map_err(AllocError::from)?)
    }

    /// Ends the timed wait of a thread, and follows the frame. A refusal changes nothing.
    pub fn expire(&mut self, alloc: Global, tid: u32) -> Result<(), Wrong> {
        let frame = match expire(&mut self.recorded, tid) {
            Ok(frame) => frame,
            Err(fault) => return self.refused(fault),
        };
        self.follow(alloc, &frame, tid)?;
        Ok(self.frames.push(frame).map_err(AllocError::from)?)
    }

    /// Why no frame was made: then both guests are still in one state.
    fn refused(&self, fault: SliceFault) -> Result<(), Wrong> {
        self.check()?;
        Err(Wrong::Refused(fault))
    }

    /// Follows the frame of a thread's slice.
    fn follow(&mut self, alloc: Global, frame: &Frame, tid: u32) -> Result<(), Wrong> {
        let number = self.frames.len().saturating_add(1);
        if follow(alloc, &mut self.follower, frame).is_err() {
            return Err(Wrong::NotFollowed(number));
        }
        if !self.looks_same(tid) {
            return Err(Wrong::Differs(number));
        }
        Ok(())
    }

    /// Records slices until the chooser has no choice more, or the guest has ended.
    pub fn record<C: Chooser>(&mut self, alloc: Global, chooser: &mut C) -> Result<(), Wrong> {
        for _ in 0..FRAMES {
            if self.ended().is_some() {
                return Ok(());
            }
            let Some(choice) = self.next_choice(alloc, chooser)? else {
                return Ok(());
            };
            self.slice(alloc, choice)?;
        }
        Err(Wrong::NoEnd)
    }

    /// The chooser's next choice. Where no thread runs, a slice ignores the choice.
    fn next_choice<C: Chooser>(
        &self,
        alloc: Global,
        chooser: &mut C,
    ) -> Result<Option<Choice>, Wrong> {
        let Ok(runnable) = self.recorded.running(alloc) else {
            return Err(Wrong::Memory);
        };
        if runnable.is_empty() {
            return Ok(Some(Choice { tid: 0, quantum: 0 }));
        }
        Ok(chooser.next(&runnable))
    }

    /// Tests whether both have the same thread, have run as many instructions, and put out the same last.
    fn looks_same(&self, tid: u32) -> bool {
        self.recorded.thread(tid) == self.follower.thread(tid)
            && self.recorded.ran() == self.follower.ran()
            && self.recorded.put_out() == self.follower.put_out()
    }

    /// Tests whether both have the same state, in each of its parts.
    pub fn check(&self) -> Result<(), Wrong> {
        if self.recorded.same(&self.follower) {
            return Ok(());
        }
        Err(Wrong::EndsDiffer(self.frames.len()))
    }

    /// Keeps what a frame put out.
    fn keep_output(&mut self, alloc: Global, frame: &Frame) -> Result<(), AllocError> {
        if frame.end.call().is_some() {
            if let Some((descriptor, bytes)) = self.recorded.put_out() {
                let text = hex::encode(alloc, bytes)?;
                self.puts.push(format!(in alloc; "{descriptor} {text}")?)?;
                self.output.extend_from_slice(bytes)?;
            }
        }
        Ok(())
    }

    /// Tests whether the frames are slices of the list's first choices.
    pub fn goes_by(&self, list: &[Choice]) -> bool {
        if list.len() < self.frames.len() {
            return false;
        }
        for (frame, choice) in self.frames.iter().zip(list.iter()) {
            if frame.tid != choice.tid || choice.quantum < frame.count {
                return false;
            }
        }
        true
    }

    /// Tests whether a choice can be made in this state.
    pub fn fits(&self, choice: &Choice) -> bool {
        self.recorded.is_running(choice.tid)
            && MIN_QUANTUM <= choice.quantum
            && choice.quantum <= MAX_QUANTUM
    }

    pub fn ended(&self) -> Option<GuestEnd> {
        self.recorded.ended()
    }

    /// How many instructions were run.
    pub fn ran(&self) -> u64 {
        self.recorded.ran()
    }

    pub fn frames(&self) -> &[Frame] {
        self.frames.as_slice()
    }

    pub fn output(&self) -> &[u8] {
        self.output.as_slice()
    }

    /// The last frame as a record, and how many instructions ran before it.
    fn last(&self) -> Result<(Record, u64), Wrong> {
        let frame = self.frames.last().ok_or(Wrong::AsksNothing)?;
        let from = self.ran().saturating_sub(u64::from(frame.count));
        let record = Record {
            guest: 0,
            index: self.frames.len().min(u32::MAX as usize) as u32,
            item: Item::Frame(frame.clone()?),
        };
        Ok((record, from))
    }

    /// The line of the last frame, with its places.
    pub fn places(&self, alloc: Global) -> Result<String, Wrong> {
        let (record, from) = self.last()?;
        let line = PlacesLine::new(&record, from, self.ran(), &self.recorded);
        Ok(format!(in alloc; "{line}")?)
    }

    /// The last frame as an event, without what parts it from the one before.
    pub fn event(&self, alloc: Global) -> Result<String, Wrong> {
        let (record, from) = self.last()?;
        let text = format!(in alloc; "{}", EventText::new(&record, from, &self.recorded))?;
        let event = text.as_str().trim_start_matches(",\n");
        Ok(String::from_str(alloc, event)?)
    }

    /// What the call at this place among those that put something out did.
    pub fn put(&self, place: usize) -> Option<&str> {
        Some(self.puts.get(place)?.as_str())
    }
}

/// A text behind the word that it begins with.
fn behind(alloc: Global, text: &str) -> Result<String, AllocError> {
    String::from_str(alloc, text.split_once(' ').map_or(text, |parts| parts.1))
}

/// A frame as its line tells it.
pub fn frame_text(alloc: Global, frame: &Frame) -> Result<String, AllocError> {
    let record = Record {
        guest: 0,
        index: 0,
        item: Item::Frame(frame.clone()?),
    };
    let line = format!(in alloc; "{}", RecordLine::new(&record))?;
    behind(alloc, line.as_str())
}

/// How a guest ended, as its line tells it.
pub fn end_text(alloc: Global, end: Option<GuestEnd>) -> Result<String, AllocError> {
    let line = format!(in alloc; "{}", EndText::new(end))?;
    behind(alloc, line.as_str())
}
