//! Lists of records with wrong bytes, and what becomes of them.

ghost use Rattle.std.specs.Prelude.{◌<◌};

use crate::lists::{joined, numbered, read_list};
use frames::RecordFault;
use replayer::{Verified, VerifyFault, verify};
use reverse_step::Cursor;
use rrv_model::record::{Item, Record};
use std::alloc::{AllocError, Global};

/// At so many places a list that is taken is looked at.
const PLACES: u32 = 3;

/// What becomes of a list.
#[derive(Clone, Copy, Debug, PartialEq, Eq)]
pub enum Outcome {
    /// It can't be read.
    Unread(RecordFault),
    /// A record doesn't follow, a checkpoint is wrong, or it doesn't begin with an opening.
    Mismatch,
    BadCheckpoint,
    BadOpening,
    /// It is taken, and its states are those that its frames lead to.
    Taken,
    /// None of these: no memory, another state, or a refusal of a record that isn't the first bad one.
    Wrong,
}

/// The outcome of this name.
pub fn outcome_named(name: &str) -> Option<Outcome> {
    match name {
        "Short" => Some(Outcome::Unread(RecordFault::Short)),
        "BadKind" => Some(Outcome::Unread(RecordFault::BadKind)),
        "BadPayload" => Some(Outcome::Unread(RecordFault::BadPayload)),
        "Mismatch" => Some(Outcome::Mismatch),
        "BadCheckpoint" => Some(Outcome::BadCheckpoint),
        "BadOpening" => Some(Outcome::BadOpening),
        "Taken" => Some(Outcome::Taken),
        _ => None,
    }
}

/// How many lists came to this.
pub fn count_of(outcomes: &[Outcome], wanted: Outcome) -> usize {
    outcomes.iter().filter(|it| **it == wanted).count()
}

/// A generator of pseudo-random numbers: Marsaglia's xorshift of 32 bits.
#[derive(Drop)]
pub struct Random {
    pub state: u32,
}

impl Random {
    /// A number below a bound.
    fn below(&mut self, bound: usize) -> usize
        ensures { 0 < bound → result < bound }
    {
        self.state ^= self.state.wrapping_shl(13);
        self.state ^= self.state.wrapping_shr(17);
        self.state ^= self.state.wrapping_shl(5);
        if bound == 0 {
            return 0;
        }
        self.state as usize % bound
    }
}

/// Changes a bit of a text, or cuts it.
fn change_text(text: &mut Vec<u8>, random: &mut Random) {
    let place = random.below(text.len());
    if random.below(4) == 0 {
        text.truncate(place);
    } else if let Some(byte) = text.get_mut(place) {
        *byte ^= 1u8.wrapping_shl(random.below(8) as u32);
    }
}

/// Changes a text, puts another list's in its place, moves it, or leaves out all from it on.
fn change(
    texts: &mut Vec<Vec<u8>>,
    others: &[Vec<u8>],
    random: &mut Random,
) -> Result<(), AllocError> {
    let place = random.below(texts.len());
    match random.below(16) {
        0 => texts.truncate(place),
        1 => {
            let to = random.below(texts.len());
            if !texts.is_empty() {
                texts.swap(place, to);
            }
        }
        2 | 3 => {
            if let (Some(text), Some(other)) = (texts.get_mut(place), others.get(place)) {
                *text = other.clone()?;
            }
        }
        _ => {
            if let Some(text) = texts.get_mut(place) {
                change_text(text, random);
            }
        }
    }
    Ok(())
}

/// The records without the parts of checkpoints.
fn without_parts(alloc: Global, records: Vec<Record>) -> Option<Vec<Record>> {
    let mut items = Vec::new(alloc);
    for record in records {
        if !matches!(&record.item, Item::Part(_)) {
            items.push(record.item).ok()?;
        }
    }
    numbered(alloc, items)
}

/// Tests whether both are in the same state at a place, to which the other one goes from the start.
fn is_same_at(
    alloc: Global,
    cursor: &mut Cursor<'_>,
    other: &mut Cursor<'_>,
    place: u64,
) -> Option<bool> {
    cursor.seek(alloc, place).ok()?;
    other.seek(alloc, 0).ok()?;
    other.forward(alloc, place).ok()?;
    Some(cursor.guest().same(other.guest()))
}

/// Tests whether both are in the same state at some places of so many instructions.
fn are_same(
    alloc: Global,
    cursor: &mut Cursor<'_>,
    other: &mut Cursor<'_>,
    total: u64,
    random: &mut Random,
) -> Option<bool> {
    for _ in 0..PLACES {
        let place = random.below((total as usize).saturating_add(1)) as u64;
        if !is_same_at(alloc, cursor, other, place)? {
            return Some(false);
        }
    }
    Some(true)
}

/// Tests whether a list leads to the same states as its frames alone, which are gone through from the start.
fn is_right(
    alloc: Global,
    verified: &Verified,
    records: Vec<Record>,
    random: &mut Random,
) -> Option<bool> {
    let plain = verify(alloc, &without_parts(alloc, records)?).ok()?;
    if plain.total() != verified.total() {
        return Some(false);
    }
    let mut cursor = Cursor::new(alloc, verified).ok()?;
    let mut other = Cursor::new(alloc, &plain).ok()?;
    are_same(alloc, &mut cursor, &mut other, verified.total(), random)
}

/// What a list comes to that is refused for a record: those before it have to be a recording.
fn refused(alloc: Global, records: &[Record], bad: usize, outcome: Outcome) -> Outcome {
    match records.get(..bad) {
        Some(before) if verify(alloc, before).is_ok() => outcome,
        _ => Outcome::Wrong,
    }
}

/// What becomes of a list of records.
fn outcome_of_records(alloc: Global, records: Vec<Record>, random: &mut Random) -> Outcome {
    match verify(alloc, &records) {
        Ok(verified) => match is_right(alloc, &verified, records, random) {
            Some(true) => Outcome::Taken,
            _ => Outcome::Wrong,
        },
        Err(VerifyFault::Mismatch { index }) => refused(alloc, &records, index, Outcome::Mismatch),
        Err(VerifyFault::BadCheckpoint { index }) => {
            refused(alloc, &records, index, Outcome::BadCheckpoint)
        }
        Err(VerifyFault::BadOpening) => Outcome::BadOpening,
        Err(VerifyFault::Memory | VerifyFault::Unreadable { .. }) => Outcome::Wrong,
    }
}

/// What becomes of the list whose texts the bytes are.
fn outcome_of(alloc: Global, bytes: &[u8], random: &mut Random) -> Outcome {
    match read_list(alloc, bytes) {
        Ok(records) => outcome_of_records(alloc, records, random),
        Err(RecordFault::Memory) => Outcome::Wrong,
        Err(fault) => Outcome::Unread(fault),
    }
}

/// The bytes of texts, with one change or two.
fn changed(
    alloc: Global,
    texts: &[Vec<u8>],
    others: &[Vec<u8>],
    random: &mut Random,
) -> Result<Vec<u8>, AllocError> {
    let mut changed = texts.to_vec(alloc)?;
    change(&mut changed, others, random)?;
    if random.below(2) == 0 {
        change(&mut changed, others, random)?;
    }
    joined(alloc, &changed)
}

/// What becomes of so many lists, each with one change or two.
pub fn mutate(
    alloc: Global,
    texts: &[Vec<u8>],
    others: &[Vec<u8>],
    count: u32,
    random: &mut Random,
) -> Result<Vec<Outcome>, AllocError> {
    let mut outcomes = Vec::new(alloc);
    for _ in 0..count {
        let bytes = changed(alloc, texts, others, random)?;
        outcomes.push(outcome_of(alloc, &bytes, random))?;
    }
    Ok(outcomes)
}
