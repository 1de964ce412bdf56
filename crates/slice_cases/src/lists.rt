//! Lists of choices that look like chance, and what recordings by them come to.

use crate::pair::Pair;
use crate::runs::{Left, Outcome};
use crate::wrong::Wrong;
use guest_calls::Guest;
use rrv_model::limits::{MAX_QUANTUM, MIN_QUANTUM};
use rrv_model::machine::Version;
use rrv_model::record::Choice;
use serial_sched::{Chooser, Listed, RoundRobin, slice};
use std::alloc::{AllocError, Global};
use test_guests::files::guest_of_file;
use test_guests::outsides::Nothing;

/// How a list is made.
#[derive(Clone, Copy, Debug, PartialEq, Eq)]
pub enum Made {
    /// Each choice is one of a thread that then runs, up to the guest's end.
    Fitting,
    /// Without a look at the guest, which has one thread: one choice in 32 fits no state of it.
    Blind,
}

/// A fitting list has no more choices.
const FITTING_CHOICES: u32 = 1_100;

/// A blind list has fewer choices.
const BLIND_CHOICES: u32 = 128;

/// Where a list is left before the guest's end, its threads come by turns, for so many instructions.
const TURN: u32 = 100;

/// Marsaglia's xorshift of 32 bits.
#[derive(Drop)]
struct Xorshift {
    state: u32,
}

impl Xorshift {
    fn of(seed: u32) -> Xorshift {
        Xorshift {
            state: seed.wrapping_mul(0x9E37_79B9),
        }
    }

    fn next(&mut self) -> u32 {
        let mut state = self.state;
        state ^= state.wrapping_shl(13);
        state ^= state.wrapping_shr(17);
        state ^= state.wrapping_shl(5);
        self.state = state;
        state
    }

    /// Chooses one of these threads, for 64 to 127 instructions.
    fn choice(&mut self, runnable: &[u32]) -> Option<Choice> {
        let number = self.next();
        let place = ((number >> 8) as usize).checked_rem(runnable.len())?;
        Some(Choice {
            tid: *runnable.get(place)?,
            quantum: 64 + number % 64,
        })
    }
}

/// A linear congruential generator, with the numbers of "Numerical Recipes".
#[derive(Drop)]
struct Congruential {
    state: u32,
}

impl Congruential {
    /// A number below the bound, or 0 where that is 0.
    fn below(&mut self, bound: u32) -> u32 {
        self.state = self
            .state
            .wrapping_mul(1_664_525)
            .wrapping_add(1_013_904_223);
        (self.state >> 8).checked_rem(bound).unwrap_or(0)
    }

    fn choice(&mut self) -> Choice {
        let tid = self.below(1).saturating_add(1);
        let quantum = self.below(256).saturating_add(MIN_QUANTUM);
        let (tid, quantum) = match self.below(128) {
            0 => (0, quantum),
            1 => (2, quantum),
            2 => (tid, MIN_QUANTUM - 1),
            3 => (tid, MAX_QUANTUM + 1),
            _ => (tid, quantum),
        };
        Choice { tid, quantum }
    }
}

fn blind(alloc: Global, seed: u32) -> Result<Vec<Choice>, AllocError> {
    let mut generator = Congruential { state: seed };
    let mut list = Vec::new(alloc);
    for _ in 0..generator.below(BLIND_CHOICES) {
        list.push(generator.choice())?;
    }
    Ok(list)
}

/// Runs a thread that the generator chooses, and answers the choice.
fn chosen(alloc: Global, guest: &mut Guest, generator: &mut Xorshift) -> Result<Choice, Wrong> {
    let Ok(runnable) = guest.running(alloc) else {
        return Err(Wrong::Memory);
    };
    let choice = generator.choice(&runnable).ok_or(Wrong::NoEnd)?;
    let _frame = slice(alloc, guest, choice, &mut Nothing).map_err(Wrong::Refused)?;
    Ok(choice)
}

/// The choices by which a guest runs to its end.
fn choices_of(alloc: Global, guest: &mut Guest, seed: u32) -> Result<Vec<Choice>, Wrong> {
    let mut generator = Xorshift::of(seed);
    let mut list = Vec::new(alloc);
    for _ in 0..FITTING_CHOICES {
        if guest.ended().is_some() {
            break;
        }
        let choice = chosen(alloc, guest, &mut generator)?;
        list.push(choice).map_err(AllocError::from)?;
    }
    Ok(list)
}

fn fitting(alloc: Global, elf: &[u8], random: u8, seed: u32) -> Result<Vec<Choice>, Wrong> {
    let mut guest = guest_of_file(alloc, elf, random).ok_or(Wrong::NoGuest)?;
    choices_of(alloc, &mut guest, seed)
}

/// Why the list was left.
fn left_of(pair: &Pair, list: &[Choice]) -> Result<Left, Wrong> {
    if pair.ended().is_some() {
        return Ok(Left::Ended);
    }
    match list.get(pair.frames().len()) {
        Some(choice) if pair.fits(choice) => Err(Wrong::LeftOut),
        Some(_) => Ok(Left::Unfit),
        None => Ok(Left::Used),
    }
}

/// Records a pair by a list up to where that is left, and answers why.
fn record_list(alloc: Global, pair: &mut Pair, list: &[Choice]) -> Result<Left, Wrong> {
    let mut chooser = Listed::new(list.to_vec(alloc)?);
    pair.record(alloc, &mut chooser)?;
    if !pair.goes_by(list) {
        return Err(Wrong::OtherSlices);
    }
    let left = left_of(pair, list)?;
    if chooser.done() != (left != Left::Ended) {
        return Err(Wrong::DoneOrNot);
    }
    Ok(left)
}

/// Records a pair by a list, and by turns from where the list is left.
fn record_pair(alloc: Global, pair: &mut Pair, list: &[Choice]) -> Result<Outcome, Wrong> {
    let left = record_list(alloc, pair, list)?;
    let unused = list.len().saturating_sub(pair.frames().len());
    pair.record(alloc, &mut RoundRobin::new(TURN))?;
    pair.check()?;
    Outcome::of(alloc, pair, left, unused)
}

/// Records a guest by a list, and by turns from where the list is left.
fn record(alloc: Global, elf: &[u8], random: u8, list: &[Choice]) -> Result<Outcome, Wrong> {
    let mut pair = Pair::open(alloc, Version::One, elf, random)?;
    record_pair(alloc, &mut pair, list)
}

/// Records a guest by the list of a seed.
pub fn record_seed(
    alloc: Global,
    elf: &[u8],
    random: u8,
    made: Made,
    seed: u32,
) -> Result<Outcome, Wrong> {
    let list = match made {
        Made::Fitting => fitting(alloc, elf, random, seed)?,
        Made::Blind => blind(alloc, seed)?,
    };
    record(alloc, elf, random, &list)
}
