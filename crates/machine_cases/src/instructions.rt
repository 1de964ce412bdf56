//! Lines of instructions.

use crate::lines::{number, number_or_none};
use guest_pages::{AddressSpace, Space};
use rrv_model::machine::{FaultKind, Permissions, Regs, Reservation};
use rv_decode::{decode, encode};
use rv_machine::{Stepped, step};
use std::alloc::Global;
use test_guests::harts::regs_with;

/// Where the instruction stands.
const CODE: u32 = 0x1_0000;

/// Where the word of data stands, unless a line says so.
const DATA: u32 = 0x1_1000;

/// A hart and its word of data: before a step, or behind it.
#[derive(Clone, Copy, PartialEq, Eq, Debug)]
struct State {
    pc: u32,
    /// a0 to a3.
    arguments: [u32; 4],
    /// Where the word of data stands.
    at: u32,
    data: u32,
    reserved: Reservation,
}

/// What a step comes to.
#[derive(Clone, Copy, PartialEq, Eq, Debug)]
struct Outcome {
    end: Stepped,
    regs: Regs,
    data: u32,
    reserved: Reservation,
}

/// What a line wants.
#[derive(Clone, Copy)]
struct Want {
    state: State,
    end: Stepped,
    again: Option<u32>,
}

/// How a step ends, by its word in a line.
fn end_of(word: &str) -> Option<Stepped> {
    let kind = match word {
        "next" => return Some(Stepped::Next),
        "call" => return Some(Stepped::Call),
        "bad-instruction" => FaultKind::BadInstruction,
        "breakpoint" => FaultKind::Breakpoint,
        "misaligned-target" => FaultKind::MisalignedTarget,
        "misaligned-atomic" => FaultKind::MisalignedAtomic,
        "fetch" => FaultKind::Fetch,
        "load" => FaultKind::Load,
        "store" => FaultKind::Store,
        _ => return None,
    };
    Some(Stepped::Fault(kind))
}

/// A state with this value under a name.
fn with_value(mut state: State, name: &str, value: &str) -> Option<State> {
    match name {
        "pc" => state.pc = number(value)?,
        "a0" => state.arguments[0] = number(value)?,
        "a1" => state.arguments[1] = number(value)?,
        "a2" => state.arguments[2] = number(value)?,
        "a3" => state.arguments[3] = number(value)?,
        "at" => state.at = number(value)?,
        "data" => state.data = number(value)?,
        "reserved" => state.reserved = number_or_none(value)?,
        _ => return None,
    }
    Some(state)
}

/// The state that stands in front of `gives`.
fn state_of(text: &str) -> Option<State> {
    let mut state = State {
        pc: CODE,
        arguments: [0; 4],
        at: DATA,
        data: 0,
        reserved: None,
    };
    for word in text.split_whitespace() {
        let (name, value) = word.split_once('=')?;
        state = with_value(state, name, value)?;
    }
    Some(state)
}

/// What stands behind `gives`, of a word in this state.
fn want_of(word: u32, before: &State, text: &str) -> Option<Want> {
    let mut want = Want {
        state: *before,
        end: Stepped::Next,
        again: Some(word),
    };
    want.state.pc = before.pc.wrapping_add(4);
    for part in text.split_whitespace() {
        let (name, value) = part.split_once('=')?;
        match name {
            "end" => want.end = end_of(value)?,
            "again" => want.again = number_or_none(value)?,
            _ => want.state = with_value(want.state, name, value)?,
        }
    }
    Some(want)
}

/// The pages of the instruction and the data.
fn space_of(alloc: Global, word: u32, before: &State) -> Option<Space> {
    let all = Permissions {
        read: true,
        write: true,
        execute: true,
    };
    let mut space = Space::new(alloc);
    space.map(CODE / 4096, 2, all).ok()?;
    space.store_word(CODE, word).ok()?;
    space.store_word(before.at, before.data).ok()?;
    Some(space)
}

/// One step of a word; None where no memory is left.
fn outcome_of(alloc: Global, word: u32, before: &State) -> Option<Outcome> {
    let mut space = space_of(alloc, word, before)?;
    let mut regs = regs_with(before.pc, before.arguments);
    let mut reserved = before.reserved;
    let end = step(&mut regs, &mut space, &mut reserved).ok()?;
    Some(Outcome {
        end,
        regs,
        data: space.load_word(before.at)?,
        reserved,
    })
}

/// The word that comes back from a word's instruction.
fn encoded_again(word: u32) -> Option<u32> {
    let instr = decode(word)?;
    Some(encode(instr))
}

/// Tells whether a line of a `word` holds.
pub fn steps(alloc: Global, text: &str) -> Option<bool> {
    let (front, behind) = text.split_once(" gives")?;
    let (word, values) = front.split_once(' ').unwrap_or((front, ""));
    let word = number(word)?;
    let before = state_of(values)?;
    let want = want_of(word, &before, behind)?;
    let found = outcome_of(alloc, word, &before)?;
    let wanted = Outcome {
        end: want.end,
        regs: regs_with(want.state.pc, want.state.arguments),
        data: want.state.data,
        reserved: want.state.reserved,
    };
    Some(found == wanted && encoded_again(word) == want.again)
}

/// Tells whether a line that `decodes` holds.
pub fn decodes(alloc: Global, text: &str) -> Option<bool> {
    let (word, told) = text.split_once(' ')?;
    let decoded = decode(number(word)?);
    if told == "none" {
        return Some(decoded.is_none());
    }
    let (again, told) = told.split_once(' ')?;
    let again = number(again)?;
    let Some(instr) = decoded else {
        return Some(false);
    };
    let found = format!(in alloc; "{instr:?}").ok()?;
    Some(found.as_str() == told && encode(instr) == again)
}
