//! What an instruction or a call does that other threads may notice: the acts of a recorded guest, as data. `order` says which of them
//! come before which, and which race.
//!
//! Tests: none yet; nothing runs.
//!
//! # Contracts
//!
//! The definitions, and a law above them: `specs/Deeds.antt` has what one instruction and one call does, `specs/Acts.antt` the acts of
//! a recording.
//!
//! - `acts_are_one`: the first instructions of a recording have one list of acts at most.
//! - `rules_hold_of_rows`: what fences do by their words; that an SC that fails does nothing, a swap into x0 reads nothing, a call that was
//!   refused does nothing, a thread without a clear address clears nothing, and a fault does nothing (`Rows.antt`).
#![tactic(auto)]

mod laws;

pub use laws::{acts_are_one, rules_hold_of_rows};
