//! Which acts of a run come before which, which of them race, and how a detector finds those that do, over lists of acts alone.
//! Nothing here knows of machines: `acts` says what the acts of a recording are.
//!
//! Tests: none; `order_cases` goes through rows.
//!
//! # Contracts
//!
//! The definitions of `specs/`: what an act does to bytes (`Deeds.antt`), the order and races (`Order.antt`), and the detector's
//! clocks, messages and kept accesses as data (`Detecting.antt`). Each law is a public function with an empty body (`src/laws.rt`).
//!
//! - `order_goes_forward`: what comes before an act stands before it in the run.
//! - `order_is_settled`: acts that are added at the end change neither the order nor the races of those before.
//! - `order_is_decided`: of two acts one comes before the other, or it doesn't.
//! - `raceless_reads_are_ordered`: if no two acts race, what finds a plain write at a byte that it touches comes after that write; and
//!   acts that touch a byte, one of them by a plain write, come one before the other.
//! - `threads_are_chains`: the acts of one thread are in one order, so each thread may be a chain of its own.
//! - `clocks_are_exact`: an act is below what a detector knows of its chain exactly if it comes before the act that is looked at.
//! - `found_are_races`, `races_are_found`: a detector finds at each act and byte only accesses that race with it there; and one at
//!   least if any earlier access does, at any point of the run, after other races too.
//! - `definitions_can_be_met`: a race and an order by a message, in two runs of a few acts.
//! - `rules_hold_of_rows`: of each rule small runs, with what races there and what doesn't (`Rows.antt`).
#![tactic(auto)]

mod act;
mod entry;
mod laws;

pub use act::{Act, Change, Deed};
pub use entry::Entry;
pub use laws::{
    clocks_are_exact, definitions_can_be_met, found_are_races, order_goes_forward,
    order_is_decided, order_is_settled, raceless_reads_are_ordered, races_are_found,
    rules_hold_of_rows, threads_are_chains,
};
