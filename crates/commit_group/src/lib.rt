//! A group: up to 16 recorders send records through one queue, and one flusher commits them to a log and tells each recorder,
//! by a word, how many of its records are durable. No lock is taken.
//!
//! The words of a group of n guests: 0 to n - 1 are the durable counts, n the halt word, and from n + 1 on stands one more than
//! a guest sent once it has left, else 0.
//!
//! The Mark is a body that says that guests of version 2 may stand behind it: their records are committed only to a log that
//! holds it. A group doesn't commit the Mark.
//!
//! Tests: group_tests.
//!
//! # Contracts
//!
//! The queue, the words and the seats of a group that records at once, and the flusher's turn.
//!
//! - `Group::make`: the seats of 1 to 16 recorders, which sent nothing, and that of the flusher.
//! - `try_submit`: puts the item into the queue as the guest's next record, or gives it back: `Left` after `leave`, `Halted`
//!   once a halt was seen, `Full`. At `Full` there are 256 records that the group's guests may have sent after what was
//!   received: each has a text, those of each guest are in order, and those of this one are what it sent. That the queue held
//!   just these isn't said.
//! - `lone_guests_fill_the_queue`: so the only guest of a group has sent 256 records at `Full`.
//! - `submit`: the same, but it waits while the queue is full and never returns `Full`.
//! - `look`, `look_halt`, `leave`: a recorder's words. The seen count never goes back, and is at most what was sent.
//! - `turn`: receives records, of which at most 64 then wait, commits the first of them to the log, as many as fit into a body
//!   of 8,388,608 bytes, and publishes each guest's count. What it returns says what changed in the seat and in the log:
//!   - `Committed(n)`: the log has gained one body, the text of the first n records that waited, and n is as great as the body
//!     allows. The log holds the Mark, or each of these may stand before it. What is recovered from the log grows by just
//!     these n. The log's next guest is raised past theirs. All counts that are published are those of committed records.
//!   - `Idle`, `Done`: no record waits, and the log is as before. Leave words were loaded from guest 0 on. The last that was
//!     loaded is the first that isn't one more than what is committed of its guest; if there is none, all were loaded. `Done`
//!     comes only if all have left and all that they sent is committed, and `Idle` only if the leave words that were loaded
//!     don't say so.
//!   - `DeviceFailed`: one of the commit's calls failed, none was made after it, and the group is halted. `TooLong`: nothing
//!     was written, since the store would pass a limit, and the group is halted. `NeedsMark`: nothing was written, since
//!     a record of the batch may stand behind the Mark alone and the log holds none, and the group is halted. `Memory`:
//!     nothing was written. In all four what was received waits.
//!   - `Halted`: the group was halted earlier, and nothing changed.
//!   - A crash at any moment of a turn leaves the bodies that the log had, or these and the next.
//! - `publish`, `look_left`, `halt`: the flusher's words. A published count is that of the records that the flusher counted as
//!   committed.
//! - `waits_in_order`: a law. With the first ones of what waits in one body more, they are recovered after what is
//!   committed, where the Mark is one of the bodies before, or each of them may stand before it.
//! - `end`: what each recorder sent and saw, and how many of its records were committed; seen is at most committed, and
//!   committed at most sent. What is committed is the first of what was sent, also with what waits after it.
//! - `turns_are_events`, by the answer of a turn. Let seat and log stand for the flusher's part of a world of `commit_core` before
//!   a turn. What the turn came to, the flusher may then do there by itself, guards included, and seat and log stand for its part of
//!   every world that this leaves:
//!   - One that commits receives its records one by one, commits a body, and publishes all counts.
//!   - One that a failed call of the disk stopped receives, and makes the calls of a commit up to the one that fails. The flusher is
//!     then at its broken stage and halts.
//!   - One that returns `Memory` receives. One that returns `TooLong` receives and halts. The refused batch may not be written in
//!     that world either. So does one that returns `NeedsMark`. The refused batch may not be written in that world if its bodies
//!     don't have the Mark.
//!   - One that returns `Halted` is no event. The world's flusher has halted, and all stands as before.
//!   - One that returns `Idle` or `Done` loads leave words, one guest after another, and the totals of the seat are then the
//!     world's. After `Done` all guests' were loaded, and each word is one more than what is committed. After `Idle` that isn't
//!     so. Both are said of the words as they were loaded.
//! - `recorder_calls_are_events`, `flusher_calls_are_events`: a look, a look for the halt, a leave, a push, a publish, a halt and a look
//!   at a leave word are one act each.
//!
//! What holders do in any order is `commit_core::in_any_order`.
//!
//! That a turn receives anything is in no contract: a body that always returns `Idle` or `Memory` fails the tests alone.
//!
//! `look`, `look_halt`, `leave`, `publish`, `look_left` and `halt` take no handle to wait with (`Wait`), and nothing in the kit
//! locks, pushes or pops without one. So a body that puts a lock round queue and words doesn't pass the type checker, and no
//! edit is needed.
#![tactic(auto)]

mod body;
mod counting;
mod fault;
mod flusher_seat;
mod group;
mod laws;
mod queue;
mod recorder_seat;
mod report;
mod start;
mod steps;
mod turn;
mod words;
mod world;

pub use fault::{FlushFault, SubmitFault};
pub use flusher_seat::FlusherSeat;
pub use group::Group;
pub use laws::lone_guests_fill_the_queue;
pub use recorder_seat::RecorderSeat;
pub use report::{Report, end};
pub use turn::Turn;
pub use world::{flusher_calls_are_events, recorder_calls_are_events, turns_are_events};
