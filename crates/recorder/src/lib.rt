//! A guest's recorder: runs it slice by slice, sends its records to be committed, and releases the output of durable records.
//!
//! Tests: group_tests, session_tests.
//!
//! # Contracts
//!
//! - `Outputs`: the output of records that aren't known to be durable. `release` puts the output of the records below a count
//!   into a sink, in order. What the sink took is a beginning of what was left, and of those records alone. What any sink took
//!   is said here and in the crates above of those that tell it (`Sink::tells`). If the sink refuses, the rest is kept, from
//!   the first byte not taken on. It returns how many bytes left, and false only if the sink refused.
//! - `MemSink`: a sink that keeps all that it takes. That it refuses only what finds no memory is in no contract.
//! - `Recorder::new`, of any opening: its only record is that opening. `BadOpening` comes only if no guest starts so. `Memory`
//!   comes only if the name is a guest's, the file is within its limit, and none of the first twelve refusals applies to it.
//! - `Deadlines`: of each wait with a timeout its tid and a moment, by rising tid, 64 at most, in room that is taken at the start.
//!   `due` is the thread of the earliest, of equal ones the least tid, if that isn't after now: `due_is_earliest`.
//! - `step`: one record more, and after it the parts of a checkpoint or none. The frame is the expiry of the thread that is due
//!   by the monotonic clock, which is asked once if there is a deadline, else the slice of the choice. After a frame by which
//!   a thread began a wait with a timeout the clock is asked once more. There is a deadline of each such wait, and no other.
//!   What was made is again a recording, which ends in the guest's state, so that the parts describe just that state. It
//!   returns `Kept` or `LeftOut` exactly if a checkpoint is due: the guest has not ended, and has run as many instructions as
//!   are to lie behind the last checkpoint or the start: as were asked for, or by what that checkpoint cost (`Every`). At `Kept` all parts of one were made, at `LeftOut` and `NotDue`
//!   none. The parts name exactly the pages that differ from those of the last complete checkpoint, or of the start, each with
//!   the lines that do. That `LeftOut` comes only for want of memory or of indexes is in no contract; a test sees the parts.
//!   `Full` comes only if a record waits to be sent, `TooManyRecords` only at 4,294,967,295 of them, and what `slice` refuses
//!   only if it does. After each of them what was made, the output that waits, the guest's state and the deadlines are as
//!   before, and so is the environment, but for the clock's answer if a slice was refused: then no thread is due, and the
//!   clock's last answer is that. `Memory` leaves all as before too. It comes before the clock is asked, or from a slice while
//!   no thread is due.
//! - `send`: sends what waits, in order, until the queue is reported to be full (see `try_submit`). It looks for a halt, also
//!   if nothing waits: `Halted` comes only if one was seen, and Ok only if none was.
//! - `release`: what the sink took is, after what had left before, a beginning of the output of the records that are seen to be
//!   durable. `SinkFailed` says how many bytes left, and the next call goes on at the first byte that wasn't taken.
//! - `settle`: it sends and releases, round by round. After Ok all that was made is sent and durable, and all its output has left. Its refusals are those of `send`
//!   and `release`; at `Halted` the output of all that it saw to be durable has left.
//! - `finish`: the seat, which has left, and the guest, as it is after all records. `leave`: the seat alone.
//! - `output_is_of_durable_records`: what has left is output of durable records, and of committed ones once the group has ended.
//! - `steps_are_events`, `sends_are_events`, `releases_are_events`, `settles_are_events`: what a call came to, the recorder of a world of
//!   `commit_core` may do by itself, guards included. A step that made a frame is as many slices as it makes records; one that was
//!   refused is no event. Sending is looks for the halt, and pushes of what waits, in order. A release is a look, and then
//!   what the sink takes, in any parts. Settling is both, round by round. How many looks there were is in no contract.
#![tactic(auto)]

mod checkpoints;
mod deadlines;
mod every;
mod fault;
mod mem_sink;
mod outputs;
mod pause;
mod recorder;
mod world;

pub use checkpoints::Parts;
pub use deadlines::due_is_earliest;
pub use every::Every;
pub use fault::RecorderFault;
pub use mem_sink::MemSink;
pub use outputs::Outputs;
pub use pause::Pause;
pub use recorder::Recorder;
pub use world::{
    output_is_of_durable_records, releases_are_events, sends_are_events, settles_are_events,
    steps_are_events,
};
