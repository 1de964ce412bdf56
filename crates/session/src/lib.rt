//! A session: records several guests at once, each by a worker in a thread of its own, and commits all that they send by one
//! flusher.
//!
//! Tests: session_tests, program_tests; `cases.stopped_sessions` and `cases.failed_calls` run it.
//!
//! # Contracts
//!
//! - `record_all`: whatever it returns, the jobs come back in their order, with the same version, file, name, random bytes and
//!   `every`. Under the log's next number plus a job's place what was committed is nothing or a recording of the job's
//!   opening, and the job's sink took a beginning of its output. Nothing is committed under another number. The log's next
//!   number is then one above the greatest that was committed, and as before if nothing was (`HasRun.next`). So after `open`
//!   it is one above the greatest number that has records. A crash at any moment leaves the bodies that the log had and a
//!   beginning of the new ones, the one in hand after them; and after a torn gate stands just the next of these. A body is in
//!   hand only if a call of the disk failed: it is the text of a batch of the session's own records, and with it these are
//!   recovered too, of each guest a recording of its job's opening, of which its sink took a beginning of the output. After Ok
//!   each guest is recorded to its end, as its report says, its sink took all of its output, and the log isn't broken. No jobs
//!   at all are Ok, and nothing changes.
//! - `sessions_can_follow`: from that it follows that each crash since the session began leaves what the next session of
//!   `sessions_always` begins with (`CanOpen`): a store whose bodies hold records in order, also with the body after a torn
//!   gate.
//! - `record_all`, choices: the frames committed of each job, whatever it returns, are those that its chooser chose, as the
//!   job came in, from the opening's state on, but for ends of waits, by each of which a choice is lost
//!   (`HasRecorded.chosen`). A guest of version 1 has none (`old_guests_lose_no_choice`). After Ok they are all of them, and
//!   the job's chooser comes back as they left it, or was asked once more and had no choice left (`IsReported.chosen`).
//!   Whatever it returns, the frames committed and some made after them led to the chooser that comes back. If the gate held,
//!   that chooser is the very one. If memory was wanted, it may have been asked once more, and the choice is lost. Else it was
//!   at most asked once more and had no choice left (`HasMet.chosen`).
//! - `record_all`, guests: after Ok each guest comes back in the state that its committed records end in, and counts as many
//!   steps as their frames do (`AreLeft`).
//! - `record_all`, refusals: `TooManyGuests` comes exactly for more than 16 guests or numbers past their limit. A job that
//!   starts no guest is reported: `BadOpening` names the first one, unless `TooManyGuests` is reported, or `NeedsMark`, or
//!   `Memory`: the last only if it or a job before it has a guest's name, and a file within its limit to which none of the
//!   first twelve refusals applies. Of a log that doesn't hold the Mark the first job of version 2 is reported before those:
//!   `NeedsMark` names it, and comes for nothing else. In each case log and jobs are as before. Whatever it returns, the log
//!   holds the Mark exactly if it did before (`HasRun.marked`).
//!   `DeviceFailed` comes exactly if the log is broken, and then one call of the disk failed; else none did. `SinkFailed`
//!   comes only if that guest's sink refused, once; and a sink that refused is reported, or a fault before that. So after Ok
//!   no sink refused and no call of the disk failed. After `StoreFull` the text of some records, no longer than a body may be,
//!   would take the store past a limit. `Held` names a guest of the session.
//! - While all threads of a guest wait for a time its worker sleeps, for 10 milliseconds at most. How long is in no contract.
//! - A worker that finds the group halted has released all output that it had seen to be durable (`HasStopped`, proved
//!   within).
//! - `record_all`, which fault: each job's worker met a fault of its own or none, and the session may have met others. Of
//!   these the first is reported: by its kind, and then of the lowest guest (`TellsFirst`). A worker met `SinkFailed` exactly
//!   if its sink refused. A guest whose worker met none is recorded to its end, also if another's fault is reported, unless
//!   the session met others.
//! - Not in its contract: that the gate held if it says so, and that `Memory` comes only if an allocation failed. So a list of
//!   faults that names one of these for a worker, `Memory` for the session, or some fault of the session beside the reported
//!   one, is believed.
//!
//! That threads run at once, that one could not be made, and that a worker ever ends is in no contract. Tests record 16 guests
//! of a thousand records each, ten times, and replay what they find; two guests of which one waits for the other's frames, and
//! two that meet in the gate, which workers that ran one after the other would not pass. `cases.failed_calls` records two guests
//! with each call of the disk failing, whose records are then the first of their runs.
#![tactic(auto)]

mod copying;
mod fault;
mod flush;
mod gate;
mod hand_over;
mod job;
mod laws;
mod lowest;
mod opening;
mod pace;
mod post;
mod report;
mod room;
mod rounds;
mod run;
mod session;
mod start;
mod task;
mod work;
mod worker;

pub use fault::SessionFault;
pub use gate::{Gate, OpenGate};
pub use job::Job;
pub use laws::{old_guests_lose_no_choice, sessions_can_follow, starts_are_worlds};
pub use recorder::Every;
pub use report::{GuestReport, SessionReport};
pub use session::record_all;
