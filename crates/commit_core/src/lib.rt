//! The world of a recording: recorders, queue, words, flusher and disk, and what holds of it over every list of events.
//! Nothing runs here: each law is the contract of a function that does nothing.
//!
//! Tests: none, since nothing runs; `byte_leaves` and the other examples are proved.
//!
//! # Contracts
//!
//! - `safe_always`: over every list of events and every crash. docs/PROOFS.md has it in words.
//! - `in_any_order`: events of all holders are a schedule, in whatever order they come, if each holder by itself may do its own, and each
//!   event finds what it needs in the queue. What calls of the seats and of a recorder come to, their holders may do by themselves
//!   (`turns_are_events` in commit_group, `steps_are_events` in recorder, and the laws beside them).
//! - `sessions_always`: over any list of sessions, each stopped anywhere, within its opening too, with the machine or the
//!   process alone. No reported record is lost, and a body that was there and was not reported does not come back: what each
//!   later report adds, and the disk at the end, was sent by guests of sessions since then. Of each session that ran they have
//!   every record of which an output byte has left, whatever openings were stopped in between. Each crash leaves what can be
//!   opened, and so does what a read gives.
//! - `failure_is_last`: after a call of the disk that failed none follows.
//! - `byte_leaves`, `crash_in_gate`, `calls_fail`, `two_guests`, `sessions_follow`, `repair_follows`, `mark_is_committed`: the
//!   premises of these can be met.
//!
//! # The world, in reading order
//!
//! `safe_always` and `sessions_always` are theorems about these definitions; so is `failure_is_last` (after a call of the disk
//! that failed no call of the disk follows, and the disk stays). That their premises can be met is proved beside them:
//! `byte_leaves` (a start, and events after which a byte has left), `crash_in_gate` (the same run stopped within the write of
//! the gate, where any byte may stand), `calls_fail` (each of the four calls of its commit can fail, a write leaving any bytes
//! in its range), `two_guests` (one body has records of two guests, and of each a byte has left), `sessions_follow` (a second
//! session that finds all records), `repair_follows` (one that closes a torn gate, cuts off what stands after it, and finds
//! the records before it) and `mark_is_committed` (one that commits the Mark, and a record of a guest of version 2 behind it).
//! In `crates/rrv_model/specs`, and for the files from CrashModel to StoreCalls in `crates/store_model/specs`:
//!
//! | File | What it says |
//! |---|---|
//! | State, Step, Calls, FrameStep | a guest's state, one instruction, a call, and how a frame leads from one state to the next |
//! | Opening, Recording | the state that a guest starts in, and what a list of records has to be to be a recording |
//! | StateAt, Output | the state at a count of instructions, and the bytes that the calls of a recording put out |
//! | LineMask | which lines of two pages differ, and lines that are merged into a page |
//! | Checkpoint | the state that the parts of a checkpoint describe against a base |
//! | Limits | the number of each limit, which a law binds |
//! | RecordText | the bytes of a record |
//! | CrashModel, DiskCalls | what a disk holds, what each call does to it, and what a crash may leave |
//! | StoreText | which bytes hold which bodies, and when they are sound |
//! | StoreCalls | the calls of a disk by which a store is opened and a body committed, and the disk at a moment within them |
//! | Recovered | which records are recovered from bodies |
//!
//! In `crates/commit_core/specs`:
//!
//! | File | What it says |
//! |---|---|
//! | Runs | the output and the states of the records of one guest, as StateAt and Output have them |
//! | World | what each recorder, the queue, the words, the flusher and the disk hold, and how it begins |
//! | Events | what may happen, one event at a time, when, and what it does: each effect is a function of its holder's part |
//! | Holders | whose each event is, what a holder may do by itself, and what an event finds in the queue |
//! | Facts | the six facts that hold after every event, and what recovery gives of any content that a crash leaves |
//! | Sessions | sessions one after another: each opens the store, commits the Mark or doesn't, runs events or none, and is stopped anywhere, within its opening too; how what one `open` reported grows |
//! | Headline | what each session that ran has at each of its moments, and what later sessions find of it |
//! | FailedCalls | which events are calls of the disk, which of them fail, and what it is that none follows |
//! | Example | a guest of seven instructions that writes a byte and exits, and the events after which its byte has left |
//! | ExampleFailures | the events up to each of the four calls of its commit, which fails |
//! | ExampleGroup | two such guests, and the events after which a byte of each has left |
//! | ExampleRepair | a session stopped in the write of its second gate, which is torn; one stopped within its opening; and one that begins with the repair |
//! | ExampleMark | a session stopped within the Mark's commit; one that commits it, and then the opening of a guest of version 2; and one that finds both |
//!
//! A crash is no event. The model needs no call in progress. From its start a write may have changed any byte of its range;
//! until it returns, a sync has synced nothing. So a crash inside a write is one after it, a crash inside a sync one before it,
//! and "wherever the machine stops" is "after any list of events".
//!
//! What the theorems don't say: that any event ever happens; that running threads make just the calls that are tied to events
//! (docs/PROOFS.md, "The headline"); anything of a disk that is not
//! as the crash model; that a digest tells all damage (nothing rests on digests but their length). In the examples one or two
//! guests write a byte, one exits, and a later session finds what the first left. Checkpoints, frames that end otherwise than
//! by a call, and a session that records after what another left stand in none, so that their guards can be met is seen by
//! reading.
//!
//! A session may also end with the process alone. Then the next one reads what the disk holds and not what a crash leaves.
//! `sessions_always` says of that content too that it can be opened, and that what the session left is recovered from it.
//!
//! A guest of which no record was recovered has no number that is kept, unless a guest with a greater number has one: a later
//! session may give it to another guest. Of such a guest no byte had left. Under each number up to the greatest of which a
//! session left a record, every later session finds just what that one left.
#![tactic(auto)]

ghost use Rattle.std.specs.Prelude.{◌≡◌, ◌<◌, ◌++◌, ℕ, List, [], ◌∷◌, length, Some};
ghost use Rattle.std.specs.List.{AllByRecursion};
ghost use Rattle.rrv_model.specs.declared.machine.GuestEnd.TheVariants.{Exited};
ghost use Rattle.rrv_model.specs.declared.record.Record.{Record};
ghost use Rattle.store_model.specs.CrashModel.{DiskState, IsCrash};
ghost use Rattle.rrv_model.specs.State.{State};
ghost use Rattle.store_model.specs.StoreText.{IsStore};
ghost use Rattle.commit_core.specs.World.{World, IsStart, IsAtRest, closed_store};
ghost use Rattle.commit_core.specs.Events.{Event, IsSchedule, run};
ghost use Rattle.commit_core.specs.Holders.{BeginningsAreOwnRuns, OwnRunsAreSafe, OwnRunsAreSchedules, PopsAreReceived, RowsAreOwnRuns};
ghost use Rattle.commit_core.specs.Facts.{Facts, Recovers};
ghost use Rattle.commit_core.specs.Sessions.{Session, AreSessions, AreGrowing, CanOpen, fresh_disk, opened_disk};
ghost use Rattle.commit_core.specs.Headline.{AreKept, IsSafeThroughout};
ghost use Rattle.commit_core.specs.FailedCalls.{IsFailedCall, IsLastCall};
ghost use Rattle.commit_core.specs.Example.{GateMayTear, example_start, two_sessions, up_to_gate, up_to_release};
ghost use Rattle.commit_core.specs.ExampleFailures.{EachCallFails};
ghost use Rattle.commit_core.specs.ExampleGroup.{BothLeave, pair_events, pair_start};
ghost use Rattle.commit_core.specs.ExampleMark.{mark_sessions};
ghost use Rattle.commit_core.specs.ExampleRepair.{IsRepaired};

/// Whatever the recorders and the flusher do, in any order, the six facts hold; and wherever the machine stops, recovery gives
/// each guest a beginning of its records that holds every record of which an output byte has left, and whose replay gives, at
/// every instruction count, the state that the recorded run had there.
pub fn safe_always()
    ensures facts { (start : World) (old : List Record) (events : List Event) → IsStart start old
        → IsSchedule start events → Facts (run start events) }
    ensures crash { (start : World) (old : List Record) (events : List Event) (content : List ℕ) → IsStart start old
        → IsSchedule start events → IsCrash (run start events).disk.pending content
        → Recovers (run start events) old content }
{}

/// Whatever order the events of all holders come in, they are a schedule, if each holder by itself may do what it does there, and each event
/// finds room in the queue, or the record that it takes. By itself means: before each of its events there are some queue, words and parts of
/// others with which the event may happen, and a word that it loads is the one that stands in the whole. Each holder's part is then what it
/// is by itself. If a session began so, it is safe after each beginning of the events. What a holder may do by itself, and after that, it
/// may do in a row, and so it may do a beginning of that: what it did as it was stopped. Of what it pops, the flusher knows the records.
pub fn in_any_order()
    ensures schedule { OwnRunsAreSchedules }
    ensures safe { OwnRunsAreSafe }
    ensures rows { RowsAreOwnRuns }
    ensures beginnings { BeginningsAreOwnRuns }
    ensures received { PopsAreReceived }
{}

/// Over any list of sessions, each of which opens the store, may commit the Mark, records or records nothing, and is stopped anywhere,
/// also within `open`, with the machine or alone. What one `open` reported is a beginning of what each later one reports, and of what the
/// disk holds at the end; so is that with the Mark, if the session then committed it and ran. What follows belongs to guests of later
/// numbers, and sessions since then sent it: a body that was there and was not reported does not come back. Of each session that ran,
/// from what its `open` reported, what `safe_always` says is true at each of its moments. And each later report, and the disk at the end,
/// has every record of it of which an output byte has left, and under each number up to the greatest of which a record was left just what
/// was left. What every crash leaves, and what a read gives, can be opened again. Once `open` has made its calls the store is at rest
/// with its bodies.
pub fn sessions_always()
    ensures grows { (content : List ℕ) (sessions : List Session) (end : DiskState) → CanOpen content
        → AreSessions (fresh_disk content) sessions end → AreGrowing sessions end }
    ensures opens { (content : List ℕ) (sessions : List Session) (end : DiskState) (left : List ℕ) → CanOpen content
        → AreSessions (fresh_disk content) sessions end → IsCrash end.pending left → CanOpen left }
    ensures reads { (content : List ℕ) (sessions : List Session) (end : DiskState) → CanOpen content
        → AreSessions (fresh_disk content) sessions end → CanOpen end.content }
    ensures safe { (content : List ℕ) (sessions : List Session) (end : DiskState) → CanOpen content
        → AreSessions (fresh_disk content) sessions end → AllByRecursion IsSafeThroughout sessions }
    ensures kept { (content : List ℕ) (sessions : List Session) (end : DiskState) → CanOpen content
        → AreSessions (fresh_disk content) sessions end → AreKept sessions end }
    ensures opened { (disk : DiskState) (bodies : List (List ℕ)) (store : IsStore disk.content bodies)
        → IsAtRest (opened_disk disk bodies store) (closed_store bodies) }
{}

/// After a call of the disk that failed no event of a schedule is a call of the disk, and the disk stays as that call left it.
pub fn failure_is_last()
    ensures { (start : World) (before : List Event) (failed : Event) (later : List Event) → IsFailedCall failed
        → IsSchedule start (before ++ failed ∷ later) → IsLastCall start before failed later }
{}

/// The premises of `safe_always` can be met, and a byte can leave: a guest that writes the first byte of its file and exits is
/// recorded into a store without bodies, its records are committed, and its byte is put out.
pub fn byte_leaves()
    ensures start { IsStart example_start [] }
    ensures leaves { (written ended : State) × IsSchedule example_start (up_to_release written ended)
        × (((run example_start (up_to_release written ended)).recorders 0).out ≡ (1, 0x7F) ∷ [])
        × (ended.ended ≡ Some (Exited 1)) }
{}

/// The same run can be stopped within the write of the gate, and then any byte may stand there: nothing is recovered, or all its
/// records where that byte opens the gate.
pub fn crash_in_gate()
    ensures { (written ended : State) × IsSchedule example_start (up_to_gate written ended)
        × GateMayTear (run example_start (up_to_gate written ended)) }
{}

/// The premises of `sessions_always` can be met: that run is stopped in the write of the gate, and a second session finds all its
/// records.
pub fn sessions_follow()
    ensures opens { CanOpen (closed_store []) }
    ensures follow { (written ended : State) × (end : DiskState)
        × AreSessions (fresh_disk (closed_store [])) (two_sessions written ended) end }
{}

/// Each of the four calls of a commit can fail: the write behind the gate, which leaves any bytes there, no more than it was to write;
/// the first sync; the write of the gate, which leaves any byte there; and the second sync.
pub fn calls_fail()
    ensures start { IsStart example_start [] }
    ensures fails { (written ended : State) × EachCallFails written ended }
{}

/// Two guests at once: their records are sent in turn, one body holds those of both, and of each guest a byte leaves.
pub fn two_guests()
    ensures start { IsStart pair_start [] }
    ensures leave { (written : State) × IsSchedule pair_start (pair_events written)
        × BothLeave (run pair_start (pair_events written)) }
{}

/// The Mark can be committed: one session is stopped within its commit; the next one commits it, and then the opening of a guest of
/// version 2; the last one finds both.
pub fn mark_is_committed()
    ensures { (end : DiskState) × AreSessions (fresh_disk (closed_store [])) mark_sessions end }
{}

/// A session can begin with a repair: one committed two records, put its byte out, and was stopped in the write of the next gate, which
/// is torn; the next one was stopped within its opening. Then `open` closes that gate and cuts off what stands behind it, and the two
/// records are found.
pub fn repair_follows()
    ensures { (written ended : State) × IsRepaired written ended }
{}
