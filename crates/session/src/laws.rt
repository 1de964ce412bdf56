//! Laws of what a session leaves. Nothing runs here: each is the contract of a function that does nothing.

ghost use Rattle.std.specs.Prelude.{◌≡◌, ℕ, List};
ghost use Rattle.rrv_model.specs.declared.machine.Version.TheVariants.{One};
ghost use Rattle.rrv_model.specs.declared.record.Frame.{Frame};
ghost use Rattle.rrv_model.specs.declared.record.Record.{Record};
ghost use Rattle.rrv_model.specs.State.{IsState, State};
ghost use Rattle.serial_sched.specs.Chosen.{AreChosen, AreMade};
ghost use Rattle.store_model.specs.CrashModel.{LeavesOnly};
ghost use Rattle.commit_core.specs.Sessions.{CanOpen};
ghost use Rattle.trace_log.specs.Kept.{LogValue};
ghost use Rattle.session.specs.Gains.{HasGained};
ghost use Rattle.session.specs.Starts.{StartsAreWorlds};

use serial_sched::Chooser;
use trace_disk::Disk;

/// A session starts as the lists of events of `commit_core` do: a log that keeps bodies, a new group's seats, and the new recorders, which
/// made an Opening each, stand for a world at its start. The first guest has the log's next number, which is one above the greatest that has
/// records, as `open` leaves it. If there is no memory for a recorder, its seat alone stands.
pub fn starts_are_worlds<D: Disk>()
    ensures { StartsAreWorlds D.Disk }
{}

/// Whatever a session came to, the next one can open what it left: a crash at any moment since it began leaves a store whose bodies
/// hold records in order, also with the body that stands whole behind a torn gate. That is where a session of
/// `commit_core::sessions_always` begins.
pub fn sessions_can_follow<D: Disk>()
    ensures { (committed batch : List Record) (log log' : LogValue D) (bodies : List (List ℕ)) (earlier : List Record)
        → HasGained D.Disk committed batch log log' bodies earlier
        → LeavesOnly (D.state log.disk) (D.state log'.disk) CanOpen }
{}

/// The frames that a worker makes of a guest of version 1 are those that its chooser chose, each of them: no wait of such a guest has a
/// timeout, so no choice is lost by the end of one.
pub fn old_guests_lose_no_choice<C: Chooser>()
    ensures { (s : State) (old : C) (frames : List Frame) (last : State) (new : C)
        → IsState s → s.version ≡ One → AreMade C.chooses s old frames last new
        → AreChosen C.chooses s old frames last new }
{}
