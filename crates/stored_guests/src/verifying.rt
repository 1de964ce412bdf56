//! The verification of a guest's records.

ghost use Rattle.std.specs.Prelude.{◌≡◌, IfErr, IfOk, List};
ghost use Rattle.std.specs.Thread.{IsSync};
ghost use Rattle.rrv_model.specs.declared.record.Record.{Record};
ghost use Rattle.rrv_model.specs.Recovered.{of_guest};
ghost use Rattle.recover.specs.Spots.{records_of, StandOn};
ghost use Rattle.replayer.specs.Sourced.{IsEndOf, NamesWithheld, RefusesSource};
ghost use Rattle.replayer.specs.Asked.{AsksSource};
ghost use Rattle.replayer.specs.Verified.{Keeps};
ghost use Rattle.stored_guests.specs.Guests.{RefusesGuest};
ghost use Rattle.line_io.specs.Told.{verify_told};

use crate::stored::StoredGuest;
use crate::verify_progress::VerifyProgress;
use command_line::GuestOf;
use line_io::{Refusal, Store, guest_in, open_store};
use progress::Count;
use replayer::{Source, Verified, VerifiedEnd, VerifyFault, Watch};
use spans::{verify_source, verify_source_end};
use std::alloc::Global;
use std::fs::File;
use std::io::Write;
use std::rt::Files;
use std::sync::atomic::AtomicBool;
use std::thread;
use std::thread::Threads;
use std::time::Clock;
use trace_disk::Disk;

/// So many workers verify a recording at most: each has a guest, and the state of a checkpoint.
const MOST_WORKERS: usize = 16;

/// As many workers as the host runs at once, or one where it doesn't say.
pub fn workers<R: Threads>(rt: &R) -> usize {
    match thread::available_parallelism(rt) {
        Ok(count) => count.get().min(MOST_WORKERS),
        Err(_) => 1,
    }
}

/// What is kept of records as they are verified: their recording, or where it ends.
pub(crate) trait Kept: Sized + Drop {
    /// That it is of just these records.
    ghost is_of: { Self → List Record → Type 0 };

    /// Verifies the records that a source gives, in spans side by side, by so many workers at most, and tells how far it is.
    fn verify<S: Source, W: Watch, R: Threads + Sync>(
        rt: &R,
        alloc: Global,
        workers: usize,
        source: &mut S,
        watch: &mut W,
    ) -> Result<Self, VerifyFault>
        requires { IsSync R.row }
        ensures is_of { S.honest source.old → IfOk result (λ kept. is_of kept (S.records source.old)) }
        ensures refused { S.honest source.old → IfErr result (λ fault. RefusesSource fault (S.records source.old)) }
        ensures asks { AsksSource S.Source result source.old source.new };
}

impl Kept for Verified {
    ghost is_of = { Keeps };

    fn verify<S: Source, W: Watch, R: Threads + Sync>(
        rt: &R,
        alloc: Global,
        workers: usize,
        source: &mut S,
        watch: &mut W,
    ) -> Result<Verified, VerifyFault> {
        verify_source(rt, alloc, workers, source, watch)
    }
}

impl Kept for VerifiedEnd {
    ghost is_of = { IsEndOf };

    fn verify<S: Source, W: Watch, R: Threads + Sync>(
        rt: &R,
        alloc: Global,
        workers: usize,
        source: &mut S,
        watch: &mut W,
    ) -> Result<VerifiedEnd, VerifyFault> {
        verify_source_end(rt, alloc, workers, source, watch)
    }
}

/// Verifies the records that a source gives by as many workers as there are, and by one if there is no memory for more.
fn verify_in_memory<K: Kept, R: Threads + Sync, S: Source, W: Watch>(
    rt: &R,
    alloc: Global,
    source: &mut S,
    watch: &mut W,
) -> Result<K, VerifyFault>
    requires { IsSync R.row }
    ensures is_of { S.honest source.old → IfOk result (λ kept. K.is_of kept (S.records source.old)) }
    ensures refused { S.honest source.old → IfErr result (λ fault. RefusesSource fault (S.records source.old)) }
    ensures names { IfErr result (NamesWithheld S.withheld_at source.new) }
{
    let workers = workers(rt);
    match K::verify(rt, alloc, workers, source, watch) {
        Err(VerifyFault::Memory) if 1 < workers => K::verify(rt, alloc, 1, source, watch),
        result => result,
    }
}

/// What is kept of a source's records, verified. How far it is, of `all`, goes to `err`, where `is_shown` says so.
pub fn verified<K: Kept, R: Threads + Sync + Clock, S: Source, E: Write + Drop>(
    rt: &R,
    alloc: Global,
    source: &mut S,
    all: Count,
    is_shown: bool,
    err: &mut E,
) -> Result<K, Refusal>
    ensures is_of { S.honest source.old → IfOk result (λ kept. K.is_of kept (S.records source.old)) }
    ensures refused { S.honest source.old → IfErr result (λ e.
        (fault : VerifyFault) × (e ≡ verify_told fault) × RefusesSource fault (S.records source.old)) }
    ensures names { IfErr result (λ e.
        (fault : VerifyFault) × (e ≡ verify_told fault) × NamesWithheld S.withheld_at source.new fault) }
{
    let line = AtomicBool::new(false);
    let mut progress = VerifyProgress::new(rt, err, &line, all, is_shown);
    let result = verify_in_memory::<K, R, S, _>(rt, alloc, source, &mut progress);
    progress.end();
    Ok(result?)
}

/// What is kept of the recording of the guest of this number of a store, whose records are read one at a time.
pub fn verified_in<K: Kept, R: Threads + Sync + Clock, D: Disk + Drop, E: Write + Drop>(
    rt: &R,
    alloc: Global,
    store: Store<D>,
    number: u64,
    is_shown: bool,
    err: &mut E,
) -> Result<K, Refusal>
    ensures is_of { StandOn D.honest D.state store.disk store.lists
        → IfOk result (λ kept. K.is_of kept (of_guest number (records_of store.lists))) }
    ensures refused { StandOn D.honest D.state store.disk store.lists
        → IfErr result (λ e. RefusesGuest e (of_guest number (records_of store.lists))) }
{
    let guest = guest_in(&store.lists, number)?;
    let mut source = StoredGuest::new(store, guest);
    let all = source.extent();
    verified(rt, alloc, &mut source, all, is_shown, err)
}

/// The same of a store in a file, which is closed again.
pub fn verified_of<
    K: Kept,
    R: Files<File = File> + AllocGlobal + Threads + Sync + Clock,
    E: Write + Drop,
>(rt: &R, guest: GuestOf<'_>, is_shown: bool, err: &mut E) -> Result<K, Refusal> {
    let store = open_store(rt, guest.store)?;
    verified_in(rt, rt.alloc(), store, guest.number, is_shown, err)
}
