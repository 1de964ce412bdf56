//! Records, verified.

ghost use Rattle.std.specs.Prelude.{◌≡◌, ◌<◌, ◌≤◌, ◌^◌, ◌*◌, List, true, IfErr, IfOk, OnOk, Some, length, slice_get};
ghost use Rattle.rrv_model.specs.declared.record.Record.{Record};
ghost use Rattle.guest_calls.specs.Guest.{state_of};
ghost use Rattle.faults.specs.declared.replay.VerifyFault.TheVariants as faults;
ghost use Rattle.replayer.specs.Asked.{AsksSource, TellsSource};
ghost use Rattle.replayer.specs.Sourced.{Followed, FollowsAll, FollowsGiven, IsEndOf, RefusesGiven, RefusesSource};
ghost use Rattle.replayer.specs.Refusals.{RefusesVerify, TakesMemory};
ghost use Rattle.replayer.specs.Verified.{Keeps};

use crate::asking::given;
use crate::fault::VerifyFault;
use crate::recording::Track;
use crate::source::Source;
use crate::verified::Verified;
use crate::verified_end::VerifiedEnd;
use crate::walk::{Walk, follow_record, open_first, opening_of};
use rrv_model::record::Record;
use rrv_model::sequence::Sequence;
use std::alloc::Global;

/// Who is told how far a verification is.
pub trait Watch {
    /// So many records are verified, whose frames have so many instructions.
    fn verified(&mut self, records: usize, instructions: u64);
}

/// Nobody is told.
#[derive(Clone, Copy, Debug, Drop)]
struct Unwatched;

impl Watch for Unwatched {
    fn verified(&mut self, _records: usize, _instructions: u64) {}
}

/// Verifies a guest's records: replays each against what the guest's state makes of it, and tests each complete
/// checkpoint against the state there. `BadOpening` is a list that begins with no opening from which a guest starts.
/// `Mismatch` names the first record that doesn't follow from those before it, and `BadCheckpoint` says so of one that
/// ends a checkpoint. `Memory` is a growth that was refused, which comes only for an opening that takes memory.
/// Tests call it; the program verifies in spans.
pub fn verify(alloc: Global, records: &[Record]) -> Result<Verified, VerifyFault>
    ensures keeps { IfOk result (λ verified. Keeps verified records.now) }
    ensures refused { IfErr result (λ e. RefusesVerify e records.now) }
{
    let Some(first) = records.first() else {
        return Err(VerifyFault::BadOpening);
    };
    let mut walk = open_first(alloc, first, true)?;
    for index in 1..records.len() {
        follow_record(alloc, &mut walk, first.guest, index, &records[index])?;
    }
    kept_of(first, walk, records.len())
}

/// What a walk has kept of so many records, of which this is the first.
fn kept_of(first: &Record, walk: Walk, len: usize) -> Result<Verified, VerifyFault>
    requires takes { TakesMemory first.now }
    requires keeps { walk.keeps ≡ true }
    requires followed { (records : List Record) × Followed first.now records walk × (length records ≡ len) }
    ensures keeps { IfOk result (λ verified. (records : List Record) → Followed first.now records walk
        → length records ≡ len → Keeps verified records) }
    ensures memory { IfErr result (λ e. e ≡ faults.Memory) }
{
    let opening = opening_of(first)?;
    let Walk {
        pair: _,
        parts: _,
        keeps: _,
        frames,
        marks,
        total,
        last: _,
    } = walk;
    let track = Track {
        opening,
        frames: Sequence::from_vec(frames),
        marks: Sequence::from_vec(marks),
        steps: total,
    };
    Ok(Verified { track, len })
}

/// Verifies the records that a source gives, one at a time. The refusals are those of the list, and `Unreadable` names the
/// record that the source withheld: with every record given it answers what [`verify`] does, or `Memory`. What is kept
/// are the opening, the frames and the checkpoints.
pub fn verify_source<S: Source>(alloc: Global, source: &mut S) -> Result<Verified, VerifyFault>
    ensures keeps { S.honest source.old → IfOk result (λ verified. Keeps verified (S.records source.old)) }
    ensures refused { S.honest source.old → IfErr result (λ e. RefusesSource e (S.records source.old)) }
    ensures told { TellsSource S.Source result source.old source.new }
    ensures len { IfOk result (λ verified. verified.len ≡ length (S.records source.old)) }
{
    verify_source_watched(alloc, source, &mut Unwatched)
}

/// The same, and tells after each record how far it is.
pub fn verify_source_watched<S: Source, W: Watch>(
    alloc: Global,
    source: &mut S,
    watch: &mut W,
) -> Result<Verified, VerifyFault>
    ensures keeps { S.honest source.old → IfOk result (λ verified. Keeps verified (S.records source.old)) }
    ensures refused { S.honest source.old → IfErr result (λ e. RefusesSource e (S.records source.old)) }
    ensures told { TellsSource S.Source result source.old source.new }
    ensures len { IfOk result (λ verified. verified.len ≡ length (S.records source.old)) }
{
    let len = source.len();
    if len == 0 {
        return Err(VerifyFault::BadOpening);
    }
    let first = given(alloc, source, 0)?;
    let walk = follow_source(alloc, source, &first, true, watch)?;
    kept_of(&first, walk, len)
}

/// Verifies the records that a source gives as [`verify_source`] does, and keeps nothing of them but where they end. It
/// holds the opening, one record more and the parts of one checkpoint at a time, twice, and tells after each record how far it
/// is.
pub fn verify_source_end<S: Source, W: Watch>(
    alloc: Global,
    source: &mut S,
    watch: &mut W,
) -> Result<VerifiedEnd, VerifyFault>
    ensures ends { S.honest source.old → IfOk result (λ end. IsEndOf end (S.records source.old)) }
    ensures refused { S.honest source.old → IfErr result (λ e. RefusesSource e (S.records source.old)) }
    ensures told { TellsSource S.Source result source.old source.new }
    ensures len { IfOk result (λ end. end.len ≡ length (S.records source.old)) }
{
    let len = source.len();
    if len == 0 {
        return Err(VerifyFault::BadOpening);
    }
    let first = given(alloc, source, 0)?;
    let Walk {
        pair,
        total,
        last,
        ..
    } = follow_source(alloc, source, &first, false, watch)?;
    Ok(VerifiedEnd {
        guest: pair.into_guest(),
        total,
        len,
        last,
    })
}

// Follows the records of a source of which this is the first, to the end.
fn follow_source<S: Source, W: Watch>(
    alloc: Global,
    source: &mut S,
    first: &Record,
    keeps: bool,
    watch: &mut W,
) -> Result<Walk, VerifyFault>
    requires { 1 ≤ length (S.records source.old) }
    ensures follows { IfOk result (FollowsAll S.honest S.records source.old first.now) }
    ensures keeps { IfOk result (λ walk. walk.keeps ≡ keeps) }
    ensures takes { OnOk result (TakesMemory first.now) }
    ensures refused { S.honest source.old → slice_get (S.records source.old) 0 ≡ Some first.now
        → IfErr result (λ e. RefusesSource e (S.records source.old)) }
    ensures records { S.records source.new ≡ S.records source.old }
    ensures told { TellsSource S.Source result source.old source.new }
{
    let len = source.len();
    let mut walk = open_first(alloc, first, keeps)?;
    for index in 1..len {
        follow_given(alloc, source, &mut walk, first.guest, index)?;
        watch.verified(index + 1, walk.total);
    }
    Ok(walk)
}

// Follows the record at this place of a source, which should be this guest's.
fn follow_given<S: Source>(
    alloc: Global,
    source: &mut S,
    walk: &mut Walk,
    number: u32,
    index: usize,
) -> Result<(), VerifyFault>
    requires index { index < length (S.records source.old) }
    requires total { walk.old.total ≤ index * 2 ^ 20 }
    ensures follows { OnOk result
        (FollowsGiven S.honest S.records source.old number index walk.old walk.new) }
    ensures refused { S.honest source.old → IfErr result (λ e. RefusesGiven e number index (S.records source.old)
        (state_of walk.old.pair.base) walk.old.parts.items (state_of walk.old.pair.guest)) }
    ensures asks { AsksSource S.Source result source.old source.new }
{
    let entry = given(alloc, source, index)?;
    follow_record(alloc, walk, number, index, &entry)
}
