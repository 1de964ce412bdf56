//! Records of a source, verified in spans.

ghost use Rattle.std.specs.Prelude.{◌≡◌, ◌≤◌, ◌∷◌, [], IfErr, IfOk, Some, length, slice_get};
ghost use Rattle.replayer.specs.Asked.{AsksSource};
ghost use Rattle.replayer.specs.Following.{IsBehind};
ghost use Rattle.replayer.specs.Sourced.{IsEndOf, RefusesSource};
ghost use Rattle.replayer.specs.Verified.{Keeps};
ghost use Rattle.spans.specs.Reading.{FollowsAll};

use crate::following::follow_in_spans;
use crate::keeping::{Keep, Nothing};
use crate::reading::read_batch;
use guest_calls::Guest;
use replayer::{Following, Keeper, Source, Verified, VerifiedEnd, VerifyFault, Watch, given};
use rrv_model::record::{Item, Record};
use std::alloc::Global;
use std::thread::Threads;

/// How many pages the guests of all workers have at most: each worker has one that runs and one that stays, so 1 GiB is held.
const MOST_PAGES: u32 = 131_072;

/// Verifies the records that a source gives as [`replayer::verify_source`] does, in spans side by side, by so many workers at
/// most, each in a thread of its own where one can be made. The refusals are those of the list, and `Unreadable` names the
/// record that the source withheld. It holds what is kept, and for each worker a guest, the state of its last checkpoint, the
/// pages that it wrote to since, as they were then, and a share of the records that are read at a time. When these are
/// verified, it tells of each how far it is.
pub fn verify_source<S: Source, W: Watch, R: Threads + Sync>(
    rt: &R,
    alloc: Global,
    workers: usize,
    source: &mut S,
    watch: &mut W,
) -> Result<Verified, VerifyFault>
    ensures keeps { S.honest source.old → IfOk result (λ verified. Keeps verified (S.records source.old)) }
    ensures refused { S.honest source.old → IfErr result (λ e. RefusesSource e (S.records source.old)) }
    ensures asks { AsksSource S.Source result source.old source.new }
    ensures len { IfOk result (λ verified. verified.len ≡ length (S.records source.old)) }
{
    if source.len() == 0 {
        return Err(VerifyFault::BadOpening);
    }
    let first = given(alloc, source, 0)?;
    let following = Following::begin(alloc, &first)?;
    let mut keeper = Keeper::begin(alloc, &first)?;
    follow_source(
        rt,
        alloc,
        workers,
        source,
        &first,
        following,
        &mut keeper,
        watch,
    )?;
    Ok(keeper.finish())
}

/// Verifies the records that a source gives as [`verify_source`] does, and keeps nothing of them but where they end.
pub fn verify_source_end<S: Source, W: Watch, R: Threads + Sync>(
    rt: &R,
    alloc: Global,
    workers: usize,
    source: &mut S,
    watch: &mut W,
) -> Result<VerifiedEnd, VerifyFault>
    ensures ends { S.honest source.old → IfOk result (λ end. IsEndOf end (S.records source.old)) }
    ensures refused { S.honest source.old → IfErr result (λ e. RefusesSource e (S.records source.old)) }
    ensures asks { AsksSource S.Source result source.old source.new }
    ensures len { IfOk result (λ end. end.len ≡ length (S.records source.old)) }
{
    if source.len() == 0 {
        return Err(VerifyFault::BadOpening);
    }
    let first = given(alloc, source, 0)?;
    let following = Following::begin(alloc, &first)?;
    let end = follow_source(
        rt,
        alloc,
        workers,
        source,
        &first,
        following,
        &mut Nothing,
        watch,
    )?;
    Ok(end.into_end())
}

// Tells of each of some records that it is verified: they stand behind so many, which count so many instructions.
fn tell<W: Watch>(watch: &mut W, records: &[Record], from: usize, before: u64) {
    let mut total = before;
    for (index, entry) in records.iter().enumerate() {
        if let Item::Frame(frame) = &entry.item {
            total = total.saturating_add(u64::from(frame.count));
        }
        watch.verified(from.saturating_add(index).saturating_add(1), total);
    }
}

// So many workers at most, but no more than have the most pages together, or one.
fn workers_for(workers: usize, guest: &Guest) -> usize {
    let pages = guest.page_count().max(1);
    workers.min((MOST_PAGES / pages).max(1) as usize)
}

// Follows the records of a source of which this is the first, from behind it to the end.
fn follow_source<S: Source, K: Keep, W: Watch, R: Threads + Sync>(
    rt: &R,
    alloc: Global,
    workers: usize,
    source: &mut S,
    first: &Record,
    following: Following,
    kept: &mut K,
    watch: &mut W,
) -> Result<Following, VerifyFault>
    requires behind { IsBehind following (first.now ∷ []) }
    requires kept { K.is_of kept.old (first.now ∷ []) }
    requires some { 1 ≤ length (S.records source.old) }
    ensures follows { IfOk result (λ end. FollowsAll S.Source K.is_of source.old first.now end kept.new) }
    ensures refused { S.honest source.old → slice_get (S.records source.old) 0 ≡ Some first.now
        → IfErr result (λ e. RefusesSource e (S.records source.old)) }
    ensures asks { AsksSource S.Source result source.old source.new }
{
    let len = source.len();
    let mut following = following;
    let mut next = 1;
    while next < len {
        let batch = read_batch(alloc, source, next)?;
        let records = batch.as_slice();
        let before = following.total();
        let at_once = workers_for(workers, following.guest());
        following = follow_in_spans(rt, alloc, following, records, at_once)?;
        tell(watch, records, next, before);
        next += records.len();
        kept.keep_all(alloc, records)?;
    }
    Ok(following)
}
