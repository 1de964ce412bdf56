//! Records that a guest follows, in a row or in spans side by side.

ghost use Rattle.std.specs.Prelude.{◌≡◌, ◌≤◌, IfOk, IsErrOf, length};
ghost use Rattle.std.specs.Thread.{IsSync};
ghost use Rattle.replayer.specs.Claims.{claimed_by};
ghost use Rattle.replayer.specs.Following.{standing_of};
ghost use Rattle.replayer.specs.Standings.{Fits, Standing};
ghost use Rattle.spans.specs.Spans.{EndsCheckpoint, FollowsAlong, LeadAlong};

use crate::cutting::cut_of;
use replayer::{Claim, ClaimFault, Following, VerifyFault};
use rrv_model::record::Record;
use std::alloc::Global;
use std::thread::{Threads, join};

/// Follows records one after another.
fn follow_in_turn(
    alloc: Global,
    following: Following,
    records: &[Record],
) -> Result<Following, VerifyFault>
    ensures { FollowsAlong result records.now (standing_of following) }
{
    let mut following = following;
    for entry in records {
        following.follow(alloc, entry)?;
    }
    Ok(following)
}

/// A guest behind records that end a checkpoint, in the state that the checkpoints among them claim.
fn claimed(alloc: Global, claim: Claim, records: &[Record]) -> Result<Following, ClaimFault>
    requires { EndsCheckpoint records.now }
    ensures claims { IfOk result (λ following. (x y : Standing)
        → Fits (claimed_by claim) x → LeadAlong records.now x y → standing_of following ≡ y) }
    ensures nowhere { IsErrOf result ClaimFault.LeadsNowhere
        → (x y : Standing) → Fits (claimed_by claim) x → LeadAlong records.now x y → ⊥ }
{
    let mut claim = claim;
    for entry in records {
        claim.pass(alloc, entry)?;
    }
    let following = claim.begin(alloc)?;
    Ok(following)
}

/// Follows records from the state that the checkpoints among those before them claim.
#[cycle(spans)]
fn follow_claimed<R: Threads + Sync>(
    rt: &R,
    alloc: Global,
    claim: Claim,
    before: &[Record],
    records: &[Record],
    workers: usize,
) -> Result<Following, VerifyFault>
    requires checkpoint { EndsCheckpoint before.now }
    requires some { 1 ≤ length records.now }
    ensures { (x y : Standing)
        → Fits (claimed_by claim) x → LeadAlong before.now x y → FollowsAlong result records.now y }
{
    match claimed(alloc, claim, before) {
        Ok(following) => follow_in_spans(rt, alloc, following, records, workers),
        Err(ClaimFault::Memory) => Err(VerifyFault::Memory),
        // Never told: one of those before is refused then, and told instead.
        Err(ClaimFault::LeadsNowhere) => Err(VerifyFault::Mismatch { index: 0 }),
    }
}

/// Follows records in spans side by side, of which the first begins at the guest and each other in the state that the
/// checkpoint before it claims. So many workers at most take part, each in a thread of its own where one can be made, and each
/// with a guest of its own. The refusal is that of the first record that doesn't lead on, or `Memory` if a growth is refused.
#[cycle(spans)]
pub fn follow_in_spans<R: Threads + Sync>(
    rt: &R,
    alloc: Global,
    following: Following,
    records: &[Record],
    workers: usize,
) -> Result<Following, VerifyFault>
    ensures { FollowsAlong result records.now (standing_of following) }
{
    if workers < 2 {
        return follow_in_turn(alloc, following, records);
    }
    let Some(cut) = cut_of(records, workers) else {
        return follow_in_turn(alloc, following, records);
    };
    let (front, back) = records.split_at(cut);
    let claim = Claim::of(alloc, &following)?;
    let half = workers / 2;
    let rest = workers - half;
    let first = move || -> Result<Following, VerifyFault>
        requires { IsSync R.row }
        ensures { FollowsAlong result front.entry.now (standing_of following) }
    { follow_in_spans(rt, alloc, following, front, half) };
    let second = move || -> Result<Following, VerifyFault>
        requires { IsSync R.row × EndsCheckpoint front.now × (1 ≤ length back.now) }
        ensures { (x y : Standing)
            → Fits (claimed_by claim) x → LeadAlong front.entry.now x y → FollowsAlong result back.entry.now y }
    { follow_claimed(rt, alloc, claim, front, back, rest) };
    let (done, result) = join(rt, first, second);
    done?;
    result
}
