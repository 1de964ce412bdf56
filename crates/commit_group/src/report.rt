//! How a group ends.

ghost use Rattle.std.specs.Prelude.{◌≡◌, ◌≢◌, ℕ, ◌+◌, ◌++◌, ◌<◌, ◌≤◌, length, slice_index, slice_get, Some, List};
ghost use Rattle.std.specs.List.{AllByRecursion};
ghost use Rattle.crossbeam_queue.specs.Passes.{view};
ghost use Rattle.commit_group.specs.Numbers.{base, IsPlaced};
ghost use Rattle.commit_group.specs.Queue.{received_of};
ghost use Rattle.commit_group.specs.Reports.{HasEnded, IsTakenIn};
ghost use Rattle.commit_group.specs.Seats.{RecorderValue, AllOf, id_of};
ghost use Rattle.commit_group.specs.Started.{AreFlushers, KnowSame};
ghost use Rattle.commit_group.specs.Words.{flusher_of};

use crate::flusher_seat::FlusherSeat;
use crate::group::Group;
use crate::queue::QueuePass;
use crate::recorder_seat::RecorderSeat;
use crate::words::WordSeat;

/// How many records each guest sent, how many of these are committed, and how many of these it saw durable; by its place, and
/// 0 past the last guest.
#[derive(Clone, Copy, Debug, PartialEq, Eq)]
pub struct Report {
    pub sent: [u32; 16],
    pub committed: [u32; 16],
    pub seen: [u32; 16],
}

/// Takes in all seats, and tells how much each sent and how much it saw.
fn join_all(
    group: &Group,
    pass: &mut QueuePass,
    seat: &mut WordSeat,
    mut recorders: Vec<RecorderSeat>,
) -> ([u32; 16], [u32; 16])
    requires flusher { AreFlushers group.now pass.old seat.old }
    requires count { length recorders.items ≡ group.now.guests }
    requires of_group { AllOf (id_of group.now) recorders.items }
    ensures joined { (k : ℕ) (r : RecorderValue) → slice_get recorders.items k ≡ Some r
        → IsTakenIn (received_of (view pass.old)) (flusher_of seat.old.me.0)
        (slice_index result.0 k) (slice_index result.1 k) r }
    ensures zeros { (k : ℕ) → length recorders.items ≤ k → (slice_index result.0 k ≡ 0) × (slice_index result.1 k ≡ 0) }
{
    let mut sent = [0; 16];
    let mut seen = [0; 16];
    while let Some(recorder) = recorders.pop() {
        let guest = recorders.len();
        let counts = recorder.join(group, pass, seat);
        sent[guest] = counts.0;
        seen[guest] = counts.1;
    }
    (sent, seen)
}

/// Ends a group: what its seats held. The recorders' seats are all of this group, as `Group::make` gave them.
pub fn end(recorders: Vec<RecorderSeat>, flusher: FlusherSeat) -> Report
    requires count { length recorders.items ≡ flusher.group.guests }
    requires of_group { AllOf flusher.group recorders.items }
    ensures each { (k : ℕ) (r : RecorderValue) → slice_get recorders.items k ≡ Some r
        → HasEnded flusher (slice_index result.sent k) (slice_index result.committed k) (slice_index result.seen k) r }
    ensures placed { AllByRecursion (IsPlaced (base flusher.first_guest) flusher.group.guests)
        (flusher.committed ++ flusher.waiting) }
    ensures zeros { (k : ℕ) → flusher.group.guests ≤ k → (slice_index result.sent k ≡ 0)
        × (slice_index result.committed k ≡ 0) × (slice_index result.seen k ≡ 0) }
{
    let FlusherSeat {
        group,
        mut pass,
        mut seat,
        waiting: _,
        counts,
        first_guest: _,
        halted: _,
    } = flusher;
    let (sent, seen) = join_all(&group, &mut pass, &mut seat, recorders);
    Report {
        sent,
        committed: counts,
        seen,
    }
}
