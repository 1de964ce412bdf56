//! A replay, record by record.

ghost use Rattle.std.specs.Prelude.{◌≡◌, ◌≤◌, ◌^◌, ◌*◌, ◌+◌, ◌++◌, ◌∷◌, [], true, IfErr, IfOk, IsErrOf, OnErr, OnOk, length};
ghost use Rattle.rrv_model.specs.declared.record.Item.TheVariants as items;
ghost use Rattle.rrv_model.specs.declared.record.Record.{Record};
ghost use Rattle.rrv_model.specs.Checkpoint.{Describes};
ghost use Rattle.rrv_model.specs.Opening.{Opens};
ghost use Rattle.rrv_model.specs.Recording.{EndsIn};
ghost use Rattle.rrv_model.specs.Standing.{Leads};
ghost use Rattle.guest_calls.specs.Guest.{state_of};
ghost use Rattle.serial_sched.specs.LastThread.{thread_after};
ghost use Rattle.replayer.specs.Kept.{KeepsOn, RowIs, instructions_in};
ghost use Rattle.replayer.specs.Refusals.{CheckpointRefused, FrameRefused, PartRefused, RefusesFirst, RefusesNext, TakesMemory};
ghost use Rattle.replayer.specs.LastThread.{thread_behind};
ghost use Rattle.replayer.specs.Walks.{LeadsOn, Stands};

use crate::fault::{VerifyFault, of_opening};
use crate::pair::Pair;
use crate::recording::Mark;
use guest_calls::Guest;
use rrv_model::record::{Frame, Item, Opening, Part, Record};
use rrv_model::sequence::Sequence;
use serial_sched::FollowFault;
use std::alloc::Global;
use std::mem::replace;

/// What stands behind some records: a guest in the state there, with one in the state of the last complete checkpoint, the
/// parts since that checkpoint or the last frame, and what is kept.
#[derive(Drop)]
pub(crate) struct Walk {
    pub(crate) pair: Pair,
    pub(crate) parts: Vec<Part>,
    /// Whether frames and complete checkpoints are kept, from which each place can be gone to.
    pub(crate) keeps: bool,
    pub(crate) frames: Vec<Frame>,
    pub(crate) marks: Vec<Mark>,
    pub(crate) total: u64,
    /// The tid of the last frame that has a thread, or 0 before there is one.
    pub(crate) last: u32,
}

/// A guest that starts from an opening.
fn started(alloc: Global, opening: &Opening) -> Result<Guest, VerifyFault>
    ensures opens { IfOk result (λ guest. Opens opening.now (state_of guest)) }
    ensures refused { IfErr result (λ e. (r : Record) → r.index ≡ 0 → r.item ≡ items.Opening opening.now
        → RefusesFirst e r) }
{
    match Guest::start(alloc, opening) {
        Ok(guest) => Ok(guest),
        Err(fault) => Err(of_opening(fault)),
    }
}

/// The walk behind a first record, which is an opening of index 0.
pub(crate) fn open_first(alloc: Global, first: &Record, keeps: bool) -> Result<Walk, VerifyFault>
    ensures stands { IfOk result (λ w.
        Stands first.now.guest (first.now ∷ []) (state_of w.pair.base) w.parts.items (state_of w.pair.guest)) }
    ensures row { IfOk result (λ w. w.parts.items ≡ []) }
    ensures frames { IfOk result (λ w. w.frames.items ≡ []) }
    ensures marks { IfOk result (λ w. w.marks.items ≡ []) }
    ensures total { IfOk result (λ w. w.total ≡ 0) }
    ensures last { IfOk result (λ w. w.last ≡ 0) }
    ensures keeps { IfOk result (λ w. w.keeps ≡ keeps) }
    ensures ends { IfOk result (λ w. EndsIn (first.now.item ∷ []) (state_of w.pair.guest)) }
    ensures opened { OnOk result (TakesMemory first.now) }
    ensures refused { IfErr result (λ e. RefusesFirst e first.now) }
{
    if first.index != 0 {
        return Err(VerifyFault::BadOpening);
    }
    let Item::Opening(opening) = &first.item else {
        return Err(VerifyFault::BadOpening);
    };
    let guest = started(alloc, opening)?;
    let base = started(alloc, opening)?;
    Ok(Walk {
        pair: Pair::of(guest, base),
        parts: Vec::new(alloc),
        keeps,
        frames: Vec::new(alloc),
        marks: Vec::new(alloc),
        total: 0,
        last: 0,
    })
}

/// A copy of the opening that a first record is.
pub(crate) fn opening_of(first: &Record) -> Result<Opening, VerifyFault>
    requires { TakesMemory first.now }
    ensures copy { IfOk result (λ o. first.now.item ≡ items.Opening o) }
    ensures memory { IfErr result (λ e. e ≡ VerifyFault.Memory) }
{
    match &first.item {
        Item::Opening(opening) => Ok(opening.clone()?),
        _ => unreachable!(),
    }
}

pub(crate) fn copied_frame(frame: &Frame) -> Result<Frame, VerifyFault>
    ensures copy { IfOk result (λ copy. copy ≡ frame.now) }
    ensures memory { IfErr result (λ e. e ≡ VerifyFault.Memory) }
{
    Ok(frame.clone()?)
}

/// The tid of the last thread that ran behind a frame, which is the one before where the frame has none.
pub(crate) fn last_behind(frame: &Frame, before: u32) -> u32
    ensures { result ≡ thread_after frame.now before }
{
    if frame.end.runs_thread() {
        frame.tid
    } else {
        before
    }
}

fn follow_frame(
    alloc: Global,
    walk: &mut Walk,
    index: usize,
    frame: &Frame,
) -> Result<(), VerifyFault>
    requires { walk.old.total ≤ 2 ^ 60 }
    ensures keeps { walk.old.keeps ≡ true → OnOk result (KeepsOn (items.Frame frame.now)
        walk.old.parts.items walk.old.frames.items walk.old.marks.items walk.old.total
        walk.new.frames.items walk.new.marks.items walk.new.total) }
    ensures goes_on { walk.new.keeps ≡ walk.old.keeps }
    ensures counted { OnOk result (walk.new.total ≡ walk.old.total + frame.now.count) }
    ensures last { OnOk result (walk.new.last ≡ thread_after frame.now walk.old.last) }
    ensures grown { OnOk result (walk.new.total ≤ walk.old.total + 2 ^ 20) }
    ensures stays { OnErr result (walk.new.total ≡ walk.old.total) }
    ensures leads { OnOk result (Leads (items.Frame frame.now)
        (state_of walk.old.pair.base) walk.old.parts.items (state_of walk.old.pair.guest)
        (state_of walk.new.pair.base) walk.new.parts.items (state_of walk.new.pair.guest)) }
    ensures refused { IfErr result (λ e. FrameRefused e index frame.now (state_of walk.old.pair.guest)) }
{
    match walk.pair.follow(alloc, frame) {
        Ok(()) => {}
        Err(FollowFault::GoesNowhere) => return Err(VerifyFault::Mismatch { index }),
        Err(FollowFault::Memory) => return Err(VerifyFault::Memory),
    }
    if walk.keeps {
        walk.frames.push(copied_frame(frame)?)?;
    }
    walk.total += u64::from(frame.count);
    walk.last = last_behind(frame, walk.last);
    walk.parts.clear();
    Ok(())
}

/// Tests the complete checkpoint that its parts are, and makes the base of it.
fn complete(alloc: Global, walk: &mut Walk, index: usize) -> Result<(), VerifyFault>
    ensures base { OnOk result
        (Describes (state_of walk.old.pair.base) walk.old.parts.items (state_of walk.old.pair.guest)) }
    ensures new_base { OnOk result (state_of walk.new.pair.base ≡ state_of walk.old.pair.guest) }
    ensures guest { OnOk result (state_of walk.new.pair.guest ≡ state_of walk.old.pair.guest) }
    ensures row { OnOk result (walk.new.parts.items ≡ []) }
    ensures frames { walk.new.frames.items ≡ walk.old.frames.items }
    ensures total { walk.new.total ≡ walk.old.total }
    ensures last { walk.new.last ≡ walk.old.last }
    ensures goes_on { walk.new.keeps ≡ walk.old.keeps }
    ensures marks { walk.old.keeps ≡ true → OnOk result (walk.new.marks.items ≡ walk.old.marks.items ++ (record {
      frames = length walk.old.frames.items;
      at = walk.old.total;
      parts = walk.old.parts.items;
    }) ∷ []) }
    ensures refused { IfErr result (λ e.
        CheckpointRefused e index (state_of walk.old.pair.base) walk.old.parts.items (state_of walk.old.pair.guest)) }
{
    walk.pair.pass(alloc, walk.parts.as_slice(), index)?;
    let parts = replace(&mut walk.parts, Vec::new(alloc));
    if walk.keeps {
        walk.marks.push(Mark {
            frames: walk.frames.len(),
            at: walk.total,
            parts: Sequence::from_vec(parts),
        })?;
    }
    Ok(())
}

pub(crate) fn copied_part(part: &Part) -> Result<Part, VerifyFault>
    ensures copy { IfOk result (λ copy. copy ≡ part.now) }
    ensures memory { IfErr result (λ e. e ≡ VerifyFault.Memory) }
{
    Ok(part.clone()?)
}

fn follow_part(alloc: Global, walk: &mut Walk, index: usize, part: &Part) -> Result<(), VerifyFault>
    ensures keeps { walk.old.keeps ≡ true → OnOk result (KeepsOn (items.Part part.now)
        walk.old.parts.items walk.old.frames.items walk.old.marks.items walk.old.total
        walk.new.frames.items walk.new.marks.items walk.new.total) }
    ensures goes_on { walk.new.keeps ≡ walk.old.keeps }
    ensures counted { walk.new.total ≡ walk.old.total }
    ensures last { walk.new.last ≡ walk.old.last }
    ensures leads { OnOk result (Leads (items.Part part.now)
        (state_of walk.old.pair.base) walk.old.parts.items (state_of walk.old.pair.guest)
        (state_of walk.new.pair.base) walk.new.parts.items (state_of walk.new.pair.guest)) }
    ensures refused { IfErr result (λ e.
        PartRefused e index part.now (state_of walk.old.pair.base) walk.old.parts.items (state_of walk.old.pair.guest)) }
{
    let copy = copied_part(part)?;
    walk.parts.push(copy)?;
    if part.rest.is_some() {
        complete(alloc, walk, index)?;
    }
    Ok(())
}

/// Follows a record that should be this guest's of this index, behind its opening.
pub(crate) fn follow_record(
    alloc: Global,
    walk: &mut Walk,
    number: u32,
    index: usize,
    entry: &Record,
) -> Result<(), VerifyFault>
    requires { walk.old.total ≤ index * 2 ^ 20 }
    ensures keeps { walk.old.keeps ≡ true → OnOk result (KeepsOn entry.now.item
        walk.old.parts.items walk.old.frames.items walk.old.marks.items walk.old.total
        walk.new.frames.items walk.new.marks.items walk.new.total) }
    ensures goes_on { walk.new.keeps ≡ walk.old.keeps }
    ensures counted { OnOk result (walk.new.total ≡ walk.old.total + instructions_in entry.now.item) }
    ensures last { OnOk result (walk.new.last ≡ thread_behind entry.now.item walk.old.last) }
    ensures stays { OnErr result (walk.new.total ≡ walk.old.total) }
    ensures row { OnOk result (RowIs entry.now.item walk.old.parts.items walk.new.parts.items) }
    ensures grown { OnOk result (walk.new.total ≤ walk.old.total + 2 ^ 20) }
    ensures leads { OnOk result (LeadsOn number index entry.now
        (state_of walk.old.pair.base) walk.old.parts.items (state_of walk.old.pair.guest)
        (state_of walk.new.pair.base) walk.new.parts.items (state_of walk.new.pair.guest)) }
    ensures refused { IfErr result (λ e. RefusesNext e number index entry.now
        (state_of walk.old.pair.base) walk.old.parts.items (state_of walk.old.pair.guest)) }
    ensures memory { IsErrOf result VerifyFault.Memory → (entry.now.guest ≡ number) × (entry.now.index ≡ index) }
{
    if entry.guest != number || entry.index as usize != index {
        return Err(VerifyFault::Mismatch { index });
    }
    match &entry.item {
        Item::Opening(_) => Err(VerifyFault::Mismatch { index }),
        Item::Frame(frame) => follow_frame(alloc, walk, index, frame),
        Item::Part(part) => follow_part(alloc, walk, index, part),
    }
}
