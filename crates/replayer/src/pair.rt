//! A guest that follows records, and what its next checkpoint is tested against.

ghost use Rattle.std.specs.Prelude.{◌≡◌, ◌↔◌, IfErr, IfSome, IsErrOf, IsSome, IsTrue, None, OnOk, Some};
ghost use Rattle.rrv_model.specs.Checkpoint.{Describes};
ghost use Rattle.rrv_model.specs.FrameStep.{FrameStep};
ghost use Rattle.rrv_model.specs.State.{State};
ghost use Rattle.guest_calls.specs.Guest.{state_of};
ghost use Rattle.guest_calls.specs.Snapshots.{guest_snapshots};
ghost use Rattle.serial_sched.specs.Follows.{FrameMeetsNoMemory};
ghost use Rattle.replayer.specs.Refusals.{CheckpointRefused, put_told};

use crate::fault::VerifyFault;
use crate::opened::put_parts;
use checkpoint::{ApplyFault, are_same_parts, make};
use guest_calls::Guest;
use guest_pages::Snapshot;
use rrv_model::record::{Frame, Part};
use serial_sched::{FollowFault, follow};
use std::alloc::Global;
use std::marker::Model;

/// A guest that follows records, and one in the state of its last complete checkpoint, or of its opening.
pub(crate) struct Pair {
    guest: Guest,
    base: Guest,
    /// A snapshot of the guest's memory when that was the base's: by it `make` finds what was written since. None if a growth
    /// was refused.
    kept: Option<Snapshot>,
}

impl Model for Pair {
    ghost use Rattle.std.specs.Prelude.{IfSome};
    ghost use Rattle.replayer.specs.Pairs.{KeepsBase, PairValue};

    ghost Value = { PairValue };

    ghost view = { λ p. record { guest = p.guest; base = p.base } };

    ghost invariant = { λ p. IfSome p.kept (KeepsBase p.guest p.base) };
}

// Written out: where one goes, a proof has one call, and not one for each of its parts.
impl Drop for Pair {
    fn drop(self) {
        let Pair {
            guest: _,
            base: _,
            kept: _,
        } = self;
    }
}

/// Takes a snapshot; None if a growth is refused.
fn keep(guest: &mut Guest) -> Option<Snapshot>
    ensures kept { IfSome result (λ token. guest_snapshots guest.new token ≡ Some (state_of guest.old).memory) }
    ensures state { state_of guest.new ≡ state_of guest.old }
{
    match guest.snapshot() {
        Ok(token) => Some(token),
        Err(_) => None,
    }
}

/// Drops a snapshot, if there is one.
fn release(guest: &mut Guest, kept: Option<Snapshot>)
    requires { IfSome kept (λ token. IsSome (guest_snapshots guest.old token)) }
    ensures { state_of guest.new ≡ state_of guest.old }
{
    if let Some(token) = kept {
        guest.drop_snapshot(token);
    }
}

/// Tests whether a guest has neither ended nor a reservation: `make` promises nothing of another one.
fn is_at_rest(guest: &Guest) -> bool
    ensures { IsTrue result → ((state_of guest.now).ended ≡ None) × ((state_of guest.now).reservation ≡ None) }
{
    guest.ended().is_none() && guest.reservation().is_none()
}

/// Why a checkpoint isn't put, of which the last part is the record of this index.
fn put_fault(index: usize, fault: ApplyFault) -> VerifyFault
    ensures { result ≡ put_told index fault }
{
    match fault {
        ApplyFault::BadPart | ApplyFault::TooManyPages => VerifyFault::BadCheckpoint { index },
        ApplyFault::Memory => VerifyFault::Memory,
    }
}

/// Puts the parts of a checkpoint, of which the last is the record of this index, onto its base.
fn put(alloc: Global, base: &mut Guest, parts: &[Part], index: usize) -> Result<(), VerifyFault>
    ensures put { OnOk result (Describes (state_of base.old) parts.now (state_of base.new)) }
    ensures refused { IfErr result (λ e. (s : State) → CheckpointRefused e index (state_of base.old) parts.now s) }
{
    match put_parts(alloc, base, parts) {
        Ok(()) => Ok(()),
        Err(fault) => Err(put_fault(index, fault)),
    }
}

/// Tests whether two guests are in one state. If that is known, nothing is compared.
fn are_same(is_known: bool, base: &Guest, guest: &Guest) -> bool
    requires { IsTrue is_known → state_of base.now ≡ state_of guest.now }
    ensures { IsTrue result ↔ (state_of base.now ≡ state_of guest.now) }
{
    is_known || base.same(guest)
}

impl Pair {
    /// Two guests in one state, of which the first is to follow records.
    pub(crate) fn of(guest: Guest, base: Guest) -> Pair
        requires { state_of guest ≡ state_of base }
        ensures guest { state_of result.guest ≡ state_of guest }
        ensures base { result.base ≡ base }
    {
        let mut guest = guest;
        let kept = keep(&mut guest);
        Pair { guest, base, kept }
    }

    /// The guest.
    pub(crate) fn guest(&self) -> &Guest
        ensures { result.now ≡ self.now.guest }
    {
        &self.guest
    }

    /// The guest of the last complete checkpoint, or of the opening.
    pub(crate) fn base(&self) -> &Guest
        ensures { result.now ≡ self.now.base }
    {
        &self.base
    }

    /// The guest alone.
    pub(crate) fn into_guest(self) -> Guest
        ensures { result ≡ self.guest }
    {
        let Pair {
            guest,
            base: _,
            kept: _,
        } = self;
        guest
    }

    /// Follows a frame. After a refusal it is fit only to be dropped.
    pub(crate) fn follow(&mut self, alloc: Global, frame: &Frame) -> Result<(), FollowFault>
        ensures follows { OnOk result (FrameStep (state_of self.old.guest) frame.now (state_of self.new.guest)) }
        ensures base { self.new.base ≡ self.old.base }
        ensures nowhere { IsErrOf result FollowFault.GoesNowhere
            → (new : State) → FrameStep (state_of self.old.guest) frame.now new → ⊥ }
        ensures memory { IsErrOf result FollowFault.Memory → FrameMeetsNoMemory (state_of self.old.guest) frame.now }
    {
        match follow(alloc, &mut self.guest, frame) {
            Ok(()) => Ok(()),
            Err(fault) => {
                // After a refusal nothing is known of the guest, and so nothing of what it keeps.
                self.kept = None;
                Err(fault)
            }
        }
    }

    /// Tests whether parts are just those that `make` makes of the guest against its snapshot. It is false also if it has none,
    /// if it isn't at rest, or if a growth is refused.
    fn are_made(&self, alloc: Global, parts: &[Part]) -> bool
        ensures { IsTrue result → Describes (state_of self.now.base) parts.now (state_of self.now.guest) }
    {
        let Some(kept) = &self.kept else {
            return false;
        };
        if !is_at_rest(&self.guest) {
            return false;
        }
        // Its clauses say that the base's state keeps the rules of a state, which `make` asks for.
        let _ = self.base.threads();
        let Ok(made) = make(alloc, &self.guest, kept) else {
            return false;
        };
        are_same_parts(made.as_slice(), parts)
    }

    /// Puts the parts of a checkpoint, of which the last is the record of this index, onto the base, and tests whether that is the
    /// guest's state. If they are just those that `make` makes of the guest, no page is compared. After a refusal it is fit
    /// only to be dropped.
    pub(crate) fn pass(
        &mut self,
        alloc: Global,
        parts: &[Part],
        index: usize,
    ) -> Result<(), VerifyFault>
        ensures describes { OnOk result
            (Describes (state_of self.old.base) parts.now (state_of self.old.guest)) }
        ensures base { OnOk result (state_of self.new.base ≡ state_of self.old.guest) }
        ensures guest { OnOk result (state_of self.new.guest ≡ state_of self.old.guest) }
        ensures refused { IfErr result (λ e.
            CheckpointRefused e index (state_of self.old.base) parts.now (state_of self.old.guest)) }
    {
        let is_known = self.are_made(alloc, parts);
        // The base changes now, so that the guest keeps nothing of it until the end.
        let kept = self.kept.take();
        put(alloc, &mut self.base, parts, index)?;
        if !are_same(is_known, &self.base, &self.guest) {
            return Err(VerifyFault::BadCheckpoint { index });
        }
        release(&mut self.guest, kept);
        self.kept = keep(&mut self.guest);
        Ok(())
    }
}
