//! A guest that follows its records, one after another.

ghost use Rattle.std.specs.Prelude.{◌≡◌, ◌+◌, ◌++◌, ◌∷◌, [], List, IfErr, IfOk, IsErrOf, OnOk};
ghost use Rattle.rrv_model.specs.declared.record.Record.{Record};
ghost use Rattle.guest_calls.specs.Guest.{state_of};
ghost use Rattle.replayer.specs.Following.{IsBehind, Names, StepsBy, standing_of};
ghost use Rattle.replayer.specs.Kept.{instructions_in};
ghost use Rattle.replayer.specs.Refusals.{RefusesFirst, RefusesNext, RefusesVerify};
ghost use Rattle.replayer.specs.Sourced.{IsEndOf};
ghost use Rattle.replayer.specs.Standings.{Continues};

use crate::fault::VerifyFault;
use crate::verified_end::VerifiedEnd;
use crate::walk::{Walk, follow_record, open_first};
use guest_calls::Guest;
use rrv_model::record::Record;
use std::alloc::Global;
use std::marker::Model;

/// A guest that follows its records, one after another, each verified as [`verify`](crate::verify) does.
// Its walk is boxed: two guests take kilobytes of the stack in each function that they go through by value.
pub struct Following {
    pub(crate) walk: Box<Walk>,
    pub(crate) number: u32,
    /// How many records it followed.
    pub(crate) len: usize,
}

impl Model for Following {
    ghost use Rattle.std.specs.Prelude.{◌≤◌, ◌*◌, ◌^◌};
    ghost use Rattle.replayer.specs.Following.{FollowingValue};

    ghost Value = { FollowingValue };

    ghost view = { λ f. record {
      guest = f.walk.value.pair.guest;
      number = f.number;
      len = f.len;
      total = f.walk.value.total;
      last = f.walk.value.last;
      base = f.walk.value.pair.base;
      row = f.walk.value.parts.items;
    } };

    ghost invariant = { λ f. f.walk.value.total ≤ f.len * 2 ^ 20 };
}

// Written out: where one goes, a proof has one call, and not one for each of its parts.
impl Drop for Following {
    fn drop(self) {
        let Following {
            walk: _,
            number: _,
            len: _,
        } = self;
    }
}

impl Following {
    /// Behind a first record, an opening of index 0. `BadOpening` if it is none from which a guest starts, and `Memory` if a
    /// growth is refused.
    pub fn begin(alloc: Global, first: &Record) -> Result<Following, VerifyFault>
        ensures behind { IfOk result (λ following. IsBehind following (first.now ∷ [])) }
        ensures total { IfOk result (λ following. following.total ≡ 0) }
        ensures refused { IfErr result (λ e. RefusesFirst e first.now) }
    {
        let walk = open_first(alloc, first, false)?;
        let Ok(walk) = Box::new(alloc, walk) else {
            return Err(VerifyFault::Memory);
        };
        Ok(Following {
            walk,
            number: first.guest,
            len: 1,
        })
    }

    /// The guest behind the records so far.
    pub fn guest(&self) -> &Guest
        ensures { result.now ≡ self.now.guest }
    {
        self.walk.pair.guest()
    }

    /// The instructions that the frames so far count.
    pub fn total(&self) -> u64
        ensures { result ≡ self.now.total }
    {
        self.walk.total
    }

    /// The tid of the last frame that has a thread, which is each but a stuck one; 0 if there is none.
    pub fn last(&self) -> u32
        ensures { result ≡ self.now.last }
    {
        self.walk.last
    }

    /// Follows the next record. `Mismatch` names it where it doesn't follow from those so far, `BadCheckpoint` where it ends
    /// a checkpoint that doesn't, both by the number of records so far; `Memory` if a growth is refused. After a refusal it
    /// is fit only to be dropped.
    pub fn follow(&mut self, alloc: Global, entry: &Record) -> Result<(), VerifyFault>
        ensures behind { OnOk result ((records : List Record)
            → IsBehind self.old records → IsBehind self.new (records ++ entry.now ∷ [])) }
        ensures steps { OnOk result
            (StepsBy entry.now.item (state_of self.old.guest) (state_of self.new.guest)) }
        ensures counted { OnOk result (self.new.total ≡ self.old.total + instructions_in entry.now.item) }
        ensures continues { OnOk result
            (Continues entry.now (standing_of self.old) (standing_of self.new)) }
        ensures refused { IfErr result (λ e. (records : List Record)
            → IsBehind self.old records → RefusesVerify e (records ++ entry.now ∷ [])) }
        ensures named { IfErr result (λ e. Names e self.old.len) }
        ensures fails { IfErr result (λ e. RefusesNext e self.old.number self.old.len entry.now
            (state_of self.old.base) self.old.row (state_of self.old.guest)) }
        ensures memory { IsErrOf result VerifyFault.Memory
            → (entry.now.guest ≡ self.old.number) × (entry.now.index ≡ self.old.len) }
    {
        follow_record(alloc, &mut self.walk, self.number, self.len, entry)?;
        self.len = entry.index as usize + 1;
        Ok(())
    }

    /// Where the records that it followed end.
    pub fn into_end(self) -> VerifiedEnd
        ensures { (records : List Record) → IsBehind self records → IsEndOf result records }
    {
        let Following {
            walk,
            number: _,
            len,
        } = self;
        let Walk {
            pair,
            total,
            last,
            ..
        } = Box::into_inner(walk);
        VerifiedEnd {
            guest: pair.into_guest(),
            total,
            len,
            last,
        }
    }
}
