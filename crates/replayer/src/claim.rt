//! What checkpoints among a guest's records claim, found without running an instruction.

ghost use Rattle.std.specs.Prelude.{◌≡◌, ◌++◌, ◌∷◌, [], IfErr, IfOk, IsErrOf, OnOk};
ghost use Rattle.rrv_model.specs.declared.record.Item.TheVariants as items;
ghost use Rattle.rrv_model.specs.declared.record.Part.{Part};
ghost use Rattle.rrv_model.specs.Recording.{PartFits, base_after, row_after};
ghost use Rattle.rrv_model.specs.State.{State};
ghost use Rattle.guest_calls.specs.Guest.{state_of};
ghost use Rattle.replayer.specs.Claims.{claimed_by};
ghost use Rattle.replayer.specs.Following.{standing_of};
ghost use Rattle.replayer.specs.Standings.{Continues, Fits, Standing};

use crate::fault::{ClaimFault, VerifyFault};
use crate::following::Following;
use crate::opened::put_parts;
use crate::pair::Pair;
use crate::walk::{Walk, copied_part, last_behind};
use checkpoint::ApplyFault;
use guest_calls::Guest;
use rrv_model::limits::MAX_QUANTUM;
use rrv_model::record::{Item, Part, Record};
use rrv_model::refusal::Memory;
use std::alloc::Global;
use std::marker::Model;

/// What the checkpoints among a guest's records claim of where it stands behind them: they are put on one another, and no
/// instruction is run.
pub struct Claim {
    base: Guest,
    parts: Vec<Part>,
    number: u32,
    /// How many records there are.
    len: usize,
    total: u64,
    last: u32,
}

impl Model for Claim {
    ghost use Rattle.std.specs.Prelude.{◌≤◌, ◌*◌, ◌^◌};
    ghost use Rattle.replayer.specs.Claims.{ClaimValue};

    ghost Value = { ClaimValue };

    ghost view = { λ c. record {
      number = c.number;
      len = c.len;
      total = c.total;
      last = c.last;
      base = c.base;
      row = c.parts.items;
    } };

    ghost invariant = { λ c. c.total ≤ c.len * 2 ^ 20 };
}

// Written out: where one goes, a proof has one call, and not one for each of its parts.
impl Drop for Claim {
    fn drop(self) {
        let Claim {
            base: _,
            parts: _,
            number: _,
            len: _,
            total: _,
            last: _,
        } = self;
    }
}

impl Claim {
    /// The claim of where a guest stands that follows its records. `Memory` if a growth is refused.
    pub fn of(alloc: Global, following: &Following) -> Result<Claim, VerifyFault>
        ensures fits { IfOk result (λ claim. Fits (claimed_by claim) (standing_of following.now)) }
        ensures memory { IfErr result (λ e. e ≡ VerifyFault.Memory) }
    {
        Ok(Claim {
            base: following.walk.pair.base().try_clone(alloc)?,
            parts: copied_row(alloc, following.walk.parts.as_slice())?,
            number: following.number,
            len: following.len,
            total: following.walk.total,
            last: following.walk.last,
        })
    }

    /// Passes over a record, as if it led on. `LeadsNowhere` if it can't, whatever the state before it is; `Memory` if a growth
    /// is refused. After a refusal it is fit only to be dropped.
    pub fn pass(&mut self, alloc: Global, entry: &Record) -> Result<(), ClaimFault>
        ensures fits { OnOk result
            ((x y : Standing) → Fits (claimed_by self.old) x → Continues entry.now x y → Fits (claimed_by self.new) y) }
        ensures nowhere { IsErrOf result ClaimFault.LeadsNowhere
            → (x y : Standing) → Fits (claimed_by self.old) x → Continues entry.now x y → ⊥ }
        ensures memory { IsErrOf result ClaimFault.Memory → (p : Part) × (entry.now.item ≡ items.Part p) }
    {
        if entry.guest != self.number || entry.index as usize != self.len {
            return Err(ClaimFault::LeadsNowhere);
        }
        match &entry.item {
            Item::Opening(_) => Err(ClaimFault::LeadsNowhere),
            Item::Frame(frame) => {
                if MAX_QUANTUM < frame.count {
                    return Err(ClaimFault::LeadsNowhere);
                }
                self.len = entry.index as usize + 1;
                self.total += u64::from(frame.count);
                self.last = last_behind(frame, self.last);
                self.parts.clear();
                Ok(())
            }
            Item::Part(part) => {
                put_part(alloc, &mut self.base, &mut self.parts, part)?;
                self.len = entry.index as usize + 1;
                Ok(())
            }
        }
    }

    /// A guest in the claimed state, which follows the records from there on. `Memory` if a growth is refused.
    pub fn begin(self, alloc: Global) -> Result<Following, Memory>
        ensures { IfOk result (λ following. standing_of following ≡ claimed_by self) }
    {
        let Claim {
            base,
            parts,
            number,
            len,
            total,
            last,
        } = self;
        let guest = base.try_clone(alloc)?;
        let walk = Walk {
            pair: Pair::of(guest, base),
            parts,
            keeps: false,
            frames: Vec::new(alloc),
            marks: Vec::new(alloc),
            total,
            last,
        };
        let Ok(walk) = Box::new(alloc, walk) else {
            return Err(Memory);
        };
        Ok(Following { walk, number, len })
    }
}

fn copied_row(alloc: Global, row: &[Part]) -> Result<Vec<Part>, VerifyFault>
    ensures copy { IfOk result (λ copy. copy.items ≡ row.now) }
    ensures memory { IfErr result (λ e. e ≡ VerifyFault.Memory) }
{
    let mut copies = Vec::new(alloc);
    for part in row {
        let copy = copied_part(part)?;
        copies.push(copy)?;
    }
    Ok(copies)
}

/// Takes a part into the row, and at the last part of a checkpoint puts the row onto the base.
fn put_part(
    alloc: Global,
    base: &mut Guest,
    row: &mut Vec<Part>,
    part: &Part,
) -> Result<(), ClaimFault>
    ensures base { OnOk result ((s : State)
        → PartFits part.now.rest (state_of base.old) (row.old.items ++ part.now ∷ []) s
        → state_of base.new ≡ base_after part.now.rest (state_of base.old) s) }
    ensures row { OnOk result (row.new.items ≡ row_after part.now.rest (row.old.items ++ part.now ∷ [])) }
    ensures nowhere { IsErrOf result ClaimFault.LeadsNowhere → (s : State)
        → PartFits part.now.rest (state_of base.old) (row.old.items ++ part.now ∷ []) s → ⊥ }
{
    let Ok(copy) = copied_part(part) else {
        return Err(ClaimFault::Memory);
    };
    row.push(copy)?;
    if part.rest.is_none() {
        return Ok(());
    }
    match put_parts(alloc, base, row.as_slice()) {
        Ok(()) => {}
        Err(ApplyFault::Memory) => return Err(ClaimFault::Memory),
        Err(ApplyFault::BadPart) => return Err(ClaimFault::LeadsNowhere),
        Err(ApplyFault::TooManyPages) => return Err(ClaimFault::LeadsNowhere),
    }
    row.clear();
    Ok(())
}
