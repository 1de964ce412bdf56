//! A checkpoint's parts, put onto the state of their base.

ghost use Rattle.std.specs.Prelude.{◌≡◌, Err, IfErr, OnOk};
ghost use Rattle.rrv_model.specs.Checkpoint.{Describes};
ghost use Rattle.guest_calls.specs.Carries.{KeepsRest};
ghost use Rattle.guest_calls.specs.Guest.{state_of};
ghost use Rattle.checkpoint.specs.Applies.{RefusesApply};

use crate::fault::ApplyFault;
use crate::fitting::{parts_fit, rest_of};
use crate::pages::{clear_parts, set_parts};
use guest_calls::Guest;
use rrv_model::record::Part;
use std::alloc::Global;

/// Puts the parts of a complete checkpoint onto the state of their base. It refuses `BadPart` where they describe no state, the
/// limit on its pages aside, else `TooManyPages` where more pages would be mapped than a guest may have, and `Memory` where a
/// growth is refused. After `BadPart` the guest is as before; after the other two it is fit only to be dropped.
pub fn apply(alloc: Global, guest: &mut Guest, parts: &[Part]) -> Result<(), ApplyFault>
    ensures applied { OnOk result (Describes (state_of guest.old) parts.now (state_of guest.new)) }
    ensures refused { IfErr result (RefusesApply (state_of guest.old) parts.now) }
    ensures same { result ≡ Err ApplyFault.BadPart → guest.new ≡ guest.old }
    ensures keeps { KeepsRest guest.old guest.new }
{
    // Its clauses say what holds of the guest's memory.
    let _ = guest.page_count();
    let Some(rest) = rest_of(parts) else {
        return Err(ApplyFault::BadPart);
    };
    if !parts_fit(parts) {
        return Err(ApplyFault::BadPart);
    }
    guest.set_rest(alloc, rest)?;
    clear_parts(guest, parts);
    set_parts(guest, parts)?;
    let _ = guest.page_count();
    Ok(())
}
