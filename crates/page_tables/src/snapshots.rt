//! The tables of live snapshots, by their numbers.

ghost use Rattle.std.specs.Prelude.{◌≡◌, ◌≤◌, ◌+◌, Some, None, IsSome, OnOk, OnErr, length, slice_index_or, ℕ, ◌<◌};
ghost use Rattle.page_tables.specs.Sharing.{IsSlotSet};

use crate::table::Table;
use std::alloc::AllocError;

/// The least number that no live snapshot has.
pub(crate) fn free_number(kept: &Vec<Option<Table>>) -> usize
    ensures low { result ≤ length kept.now.items }
    ensures free { slice_index_or kept.now.items result None ≡ None }
{
    for (number, slot) in kept.iter().enumerate() {
        if slot.is_none() {
            return number;
        }
    }
    kept.len()
}

/// Keeps a table under a number that no live snapshot has. Refused where a growth is.
pub(crate) fn store(
    kept: &mut Vec<Option<Table>>,
    number: usize,
    table: Table,
) -> Result<(), AllocError>
    requires low { number ≤ length kept.old.items }
    requires free { slice_index_or kept.old.items number None ≡ None }
    ensures stored { OnOk result (IsSlotSet number (Some table) kept.old.items kept.new.items) }
    ensures len { length kept.new.items ≤ length kept.old.items + 1 }
    ensures err { OnErr result (kept.new.items ≡ kept.old.items) }
{
    if number < kept.len() {
        kept[number] = Some(table);
        return Ok(());
    }
    kept.push(Some(table))?;
    Ok(())
}

/// Takes out the table that is kept under a number.
pub(crate) fn take(kept: &mut Vec<Option<Table>>, number: usize) -> Table
    requires { IsSome (slice_index_or kept.old.items number None) }
    ensures was { slice_index_or kept.old.items number None ≡ Some result }
    ensures taken { IsSlotSet number None kept.old.items kept.new.items }
    ensures len { length kept.new.items ≡ length kept.old.items }
{
    kept[number].take().unwrap()
}

/// The table that is kept under a number.
pub(crate) fn kept_under(kept: &Vec<Option<Table>>, number: usize) -> &Table
    requires { IsSome (slice_index_or kept.now.items number None) }
    ensures { slice_index_or kept.now.items number None ≡ Some result.now }
{
    kept[number].as_ref().unwrap()
}
