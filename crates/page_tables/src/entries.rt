//! One entry of a table, and what it does to the counts of the pool.

ghost use Rattle.std.specs.Prelude.{◌≡◌, ◌≢◌, ℕ, ◌+◌, ◌≤◌, ◌^◌, if◌then◌else◌, IfSome, Some, None, true, false};
ghost use Rattle.slab.specs.Slab.{get, slab_len};
ghost use Rattle.page_tables.specs.Changes.{freed, Adds, IsRoomyFor};
ghost use Rattle.page_tables.specs.Contents.{FillPage};
ghost use Rattle.page_tables.specs.Sharing.{IsTableOf, has, lowered, counts_in};
ghost use Rattle.page_tables.specs.Table.{entry_at, has_leaf, SetsEntry};

use crate::pool::{Page, add, fill_page, lower};
use crate::table::{Entry, NO_PAGE, Table};
use page_permissions::Permissions;
use slab::Slab;

/// Takes the page at a number out of a table, where there is one.
pub(crate) fn detach(pool: &mut Slab<Page>, table: &mut Table, number: u32)
    requires there { IsTableOf (get pool.old) (entry_at table.old) }
    requires some { (k : ℕ) → IfSome (get pool.old k) (λ p. 1 ≤ p.count) }
    ensures gone { (entry_at table.new number).mapped ≡ false }
    ensures none { (entry_at table.new number).permissions ≡ NO_PAGE.permissions }
    ensures others { (n : ℕ) → n ≢ number → entry_at table.new n ≡ entry_at table.old n }
    ensures leaves { (n : ℕ) → has_leaf table.new n ≡ has_leaf table.old n }
    ensures pages { (k : ℕ) → get pool.new k
        ≡ (if has (entry_at table.old) number k then lowered (get pool.old k) else get pool.old k) }
    ensures len { slab_len pool.new + freed (counts_in (get pool.old) (entry_at table.old) number) ≡ slab_len pool.old }
    ensures room { pool.new.capacity ≡ pool.old.capacity }
{
    let entry = table.entry(number);
    if !entry.mapped {
        return;
    }
    lower(pool, entry.key as usize);
    table.set(number, NO_PAGE);
}

/// Puts a page of its own at a number that has none, and answers its key.
pub(crate) fn attach(
    pool: &mut Slab<Page>,
    table: &mut Table,
    number: u32,
    permissions: Permissions,
    bytes: Box<[u8; 4096]>,
) -> u32
    requires roomy { IsRoomyFor pool.old 1 }
    requires leaf { has_leaf table.old number ≡ true }
    ensures added { Adds result (record { number = number; count = 1; bytes = bytes }) pool.old pool.new }
    ensures put { SetsEntry number (record { key = result; mapped = true; permissions = permissions })
        table.old table.new }
    ensures filled { FillPage bytes.value }
{
    fill_page(&bytes);
    let key = add(pool, number, bytes);
    table.set(
        number,
        Entry {
            key,
            mapped: true,
            permissions,
        },
    );
    key
}
