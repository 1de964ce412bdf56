//! Tests whether two calls did the same.

ghost use Rattle.std.specs.Prelude.{◌≡◌, ◌↔◌, IsTrue};

use rrv_model::record::{CallRecord, Written};

/// Tests whether two calls answered the same and wrote the same.
pub(crate) fn is_same_call(found: &CallRecord, told: &CallRecord) -> bool
    ensures { IsTrue result ↔ (found.now ≡ told.now) }
{
    found.result == told.result
        && are_same_ranges(found.written.as_slice(), told.written.as_slice())
}

fn are_same_ranges(found: &[Written], told: &[Written]) -> bool
    ensures { IsTrue result ↔ (found.now ≡ told.now) }
{
    if found.len() != told.len() {
        return false;
    }
    for i in 0..found.len() {
        if !is_same_range(&found[i], &told[i]) {
            return false;
        }
    }
    true
}

fn is_same_range(found: &Written, told: &Written) -> bool
    ensures { IsTrue result ↔ (found.now ≡ told.now) }
{
    found.address == told.address && found.bytes.as_slice() == told.bytes.as_slice()
}
