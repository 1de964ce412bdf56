//! Copies a guest's records from a store to a log, under the log's next number.
//!
//! One record is held at a time, beside the text of those that are committed next: at most 64, as many as fit into a body.
//!
//! Tests: `cases.lines` and `cases.kills` run it, by `copy` of `commands`.
//!
//! # Contracts
//!
//! - `copy_guest`: let the log keep bodies from which records are recovered. After Ok it keeps these and more, from which the same
//!   records are recovered and, after them, the guest's under the log's next number: all of them, in order, and else as they were.
//!   After an `Err`, unless the log is broken, a beginning of the guest's stands there. A crash at any moment leaves sound bytes, from
//!   which the earlier records and a beginning of the guest's are recovered; if a gate is torn, also with the body after it. This is
//!   said if the guest's records stand on an honest disk.
//! - `copy_guest`, whatever the disk gives from which it reads: the same of some records of the new number alone, by their indexes
//!   from 0, with an opening at 0 and nowhere else. So a source that changes or lies doesn't make the target a store that can't be
//!   opened, and takes no record from it.
//! - `copy_guest`, its refusals: `TooManyGuests` comes exactly if there is no next number, and nothing was done. `DeviceFailed` comes
//!   exactly if the log is broken then. `StoreFull` comes only if the store would pass a limit with some body more. If the guest's
//!   records stand on an honest disk, `Unread` names no damaged record, and `NeedsMark` comes only if the log doesn't hold the Mark and
//!   some record of the guest stands behind it alone. Whatever it returns, the log holds the Mark exactly if it did before. The disk of
//!   the source is only read. The log's next number is one more than before, unless there was none.
//! - `copies_are_told_apart`: a law. Of what is recovered after a copy the records under the new number are the copied ones, and
//!   those under any other number are what they were. The copied records of a recording are a recording.
//! - Not in its contract: that `Unread` names the very record that was not read, and that `Memory` comes only if an allocation failed.
#![tactic(auto)]

mod body;
mod copy;
mod fault;
mod law;
mod source;

pub use copy::copy_guest;
pub use fault::CopyFault;
pub use law::copies_are_told_apart;
