//! A guest's address space: whole pages, each with its permissions, and snapshots of them.
//!
//! Tests: guest_tests, machine_cases.
//!
//! # Contracts
//!
//! An address space, which stands for a plain memory. The calls that change it are those of the trait `AddressSpace`, which has
//! their clauses.
//!
//! - `map`, `unmap`, `protect`, `cover`, `fill`, loads, stores and fetches: the changes and reads of the definitions, also
//!   across pages. A refusal is the lowest that applies. The page limit is the definitions'. No snapshot sees a change.
//! - `store_words`: a word is stored at all of some places, or at none.
//! - `prepare`: what it accepts, a `fill` writes without memory. No byte changes; the pages are the space's own then, and a
//!   `fill` leaves them so.
//! - `fill_unshared`: a `fill` of pages that are there, in a space with no snapshot, which needs no `prepare`.
//! - `live`: how many pages there are in all, those of the space and of its live snapshots, a shared one counted once. That is
//!   as many as are mapped at the least, and just as many if no snapshot is live. Each call says what it adds or frees, exactly
//!   but for `drop_snapshot`: `map`, `prepare` and the stores add a page for each number whose page isn't the space's own,
//!   `cover` one if none is mapped; `set_page` adds one or none, or frees one; `unmap` frees those that are the space's own;
//!   `snapshot`, `protect` and a `fill` change nothing. `drop_snapshot` adds none, and the last one leaves the pages that are
//!   mapped.
//! - `set_page`: puts a page as `page` reads one in place of what was there, or unmaps it.
//! - `snapshot`: its memory stays, whatever is stored, mapped, unmapped or protected later.
//! - `try_clone`: the same memory once more, with no snapshot.
//! - `changed_since`: exactly the pages that differ from a snapshot.
//! - `page`, `snapshot_page`: a page's permissions and bytes. `page_from`: those of the least page from a number on. `byte`: the
//!   byte at an address, whatever its page's permissions.
#![tactic(auto)]

mod access;
mod address_space;
mod addressing;
mod copying;
mod fault;
mod mapping;
mod page;
mod snapshot;
mod space_calls;
mod words;

pub use address_space::Space;
pub use addressing::AddressSpace;
pub use fault::PageFault;
pub use page::{PageView, permissions_byte};
pub use snapshot::Snapshot;
