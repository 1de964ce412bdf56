//! Pages of a guest under two-level tables that share them: a page is counted, and a shared one is copied before it is written.
//!
//! Tests: guest_tests, machine_cases, through guest_pages.
//!
//! # Contracts
//!
//! A guest's pages and those of its live snapshots, which share them. guest_pages stands on it, and rows of `machine_cases` run
//! both. In every value a key stands in a table only at its page's own number, a page's count is the number of tables that have
//! it there, and none is 0. Each page has 4,096 bytes.
//!
//! - `page`, `readable`, `executable`, `next`: the page at a number, its bytes if they may be read or executed, the least
//!   number with a page.
//! - `put_byte`, `put_half`, `put_word`: the bytes of one page, and nothing else; no snapshot sees them. A page is added only
//!   if it was shared. A refusal is the lowest that applies.
//! - `unshare` (private), `write`: a page gets a copy of its own; bytes are written into such a page with no memory.
//! - `own_each`: each page of some numbers becomes its own, or nothing changes. If there is no page, one of zeros comes that
//!   allows nothing. It is refused only if some page isn't its own, and adds a page for each number whose page wasn't.
//! - `clear`: a page of its own becomes one of zeros with the permissions that are asked for.
//! - `is_own`: whether there is a page at a number that the current table alone has.
//! - `all_own`: with no live snapshot each page is its own, and there are no others; with some there are these pages at the
//!   least; a count stands exactly where a page does; a page, current or kept, has 4,096 bytes.
//! - `place`, `remove`, `set_permissions`: one page of the current table, in place of what was there; snapshots keep theirs.
//! - `keep`, `release`: a snapshot has the pages as they were, and takes no page; when it goes, all else stays.
//! - `kept_page`, `kept_next`, `same_page`, `same_as_kept`: what a snapshot has, and whether a page is the same.
//! - `live`: how many pages there are, a shared one counted once. Each call that adds or frees pages says so by this number;
//!   `release` says that there are no more.
#![tactic(auto)]

mod entries;
mod new_pages;
mod page_tables;
mod pool;
mod snapshots;
mod table;

pub use page_tables::{PageTables, PageView, PutFault};
