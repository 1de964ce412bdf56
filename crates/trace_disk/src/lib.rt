//! Disks as the log sees them: what a read gives, and what a crash may leave.
//!
//! Tests: storage_cases.
//!
//! # Contracts
//!
//! The trait of a disk, whose contract is the crash model.
//!
//! - A disk is honest if its reads and crashes are as the contracts of `Disk` say. What is promised of contents is promised of
//!   an honest disk alone.
//! - `MemDisk`, `FailOnce`: meet it. Within its room a memory disk never fails.
//! - `FileDisk`: a file of the host. No file is honest, so nothing is promised of its contents. Its length and its failures
//!   are: each call that fails is counted once, and after a sync that failed every call fails. If its file is read alone, each
//!   write, cut and sync fails. Tests see that it keeps what calls did, refuses what is no file, is alone in writing its file, and fails
//!   if another program cut the file; and that one whose file is read alone leaves it as it is, is opened beside another, and
//!   ends as `end_with` says.
//! - `write_through`, `cut_through`: one call and its sync, and at a failure one of the two failed, and none was made after it.
#![tactic(auto)]

mod disk;
mod fail_once;
mod file_disk;
mod history;
mod mem_disk;

pub use disk::{Disk, DiskFailed, cut_through, write_through};
pub use fail_once::FailOnce;
pub use file_disk::{CannotOpen, CreateFault, FileDisk};
pub use mem_disk::MemDisk;
