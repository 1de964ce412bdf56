//! A disk in a file of the host.

ghost use Rattle.std.specs.Prelude.{◌≡◌, ◌≤◌, ◌+◌, max, length, IfOk, OnOk, OnErr, IsTrue, true, false};
ghost use Rattle.outcomes.specs.Failures.{one_more, IsCounted};
ghost use Rattle.trace_disk.specs.FileDisk.{file_to_read, opened_file, IsFileChange, IsFileEdit, IsFileRead};

use crate::{Disk, DiskFailed};
use std::fs::{File, Metadata, OpenOptions};
use std::marker::Model;
use std::os::fd::AsRawFd;
use std::os::unix::fs::{FileExt, MetadataExt};
use std::path::Path;
use std::rt::Files;
use std::{fs, io};
use thiserror::Error;

// The greatest length of a file in bytes.
const MAX_LEN: u64 = (1 << 63) - 1;

/// A file can't be made, or can't be opened, as a disk.
#[derive(Clone, Copy, Debug, PartialEq, Eq, Error)]
#[error("cannot open store")]
pub struct CannotOpen;

impl From<io::Error> for CannotOpen {
    fn from(_: io::Error) -> Self {
        CannotOpen
    }
}

/// A file can't be made as a disk.
#[derive(Clone, Copy, Debug, PartialEq, Eq, Error)]
pub enum CreateFault {
    /// There is something of this name, or no file of it can be made and locked.
    #[error("cannot open store")]
    CannotOpen,
    /// The file's name isn't safe on the device.
    #[error("device failed")]
    DeviceFailed,
}

impl From<io::Error> for CreateFault {
    fn from(_: io::Error) -> Self {
        CreateFault::CannotOpen
    }
}

impl From<CannotOpen> for CreateFault {
    fn from(_: CannotOpen) -> Self {
        CreateFault::CannotOpen
    }
}

/// A disk in a file of the host, open for reading and writing, or to be read alone.
///
/// Its length and its failures are promised. That its file is a disk as `Disk` has it is a premise: no file is `honest`.
///
/// A lock keeps the file from each other `FileDisk` that may write it, in any program, until this one is let go. A program that doesn't ask for
/// locks is not kept off: if the file has another length than the calls gave it, or it was removed or another was put in its place, no
/// call changes it, and a sync fails.
///
/// After a sync that failed each device call fails, since the host may have dropped what was written, and tells it once at most.
///
/// One that is read alone takes no lock, and no call of it changes its file: each write, cut and sync fails. Another program may be
/// writing to that file, so it has the length that the file had when it was opened, and may be ended before that.
#[derive(Drop)]
pub struct FileDisk {
    file: File,
    state: HostFile,
    // What is read as the last byte, whatever the file has there.
    last: Option<u8>,
}

/// What is told of it.
#[derive(Clone, Copy)]
pub struct HostFile {
    /// Its length in bytes.
    pub size: u64,
    /// How many calls have failed.
    pub faults: u64,
    /// Whether a sync was among them.
    pub is_broken: bool,
    /// Whether the file is read alone.
    pub is_read_only: bool,
}

impl Model for FileDisk {
    ghost use Rattle.trace_disk.specs.declared.file_disk.HostFile.{HostFile};

    ghost Value = { HostFile };

    ghost view = { λ f. f.state };
}

impl FileDisk {
    /// Makes a file with no bytes, and has its name on the device. A path with anything there is refused, a link too. At an `Err` the
    /// file that was made is removed again if it has no bytes, and if this path leads to it still: what another program wrote to it, or
    /// put in its place, stays.
    pub fn create<R: Files<File = File>>(rt: &R, path: &str) -> Result<FileDisk, CreateFault>
        ensures { IfOk result (λ disk. disk ≡ opened_file 0) }
    {
        let folder = open_folder(rt, path)?;
        let file = File::create_new(rt, path)?;
        let made = file.metadata();
        match FileDisk::named(file, &folder) {
            Ok(disk) if disk.state.size == 0 => Ok(disk),
            // Another program wrote to it before the lock was taken, and its bytes are kept.
            Ok(_) => Err(CreateFault::CannotOpen),
            Err(fault) => {
                if there_still(rt, path, &made) == Some(0) {
                    let _ = fs::remove_file(rt, path);
                }
                Err(fault)
            }
        }
    }

    /// Removes the file, whatever it holds, if this path leads to it.
    pub fn remove<R: Files<File = File>>(self, rt: &R, path: &str) {
        if there_still(rt, path, &self.file.metadata()).is_some() {
            let _ = fs::remove_file(rt, path);
        }
    }

    // Takes the lock of a file that was just made, and has its name on the device.
    fn named(file: File, folder: &File) -> Result<FileDisk, CreateFault>
        ensures { IfOk result (λ disk. disk ≡ opened_file disk.size) }
    {
        let disk = FileDisk::locking(file)?;
        if folder.sync_all().is_err() {
            return Err(CreateFault::DeviceFailed);
        }
        Ok(disk)
    }

    /// Opens a file that is there, with the bytes that it has. A link leads to the file that it names.
    ///
    /// Refused are a folder and anything else that is no file, a file that may not be read and written, and one that another
    /// disk may write, here or in another program.
    pub fn open<R: Files<File = File>>(rt: &R, path: &str) -> Result<FileDisk, CannotOpen>
        ensures { IfOk result (λ disk. disk ≡ opened_file disk.size) }
    {
        FileDisk::locking(open_file(rt, path, true)?)
    }

    /// Opens a file that is there to read it alone. A link leads to the file that it names.
    ///
    /// It may be a file that may not be written, and one that is open as a disk, here or in another program. Refused are a folder
    /// and anything else that is no file, and a file that may not be read.
    pub fn open_to_read<R: Files<File = File>>(rt: &R, path: &str) -> Result<FileDisk, CannotOpen>
        ensures { IfOk result (λ disk. disk ≡ file_to_read disk.size) }
    {
        FileDisk::over(above_streams(open_file(rt, path, false)?)?, true)
    }

    // Takes the lock, and then the length.
    fn locking(file: File) -> Result<FileDisk, CannotOpen>
        ensures { IfOk result (λ disk. disk ≡ opened_file disk.size) }
    {
        let file = above_streams(file)?;
        if file.try_lock().is_err() {
            return Err(CannotOpen);
        }
        FileDisk::over(file, false)
    }

    // A disk in a file that was just opened, with the length that it has.
    fn over(file: File, is_read_only: bool) -> Result<FileDisk, CannotOpen>
        ensures { IfOk result (λ disk. disk ≡ record (opened_file disk.size) { is_read_only = is_read_only }) }
    {
        let metadata = file.metadata()?;
        if !metadata.is_file() {
            return Err(CannotOpen);
        }
        Ok(FileDisk {
            file,
            state: HostFile {
                size: metadata.len(),
                faults: 0,
                is_broken: false,
                is_read_only,
            },
            last: None,
        })
    }

    /// Ends the disk after so many bytes, of which this is the last, whatever the file has there or gets. From then on it is read alone.
    pub fn end_with(&mut self, count: u64, last: u8)
        requires { (1 ≤ count) × (count ≤ self.old.size) }
        ensures { self.new ≡ record self.old { size = count; is_read_only = true } }
    {
        self.state.size = count;
        self.last = Some(last);
        self.state.is_read_only = true;
    }

    /// Whether the file is longer than the disk.
    pub fn has_grown(&mut self) -> Result<bool, DiskFailed>
        ensures size { self.new.size ≡ self.old.size }
        ensures counted { IsCounted result self.old.faults self.new.faults }
        ensures broken { self.new.is_broken ≡ self.old.is_broken }
        ensures access { self.new.is_read_only ≡ self.old.is_read_only }
    {
        match self.file.metadata() {
            Ok(metadata) => Ok(metadata.len() > self.state.size),
            Err(_) => Err(self.failed()),
        }
    }

    // Puts the last byte, where a read from this place on has reached it.
    fn put_last(&self, at: u64, into: &mut [u8])
        requires { at + length into.old ≤ self.now.size }
        ensures { length into.new ≡ length into.old }
    {
        let Some(last) = self.last else {
            return;
        };
        let count = into.len();
        if count > 0 && self.state.size - at == count as u64 {
            into[count - 1] = last;
        }
    }

    // Whether the file may be changed: it isn't read alone, no sync has failed, it has the length that the calls gave it, and a name
    // leads to it still.
    fn is_whole(&self) -> bool
        ensures whole { IsTrue result → self.now.is_broken ≡ false }
        ensures writable { IsTrue result → self.now.is_read_only ≡ false }
    {
        if self.state.is_read_only {
            return false;
        }
        if self.state.is_broken {
            return false;
        }
        match self.file.metadata() {
            Ok(metadata) => metadata.len() == self.state.size && metadata.nlink() > 0,
            Err(_) => false,
        }
    }

    // Counts a failure.
    fn failed(&mut self) -> DiskFailed
        ensures { self.new ≡ record self.old { faults = one_more self.old.faults } }
    {
        self.state.faults = self.state.faults.saturating_add(1);
        DiskFailed
    }

    // Counts a failure of a call that may be done in part, and takes the length that it left.
    fn failed_in_part(&mut self) -> DiskFailed
        ensures faults { self.new.faults ≡ one_more self.old.faults }
        ensures broken { self.new.is_broken ≡ self.old.is_broken }
        ensures access { self.new.is_read_only ≡ self.old.is_read_only }
    {
        if let Ok(metadata) = self.file.metadata() {
            self.state.size = metadata.len();
        }
        self.failed()
    }
}

// The file at a path, to be read, and to be written too. To open a device or a pipe can do something to it, or wait.
fn open_file<R: Files<File = File>>(
    rt: &R,
    path: &str,
    is_written: bool,
) -> Result<File, CannotOpen> {
    if !fs::metadata(rt, path)?.is_file() {
        return Err(CannotOpen);
    }
    Ok(
        OpenOptions::new()
            .read(true)
            .write(is_written)
            .open(rt, path)?,
    )
}

// The folder of a path, where it can be opened.
fn open_folder<R: Files<File = File>>(rt: &R, path: &str) -> io::Result<File> {
    let folder = match Path::new(path).parent() {
        Some(folder) if !folder.as_str().is_empty() => folder.as_str(),
        _ => ".",
    };
    if !fs::metadata(rt, folder)?.is_dir() {
        return Err(io::ErrorKind::NotADirectory.into());
    }
    File::open(rt, folder)
}

// The length of a file, if a path leads to it still: another program may have put one of its own there.
fn there_still<R: Files<File = File>>(
    rt: &R,
    path: &str,
    made: &io::Result<Metadata>,
) -> Option<u64> {
    let made = made.as_ref().ok()?;
    let there = fs::symlink_metadata(rt, path).ok()?;
    if made.ino() == there.ino() && made.dev() == there.dev() {
        Some(there.len())
    } else {
        None
    }
}

// Where a standard stream was closed, a file may get its number: what is meant for the stream must not reach the file.
fn above_streams(file: File) -> io::Result<File> {
    if file.as_raw_fd() > 2 {
        Ok(file)
    } else {
        file.try_clone()
    }
}

impl Disk for FileDisk {
    ghost use Rattle.trace_disk.specs.Started.{empty_disk};

    ghost honest = { λ _. ⊥ };

    ghost size = { λ f. f.size };

    ghost faults = { λ f. f.faults };

    ghost state = { λ _. empty_disk };

    ghost sized = { λ f no. absurd no };

    ghost reads_now = { λ f no. absurd no };

    fn len(&self) -> u64 {
        self.state.size
    }

    fn failures(&self) -> u64 {
        self.state.faults
    }

    fn read_at(&mut self, at: u64, into: &mut [u8]) -> Result<(), DiskFailed>
        requires { at + length into.old ≤ self.old.size }
        ensures { IsFileRead self.old self.new result }
    {
        if self.state.is_broken || self.file.read_exact_at(into, at).is_err() {
            return Err(self.failed());
        }
        self.put_last(at, into);
        Ok(())
    }

    fn write_at(&mut self, at: u64, bytes: &[u8]) -> Result<(), DiskFailed>
        requires { at ≤ self.old.size }
        ensures edit { IsFileEdit self.old self.new result }
        ensures size { OnOk result (self.new.size ≡ max self.old.size (at + length bytes.now)) }
    {
        let end = at.saturating_add(bytes.len() as u64);
        if end > MAX_LEN || !self.is_whole() {
            return Err(self.failed());
        }
        if self.file.write_all_at(bytes, at).is_err() {
            return Err(self.failed_in_part());
        }
        self.state.size = self.state.size.max(end);
        Ok(())
    }

    fn cut(&mut self, len: u64) -> Result<(), DiskFailed>
        requires { len ≤ self.old.size }
        ensures edit { IsFileEdit self.old self.new result }
        ensures size { OnOk result (self.new.size ≡ len) }
    {
        if !self.is_whole() {
            return Err(self.failed());
        }
        if self.file.set_len(len).is_err() {
            return Err(self.failed_in_part());
        }
        self.state.size = len;
        Ok(())
    }

    fn sync(&mut self) -> Result<(), DiskFailed>
        ensures call { IsFileChange self.old self.new result }
        ensures size { self.new.size ≡ self.old.size }
        ensures breaks { OnErr result (self.new.is_broken ≡ true) }
        ensures whole { OnOk result (self.new.is_broken ≡ false) }
    {
        if !self.is_whole() || self.file.sync_all().is_err() {
            self.state.is_broken = true;
            return Err(self.failed());
        }
        Ok(())
    }
}
