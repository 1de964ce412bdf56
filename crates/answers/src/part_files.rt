//! Files that get their names once they are whole.

ghost use Rattle.std.specs.Prelude.{◌≡◌, IfErr};
ghost use Rattle.line_io.specs.declared.refusal.Refusal.{Refusal};
ghost use Rattle.answers.specs.Refused.{RefusesCoreFile};

use line_io::Refusal;
use std::alloc::{AllocError, Global};
use std::fs::{File, Metadata, OpenOptions};
use std::io::ErrorKind;
use std::os::unix::fs::{MetadataExt, OpenOptionsExt};
use std::path::Path;
use std::rt::Files;
use std::{fs, io};

/// How many names are tried for a part.
const NAMES: u32 = 1_000;

/// The mode of a file that its owner alone may read and write.
const OWNER_ALONE: u32 = 0o600;

/// A file under a name of its own, in the folder of the name that it gets once it is whole. Its owner alone may read it.
#[derive(Drop)]
pub(crate) struct PartFile {
    file: File,
    made: io::Result<Metadata>,
    name: String,
}

impl PartFile {
    /// Makes one for a path. A path with anything there is refused, a link too.
    pub(crate) fn create<R: Files<File = File> + AllocGlobal>(
        rt: &R,
        path: &str,
    ) -> Result<PartFile, Refusal>
        ensures { IfErr result RefusesCoreFile }
    {
        if fs::symlink_metadata(rt, path).is_ok() {
            return Err(Refusal::CannotMakeCore);
        }
        for number in 0..NAMES {
            let name = part_name(rt.alloc(), path, number)?;
            match new_file(rt, name.as_str()) {
                Ok(file) => {
                    let made = file.metadata();
                    let part = PartFile { file, made, name };
                    if !part.is_at(rt, path) {
                        return Ok(part);
                    }
                    // The path has the name of a part itself.
                    part.remove(rt);
                }
                Err(error) if error.kind() == ErrorKind::AlreadyExists => {}
                Err(_) => return Err(Refusal::CannotMakeCore),
            }
        }
        Err(Refusal::CannotMakeCore)
    }

    /// The file, to be written.
    pub(crate) fn file(&self) -> &File {
        &self.file
    }

    /// Whether a path leads to the file.
    fn is_at<R: Files<File = File>>(&self, rt: &R, path: &str) -> bool {
        leads_to(rt, path, &self.made)
    }

    /// Gives the file a name, and refuses one that is taken, or if another program took the file's own.
    pub(crate) fn put<R: Files<File = File>>(&self, rt: &R, path: &str) -> Result<(), Refusal>
        ensures { IfErr result (λ e. e ≡ Refusal.CannotMakeCore) }
    {
        if !self.is_at(rt, self.name.as_str()) {
            return Err(Refusal::CannotMakeCore);
        }
        match fs::hard_link(rt, self.name.as_str(), path) {
            Ok(()) if self.is_at(rt, path) => Ok(()),
            Err(error) if has_no_links(&error) => self.put_over(rt, path),
            _ => Err(Refusal::CannotMakeCore),
        }
    }

    /// The same in a file system without links: a file without bytes takes the name, and the whole one its place.
    fn put_over<R: Files<File = File>>(&self, rt: &R, path: &str) -> Result<(), Refusal>
        ensures { IfErr result (λ e. e ≡ Refusal.CannotMakeCore) }
    {
        let Ok(holder) = new_file(rt, path) else {
            return Err(Refusal::CannotMakeCore);
        };
        let made = holder.metadata();
        let is_whole = leads_to(rt, path, &made)
            && self.is_at(rt, self.name.as_str())
            && fs::rename(rt, self.name.as_str(), path).is_ok()
            && self.is_at(rt, path);
        if !is_whole {
            remove_made(rt, path, &made);
            return Err(Refusal::CannotMakeCore);
        }
        Ok(())
    }

    /// Removes the file's own name.
    pub(crate) fn remove<R: Files<File = File>>(&self, rt: &R) {
        remove_made(rt, self.name.as_str(), &self.made);
    }
}

/// A name in the folder of a path.
fn part_name(alloc: Global, path: &str, number: u32) -> Result<String, AllocError> {
    let folder = match Path::new(path).parent() {
        Some(folder) if !folder.as_str().is_empty() => folder.as_str(),
        _ => ".",
    };
    format!(in alloc; "{folder}/rrv-{number}.part")
}

/// Makes a file where nothing is.
fn new_file<R: Files<File = File>>(rt: &R, path: &str) -> io::Result<File> {
    OpenOptions::new()
        .write(true)
        .create_new(true)
        .mode(OWNER_ALONE)
        .open(rt, path)
}

/// Whether an error says that the file system has no links.
fn has_no_links(error: &io::Error) -> bool {
    matches!(
        error.kind(),
        ErrorKind::PermissionDenied | ErrorKind::Unsupported
    )
}

/// Whether a path leads to the file that was made, and not to one that another program put there.
fn leads_to<R: Files<File = File>>(rt: &R, path: &str, made: &io::Result<Metadata>) -> bool {
    let Ok(made) = made.as_ref() else {
        return false;
    };
    let Ok(there) = fs::symlink_metadata(rt, path) else {
        return false;
    };
    made.ino() == there.ino() && made.dev() == there.dev()
}

/// Removes the file that was made, if this path leads to it.
fn remove_made<R: Files<File = File>>(rt: &R, path: &str, made: &io::Result<Metadata>) {
    if leads_to(rt, path, made) {
        let _ = fs::remove_file(rt, path);
    }
}
