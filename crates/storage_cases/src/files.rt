//! Machines with disks in files of the host, and what other programs do to these files.

use crate::machine::Machine;
use crate::words::{byte, bytes_from, done, number, told};
use recover::settle;
use std::alloc::Global;
use std::fmt::Display;
use std::fs::{self, File, OpenOptions};
use std::io;
use std::os::unix::fs::{FileExt, symlink};
use std::rt::Files;
use trace_disk::{Disk, FileDisk};

/// The path that words say: `\0` in it is a byte of zero, and no word is the empty path.
fn path_in(alloc: Global, words: &[&str]) -> Option<String> {
    words
        .get(1)
        .copied()
        .unwrap_or("")
        .replace(alloc, "\\0", "\0")
        .ok()
}

/// Goes on with a disk, if there is one.
fn keep<F: Display + Drop>(
    alloc: Global,
    machine: &mut Machine<FileDisk>,
    opened: Result<FileDisk, F>,
) -> Option<String> {
    match opened {
        Ok(disk) => machine.put(alloc, disk),
        Err(fault) => told(alloc, &fault),
    }
}

/// Ends a disk after so many bytes, of which this is the last.
fn end(alloc: Global, disk: &mut FileDisk, len: u64, last: u8) -> Option<String> {
    if len < 1 || disk.len() < len {
        return None;
    }
    disk.end_with(len, last);
    Some(String::new(alloc))
}

fn growth_text(alloc: Global, disk: &mut FileDisk) -> Option<String> {
    match disk.has_grown() {
        Ok(has_grown) => told(alloc, &has_grown),
        Err(fault) => told(alloc, &fault),
    }
}

/// What a machine with a disk in a file finds where words ask this.
pub fn ask_file<R: Files<File = File> + AllocGlobal>(
    rt: &R,
    machine: &mut Machine<FileDisk>,
    words: &[&str],
) -> Option<String> {
    let alloc = rt.alloc();
    let path = path_in(alloc, words)?;
    let path = path.as_str();
    match words.first().copied()? {
        "make" => keep(alloc, machine, FileDisk::create(rt, path)),
        "open-file" => keep(alloc, machine, FileDisk::open(rt, path)),
        "open-to-read" => keep(alloc, machine, FileDisk::open_to_read(rt, path)),
        "let-go" => {
            *machine = Machine::new(alloc);
            Some(String::new(alloc))
        }
        "end-with" => {
            let (len, last) = (number(words, 1)?, byte(words, 2)?);
            end(alloc, machine.disk.as_mut()?, len, last)
        }
        "settle" => done(alloc, settle(machine.disk.as_mut()?)),
        "has-grown" => growth_text(alloc, machine.disk.as_mut()?),
        _ => machine.answer(alloc, words),
    }
}

/// A file of this path, opened to be written.
fn to_write<R: Files<File = File>>(rt: &R, path: &str) -> io::Result<File> {
    OpenOptions::new().write(true).open(rt, path)
}

/// Does what words say that another program does.
fn change<R: Files<File = File> + AllocGlobal>(rt: &R, words: &[&str]) -> Option<()> {
    let alloc = rt.alloc();
    let path = words.get(1).copied()?;
    match words.first().copied()? {
        "mkdir" => fs::create_dir(rt, path).ok(),
        "rmdir" => fs::remove_dir(rt, path).ok(),
        "put" => fs::write(rt, path, &bytes_from(alloc, words, 2)?).ok(),
        "cut-file" => to_write(rt, path).ok()?.set_len(number(words, 2)?).ok(),
        "overwrite" => {
            let bytes = bytes_from(alloc, words, 3)?;
            let mut file = to_write(rt, path).ok()?;
            file.write_all_at(&bytes, number(words, 2)?).ok()
        }
        "link" => symlink(rt, *words.get(2)?, path).ok(),
        "name" => fs::hard_link(rt, *words.get(2)?, path).ok(),
        "remove" => fs::remove_file(rt, path).ok(),
        _ => None,
    }
}

/// What is found where words ask what another program sees, or let it do something.
pub fn ask_others<R: Files<File = File> + AllocGlobal>(rt: &R, words: &[&str]) -> Option<String> {
    let alloc = rt.alloc();
    if words.first().copied()? == "holds" {
        let bytes = fs::read(rt, *words.get(1)?).ok()?;
        return hex::encode(alloc, &bytes).ok();
    }
    change(rt, words)?;
    Some(String::new(alloc))
}
