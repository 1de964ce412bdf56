//! A machine with a disk in memory, of which a call may fail, and which may stop.

use crate::crashes::{crashed, crashes_text, marks, survives};
use crate::machine::Machine;
use crate::measured::Measured;
use crate::stores::disk_of;
use crate::words::{byte, number, short_number, told};
use std::alloc::Global;
use std::fs::{self, File};
use std::rt::Files;
use trace_disk::{FailOnce, MemDisk};

type Device = Measured<FailOnce<MemDisk>>;

/// A machine, and the disk that it had when it stopped.
#[derive(Drop)]
pub struct Memory {
    machine: Machine<Device>,
    stopped: Option<MemDisk>,
}

/// A disk, with room for so many bytes and calls if words say that.
fn new_disk(alloc: Global, words: &[&str]) -> Option<MemDisk> {
    if words.len() < 3 {
        return Some(MemDisk::new(alloc));
    }
    let bytes = usize::try_from(number(words, 1)?).ok()?;
    let calls = usize::try_from(number(words, 2)?).ok()?;
    MemDisk::with_room(alloc, bytes, calls).ok()
}

/// The least and the greatest length that a crash may leave.
fn lengths_text(alloc: Global, disk: &MemDisk) -> Option<String> {
    let (least, greatest) = (disk.least(), disk.greatest());
    format!(in alloc; "{least} to {greatest}").ok()
}

/// What is found of a disk when its machine stopped.
fn ask_stopped(alloc: Global, disk: &MemDisk, words: &[&str]) -> Option<String> {
    match words.first().copied()? {
        "lengths" => lengths_text(alloc, disk),
        "crashes" => crashes_text(alloc, disk, byte(words, 1)?),
        "survives" => {
            survives(alloc, disk, short_number(words, 1)?)?;
            Some(String::new(alloc))
        }
        _ => None,
    }
}

impl Memory {
    /// A machine with no disk.
    pub fn new(alloc: Global) -> Memory {
        Memory {
            machine: Machine::new(alloc),
            stopped: None,
        }
    }

    /// Goes on with a disk that fails at this call from now on, counted from 1; at none with 0.
    fn put(&mut self, alloc: Global, disk: MemDisk, fails: u64) -> Option<String> {
        let disk = FailOnce::new(disk, fails);
        self.machine.put(alloc, Measured { disk, longest: 0 })
    }

    fn take(&mut self) -> Option<MemDisk> {
        let Measured { disk, longest: _ } = self.machine.disk.take()?;
        Some(disk.into_inner())
    }

    fn stop(&mut self, alloc: Global) -> Option<String> {
        self.stopped = Some(self.take()?);
        Some(String::new(alloc))
    }

    /// Nothing where no read was longer than so many bytes, else the length of the longest.
    fn reads_within(&self, alloc: Global, count: u64) -> Option<String> {
        let longest = self.machine.disk.as_ref()?.longest as u64;
        if longest <= count {
            return Some(String::new(alloc));
        }
        told(alloc, &longest)
    }

    /// What is found where words ask this.
    pub fn answer<R: Files<File = File> + AllocGlobal>(
        &mut self,
        rt: &R,
        words: &[&str],
    ) -> Option<String> {
        let alloc = rt.alloc();
        match words.first().copied()? {
            "disk" => self.put(alloc, new_disk(alloc, words)?, 0),
            "load" => {
                let bytes = fs::read(rt, *words.get(1)?).ok()?;
                self.put(alloc, disk_of(alloc, &bytes)?, 0)
            }
            "fail" => {
                let disk = self.take()?;
                self.put(alloc, disk, number(words, 1)?)
            }
            "stop" => self.stop(alloc),
            "go-on" => {
                let disk = self.stopped.take()?;
                self.put(alloc, disk, 0)
            }
            "crash" => {
                let disk = self.stopped.as_ref()?;
                let crash = crashed(alloc, disk, number(words, 1)?, byte(words, 2)?)?;
                self.put(alloc, crash, 0)
            }
            "marks" => {
                let bytes = fs::read(rt, *words.get(2)?).ok()?;
                marks(
                    alloc,
                    self.stopped.as_ref()?,
                    short_number(words, 1)?,
                    &bytes,
                )?;
                Some(String::new(alloc))
            }
            "lengths" | "crashes" | "survives" => {
                ask_stopped(alloc, self.stopped.as_ref()?, words)
            }
            "longest" => told(alloc, &self.machine.disk.as_ref()?.longest),
            "reads-within" => self.reads_within(alloc, number(words, 1)?),
            _ => self.machine.answer(alloc, words),
        }
    }
}
