//! A disk on which a store is made, committed to and opened.

use crate::calls::{ask_lists, call_disk, call_log, put_numbered};
use crate::words::{bytes_from, number, short_number, told};
use recover::{Lists, open_in_pieces, read};
use std::alloc::Global;
use trace_disk::Disk;
use trace_log::Log;

/// A disk, or a log on it; the records that were there at the last opening; and a body to be committed.
pub struct Machine<D: Disk> {
    pub disk: Option<D>,
    log: Option<Log<D>>,
    lists: Option<Lists>,
    body: Vec<u8>,
}

// Written out: where one goes, a proof has one call, and not one for each of its parts.
impl<D: Disk + Drop> Drop for Machine<D> {
    fn drop(self) {
        let Machine {
            disk: _,
            log: _,
            lists: _,
            body: _,
        } = self;
    }
}

impl<D: Disk + Drop> Machine<D> {
    /// One with no disk.
    pub fn new(alloc: Global) -> Machine<D> {
        Machine {
            disk: None,
            log: None,
            lists: None,
            body: Vec::new(alloc),
        }
    }

    /// Puts a disk in place of what it has.
    pub fn put(&mut self, alloc: Global, disk: D) -> Option<String> {
        self.disk = Some(disk);
        self.log = None;
        Some(String::new(alloc))
    }

    fn create(&mut self, alloc: Global) -> Option<String> {
        match Log::create(self.disk.take()?) {
            Ok(log) => self.log = Some(log),
            Err((disk, fault)) => {
                self.disk = Some(disk);
                return told(alloc, &fault);
            }
        }
        Some(String::new(alloc))
    }

    /// Takes the store to end at a closed gate, behind so many segments.
    fn adopt(&mut self, alloc: Global, gate: u64, segments: u32) -> Option<String> {
        let disk = self.disk.take()?;
        if disk.len() <= gate {
            return None;
        }
        self.log = Some(Log::adopt(disk, gate, segments, false));
        Some(String::new(alloc))
    }

    /// Opens the store in pieces of so many bytes.
    fn open(&mut self, alloc: Global, piece: usize) -> Option<String> {
        if piece == 0 || piece > 65_536 {
            return None;
        }
        match open_in_pieces(alloc, self.disk.take()?, piece) {
            Ok((log, lists)) => {
                self.log = Some(log);
                self.lists = Some(lists);
            }
            Err((disk, fault)) => {
                self.disk = Some(disk);
                return told(alloc, &fault);
            }
        }
        Some(String::new(alloc))
    }

    /// Only reads the store.
    fn read(&mut self, alloc: Global) -> Option<String> {
        match read(alloc, self.disk.as_mut()?) {
            Ok(lists) => self.lists = Some(lists),
            Err(fault) => return told(alloc, &fault),
        }
        Some(String::new(alloc))
    }

    fn close(&mut self, alloc: Global) -> Option<String> {
        self.disk = Some(self.log.take()?.close());
        Some(String::new(alloc))
    }

    /// What the log answers. What was to be committed is gone then.
    fn log(&mut self, alloc: Global, words: &[&str]) -> Option<String> {
        let answer = call_log(alloc, self.log.as_mut()?, &self.body, words);
        self.body.clear();
        answer
    }

    /// What is found where words ask this.
    pub fn answer(&mut self, alloc: Global, words: &[&str]) -> Option<String> {
        match words.first().copied()? {
            "create" => self.create(alloc),
            "adopt" => self.adopt(alloc, number(words, 1)?, short_number(words, 2)?),
            "open" => self.open(alloc, 65_536),
            "open-in" => self.open(alloc, usize::try_from(number(words, 1)?).ok()?),
            "read" => self.read(alloc),
            "close" => self.close(alloc),
            "body" => {
                self.body
                    .extend_from_slice(&bytes_from(alloc, words, 1)?)
                    .ok()?;
                Some(String::new(alloc))
            }
            "numbered" => {
                put_numbered(alloc, &mut self.body, words)?;
                Some(String::new(alloc))
            }
            "commit" | "commit-each" | "next-guest" | "raise-guest" | "mark" | "marked" => {
                self.log(alloc, words)
            }
            "guests" | "records" | "record-at" | "reads" => {
                ask_lists(alloc, self.lists.as_ref()?, self.disk.as_mut(), words)
            }
            _ => call_disk(alloc, self.disk.as_mut()?, words),
        }
    }
}
