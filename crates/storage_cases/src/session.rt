//! The machines that lines ask.

use crate::files::{ask_file, ask_others};
use crate::machine::Machine;
use crate::memory::Memory;
use std::alloc::{AllocError, Global};
use std::fs::File;
use std::rt::Files;
use trace_disk::FileDisk;

/// A machine with a disk in memory, and two with disks in files.
#[derive(Drop)]
pub struct Session {
    memory: Memory,
    file: Machine<FileDisk>,
    look: Machine<FileDisk>,
}

/// Puts what was found behind the rest, if that is something.
fn add(text: &mut String, found: &str) -> Result<(), AllocError> {
    if found.is_empty() {
        return Ok(());
    }
    if !text.is_empty() {
        text.push_str(", ")?;
    }
    text.push_str(found)
}

impl Session {
    /// Machines with no disks.
    pub fn new(alloc: Global) -> Session {
        Session {
            memory: Memory::new(alloc),
            file: Machine::new(alloc),
            look: Machine::new(alloc),
        }
    }

    /// What is found where words ask this.
    fn ask<R: Files<File = File> + AllocGlobal>(
        &mut self,
        rt: &R,
        words: &[&str],
    ) -> Option<String> {
        let rest = words.get(1..)?;
        match words.first().copied()? {
            "file" => ask_file(rt, &mut self.file, rest),
            "look" => ask_file(rt, &mut self.look, rest),
            "others" => ask_others(rt, rest),
            _ => self.memory.answer(rt, words),
        }
    }

    /// What is found by each part of a line.
    pub fn go_through<R: Files<File = File> + AllocGlobal>(
        &mut self,
        rt: &R,
        asked: &str,
    ) -> Option<String> {
        let alloc = rt.alloc();
        let mut text = String::new(alloc);
        for part in asked.split(" ; ") {
            let words: Vec<&str> = part.split_whitespace().collect(alloc).ok()?;
            match self.ask(rt, &words) {
                Some(found) => add(&mut text, found.as_str()).ok()?,
                None => return format!(in alloc; "{text}, and no answer to {part}").ok(),
            }
        }
        if text.is_empty() {
            text.push_str("done").ok()?;
        }
        Some(text)
    }
}
