//! Lines that ask and say what has to be found, as `space pages = 3`.

use crate::answers::{add, named};
use crate::pages::Pages;
use crate::threads::Subject;
use crate::{code, lanes};
use elf_load::ElfFault;
use guest_pages::{PageFault, Space};
use guest_threads::{PartsFault, ThreadFault};
use rv_machine::CodeSpace;
use std::alloc::Global;

/// The refusals of ELF files, by their numbers.
const ELF_FAULTS: [ElfFault; 16] = [
    ElfFault::TooShort,
    ElfFault::NotElf,
    ElfFault::NotClass32,
    ElfFault::NotLittle,
    ElfFault::NotExec,
    ElfFault::NotRiscV,
    ElfFault::Compressed,
    ElfFault::BadTable,
    ElfFault::Interp,
    ElfFault::OutsideFile,
    ElfFault::SizesCrossed,
    ElfFault::AddressRange,
    ElfFault::Overlap,
    ElfFault::TooLarge,
    ElfFault::NoLoad,
    ElfFault::Memory,
];

/// What lines ask.
#[derive(Drop)]
pub struct Subjects {
    pages: Pages,
    code: CodeSpace,
    threads: Subject,
}

/// The numbers of the refusals of ELF files, each with its text.
fn elf_refusals(alloc: Global) -> Option<String> {
    let mut text = String::new(alloc);
    for fault in ELF_FAULTS {
        let number = fault.number();
        add(
            &mut text,
            format!(in alloc; "{number} {fault:?}: {fault}")
                .ok()?
                .as_str(),
        )?;
    }
    Some(text)
}

/// The refusals of what has this name, each with its text.
fn refusals(alloc: Global, name: &str) -> Option<String> {
    match name {
        "elf" => elf_refusals(alloc),
        "space" => named(
            alloc,
            &[
                PageFault::NotMapped,
                PageFault::NotAllowed,
                PageFault::TooManyPages,
                PageFault::Memory,
            ],
        ),
        "threads" => named(
            alloc,
            &[
                ThreadFault::TooMany,
                ThreadFault::NotThere,
                ThreadFault::Memory,
            ],
        ),
        "parts" => named(alloc, &[PartsFault::NoState, PartsFault::Memory]),
        _ => None,
    }
}

impl Subjects {
    /// Nothing mapped, and no threads.
    pub fn new(alloc: Global) -> Subjects {
        Subjects {
            pages: Pages::new(alloc),
            code: CodeSpace::new(alloc, Space::new(alloc)),
            threads: Subject::new(),
        }
    }

    /// What one part of a line finds.
    fn ask(&mut self, alloc: Global, kind: &str, part: &str) -> Option<String> {
        match kind {
            "threads" => return self.threads.answer(alloc, part),
            "lanes" => return lanes::answer(alloc, part),
            "refusals" => return refusals(alloc, part),
            _ => {}
        }
        let words: Vec<&str> = part.split_whitespace().collect(alloc).ok()?;
        match kind {
            "space" => self.pages.answer(alloc, &words),
            "code" => code::answer(alloc, &mut self.code, &words),
            _ => None,
        }
    }

    /// Whether a line finds what it wants: its parts, with ` ; ` between them, find texts, which stand with commas between them.
    pub fn holds(&mut self, alloc: Global, kind: &str, line: &str) -> Option<bool> {
        let (asked, want) = line.split_once(" = ").unwrap_or((line, ""));
        let mut text = String::new(alloc);
        for part in asked.split(" ; ") {
            add(&mut text, self.ask(alloc, kind, part)?.as_str())?;
        }
        Some(text.as_str() == want)
    }
}
