//! Goes through cases of instructions, of ELF files, and of address spaces, code that changes, threads and lines of pages, which come as
//! lines of text. Prints each line that isn't understood or does not hold, and last how many lines there were. A number is written as
//! code writes it, as 17 or 0x11; what stands in brackets may be left out; an empty line, one that begins with `#`, and what stands
//! behind ` # ` say nothing.
//!
//! Instructions:
//! - `word WORD [NAME=VALUE ..] gives [NAME=VALUE ..]`: one step of this instruction. It stands at 0x10000, in a page that may be read,
//!   written and executed, before a page like it, at 0x11000. A name in front of `gives` is one of `pc` (else 0x10000), `a0` to `a3`,
//!   `data` (else 0), a word of data, `at` (else 0x11000), where that stands, in one of these pages or across both, and `reserved`
//!   (else `none`), the reserved address. Behind it stands what the step changes: the same names, of which `pc` is
//!   the next instruction where nothing is said; `end`, `next` where nothing is said,
//!   else `call` or the fault as `bad-instruction`; and `again`, the word that the instruction is encoded as, which is the same word
//!   where nothing is said, and `none` where the word is no instruction. All other registers are 0 before and behind the step.
//! - `decodes WORD AGAIN INSTRUCTION`: the word stands for this instruction, as `{:?}` prints it, which is encoded as the word AGAIN.
//!   `decodes WORD none`: it stands for none.
//!
//! ELF files, each line about the file that those before it made:
//! - `file`: an empty one. `bytes BYTE ..` and `words WORD ..` add to it, a word with its low byte first. `length N` cuts it, or adds
//!   zeros. `put OFFSET BYTE ..` replaces bytes of it.
//! - `header WORD ..`: puts the next program header at its place in the table behind the ELF header, and counts it there.
//! - `keep` keeps the file as it is, and `again` takes it up as it was kept.
//! - `refusal N`: why it is refused, by number; `none` where it is an image.
//! - `patch OFFSET BYTE .. refusal N`: the same of a copy with these bytes in place of its own.
//! - `cut FIRST LAST refusal N`: the same of its first FIRST bytes, and so on up to its first LAST bytes.
//! - `image ENTRY HEADERS COUNT END LOADS`: what it is as an image: its entry, the address of its program headers and their count, the
//!   opening break, and the count of its PT_LOADs, whose image keeps the bytes of the file.
//! - `load INDEX KIND OFFSET ADDRESS FILE MEMORY FLAGS`: one of these.
//! - `series COUNT PLACE WORD ..`: adds these words so many times, of which the one at a place is less by 1 each time.
//! - `mutate COPIES SEED`: this many copies with wrong bytes are each an image, or refused by the fault that a plain reading of them
//!   finds.
//!
//! Lines that ask, as `KIND PART ; PART = FOUND, FOUND`: what the parts find stands behind ` = `, and what is done finds nothing if it
//! isn't refused, else the refusal. `none` is what isn't there.
//! - `refusals space`, `threads`, `parts`, `elf`: the refusals of these, each with its text.
//! - `space`: an address space, with permissions as `rw-`, pages by their numbers, and bytes as hex digits, as `07*5000`. `new` is one
//!   with nothing mapped, `open` that of the program that exits with 5, with its entry and its stack pointer; `swap` goes on with the other
//!   one, and `same` compares both. It is changed by `map PAGE COUNT rw-`, `cover PAGE rw-`, `protect PAGE COUNT rw-`, `unmap PAGE COUNT`,
//!   `clear PAGE`, `set PAGE rw- BYTES BYTE` (its first bytes, of which the last fills it, and its last byte), `store-byte ADDRESS BYTE`,
//!   `store-half ADDRESS HALF`, `store-word ADDRESS WORD`, `store ADDRESS BYTES`, `prepare ADDRESS COUNT`, `fill ADDRESS BYTES`. Asked are
//!   `byte`, `half`, `word` and `fetch` of an address, `load` of 4,999 bytes behind the first of 5,000 nines, `page` of a number, `pages`,
//!   `readable` and `writable` of an address and a count, `mapped` and `free` of a page and a count, `highest-free` up to a page for a
//!   count, and `buffers` of a list's address and count.
//! - `code`: such a space with pages that are kept decoded. `new`, the changes above of words and whole pages, and
//!   `run LIMIT PC A0 A1 A2`: how many instructions run, why no more do, a0 and the next `pc`.
//! - `threads`: `new` is one thread, `parts NEXT-TID PART .. | TID ..` are those of a checkpoint, with the waiting order (`2@8` waits at
//!   8, and `!` puts 1 into x0). `spawn`, `wait TID ADDRESS`, `exit TID`, `wake ADDRESS COUNT`, `stands TID PC`, `clears TID ADDRESS`,
//!   `waiting`, `all-running`, `running TID`, `has-running`, `live`, `full`, `empty`, `next-tid`, `thread TID`; `swap` and `same` as above.
//! - `lanes`: pages of one byte, or `0/63/128` of zeros but for 128 at 63. `changed PAGE PAGE`: which lines differ. `zero PAGE`: whether
//!   all bytes are zero. `merged MASK BYTE ..`: the ends of the first two lines and of the last, with lines of these bytes merged into zeros.
//!
//! # What they show
//!
//! - Instructions: worked examples of the manual; 362 words with operands and results that an assembler and qemu-riscv32 gave;
//!   a guest of every instruction.
//! - ELF files: cut, changed byte by byte, and ten thousand mutated ones against a plain restatement of the refusals.
#![tactic(auto)]

mod answers;
mod asked;
mod code;
mod files;
mod instructions;
mod lanes;
mod lines;
mod mutations;
mod pages;
mod plain;
mod threads;

use asked::Subjects;
use files::Subject;
use std::alloc::Global;
use std::io;
use std::process::ExitCode;

/// How far a run is.
#[derive(Drop)]
struct Run {
    subject: Subject,
    subjects: Subjects,
    instructions: u32,
    files: u32,
    asked: u32,
    wrong: u32,
}

impl Run {
    fn new(alloc: Global) -> Run {
        Run {
            subject: Subject::new(alloc),
            subjects: Subjects::new(alloc),
            instructions: 0,
            files: 0,
            asked: 0,
            wrong: 0,
        }
    }

    /// Takes a line, and tells whether it holds; None where it isn't understood, or no memory is left.
    fn take(&mut self, alloc: Global, line: &str) -> Option<bool> {
        if line.is_empty() || line.starts_with('#') {
            return Some(true);
        }
        let (said, _) = line.split_once(" # ").unwrap_or((line, ""));
        let (first, rest) = said.split_once(' ').unwrap_or((said, ""));
        match first {
            "word" => {
                self.instructions = self.instructions.saturating_add(1);
                instructions::steps(alloc, rest)
            }
            "decodes" => {
                self.instructions = self.instructions.saturating_add(1);
                instructions::decodes(alloc, rest)
            }
            "space" | "code" | "threads" | "lanes" | "refusals" => {
                self.asked = self.asked.saturating_add(1);
                self.subjects.holds(alloc, first, rest)
            }
            _ => {
                self.files = self.files.saturating_add(1);
                self.subject.take(alloc, first, rest)
            }
        }
    }
}

fn main(rt: HostRuntime) -> io::Result<ExitCode> {
    let mut run = Run::new(rt.alloc());
    for line in rt.lines(rt.alloc()) {
        let line = line?;
        let verdict = match run.take(rt.alloc(), line.as_str()) {
            Some(true) => continue,
            Some(false) => "does not hold",
            None => "isn't understood",
        };
        run.wrong = run.wrong.saturating_add(1);
        println!(rt; "{verdict}: {}", line.as_str())?;
    }
    println!(rt;
        "{} lines of instructions, {} lines of files, {} lines that ask, {} wrong",
        run.instructions, run.files, run.asked, run.wrong
    )?;
    if run.wrong == 0 {
        Ok(ExitCode::SUCCESS)
    } else {
        Ok(ExitCode::FAILURE)
    }
}
