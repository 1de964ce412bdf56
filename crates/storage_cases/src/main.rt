//! Goes through cases of records, disks and stores, which come as lines of text: `ASKED = WANT`. Prints each line that finds something
//! else, and last how many lines there were. A line that begins with `#` says what follows.
//!
//! | Asked | Finds |
//! |---|---|
//! | `record BYTES` | what the record tells whose text these are, or why there is none |
//! | `beginnings BYTES` | the same of each beginning of the bytes, the whole left out |
//! | `refusals NAME` | the refusals of `record`, `disk`, `log`, `open` or `read`, each with its text |
//! | `store FILE` | what the store of a file is once it is opened, or why it is refused |
//! | `store FILE cut FROM TO` | the same of its first bytes, from so many to so many |
//! | `store FILE flip FROM TO` | the same with one byte changed, at each place from one to another, in three ways |
//! | `store FILE put PLACE FROM TO` | the same with each byte from one to another at a place |
//! | `no-memory BYTES` | what the records of a store of these bytes tell, also if a growth is refused: what finds no memory is done again |
//!
//! Any other line asks a machine, in parts with ` ; ` between them. What a part finds stands behind what those before it found, with a
//! comma, and `done` stands for nothing at all. What is done finds nothing if it is not refused, else the refusal.
//!
//! | Part | What it does or finds |
//! |---|---|
//! | `disk`, `disk BYTES CALLS`, `load FILE` | a new disk in memory: with no room, with that room, with the bytes of a file |
//! | `write PLACE BYTES`, `append BYTES`, `cut LEN`, `sync`, `write-through ..`, `cut-through ..` | calls of the disk |
//! | `len`, `failures`, `bytes PLACE COUNT` | its length, how many calls failed, bytes of it |
//! | `longest`, `reads-within COUNT` | the length of its longest read; nothing where that is no more |
//! | `fail N` | the Nth call of the disk from now on fails; none with 0 |
//! | `create`, `adopt GATE SEGMENTS`, `close` | makes a log, takes one to end at a gate, closes it |
//! | `body BYTES` | puts bytes behind those to be committed |
//! | `numbered FROM TO PLACE BYTES` | puts a record's text behind these for each index from one up to another, which stands at PLACE too |
//! | `commit`, `commit-each COUNT` | commits these bytes, or each COUNT of them |
//! | `raise-guest N`, `next-guest` | calls of the log |
//! | `mark`, `marked` | whether the log committed the Mark now, whether it holds the Mark |
//! | `open`, `open-in PIECE`, `read` | opens the store, opens it in pieces, only reads it |
//! | `guests`, `records GUEST`, `record-at GUEST INDEX` | what was there at the last of these |
//! | `reads GUEST FROM TO WORDS` | how many records from one index up to another tell what begins so |
//! | `stop`, `go-on` | the machine stops, and its disk is kept; goes on with that disk |
//! | `lengths` | the least and the greatest length that a crash of that disk may leave |
//! | `crash LEN BYTE` | goes on with what a crash leaves, with the byte wherever it may change one |
//! | `crashes BYTE` | what is opened after a crash of each length |
//! | `marks COUNT FILE` | each of nine crashes leaves so many records, and once it is marked, if it isn't, the bytes of a file |
//! | `survives COUNT` | each of nine crashes, and of nine behind each failed call of its opening, leaves so many records, or one more |
//! | `file PART`, `look PART` | the same of a machine with a disk in a file |
//! | `.. make PATH`, `.. open-file PATH`, `.. open-to-read PATH`, `.. let-go` | its disk is made, opened, opened to be read alone, let go |
//! | `.. end-with LEN BYTE`, `.. settle`, `.. has-grown` | calls of that disk |
//! | `others mkdir PATH`, `.. rmdir PATH`, `.. remove PATH`, `.. link PATH TEXT`, `.. name PATH OLD` | what other programs do |
//! | `.. put PATH BYTES`, `.. cut-file PATH LEN`, `.. overwrite PATH PLACE BYTES` | the same |
//! | `others holds PATH` | the bytes of a file for all who read it |
//!
//! Bytes are words of hex digits; behind a `*` stands how often they come. `opening` and `call` are the records of a guest that exits
//! with 5. In a path `\0` is a byte of zero.
//!
//! # What they show
//!
//! - Stores: their bytes against bytes made by a few lines of Python, and their crashes. One of 256 records is opened in pieces
//!   of 1 to 64 and of 65,536 bytes, with the same lists each time, and no read is longer than the piece.
//! - Disks in files of the host, and looks at a store in one while a log commits to it.
#![tactic(auto)]

mod calls;
mod changes;
mod crashes;
mod files;
mod machine;
mod measured;
mod memory;
mod records;
mod refusals;
mod refused;
mod session;
mod stores;
mod words;

use changes::changes_of;
use records::{beginnings_text, record_text};
use refusals::refusals_text;
use refused::text_at_last;
use session::Session;
use std::fs::{self, File};
use std::io;
use std::process::ExitCode;
use std::rt::Files;
use stores::changed_stores_text;
use test_guests::bytes::bytes_of;
use test_guests::cases::{Answers, go_through};
use words::bytes_said;

/// What a line about a store finds; None where it asks nothing.
fn store_answer<R: Files + AllocGlobal>(rt: &R, asked: &str, want: &str) -> Option<String> {
    let alloc = rt.alloc();
    let words: Vec<&str> = asked.split_whitespace().collect(alloc).ok()?;
    let (file, change) = words.split_first()?;
    let changes = changes_of(alloc, change)?;
    let bytes = fs::read(rt, *file).ok()?;
    changed_stores_text(alloc, &bytes, &changes, want)
}

impl Answers for Session {
    /// Where a line goes through several cases, it finds the first that finds something else than wanted.
    fn answer<R: Files<File = File> + AllocGlobal>(
        &mut self,
        rt: &R,
        asked: &str,
        want: &str,
    ) -> Option<String> {
        let alloc = rt.alloc();
        let (kind, rest) = asked.split_once(' ').unwrap_or((asked, ""));
        match kind {
            "record" => record_text(alloc, &bytes_of(alloc, rest)?),
            "beginnings" => beginnings_text(alloc, &bytes_of(alloc, rest)?, want),
            "refusals" => refusals_text(alloc, rest),
            "store" => store_answer(rt, rest, want),
            "no-memory" => text_at_last(alloc, &bytes_said(alloc, rest)?),
            _ => self.go_through(rt, asked),
        }
    }
}

fn main(rt: HostRuntime) -> io::Result<ExitCode> {
    go_through(&rt, &mut Session::new(rt.alloc()))
}
