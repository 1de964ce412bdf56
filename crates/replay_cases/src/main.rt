//! Goes through cases of recordings, which come as lines of text, `ASKED = WANT`. Prints each line of which something
//! else was found, and last how many lines there were.
//!
//! | Asked | Finds |
//! |---|---|
//! | `records NAME` | the list in the file NAME.records, once verified: its records and instructions, or its refusal |
//! | `record FILE QUANTUM ..` | the same of slices of a file's first thread, made here, `TID:QUANTUM` of another; a `+` is a checkpoint |
//! | `record two FILE ..` | the same of a guest of version 2; `!TID` is the end of a timed wait |
//! | `state T TOLD` | what is told of the state at T |
//! | `MOVE N .. TOLD` | what a cursor answers to moves from the start on, and what is told of where it then is |
//! | `follow NAME TOLD` | the instructions behind each record of that list, its refusal, and what is told of its end |
//! | `mutate NAME OTHER N SEED` | how many pass of so many lists, changed or mixed with others |
//! | `met N OUTCOME` | whether so many of these came to that |
//!
//! `state` and moves ask of the list before them. A move is `seek`, `back`, `forward` or `change`, which goes to the
//! last change of the byte at an address. Of a state is told its `place`, its `lines`, their `digest`, or whether it
//! took no more instructions than `within` says; behind `follow NAME` this may be left out. A line that begins with `#`
//! says what follows.
//!
//! # What they show
//!
//! - Recordings with checkpoints, which a restatement in Python writes: the lines of the state at places of them, as it has
//!   them too; the refusals of wrong ones by the record that is wrong; and eleven thousand mutated lists, each refused by name,
//!   with a recording before the record that is named, or taken, with the states to which its frames alone lead. At the limits:
//!   1,024 changed pages are made one part, and 1,025 two; of a guest with 16,384 pages a checkpoint that names all is taken,
//!   and one that maps another is refused by its last part.
//! - A guest of version 2 whose waits expire, also after a checkpoint at the same count: at each count a cursor finds the same
//!   state, whichever way it came; and lists in which such a frame, or a timeout of a checkpoint, lies.
#![tactic(auto)]

mod followed;
mod lists;
mod made;
mod moves;
mod mutants;
mod session;
mod told;

use session::Session;
use std::io;
use std::process::ExitCode;
use test_guests::cases::go_through;

fn main(rt: HostRuntime) -> io::Result<ExitCode> {
    go_through(&rt, &mut Session::new(rt.alloc()))
}
