//! The command line of `rrv`: its commands and their arguments, and the seed of random bytes.
//!
//! Tests: program_tests; `cases.lines` and `cases.scenes` run it.
//!
//! # Contracts
//!
//! - `program`: each command with its arguments, in their order, as the table in `specs/Commands.antt` has them. For these the
//!   kit's parser says exactly what it finds in words, and which kinds of error they give.
//! - `line`: Ok of some words exactly names what the parser found: the command, its texts, and its numbers, each within its
//!   bounds (`Asks`, a row a command). It is Ok only if the parser takes the words. An error has one of the kinds that the
//!   words give; or is out of memory; or is a bad value, which comes only if the parser takes the words and no request asks for
//!   what it found. No word at all is the demonstration.
//! - Numbers: decimal digits, with a plus before them or none, as a number of 64 bits or within the bounds of the argument; an
//!   address is 1 to 8 hexadecimal digits, with `0x` before them or not. A place is a number or `end`. A range of memory is an
//!   address, a colon and a length, and none is asked for without a place. The bytes that `last` watches, one or the four of a
//!   word, have addresses below 2^32. Files of choices are none, one, or as many as
//!   programs, and so are names, each of which fits a guest, also with the guest's place behind the only one of several. Each
//!   value that is refused fits no request.
//! - `asked_in`: what a line of `ask` asks: its name, and after the first space its value, which is a place, a number, an address
//!   or a range of memory as the arguments of commands are, a file, or nothing. It is refused only if nothing is asked so. A value that
//!   is missing is told as such exactly if it is empty (`unlike`, private).
//! - `shown_words` (private): the words of which the parser's error speaks are those of the line as `escapes` prints them. That no text of
//!   an error has a control character of a word is tested.
//! - `help`: what the parser says where help is asked for.
//! - `seed`: Ok exactly for 32 hexadecimal digits, with the 16 bytes that they write.
#![tactic(auto)]

mod arguments;
mod asked;
mod commands;
mod digits;
mod lines;
mod memory;
mod numbers;
mod recording;
mod request;
mod unread;
mod values;

pub use asked::{Asked, BadLine, Inquiry, asked_in};
pub use commands::program;
pub use digits::{BadSeed, seed};
pub use lines::{help, line};
pub use request::{
    DumpForm, Every, GuestOf, MemoryRange, Place, Question, Recording, Request, Then, Watched,
};
pub use unread::Wanted;
