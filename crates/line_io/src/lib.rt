//! What the lines of the program stand on: the files and the stores that they read, how text is printed, and why a line is refused.
//!
//! Tests: program_tests; `cases.lines` and `cases.scenes` run the program.
//!
//! # Contracts
//!
//! - `opened`, `looked`: a store and its records as `recover::open` or `recover::read` has them, for any disk; a refusal
//!   is the one that the bytes have, failures aside. That a store is read alone if it can't be written or locked is tested.
//! - `marked`: the log holds the Mark, which is committed if it wasn't there, and else the log is as it was; that the store is full
//!   is reported exactly if the Mark isn't there and doesn't fit.
//! - `guest_in`, `record_in`: the guest of a number, and its record of an index, or a refusal that names it. `NoSuchGuest` comes
//!   exactly if the store has none of that number. This and what follows of printed records is said of an honest disk on which the
//!   records stand; a file isn't one.
//! - `read_program`: all bytes of the file, and at most 2,097,152, else why they aren't read: `TooLong` comes only if there are
//!   more. `image_of`: the image of a program, or the refusal that its file has.
//! - `of_file_at`, `of_checked` of `Refusal`: what is told in words of a file is of this guest, this name and this fault, or there was no
//!   memory for it. What these words are is tested, and that the name is printed as `escapes` prints it.
//! - `print_put`: bytes for descriptor 2 are appended to the errors, all others to the output, whole.
//! - `finish`: nothing is lost of what was collected. That a flush that failed is reported is tested (`cases.host`): no contract says of a
//!   writer when it fails.
#![tactic(auto)]

mod elf_target;
mod file_fault;
mod files;
mod printing;
mod refusal;
mod shows;
mod store;
mod terminals;

pub use elf_target::ElfTarget;
pub use file_fault::{FileFault, FirstLine};
pub use files::{image_in, image_of, images_in, input_in, read_file, read_program};
pub use printing::{
    OutputFailed, end_open_line, finish, in_blocks, print_line, print_put, print_text, print_whole,
};
pub use refusal::Refusal;
pub use shows::Shows;
pub use store::{
    Store, guest_in, look_at, make_store, marked, open_log, open_store, opened, record_in,
};
pub use terminals::Terminals;
