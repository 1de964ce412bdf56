//! Why the values of a command are not read.

ghost use Rattle.std.specs.Prelude.{◌≡◌};

use escapes::Escaped;
use std::alloc::{AllocError, AllocFailed};
use std::fmt;
use std::fmt::{Display, Formatter};
use thiserror::Error;

/// Why the values of a command are not read.
#[derive(Clone, Copy, Debug, Error)]
pub(crate) enum Unread<'a> {
    /// The argument has no value.
    #[error("no value for '{name}'")]
    Missing {
        name: &'a str,
    },
    /// The argument has this text, which is not what is wanted.
    #[error("invalid value '{}' for '{name}': not {wanted}", Escaped::word(*.text))]
    Bad {
        name: &'a str,
        text: &'a str,
        wanted: Wanted,
    },
    /// `--memory` is given, and no place of which it is to be printed.
    #[error("--memory needs --at")]
    MemoryAlone,
    /// The option is given so often for so many programs.
    #[error("--{name} is given {count} times for {programs} programs: give it once, or once for each")]
    BadCount {
        name: &'a str,
        count: usize,
        programs: usize,
    },
    /// Records are to be printed in two ways at once.
    #[error("--places cannot be used with --trace-events")]
    TwoForms,
    /// A growth was refused.
    #[error("out of memory")]
    Memory,
}

/// What the text of an argument has to be.
#[derive(Clone, Copy, Debug)]
pub enum Wanted {
    /// A number within these bounds.
    Number { least: u64, most: u64 },
    /// An address.
    Address,
    /// The address of four bytes.
    WordAddress,
    /// A place.
    Place,
    /// The bytes of memory that are to be printed.
    Range,
    /// The name of a command.
    Command,
    /// A name, of so many characters at most.
    Name { most: usize },
    /// One of the two that `--then` can have.
    Then,
    /// What `--every` can have.
    Every,
}

impl Display for Wanted {
    fn fmt<W: fmt::Write>(&self, f: &mut Formatter<W>) -> fmt::Result {
        match *self {
            Wanted::Number { least, most } => write!(f, "a number from {least} to {most}"),
            Wanted::Address => f.write_str("1 to 8 hexadecimal digits"),
            Wanted::WordAddress => {
                f.write_str("the address of four bytes: 1 to 8 hexadecimal digits, up to fffffffc")
            }
            Wanted::Place => f.write_str("a place: a number of instructions, or end"),
            Wanted::Range => f.write_str(
                "ADDR:LEN, with 1 to 8 hexadecimal digits and a length from 1 to 65536",
            ),
            Wanted::Command => f.write_str("a command"),
            Wanted::Name { most } => write!(f, "1 to {most} characters from ! to ~"),
            Wanted::Then => f.write_str("turns or none"),
            Wanted::Every => f.write_str("a number from 0 to 4294967295, or auto"),
        }
    }
}

impl From<AllocError> for Unread<'_> {
    ghost use Rattle.command_line.specs.declared.unread.Unread.{Unread};

    ghost from_gives = { λ _ e. e ≡ Unread.Memory };

    fn from(_: AllocError) -> Self {
        Unread::Memory
    }
}

impl<T: Drop> From<AllocFailed<T>> for Unread<'_> {
    ghost use Rattle.command_line.specs.declared.unread.Unread.{Unread};

    ghost from_gives = { λ _ e. e ≡ Unread.Memory };

    fn from(_: AllocFailed<T>) -> Self {
        Unread::Memory
    }
}
