//! The lines of `ask`.

ghost use Rattle.std.specs.Prelude.{◌≡◌, ◌≢◌, ◌==◌, [], IfErr};
ghost use Rattle.std.specs.List.{after_first, before_first};
ghost use Rattle.command_line.specs.Asked.{IsAsked, IsInquiry, IsNumber, IsUnlike, ReadsLine};
ghost use Rattle.command_line.specs.Values.{IsAddress, IsMemoryRange, IsPlace};

use crate::memory::range_in;
use crate::numbers::{address_in, number_in, place_in};
use crate::request::{MemoryRange, Place};
use crate::unread::Wanted;
use escapes::Escaped;
use thiserror::Error;

/// What a line of `ask` asks.
#[derive(Clone, Copy, Debug)]
pub enum Asked<'a> {
    /// Something about a place of the recording.
    Of(Inquiry),
    /// `core FILE`: a core file of the state at the place.
    Core { file: &'a str },
    /// `choices`: the choices of the turns.
    Choices,
    /// `quiet`: from here on, moves print the line of their place.
    Quiet,
    /// `full`: from here on, moves print the state again.
    Full,
    /// `help`: what can be asked.
    Help,
    /// `quit`: nothing more.
    Quit,
}

/// What is asked of a recording, from a place.
#[derive(Clone, Copy, Debug)]
pub enum Inquiry {
    /// `at T`: goes to a place.
    At(Place),
    /// `back N`: goes n instructions back.
    Back(u64),
    /// `forward N`: goes n instructions forward.
    Forward(u64),
    /// `last ADDR`: goes to the last change, before the place, of the byte at an address.
    Last(u32),
    /// `next ADDR`: goes to the next change, after the place, of the byte at an address.
    Next(u32),
    /// `memory ADDR:LEN`: bytes of the memory at the place.
    Memory(MemoryRange),
    /// `threads`: the threads at the place.
    Threads,
    /// `where`: the place, and the instruction that comes next.
    Where,
}

/// Why a line of `ask` asks nothing. The text repeats what the line has, with its control characters escaped.
#[derive(Clone, Copy, Debug, Error)]
pub enum BadLine<'a> {
    /// Nothing is asked by this name.
    #[error("no question '{}': help lists them", Escaped::word(*.name))]
    Unknown {
        name: &'a str,
    },
    /// The name has no value.
    #[error("a value is required for '{name}'")]
    Missing {
        name: &'a str,
    },
    /// The name has a value, and takes none.
    #[error("unexpected value '{}' for '{name}'", Escaped::word(*.text))]
    Unexpected {
        name: &'a str,
        text: &'a str,
    },
    /// The name has this value, which is not what is wanted.
    #[error("invalid value '{}' for '{name}': not {wanted}", Escaped::word(*.text))]
    Bad {
        name: &'a str,
        text: &'a str,
        wanted: Wanted,
    },
}

/// The name of a line, which ends at the first space, and what follows that space.
fn name_and_value(line: &str) -> (&str, &str)
    ensures name { result.0.now ≡ before_first (λ c. c == 32) line.now }
    ensures value { result.1.now ≡ after_first (λ c. c == 32) line.now }
{
    match line.split_once(' ') {
        Some(parts) => parts,
        None => (line, ""),
    }
}

/// Why a text is refused as the value of a name: there is none, or it isn't what is wanted.
fn unlike<'a>(name: &'a str, text: &'a str, wanted: Wanted) -> BadLine<'a>
    ensures { IsUnlike name.now text.now wanted result }
{
    if text.is_empty() {
        return BadLine::Missing { name };
    }
    BadLine::Bad { name, text, wanted }
}

/// The place that a text names.
fn place_of<'a>(name: &'a str, text: &'a str) -> Result<Place, BadLine<'a>>
    ensures reads { ReadsLine (IsPlace text.now) result }
    ensures why { IfErr result (IsUnlike name.now text.now Wanted.Place) }
{
    match place_in(text) {
        Some(place) => Ok(place),
        None => Err(unlike(name, text, Wanted::Place)),
    }
}

/// The number of instructions that a text names.
fn count_of<'a>(name: &'a str, text: &'a str) -> Result<u64, BadLine<'a>>
    ensures reads { ReadsLine (IsNumber text.now) result }
    ensures why { IfErr result (IsUnlike name.now text.now (Wanted.Number 0 18446744073709551615)) }
{
    match number_in(text, 0, u64::MAX) {
        Some(count) => Ok(count),
        None => {
            let wanted = Wanted::Number {
                least: 0,
                most: u64::MAX,
            };
            Err(unlike(name, text, wanted))
        }
    }
}

/// The address that a text names.
fn address_of<'a>(name: &'a str, text: &'a str) -> Result<u32, BadLine<'a>>
    ensures reads { ReadsLine (IsAddress text.now) result }
    ensures why { IfErr result (IsUnlike name.now text.now Wanted.Address) }
{
    match address_in(text) {
        Some(address) => Ok(address),
        None => Err(unlike(name, text, Wanted::Address)),
    }
}

/// The bytes of memory that a text names.
fn range_of<'a>(name: &'a str, text: &'a str) -> Result<MemoryRange, BadLine<'a>>
    ensures reads { ReadsLine (IsMemoryRange text.now) result }
    ensures why { IfErr result (IsUnlike name.now text.now Wanted.Range) }
{
    match range_in(text) {
        Some(range) => Ok(range),
        None => Err(unlike(name, text, Wanted::Range)),
    }
}

/// The file that a text names.
fn file_of<'a>(name: &'a str, text: &'a str) -> Result<&'a str, BadLine<'a>>
    ensures { ReadsLine (λ file. (file.now ≡ text.now) × (text.now ≢ [])) result }
{
    if text.is_empty() {
        return Err(BadLine::Missing { name });
    }
    Ok(text)
}

/// Tests that a name has no value.
fn none_of<'a>(name: &'a str, text: &'a str) -> Result<(), BadLine<'a>>
    ensures { ReadsLine (λ _. text.now ≡ []) result }
{
    if text.is_empty() {
        return Ok(());
    }
    Err(BadLine::Unexpected { name, text })
}

/// What a name and a value ask of a recording.
fn inquiry_in<'a>(name: &'a str, value: &'a str) -> Result<Inquiry, BadLine<'a>>
    ensures { ReadsLine (IsInquiry name.now value.now) result }
{
    match name {
        "at" => Ok(Inquiry::At(place_of(name, value)?)),
        "back" => Ok(Inquiry::Back(count_of(name, value)?)),
        "forward" => Ok(Inquiry::Forward(count_of(name, value)?)),
        "last" => Ok(Inquiry::Last(address_of(name, value)?)),
        "next" => Ok(Inquiry::Next(address_of(name, value)?)),
        "memory" => Ok(Inquiry::Memory(range_of(name, value)?)),
        "threads" => {
            none_of(name, value)?;
            Ok(Inquiry::Threads)
        }
        "where" => {
            none_of(name, value)?;
            Ok(Inquiry::Where)
        }
        _ => Err(BadLine::Unknown { name }),
    }
}

/// What a line of `ask` asks: its name ends at the first space, and its value follows that. A line that asks nothing is refused, by a
/// text that says why.
pub fn asked_in(line: &str) -> Result<Asked<'_>, BadLine<'_>>
    ensures { ReadsLine (IsAsked line.now) result }
{
    let (name, value) = name_and_value(line);
    match name {
        "core" => {
            let file = file_of(name, value)?;
            Ok(Asked::Core { file })
        }
        "choices" => {
            none_of(name, value)?;
            Ok(Asked::Choices)
        }
        "quiet" => {
            none_of(name, value)?;
            Ok(Asked::Quiet)
        }
        "full" => {
            none_of(name, value)?;
            Ok(Asked::Full)
        }
        "help" => {
            none_of(name, value)?;
            Ok(Asked::Help)
        }
        "quit" => {
            none_of(name, value)?;
            Ok(Asked::Quit)
        }
        _ => Ok(Asked::Of(inquiry_in(name, value)?)),
    }
}
