//! The bytes of memory that a line names.

ghost use Rattle.std.specs.Prelude.{◌≡◌, IfSome, None, map};
ghost use Rattle.std.specs.List.{AllZip};
ghost use Rattle.command_line.specs.Unread.{ReadsAs};
ghost use Rattle.command_line.specs.Values.{HasMemory, IsMemoryRange, rows_in};
ghost use Rattle.command_line.specs.declared.request.MemoryRange.{MemoryRange};

use crate::numbers::{address_in, number_in};
use crate::request::MemoryRange;
use crate::unread::{Unread, Wanted};
use crate::values::texts;
use clap::ArgMatches;
use std::alloc::Global;

/// The bytes that ADDR:LEN names; None where a text is no such.
pub(crate) fn range_in(text: &str) -> Option<MemoryRange>
    ensures some { IfSome result (IsMemoryRange text.now) }
    ensures none { result ≡ None → (range : MemoryRange) → IsMemoryRange text.now range → ⊥ }
{
    let (address, length) = text.split_once(':')?;
    let address = address_in(address)?;
    let length = number_in(length, 1, 65_536)?;
    Some(MemoryRange {
        address,
        length: length as u32,
    })
}

/// The bytes that texts name, in their order.
fn ranges_in<'a>(alloc: Global, texts: &[&'a str]) -> Result<Vec<MemoryRange>, Unread<'a>>
    ensures { ReadsAs (λ ranges. ranges.items) (AllZip IsMemoryRange (map (λ s. s.now) texts.now)) result }
{
    let mut ranges = Vec::new(alloc);
    for text in texts {
        match range_in(text) {
            Some(range) => ranges.push(range)?,
            None => {
                return Err(Unread::Bad {
                    name: "memory",
                    text,
                    wanted: Wanted::Range,
                });
            }
        }
    }
    Ok(ranges)
}

/// The bytes of memory that are to be printed beside a state.
pub(crate) fn memory<'a>(
    alloc: Global,
    values: &ArgMatches<'a>,
) -> Result<Vec<MemoryRange>, Unread<'a>>
    ensures { ReadsAs (λ ranges. ranges.items) (HasMemory (rows_in values.now)) result }
{
    ranges_in(alloc, texts(values, "memory"))
}
