//! The printed bytes of a memory.

ghost use Rattle.std.specs.Prelude.{◌≡◌, ◌+◌, ◌*◌, ◌≤◌, ◌<◌, Some};
ghost use Rattle.std.specs.Char.{encode_utf8};
ghost use Rattle.std.specs.Fmt.{WritesOnOk};
ghost use Rattle.guest_pages.specs.Space.{memory_of};
ghost use Rattle.trace_text.specs.Lines.{word_text};
ghost use Rattle.trace_text.specs.MemoryText.{cell_text, character, column, each_below, gap, line_from, memory_line, memory_lines};

use crate::state_lines::write_byte;
use guest_pages::Space;
use std::fmt;

/// Bytes of a line.
const LINE: u64 = 16;

/// The bytes of one line: so many from an address on.
#[derive(Clone, Copy)]
struct Span {
    address: u64,
    count: u64,
    ghost within: { address < 8589934592 },
    ghost few: { count ≤ 16 },
}

/// The lines of the bytes of a memory from an address on, whatever their permissions: 16 a line, as `hexdump -C` prints them, with
/// `--` for a byte that isn't mapped. Each line ends with a newline.
#[derive(Drop)]
pub struct MemoryLines<'a> {
    space: &'a Space,
    address: u32,
    length: u32,
}

impl<'a> MemoryLines<'a> {
    /// The lines of so many bytes from this address on.
    pub fn new(space: &'a Space, address: u32, length: u32) -> Self
        ensures space { result.space.now ≡ space.now }
        ensures address { result.address ≡ address }
        ensures length { result.length ≡ length }
    {
        MemoryLines {
            space,
            address,
            length,
        }
    }
}

impl<'a> fmt::Display for MemoryLines<'a> {
    ghost output = { λ lines. Some (memory_lines (memory_of lines.space.now) lines.address lines.length) };

    fn fmt<W: fmt::Write>(&self, f: &mut fmt::Formatter<W>) -> fmt::Result {
        write_lines(f, self.space, self.address, self.length)
    }
}

/// The lines of so many bytes from an address on.
#[tactic(auto, unfolding(crate::specs::MemoryText::memory_lines))]
fn write_lines<W: fmt::Write>(
    f: &mut fmt::Formatter<W>,
    space: &Space,
    address: u32,
    length: u32,
) -> fmt::Result
    ensures { WritesOnOk W.write_str_gives f.old result (memory_lines (memory_of space.now) address length) f.new }
{
    for line in 0..(u64::from(length) + 15) / LINE {
        write_line_from(f, space, address, length, line)?;
    }
    Ok(())
}

/// This line of so many bytes from an address on.
fn write_line_from<W: fmt::Write>(
    f: &mut fmt::Formatter<W>,
    space: &Space,
    address: u32,
    length: u32,
    line: u64,
) -> fmt::Result
    requires { 16 * line < length }
    ensures { WritesOnOk W.write_str_gives f.old result (line_from (memory_of space.now) address length line) f.new }
{
    let done = LINE * line;
    let span = Span {
        address: u64::from(address) + done,
        count: LINE.min(u64::from(length) - done),
    };
    write_line(f, space, span)
}

/// A line of bytes.
#[tactic(auto, unfolding(crate::specs::MemoryText::memory_line))]
fn write_line<W: fmt::Write>(f: &mut fmt::Formatter<W>, space: &Space, span: Span) -> fmt::Result
    ensures { WritesOnOk W.write_str_gives f.old result
        (memory_line (memory_of space.now) span.address span.count) f.new }
{
    write_address(f, span.address)?;
    write_columns(f, space, span)?;
    f.write_str("  |")?;
    write_characters(f, space, span)?;
    f.write_str("|")?;
    f.write_str("\n")
}

/// An address in eight hexadecimal digits, or more where it has more.
fn write_address<W: fmt::Write>(f: &mut fmt::Formatter<W>, address: u64) -> fmt::Result
    ensures { WritesOnOk W.write_str_gives f.old result (word_text address) f.new }
{
    write!(f, "{address:08x}")
}

/// The bytes of a line in their columns.
fn write_columns<W: fmt::Write>(f: &mut fmt::Formatter<W>, space: &Space, span: Span) -> fmt::Result
    ensures { WritesOnOk W.write_str_gives f.old result
        (each_below (column (memory_of space.now) span.address span.count) 16) f.new }
{
    for k in 0..LINE {
        write_column(f, space, span, k)?;
    }
    Ok(())
}

/// A byte of a line behind its gap, or blanks past the line's end.
#[tactic(auto, unfolding(crate::specs::MemoryText::column))]
fn write_column<W: fmt::Write>(
    f: &mut fmt::Formatter<W>,
    space: &Space,
    span: Span,
    k: u64,
) -> fmt::Result
    requires { k < 16 }
    ensures { WritesOnOk W.write_str_gives f.old result
        (column (memory_of space.now) span.address span.count k) f.new }
{
    write_gap(f, k)?;
    if k < span.count {
        write_cell(f, space, span.address + k)
    } else {
        f.write_str("  ")
    }
}

/// The gap before a byte of a line.
fn write_gap<W: fmt::Write>(f: &mut fmt::Formatter<W>, k: u64) -> fmt::Result
    ensures { WritesOnOk W.write_str_gives f.old result (gap k) f.new }
{
    if k % 8 == 0 {
        f.write_str("  ")
    } else {
        f.write_str(" ")
    }
}

/// A byte in two digits, or two dashes.
fn write_cell<W: fmt::Write>(f: &mut fmt::Formatter<W>, space: &Space, address: u64) -> fmt::Result
    requires { address < 17179869184 }
    ensures { WritesOnOk W.write_str_gives f.old result (cell_text (memory_of space.now address)) f.new }
{
    match space.byte(address) {
        Some(byte) => write_byte(f, byte),
        None => f.write_str("--"),
    }
}

/// The characters of some bytes.
fn write_characters<W: fmt::Write>(
    f: &mut fmt::Formatter<W>,
    space: &Space,
    span: Span,
) -> fmt::Result
    ensures { WritesOnOk W.write_str_gives f.old result
        (each_below (λ k. encode_utf8 (character (memory_of space.now (span.address + k)))) span.count) f.new }
{
    for k in 0..span.count {
        write_character(f, space, span.address + k)?;
    }
    Ok(())
}

/// The character of a byte.
fn write_character<W: fmt::Write>(
    f: &mut fmt::Formatter<W>,
    space: &Space,
    address: u64,
) -> fmt::Result
    requires { address < 17179869184 }
    ensures { WritesOnOk W.write_str_gives f.old result (encode_utf8 (character (memory_of space.now address))) f.new }
{
    f.write_char(character_at(space, address))
}

/// The character that is printed of the byte at an address.
fn character_at(space: &Space, address: u64) -> char
    requires { address < 17179869184 }
    ensures { result ≡ character (memory_of space.now address) }
{
    match space.byte(address) {
        Some(byte) if 32 <= byte && byte < 127 => char::from(byte),
        _ => '.',
    }
}
