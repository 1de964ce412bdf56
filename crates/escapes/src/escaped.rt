//! A text without its control characters.

ghost use Rattle.std.specs.Prelude.{◌≡◌, Some, flat_map, length, take};
ghost use Rattle.std.specs.Char.{encode_utf8};
ghost use Rattle.std.specs.Fmt.{WritesOnOk};
ghost use Rattle.std.specs.Str.{chars};
ghost use Rattle.escapes.specs.Escaped.{byte_text, char_text, escaped, rest_text, two_digits};

use std::fmt;

/// Characters of a word that are printed at most.
const WORD: usize = 200;

/// Characters of the name of a file that are printed at most. Linux takes no path of more bytes.
const PATH: usize = 4096;

/// A text that another chose, as it is printed. Each byte of a control character (C0, DEL and C1) is `\x` and two hexadecimal digits, as
/// in `\x1b[31m`. All else is printed as it is. A text that is longer than it may be is cut, and `..` stands for the rest.
#[derive(Clone, Copy, Debug)]
pub struct Escaped<'a> {
    text: &'a str,
    most: usize,
}

impl<'a> Escaped<'a> {
    /// A word of a line: 200 characters of it at most.
    pub fn word(text: &'a str) -> Self
        ensures text { result.text.now ≡ text.now }
        ensures most { result.most ≡ 200 }
    {
        Escaped { text, most: WORD }
    }

    /// The name of a file: 4,096 characters of it at most.
    pub fn path(text: &'a str) -> Self
        ensures text { result.text.now ≡ text.now }
        ensures most { result.most ≡ 4096 }
    {
        Escaped { text, most: PATH }
    }
}

impl<'a> fmt::Display for Escaped<'a> {
    ghost output = { λ shown. Some (escaped shown.most shown.text.now) };

    fn fmt<W: fmt::Write>(&self, f: &mut fmt::Formatter<W>) -> fmt::Result {
        write_escaped(f, self.text, self.most)
    }
}

/// Writes a text, of which no more than so many characters are printed.
fn write_escaped<W: fmt::Write>(f: &mut fmt::Formatter<W>, text: &str, most: usize) -> fmt::Result
    ensures { WritesOnOk W.write_str_gives f.old result (escaped most text.now) f.new }
{
    write_front(f, text, most)?;
    f.write_str(rest_text(text, most))
}

/// Writes the first characters of a text, no more than so many.
fn write_front<W: fmt::Write>(f: &mut fmt::Formatter<W>, text: &str, most: usize) -> fmt::Result
    ensures { WritesOnOk W.write_str_gives f.old result (flat_map char_text (take most (chars text.now))) f.new }
{
    for c in text.chars().take(most) {
        write_char(f, c)?;
    }
    Ok(())
}

/// What stands for the characters of a text after the first, which are so many.
fn rest_text(text: &str, most: usize) -> &'static str
    ensures { result.now ≡ rest_text most (length (chars text.now)) }
{
    if most < text.chars().count() {
        ".."
    } else {
        ""
    }
}

/// Writes a character.
fn write_char<W: fmt::Write>(f: &mut fmt::Formatter<W>, c: char) -> fmt::Result
    ensures { WritesOnOk W.write_str_gives f.old result (char_text c) f.new }
{
    if c.is_control() {
        write_control(f, c)
    } else {
        f.write_char(c)
    }
}

/// Writes the bytes of a character by their numbers.
fn write_control<W: fmt::Write>(f: &mut fmt::Formatter<W>, c: char) -> fmt::Result
    ensures { WritesOnOk W.write_str_gives f.old result (flat_map byte_text (encode_utf8 c)) f.new }
{
    let mut bytes = [0; 4];
    write_bytes(f, c.encode_utf8(&mut bytes).as_bytes())
}

/// Writes bytes by their numbers.
fn write_bytes<W: fmt::Write>(f: &mut fmt::Formatter<W>, bytes: &[u8]) -> fmt::Result
    ensures { WritesOnOk W.write_str_gives f.old result (flat_map byte_text bytes.now) f.new }
{
    for byte in bytes {
        write_byte(f, *byte)?;
    }
    Ok(())
}

/// Writes a byte by its number.
fn write_byte<W: fmt::Write>(f: &mut fmt::Formatter<W>, byte: u8) -> fmt::Result
    ensures { WritesOnOk W.write_str_gives f.old result (byte_text byte) f.new }
{
    f.write_str("\\x")?;
    write_digits(f, byte)
}

/// Writes two hexadecimal digits.
fn write_digits<W: fmt::Write>(f: &mut fmt::Formatter<W>, byte: u8) -> fmt::Result
    ensures { WritesOnOk W.write_str_gives f.old result (two_digits byte) f.new }
{
    write!(f, "{byte:02x}")
}
