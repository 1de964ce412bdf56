//! Reading a line of words.

ghost use Rattle.std.specs.Prelude.{◌≡◌, ◌≤◌, [], ◌∷◌, IfErr, IfOk, IfSome, IsSomeAnd, OnOk, length, map, string_bytes, true};
ghost use Rattle.clap.specs.declared.error.kind.ErrorKind.{ErrorKind};
ghost use Rattle.clap.specs.Words.{FailsBy, fault_of, has_subcommand, kind_of, subcommand_of, subcommand_rows_of};
ghost use Rattle.command_line.specs.Commands.{Asks, program};
ghost use Rattle.command_line.specs.Lines.{IsHelp, IsRefused, IsWithinLimits};
ghost use Rattle.escapes.specs.Escaped.{escaped};

use crate::commands::{command_of, is_command, program, request_of};
use crate::request::Request;
use crate::unread::Unread;
use clap::error::ErrorKind as LineFault;
use clap::{ArgMatches, Error};
use escapes::Escaped;
use std::alloc::{AllocError, Global};
use std::convert::AsStr;

/// What the parser finds in words: a command of the program, and its values.
fn found<'a, S: AsStr>(alloc: Global, words: &'a [S]) -> Result<ArgMatches<'a>, Error>
    ensures kinds { FailsBy (fault_of program (map S.text words.now)) result }
    ensures found { IfOk result (λ m. subcommand_rows_of m ≡ subcommand_of program (map S.text words.now)) }
    ensures some { IfOk result (λ m. has_subcommand m ≡ true) }
{
    program(alloc)?.try_get_matches_from(words)
}

/// The error that tells a bad value of a command, with the usage of that.
fn bad_value(alloc: Global, command: &str, unread: &Unread<'_>) -> Result<Error, AllocError>
    ensures { IfOk result (λ e. kind_of e ≡ ErrorKind.ValueValidation) }
{
    let message = format!(in alloc; "{unread}")?;
    command_of(alloc, command)?.error(LineFault::ValueValidation, &message)
}

/// Whether the parser would print a part of a word that has control characters: of one-letter options it prints the first that it
/// doesn't know.
fn is_printed_in_part(word: &str) -> bool {
    word.starts_with('-') && !word.starts_with("--") && word.contains(char::is_control)
}

/// Words as they are printed; None if one of them is printed in part.
fn shown_words<S: AsStr>(alloc: Global, words: &[S]) -> Result<Option<Vec<String>>, AllocError>
    ensures { IfOk result (λ shown. IfSome shown (λ shown.
        map string_bytes shown.items ≡ map (λ word. escaped 200 (S.text word)) words.now)) }
{
    let mut shown = Vec::new(alloc);
    for word in words {
        let word = word.as_str();
        if is_printed_in_part(word) {
            return Ok(None);
        }
        let word = Escaped::word(word).to_string(alloc)?;
        shown.push(word)?;
    }
    Ok(Some(shown))
}

/// The error of this kind whose text repeats no word.
fn wordless<S: AsStr>(alloc: Global, words: &[S], kind: LineFault) -> Result<Error, AllocError>
    ensures { IfOk result (λ e. kind_of e ≡ kind) }
{
    let command = match words.first() {
        Some(word) => word.as_str(),
        None => "",
    };
    let message = kind.as_str().unwrap_or("invalid words");
    command_of(alloc, command)?.error(kind, message)
}

/// The error that the parser has for the words as they are printed, so that its text repeats no control character of them. If it has none
/// of this kind for these, no word is repeated. Help and the version repeat none.
fn printable<S: AsStr>(alloc: Global, words: &[S], error: Error) -> Result<Error, AllocError>
    ensures { IfOk result (λ e. kind_of e ≡ kind_of error) }
{
    if !error.use_stderr() {
        return Ok(error);
    }
    let kind = error.kind();
    if let Some(shown) = shown_words(alloc, words)? {
        if let Err(again) = found(alloc, shown.as_slice()) {
            if again.kind() == kind {
                return Ok(again);
            }
        }
    }
    wordless(alloc, words, kind)
}

/// The first digit of a word that writes a number below 0.
fn digit_below_zero(word: &str) -> Option<char> {
    let first = word.strip_prefix("-")?.chars().next()?;
    if first.is_ascii_digit() {
        Some(first)
    } else {
        None
    }
}

/// The parser's error. A number below 0 it takes for an option, and advises to pass it as a value, which no value can be: so that is told
/// by the same kind of error without the advice.
fn advised<S: AsStr>(alloc: Global, words: &[S], error: Error) -> Result<Error, AllocError>
    ensures { IfOk result (λ e. kind_of e ≡ kind_of error) }
{
    let Some(command) = words.first() else {
        return Ok(error);
    };
    if error.kind() != LineFault::UnknownArgument {
        return Ok(error);
    }
    let text = format!(in alloc; "{error}")?;
    for word in words {
        if let Some(digit) = digit_below_zero(word.as_str()) {
            let message = format!(in alloc; "unexpected argument '-{digit}' found")?;
            if text.contains(message.as_str()) {
                let told = format!(in alloc; "{message}: no number is below 0")?;
                return command_of(alloc, command.as_str())?.error(
                    LineFault::UnknownArgument,
                    &told,
                );
            }
        }
    }
    Ok(error)
}

/// The parser's error as it is reported.
fn reported<S: AsStr>(alloc: Global, words: &[S], error: Error) -> Result<Error, AllocError>
    ensures { IfOk result (λ e. kind_of e ≡ kind_of error) }
{
    advised(alloc, words, printable(alloc, words, error)?)
}

/// The help of the program, or of a command, as the parser has it where it is asked for by `--help`.
pub fn help(alloc: Global, command: Option<&str>) -> Result<Error, AllocError>
    ensures { IfOk result (λ e. IsHelp (kind_of e)) }
{
    match command {
        Some(name) if is_command(name) => asked_help(alloc, &[name, "--help"]),
        _ => asked_help(alloc, &["--help"]),
    }
}

/// The help for which words ask.
fn asked_help(alloc: Global, words: &[&str]) -> Result<Error, AllocError>
    requires { fault_of program (map (λ s. s.now) words.now) ≡ ErrorKind.DisplayHelp ∷ [] }
    ensures { IfOk result (λ e. IsHelp (kind_of e)) }
{
    match found(alloc, words) {
        Ok(_) => unreachable!(),
        Err(error) => Ok(error),
    }
}

/// What a line of words asks for, which are those after the program's name.
///
/// No word at all asks for the demonstration. A word that the command line doesn't have, or lacks, and a call for help or the
/// version, are the parser's error, whose text says so. It repeats words with their control characters escaped. So is a value
/// that its argument can't have: GUEST, N and the places FROM, T and AT are decimal and have 64 bits, or a place is `end`;
/// `--quantum` lies from 64 to 1,048,576, `--every` from 0 to 4,294,967,295, or is `auto`; `--limit` has 64 bits; ADDR has 1 to 8 hexadecimal
/// digits, with `0x` before them or not, and LEN lies from 1 to 65,536; `--then` is `turns` or `none`; a name is 1 to 32
/// visible characters of ASCII, fewer by two behind which places stand. So are `--choices` and `--name` given neither once nor
/// once for each program, `replay` with `--memory` and no `--at`, and `dump` with both `--places` and `--trace-events`.
pub fn line<'a, S: AsStr>(alloc: Global, words: &'a [S]) -> Result<Request<'a>, Error>
    ensures none { length words.now ≡ 0 → result ≡ Ok Request.Demonstration }
    ensures asked { 1 ≤ length words.now
        → IfOk result (λ request. IsSomeAnd (subcommand_of program (map S.text words.now)) (Asks request)) }
    ensures taken { 1 ≤ length words.now → OnOk result (fault_of program (map S.text words.now) ≡ []) }
    ensures refused { IfErr result (IsRefused (map S.text words.now)) }
    ensures limits { IfOk result IsWithinLimits }
{
    if words.is_empty() {
        return Ok(Request::Demonstration);
    }
    let matches = match found(alloc, words) {
        Ok(matches) => matches,
        Err(error) => return Err(reported(alloc, words, error)?),
    };
    let Some(command) = matches.subcommand() else {
        unreachable!()
    };
    match request_of(alloc, command) {
        Ok(request) => Ok(request),
        Err(Unread::Memory) => Err(Error::from(AllocError)),
        Err(bad) => Err(bad_value(alloc, command.0, &bad)?),
    }
}
