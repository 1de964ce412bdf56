//! The text of choices.

ghost use Rattle.std.specs.Prelude.{◌≡◌, ◌≤◌, ℕ, IfOk, None, map};
ghost use Rattle.std.specs.Char.{is_ascii_digit};
ghost use Rattle.std.specs.List.{list_all};
ghost use Rattle.std.specs.Option.{option_to_list};
ghost use Rattle.std.specs.Str.Lines.{strip_carriage_return};
ghost use Rattle.choices.specs.declared.text.BadChoices.TheVariants as faults;
ghost use Rattle.choices.specs.ChoiceText.{IsFirstBad, fields_of, lines_of, line_says, number_in, said_in, text_says};

use rrv_model::limits::{MAX_QUANTUM, MAX_TID, MIN_QUANTUM};
use rrv_model::record::Choice;
use std::alloc::{AllocError, AllocFailed, Global};
use thiserror::Error;

/// Why a text says no choices.
#[derive(Clone, Copy, Debug, PartialEq, Eq, Error)]
pub enum BadChoices {
    /// This line, counted from 1, is the first that is neither blank nor a tid and a quantum within the limits.
    #[error("line {0} is not a choice")]
    Line(u64),
    /// Memory ran out.
    #[error("out of memory")]
    Memory,
}

impl From<AllocError> for BadChoices {
    ghost from_gives = { λ _ bad. bad ≡ faults.Memory };

    fn from(_: AllocError) -> Self {
        BadChoices::Memory
    }
}

impl<T: Drop> From<AllocFailed<T>> for BadChoices {
    ghost from_gives = { λ _ bad. bad ≡ faults.Memory };

    fn from(_: AllocFailed<T>) -> Self {
        BadChoices::Memory
    }
}

/// Reads choices, one a line: a tid from 1 to `MAX_TID` and a quantum from `MIN_QUANTUM` to `MAX_QUANTUM`, in decimal
/// digits, with spaces or tabs between and around them. Blank lines are skipped, and so is what follows a `#` in a line.
/// A newline ends each line, but the last may lack it, and a carriage return may stand before it. `Line` names the first
/// line that is no such, and `Memory` comes only where a growth was refused.
pub fn choices_in(alloc: Global, text: &[u8]) -> Result<Vec<Choice>, BadChoices>
    ensures choices { IfOk result (λ choices. text_says text.now ≡ Some choices.items) }
    ensures bad { (number : ℕ) → result ≡ Err (BadChoices.Line number) → IsFirstBad text.now number }
{
    let lines = lines_of(alloc, text)?;
    let mut choices = Vec::new(alloc);
    for (index, line) in lines.iter().enumerate() {
        let said = choice_in(alloc, line, index as u64 + 1)?;
        if let Some(choice) = said {
            choices.push(choice)?;
        }
    }
    Ok(choices)
}

fn lines_of<'a>(alloc: Global, text: &'a [u8]) -> Result<Vec<&'a [u8]>, AllocError>
    ensures { IfOk result (λ lines. map (λ x. x.now) lines.items ≡ lines_of text.now) }
{
    text.split(|byte| *byte == b'\n').collect(alloc)
}

/// What the line of this number says: a choice, or none where it is blank.
fn choice_in(alloc: Global, line: &[u8], number: u64) -> Result<Option<Choice>, BadChoices>
    ensures said { IfOk result (λ said. line_says line.now ≡ Some (option_to_list said)) }
    ensures bad { (n : ℕ) → result ≡ Err (BadChoices.Line n) → (n ≡ number) × (line_says line.now ≡ None) }
{
    let fields = fields_of(alloc, said_in(line))?;
    match fields.as_slice() {
        [] => Ok(None),
        [tid, quantum] => {
            let tid = number_in(tid, 1, MAX_TID).ok_or(BadChoices::Line(number))?;
            let quantum = number_in(quantum, MIN_QUANTUM, MAX_QUANTUM).ok_or(BadChoices::Line(
                number,
            ))?;
            Ok(Some(Choice { tid, quantum }))
        }
        _ => Err(BadChoices::Line(number)),
    }
}

/// What a line has before its comment, and before a carriage return at its end.
fn said_in(line: &[u8]) -> &[u8]
    ensures { result.now ≡ said_in line.now }
{
    let line = without_return(line);
    let end = line
        .iter()
        .position(|byte| *byte == b'#')
        .unwrap_or(line.len());
    &line[..end]
}

fn without_return(line: &[u8]) -> &[u8]
    ensures { result.now ≡ strip_carriage_return line.now }
{
    match line {
        [front @ .., b'\r'] => front,
        _ => line,
    }
}

/// What stands between the blanks of a line.
fn fields_of<'a>(alloc: Global, line: &'a [u8]) -> Result<Vec<&'a [u8]>, AllocError>
    ensures { IfOk result (λ fields. map (λ x. x.now) fields.items ≡ fields_of line.now) }
{
    line.split(|byte| *byte == b' ' || *byte == b'\t')
        .filter(|field| !field.is_empty())
        .collect(alloc)
}

/// The number within the bounds that decimal digits write, with any zeros before them; None where a field is no such.
fn number_in(field: &[u8], least: u32, most: u32) -> Option<u32>
    requires { 1 ≤ least }
    ensures { result ≡ number_in least most field.now }
{
    if !has_only_digits(field) {
        return None;
    }
    match str::from_utf8(field) {
        Ok(text) => match text.parse::<u32>() {
            Ok(number) if least <= number && number <= most => Some(number),
            _ => None,
        },
        Err(_) => None,
    }
}

fn has_only_digits(field: &[u8]) -> bool
    ensures { result ≡ list_all is_ascii_digit field.now }
{
    field.iter().all(|byte| byte.is_ascii_digit())
}
