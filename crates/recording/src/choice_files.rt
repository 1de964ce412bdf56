//! Choices of threads in files.

ghost use Rattle.std.specs.Prelude.{◌≡◌, IfErr, IfOk, Some};
ghost use Rattle.choices.specs.ChoiceText.{text_says};
ghost use Rattle.recording.specs.ChoiceFiles.{RefusesChoices};

use choices::{BadChoices, choices_in};
use line_io::{Refusal, read_file};
use rrv_model::record::Choice;
use std::alloc::Global;
use std::rt::Files;

/// Bytes of a file of choices at most.
const MAX_CHOICES: u32 = 16_777_216;

/// The choices that a text says. A refusal names its file.
fn choices_of(alloc: Global, text: &[u8], file: &str) -> Result<Vec<Choice>, Refusal>
    ensures said { IfOk result (λ choices. text_says text.now ≡ Some choices.items) }
    ensures refused { IfErr result (RefusesChoices text.now) }
{
    match choices_in(alloc, text) {
        Ok(choices) => Ok(choices),
        Err(BadChoices::Memory) => Err(Refusal::Memory),
        Err(BadChoices::Line(line)) => Err(Refusal::BadChoices {
            file: String::from_str(alloc, file)?,
            line,
        }),
    }
}

/// The choices in the files of a line, in its order. Why a file can't be read is told in words too where `in_words` says so.
pub(crate) fn choices_in_files<R: Files + Input + AllocGlobal>(
    rt: &R,
    paths: &[&str],
    in_words: bool,
) -> Result<Vec<Vec<Choice>>, Refusal> {
    let mut lists = Vec::new(rt.alloc());
    for path in paths {
        let text = read_file(rt, path, MAX_CHOICES, in_words)?;
        lists.push(choices_of(rt.alloc(), &text, path)?)?;
    }
    Ok(lists)
}
