//! The names of a recording's guests.

ghost use Rattle.std.specs.Prelude.{◌≡◌, ◌++◌, IfOk, map, string_bytes};
ghost use Rattle.std.specs.Fmt.{decimal};
ghost use Rattle.recording.specs.Names.{name_by, text_at};

use rrv_model::refusal::Memory;
use std::alloc::Global;

/// How the guests of a line are named, of which there are so many: each as it is given, or by the only name given and its place, or, where
/// none is given, by `g` and its place.
#[derive(Clone, Copy)]
pub(crate) struct Names<'a> {
    pub(crate) given: &'a [&'a str],
    pub(crate) count: usize,
}

/// A name, and a place behind it.
fn placed_name(alloc: Global, name: &str, place: usize) -> Result<String, Memory>
    ensures { IfOk result (λ text. string_bytes text ≡ name.now ++ decimal place) }
{
    Ok(format!(in alloc; "{name}{place}")?)
}

/// The text at a place; an empty one where there is none.
fn text_at<'a>(texts: &[&'a str], place: usize) -> &'a str
    ensures { result.now ≡ text_at (map (λ s. s.now) texts.now) place }
{
    match texts.get(place) {
        Some(text) => text,
        None => "",
    }
}

/// The name of the guest at this place of the line.
pub(crate) fn name_of(alloc: Global, names: Names<'_>, place: usize) -> Result<String, Memory>
    ensures name { IfOk result (λ name. string_bytes name ≡ name_by names.entry place) }
{
    match names.given {
        [] => placed_name(alloc, "g", place),
        [name] if names.count != 1 => placed_name(alloc, name, place),
        given => Ok(String::from_str(alloc, text_at(given, place))?),
    }
}
