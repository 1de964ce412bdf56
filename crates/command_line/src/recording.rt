//! What `record` is asked for, by the values that the parser found.

ghost use Rattle.std.specs.Prelude.{◌≡◌, ◌≤◌, ◌↔◌, IsOk, IsSome, IsTrue, None, Some, codes, map};
ghost use Rattle.std.specs.List.{AllByRecursion};
ghost use Rattle.clap.specs.Words.{all_of};
ghost use Rattle.command_line.specs.Unread.{Reads, ReadsAs};
ghost use Rattle.command_line.specs.Values.{HasChoices, HasNames, HasNumberIn, IsNameWithin, IsOnceOrEach, NamesRecording};
ghost use Rattle.command_line.specs.Values.{longest_name, rows_in};

use crate::request::Recording;
use crate::unread::{Unread, Wanted};
use crate::values::{
    every, flag, number, number_or_none, several_or_none, text, text_or_none, texts, then,
};
use clap::ArgMatches;
use rrv_model::name::is_name;
use std::alloc::Global;

/// The number of an argument that has to be there, within bounds of 32 bits.
fn number_of_32_bits<'a>(
    values: &ArgMatches<'a>,
    name: &'a str,
    least: u64,
    most: u64,
) -> Result<u32, Unread<'a>>
    requires { most ≤ 4294967295 }
    ensures { Reads (HasNumberIn least most (rows_in values.now) name.now) result }
{
    let number = number(values, name, least, most)?;
    Ok(number as u32)
}

/// The files of the programs.
fn files<'a>(alloc: Global, values: &ArgMatches<'a>) -> Result<Vec<&'a str>, Unread<'a>>
    ensures { ReadsAs (λ files. map (λ s. s.now) files.items)
        (λ files. all_of (codes "ELF") (rows_in values.now) ≡ Some files) result }
{
    match several_or_none(values, "ELF") {
        Some(files) => Ok(Vec::from_slice(alloc, files)?),
        None => Err(Unread::Missing { name: "ELF" }),
    }
}

/// Refuses an option that is given so often for so many programs, unless that is never, once, or once for each.
fn check_count<'a>(name: &'a str, count: usize, programs: usize) -> Result<(), Unread<'a>>
    ensures { IsOk result ↔ IsOnceOrEach count programs }
{
    if count > 1 && count != programs {
        return Err(Unread::BadCount {
            name,
            count,
            programs,
        });
    }
    Ok(())
}

/// The files of choices.
fn choices<'a>(alloc: Global, values: &ArgMatches<'a>) -> Result<Vec<&'a str>, Unread<'a>>
    ensures { ReadsAs (λ choices. map (λ s. s.now) choices.items) (HasChoices (rows_in values.now)) result }
{
    let files = texts(values, "choices");
    check_count("choices", files.len(), texts(values, "ELF").len())?;
    Ok(Vec::from_slice(alloc, files)?)
}

/// How many characters a name has at most, of so many for so many programs. Behind the only one of several guests there is room for their
/// places, which have two digits at most.
fn longest_name(names: usize, programs: usize) -> usize
    ensures { result ≡ longest_name names programs }
{
    if names == 1 && programs != 1 { 30 } else { 32 }
}

/// Tests whether a text can be a guest's name, of so many characters at most.
fn is_name_within(text: &str, most: usize) -> bool
    ensures { IsTrue result ↔ IsNameWithin most text.now }
{
    is_name(text.as_bytes()) && text.len() <= most
}

/// The first of some texts that can't be a guest's name, of so many characters at most.
fn first_bad<'a>(texts: &[&'a str], most: usize) -> Option<&'a str>
    ensures none { result ≡ None → AllByRecursion (IsNameWithin most) (map (λ s. s.now) texts.now) }
    ensures some { IsSome result → AllByRecursion (IsNameWithin most) (map (λ s. s.now) texts.now) → ⊥ }
{
    for text in texts {
        if !is_name_within(text, most) {
            return Some(*text);
        }
    }
    None
}

/// The names of the guests.
fn names<'a>(alloc: Global, values: &ArgMatches<'a>) -> Result<Vec<&'a str>, Unread<'a>>
    ensures { ReadsAs (λ names. map (λ s. s.now) names.items) (HasNames (rows_in values.now)) result }
{
    let names = texts(values, "name");
    let programs = texts(values, "ELF").len();
    check_count("name", names.len(), programs)?;
    let most = longest_name(names.len(), programs);
    match first_bad(names, most) {
        Some(text) => Err(Unread::Bad {
            name: "name",
            text,
            wanted: Wanted::Name { most },
        }),
        None => Ok(Vec::from_slice(alloc, names)?),
    }
}

/// What `record` is to record.
pub(crate) fn recording<'a>(
    alloc: Global,
    values: &ArgMatches<'a>,
) -> Result<Recording<'a>, Unread<'a>>
    ensures { Reads (NamesRecording (rows_in values.now)) result }
{
    let store = text(values, "STORE")?;
    let quantum = number_of_32_bits(values, "quantum", 64, 1_048_576)?;
    let every = every(values)?;
    let then = then(values)?;
    let limit = number_or_none(values, "limit")?;
    let files = files(alloc, values)?;
    let names = names(alloc, values)?;
    let choices = choices(alloc, values)?;
    Ok(Recording {
        store,
        files,
        quantum,
        every,
        input: text_or_none(values, "input"),
        seed: text_or_none(values, "seed"),
        names,
        choices,
        then,
        limit,
        fail: flag(values, "fail"),
        upgrade: flag(values, "upgrade"),
        progress: flag(values, "progress"),
    })
}
