//! The values that the parser found, read as what they stand for.

ghost use Rattle.std.specs.Prelude.{◌≡◌, if◌then◌else◌, map, option_map};
ghost use Rattle.clap.specs.Words.{all_of};
ghost use Rattle.command_line.specs.Unread.{Reads, ReadsAs};
ghost use Rattle.command_line.specs.Values.{HasAddress, HasEvery, HasFlag, HasForm, HasNumberIf, HasNumberIn, HasOption, HasPlace, HasText, HasThen};
ghost use Rattle.command_line.specs.Values.{HasWatched, NamesGuest, rows_in, texts_of};

use crate::numbers::{address_in, every_in, number_in, place_in};
use crate::request::{DumpForm, Every, GuestOf, Place, Then, Watched};
use crate::unread::{Unread, Wanted};
use clap::ArgMatches;

/// The text of an option, where it is there.
pub(crate) fn text_or_none<'a>(values: &ArgMatches<'a>, name: &str) -> Option<&'a str>
    ensures { HasOption (rows_in values.now) name.now result }
{
    values.get_str(name)
}

/// The texts of an argument that may have several, where it is there.
pub(crate) fn several_or_none<'m, 'a>(
    values: &'m ArgMatches<'a>,
    name: &str,
) -> Option<&'m [&'a str]>
    ensures { all_of name.now (rows_in values.now) ≡ option_map (λ s. map (λ t. t.now) s.now) result }
{
    values.get_strs(name)
}

/// The texts of an option that may be given several times, in the order of the line.
pub(crate) fn texts<'m, 'a>(values: &'m ArgMatches<'a>, name: &str) -> &'m [&'a str]
    ensures { map (λ t. t.now) result.now ≡ texts_of name.now (rows_in values.now) }
{
    several_or_none(values, name).unwrap_or_default()
}

/// The text of an argument that has to be there.
pub(crate) fn text<'a>(values: &ArgMatches<'a>, name: &'a str) -> Result<&'a str, Unread<'a>>
    ensures { ReadsAs (λ text. text.now) (HasText (rows_in values.now) name.now) result }
{
    match text_or_none(values, name) {
        Some(text) => Ok(text),
        None => Err(Unread::Missing { name }),
    }
}

/// The number of an argument that has to be there, within bounds.
pub(crate) fn number<'a>(
    values: &ArgMatches<'a>,
    name: &'a str,
    least: u64,
    most: u64,
) -> Result<u64, Unread<'a>>
    ensures { Reads (HasNumberIn least most (rows_in values.now) name.now) result }
{
    let text = text(values, name)?;
    match number_in(text, least, most) {
        Some(number) => Ok(number),
        None => Err(Unread::Bad {
            name,
            text,
            wanted: Wanted::Number { least, most },
        }),
    }
}

/// The number of an option, of 64 bits, where it is there.
pub(crate) fn number_or_none<'a>(
    values: &ArgMatches<'a>,
    name: &'a str,
) -> Result<Option<u64>, Unread<'a>>
    ensures { Reads (HasNumberIf (rows_in values.now) name.now) result }
{
    if text_or_none(values, name).is_none() {
        return Ok(None);
    }
    Ok(Some(number(values, name, 0, u64::MAX)?))
}

/// The place of an argument that has to be there.
pub(crate) fn place<'a>(values: &ArgMatches<'a>, name: &'a str) -> Result<Place, Unread<'a>>
    ensures { Reads (HasPlace (rows_in values.now) name.now) result }
{
    let text = text(values, name)?;
    match place_in(text) {
        Some(place) => Ok(place),
        None => Err(Unread::Bad {
            name,
            text,
            wanted: Wanted::Place,
        }),
    }
}

/// The address of an argument that has to be there.
pub(crate) fn address<'a>(values: &ArgMatches<'a>, name: &'a str) -> Result<u32, Unread<'a>>
    ensures { Reads (HasAddress (rows_in values.now) name.now) result }
{
    let text = text(values, name)?;
    match address_in(text) {
        Some(address) => Ok(address),
        None => Err(Unread::Bad {
            name,
            text,
            wanted: Wanted::Address,
        }),
    }
}

/// How many bytes are watched.
fn watched_count(is_word: bool) -> u32
    ensures { result ≡ (if is_word then 4 else 1) }
{
    if is_word { 4 } else { 1 }
}

/// The bytes whose changes are looked for.
pub(crate) fn watched<'a>(values: &ArgMatches<'a>) -> Result<Watched, Unread<'a>>
    ensures { Reads (HasWatched (rows_in values.now)) result }
{
    let first = address(values, "ADDR")?;
    let count = watched_count(flag(values, "word"));
    if u32::MAX - first < count - 1 {
        return Err(Unread::Bad {
            name: "ADDR",
            text: text(values, "ADDR")?,
            wanted: Wanted::WordAddress,
        });
    }
    Ok(Watched {
        address: first,
        count,
    })
}

/// How far apart checkpoints are to be.
pub(crate) fn every<'a>(values: &ArgMatches<'a>) -> Result<Every, Unread<'a>>
    ensures { Reads (HasEvery (rows_in values.now)) result }
{
    let text = text(values, "every")?;
    match every_in(text) {
        Some(every) => Ok(every),
        None => Err(Unread::Bad {
            name: "every",
            text,
            wanted: Wanted::Every,
        }),
    }
}

/// What follows the last of the choices.
pub(crate) fn then<'a>(values: &ArgMatches<'a>) -> Result<Then, Unread<'a>>
    ensures { Reads (HasThen (rows_in values.now)) result }
{
    let text = text(values, "then")?;
    match text {
        "turns" => Ok(Then::Turns),
        "none" => Ok(Then::Nothing),
        _ => Err(Unread::Bad {
            name: "then",
            text,
            wanted: Wanted::Then,
        }),
    }
}

/// Whether an option without a value is there.
pub(crate) fn flag(values: &ArgMatches<'_>, name: &str) -> bool
    ensures { HasFlag (rows_in values.now) name.now result }
{
    match text_or_none(values, name) {
        Some(text) => text == "true",
        None => false,
    }
}

/// The guest that a line names.
pub(crate) fn guest<'a>(values: &ArgMatches<'a>) -> Result<GuestOf<'a>, Unread<'a>>
    ensures { Reads (NamesGuest (rows_in values.now)) result }
{
    Ok(GuestOf {
        store: text(values, "STORE")?,
        number: number(values, "GUEST", 0, u64::MAX)?,
    })
}

/// How `dump` is to print records.
pub(crate) fn form<'a>(values: &ArgMatches<'a>) -> Result<DumpForm, Unread<'a>>
    ensures { Reads (HasForm (rows_in values.now)) result }
{
    let places = flag(values, "places");
    let events = flag(values, "trace-events");
    match (places, events) {
        (false, false) => Ok(DumpForm::Lines),
        (true, false) => Ok(DumpForm::Places),
        (false, true) => Ok(DumpForm::TraceEvents),
        (true, true) => Err(Unread::TwoForms),
    }
}
