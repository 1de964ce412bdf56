//! The text of records, with what a replay tells of their frames.

ghost use Rattle.std.specs.Prelude.{◌≡◌, Some, flat_map};
ghost use Rattle.std.specs.Fmt.{WritesOnOk};
ghost use Rattle.guest_calls.specs.Guest.{state_of};
ghost use Rattle.turn_text.specs.Records.{escaped, event_text, name_event, places_line};

use crate::events::write_event;
use crate::places::write_places;
use guest_calls::Guest;
use rrv_model::record::{Item, Record};
use std::fmt;
use trace_text::RecordLine;

/// The line of a record, without the newline, and behind that of a frame its places.
#[derive(Drop)]
pub struct PlacesLine<'a> {
    entry: &'a Record,
    from: u64,
    to: u64,
    guest: &'a Guest,
}

impl<'a> PlacesLine<'a> {
    /// The line of this record, before and behind which so many instructions ran, and behind which the guest is this one.
    pub fn new(entry: &'a Record, from: u64, to: u64, guest: &'a Guest) -> Self
        ensures entry { result.entry.now ≡ entry.now }
        ensures from { result.from ≡ from }
        ensures to { result.to ≡ to }
        ensures guest { result.guest.now ≡ guest.now }
    {
        PlacesLine {
            entry,
            from,
            to,
            guest,
        }
    }
}

impl<'a> fmt::Display for PlacesLine<'a> {
    ghost output = { λ line. Some (places_line line.entry.now line.from line.to (state_of line.guest.now)) };

    fn fmt<W: fmt::Write>(&self, f: &mut fmt::Formatter<W>) -> fmt::Result {
        let record = RecordLine::new(self.entry);
        write!(f, "{record}")?;
        if let Item::Frame(frame) = &self.entry.item {
            write_places(f, frame, self.from, self.to, self.guest)?;
        }
        Ok(())
    }
}

/// A record in a list of trace events: the opening begins the list with the event that names the guest, a frame adds its
/// event, and a part adds none. `EVENTS_END` ends the list.
#[derive(Drop)]
pub struct EventText<'a> {
    entry: &'a Record,
    from: u64,
    guest: &'a Guest,
}

/// The end of a list of trace events.
pub const EVENTS_END: &str = "\n]\n";

impl<'a> EventText<'a> {
    /// The text of this record, before which so many instructions ran, and behind which the guest is this one.
    pub fn new(entry: &'a Record, from: u64, guest: &'a Guest) -> Self
        ensures entry { result.entry.now ≡ entry.now }
        ensures from { result.from ≡ from }
        ensures guest { result.guest.now ≡ guest.now }
    {
        EventText { entry, from, guest }
    }
}

impl<'a> fmt::Display for EventText<'a> {
    ghost output = { λ text. Some (event_text text.entry.now text.from (state_of text.guest.now)) };

    fn fmt<W: fmt::Write>(&self, f: &mut fmt::Formatter<W>) -> fmt::Result {
        match &self.entry.item {
            Item::Opening(opening) => {
                f.write_str("[\n")?;
                write_name(f, self.entry.guest, opening.name.as_slice())
            }
            Item::Frame(frame) => {
                f.write_str(",\n")?;
                let (guest, index) = (self.entry.guest, self.entry.index);
                write_event(f, guest, index, frame, self.from, self.guest)
            }
            Item::Part(_) => Ok(()),
        }
    }
}

/// The event that names a guest.
#[tactic(auto, unfolding(crate::specs::Records::name_event))]
fn write_name<W: fmt::Write>(f: &mut fmt::Formatter<W>, guest: u32, name: &[u8]) -> fmt::Result
    ensures { WritesOnOk W.write_str_gives f.old result (name_event guest name.now) f.new }
{
    write!(
        f,
        "{{\"name\":\"process_name\",\"ph\":\"M\",\"pid\":{guest},\"args\":{{\"name\":\""
    )?;
    write_escaped(f, name)?;
    f.write_str("\"}}")
}

/// The characters of a name in a string of JSON (RFC 8259, section 7). A name has no control characters.
fn write_escaped<W: fmt::Write>(f: &mut fmt::Formatter<W>, name: &[u8]) -> fmt::Result
    ensures { WritesOnOk W.write_str_gives f.old result (flat_map escaped name.now) f.new }
{
    for byte in name {
        write_character(f, *byte)?;
    }
    Ok(())
}

/// A character, a quote or a backslash behind a backslash.
#[tactic(auto, unfolding(crate::specs::Records::escaped))]
fn write_character<W: fmt::Write>(f: &mut fmt::Formatter<W>, byte: u8) -> fmt::Result
    ensures { WritesOnOk W.write_str_gives f.old result (escaped byte) f.new }
{
    if byte == b'"' || byte == b'\\' {
        f.write_str("\\")?;
        return f.write_char(char::from(byte));
    }
    f.write_char(char::from(byte))
}
