//! The printed lines of guests, as a store lists them and as a recording reports them.

ghost use Rattle.std.specs.Prelude.{◌≡◌, Some};
ghost use Rattle.trace_text.specs.Lines.{list_line, report_line};

use crate::text::{EndText, write_name};
use rrv_model::machine::GuestEnd;
use std::fmt;

/// The line of a guest in a store's list, without the newline, as in `0 g0 records=2 frames=1 instructions=3`.
#[derive(Drop)]
pub struct ListLine<'a> {
    guest: u32,
    name: &'a [u8],
    records: u64,
    frames: u64,
    instructions: u64,
}

impl<'a> ListLine<'a> {
    /// The line of the guest of this number and name, with so many records, frames and instructions.
    pub fn new(guest: u32, name: &'a [u8], records: u64, frames: u64, instructions: u64) -> Self
        ensures guest { result.guest ≡ guest }
        ensures name { result.name.now ≡ name.now }
        ensures records { result.records ≡ records }
        ensures frames { result.frames ≡ frames }
        ensures instructions { result.instructions ≡ instructions }
    {
        ListLine {
            guest,
            name,
            records,
            frames,
            instructions,
        }
    }
}

impl<'a> fmt::Display for ListLine<'a> {
    ghost output = { λ line. Some
        (list_line line.guest line.name.now line.records line.frames line.instructions) };

    fn fmt<W: fmt::Write>(&self, f: &mut fmt::Formatter<W>) -> fmt::Result {
        let guest = self.guest;
        let records = self.records;
        let frames = self.frames;
        let instructions = self.instructions;
        write!(f, "{guest} ")?;
        write_name(f, self.name)?;
        write!(
            f,
            " records={records} frames={frames} instructions={instructions}"
        )
    }
}

/// The line that reports how a recording of a guest ended, without the newline, as in `g0: end exited 5, records 2`.
#[derive(Drop)]
pub struct ReportLine<'a> {
    name: &'a [u8],
    end: EndText,
    records: u64,
}

impl<'a> ReportLine<'a> {
    /// The line of the guest of this name, which ended so and has so many records.
    pub fn new(name: &'a [u8], end: Option<GuestEnd>, records: u64) -> Self
        ensures name { result.name.now ≡ name.now }
        ensures end { result.end.end ≡ end }
        ensures records { result.records ≡ records }
    {
        ReportLine {
            name,
            end: EndText::new(end),
            records,
        }
    }
}

impl<'a> fmt::Display for ReportLine<'a> {
    ghost output = { λ line. Some (report_line line.name.now line.end.end line.records) };

    fn fmt<W: fmt::Write>(&self, f: &mut fmt::Formatter<W>) -> fmt::Result {
        let end = &self.end;
        let records = self.records;
        write_name(f, self.name)?;
        write!(f, ": {end}, records {records}")
    }
}
