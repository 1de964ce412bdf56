//! Calls of disks, of logs and of lists of records. What a call requires is tested here.

use crate::records::description;
use crate::words::{bytes_from, done, number, short_number, told};
use recover::{Lists, ReadFault};
use std::alloc::Global;
use std::fmt::Write;
use trace_disk::{Disk, cut_through, write_through};
use trace_log::Log;

/// The bytes of a range as hex digits.
fn range_text<D: Disk>(alloc: Global, disk: &mut D, from: u64, count: u64) -> Option<String> {
    let count = usize::try_from(count).ok()?;
    let len = disk.len();
    if len < from || len - from < count as u64 {
        return None;
    }
    let mut bytes = Vec::new(alloc);
    bytes.resize(count, 0).ok()?;
    match disk.read_at(from, &mut bytes) {
        Ok(()) => hex::encode(alloc, &bytes).ok(),
        Err(fault) => told(alloc, &fault),
    }
}

/// Writes bytes at a place of a disk, or cuts it there.
fn change<D: Disk>(
    alloc: Global,
    disk: &mut D,
    call: &str,
    place: u64,
    bytes: &[u8],
) -> Option<String> {
    if disk.len() < place {
        return None;
    }
    let outcome = match call {
        "write" => disk.write_at(place, bytes),
        "write-through" => write_through(disk, place, bytes),
        "cut" => disk.cut(place),
        "cut-through" => cut_through(disk, place),
        _ => return None,
    };
    done(alloc, outcome)
}

/// What a disk answers.
pub fn call_disk<D: Disk>(alloc: Global, disk: &mut D, words: &[&str]) -> Option<String> {
    match words.first().copied()? {
        "len" => told(alloc, &disk.len()),
        "failures" => told(alloc, &disk.failures()),
        "sync" => done(alloc, disk.sync()),
        "bytes" => range_text(alloc, disk, number(words, 1)?, number(words, 2)?),
        "append" => {
            let end = disk.len();
            change(alloc, disk, "write", end, &bytes_from(alloc, words, 1)?)
        }
        call => {
            let bytes = bytes_from(alloc, words, 2)?;
            change(alloc, disk, call, number(words, 1)?, &bytes)
        }
    }
}

/// Puts a number at a place of a record's text, which has its index at 4.
fn put_number(text: &mut [u8], place: usize, number: u32) -> Option<()> {
    let (digits, _) = text.get_mut(place..)?.split_first_chunk_mut::<4>()?;
    *digits = number.to_le_bytes();
    Some(())
}

/// Puts the text of a call or a frame behind a body, once for each index from one up to another. Words say these, the place of a
/// number that is the index too, and the text.
pub fn put_numbered(alloc: Global, body: &mut Vec<u8>, words: &[&str]) -> Option<()> {
    let (from, to) = (short_number(words, 1)?, short_number(words, 2)?);
    let place = usize::try_from(number(words, 3)?).ok()?;
    let mut text = bytes_from(alloc, words, 4)?;
    for index in from..to {
        put_number(&mut text, 4, index)?;
        put_number(&mut text, place, index)?;
        body.extend_from_slice(&text).ok()?;
    }
    Some(())
}

/// Commits bytes as a body.
fn commit<D: Disk>(alloc: Global, log: &mut Log<D>, bytes: &[u8]) -> Option<String> {
    if bytes.is_empty() {
        return None;
    }
    done(alloc, log.commit(alloc, bytes))
}

/// Commits each so many bytes as a body, up to the first that is refused.
fn commit_each<D: Disk>(
    alloc: Global,
    log: &mut Log<D>,
    bytes: &[u8],
    count: usize,
) -> Option<String> {
    if count == 0 {
        return None;
    }
    for part in bytes.chunks(count) {
        let refusal = commit(alloc, log, part)?;
        if !refusal.is_empty() {
            return Some(refusal);
        }
    }
    Some(String::new(alloc))
}

/// What a log answers, with bytes to be committed.
pub fn call_log<D: Disk>(
    alloc: Global,
    log: &mut Log<D>,
    bytes: &[u8],
    words: &[&str],
) -> Option<String> {
    match words.first().copied()? {
        "commit" => commit(alloc, log, bytes),
        "commit-each" => {
            let count = usize::try_from(number(words, 1)?).ok()?;
            commit_each(alloc, log, bytes, count)
        }
        "next-guest" => told(alloc, &log.next_guest()),
        "marked" => told(alloc, &log.marked()),
        "mark" => match log.mark(alloc) {
            Ok(made) => told(alloc, &made),
            Err(fault) => told(alloc, &fault),
        },
        "raise-guest" => {
            log.raise_guest(short_number(words, 1)?);
            Some(String::new(alloc))
        }
        _ => None,
    }
}

/// The numbers of the guests, with blanks between them.
fn guests_text(alloc: Global, lists: &Lists) -> Option<String> {
    let mut text = String::new(alloc);
    for guest in lists.guests() {
        if !text.is_empty() {
            text.push(' ').ok()?;
        }
        write!(text, "{guest}").ok()?;
    }
    Some(text)
}

/// What is told of a record, or why it isn't read; None if there is no memory, or no such record.
pub fn record_at<D: Disk>(
    alloc: Global,
    lists: &Lists,
    disk: &mut D,
    guest: u32,
    index: u32,
) -> Option<String> {
    if lists.len(guest) <= index {
        return None;
    }
    match lists.item(alloc, disk, guest, index) {
        Ok(record) => description(alloc, &record).ok(),
        Err(ReadFault::Memory) => None,
        Err(fault) => told(alloc, &fault),
    }
}

/// Whether a text begins with these words.
fn begins_with(text: &str, words: &[&str]) -> bool {
    let mut found = text.split_whitespace();
    for word in words {
        if found.next() != Some(*word) {
            return false;
        }
    }
    true
}

/// How many records of a guest tell what words say, from one index up to another; else what the first tells that doesn't.
fn reads<D: Disk>(alloc: Global, lists: &Lists, disk: &mut D, words: &[&str]) -> Option<String> {
    let guest = short_number(words, 1)?;
    let (from, to) = (short_number(words, 2)?, short_number(words, 3)?);
    let want = words.get(4..)?;
    for index in from..to {
        let text = record_at(alloc, lists, disk, guest, index)?;
        let head = format!(in alloc; "guest {guest} index {index} ").ok()?;
        match text.as_str().strip_prefix(head.as_str()) {
            Some(rest) if begins_with(rest, want) => {}
            _ => return Some(text),
        }
    }
    told(alloc, &to.saturating_sub(from))
}

/// What lists of records answer, which stand on a disk.
pub fn ask_lists<D: Disk>(
    alloc: Global,
    lists: &Lists,
    disk: Option<&mut D>,
    words: &[&str],
) -> Option<String> {
    match words.first().copied()? {
        "guests" => guests_text(alloc, lists),
        "records" => told(alloc, &lists.len(short_number(words, 1)?)),
        _ => match disk {
            Some(disk) => ask_records(alloc, lists, disk, words),
            None => None,
        },
    }
}

/// What records answer that are read from a disk.
fn ask_records<D: Disk>(
    alloc: Global,
    lists: &Lists,
    disk: &mut D,
    words: &[&str],
) -> Option<String> {
    match words.first().copied()? {
        "record-at" => {
            let (guest, index) = (short_number(words, 1)?, short_number(words, 2)?);
            record_at(alloc, lists, disk, guest, index)
        }
        "reads" => reads(alloc, lists, disk, words),
        _ => None,
    }
}
