//! The words of a line, and what it tells.

use std::alloc::Global;
use std::fmt::Display;
use test_guests::bytes::bytes_of;

/// The opening record of a guest that exits with 5, and its call record.
const OPENING: &str = "0000000000000000007600000060000000 \
    7f454c460101010000000000000000000200f300010000005400010034000000 \
    000000000000000034002000010000000000000001000000000000000000010000000100 \
    60000000600000000500000004000000130550009308d00573000000 \
    016100000000000000000000000000000000";

const CALL: &str = "0000000001000000021000000001000000030000000000000000000000";

/// The number at a place among words.
pub fn number(words: &[&str], place: usize) -> Option<u64> {
    words.get(place)?.parse::<u64>().ok()
}

/// The number at a place, where it has four bytes at most.
pub fn short_number(words: &[&str], place: usize) -> Option<u32> {
    words.get(place)?.parse::<u32>().ok()
}

/// The byte at a place, in hex digits.
pub fn byte(words: &[&str], place: usize) -> Option<u8> {
    u8::from_str_radix(words.get(place)?, 16).ok()
}

/// Puts the bytes that a word says behind others: `opening` and `call` are those records.
fn put_word(alloc: Global, bytes: &mut Vec<u8>, word: &str) -> Option<()> {
    let digits = match word {
        "opening" => OPENING,
        "call" => CALL,
        other => other,
    };
    bytes.extend_from_slice(&bytes_of(alloc, digits)?).ok()
}

/// The bytes that words from a place on say.
pub fn bytes_from(alloc: Global, words: &[&str], place: usize) -> Option<Vec<u8>> {
    let mut bytes = Vec::new(alloc);
    for word in words.get(place..)? {
        put_word(alloc, &mut bytes, word)?;
    }
    Some(bytes)
}

/// The bytes that the words of a text say. It keeps no list of them, whose growth may be refused and then done by less.
pub fn bytes_said(alloc: Global, text: &str) -> Option<Vec<u8>> {
    let mut bytes = Vec::new(alloc);
    for word in text.split_whitespace() {
        put_word(alloc, &mut bytes, word)?;
    }
    Some(bytes)
}

/// A value as text.
pub fn told<T: Display>(alloc: Global, value: &T) -> Option<String> {
    format!(in alloc; "{value}").ok()
}

/// Nothing where it was done, else why not.
pub fn done<F: Display + Drop>(alloc: Global, outcome: Result<(), F>) -> Option<String> {
    match outcome {
        Ok(()) => Some(String::new(alloc)),
        Err(fault) => told(alloc, &fault),
    }
}
