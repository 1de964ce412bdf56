//! What stands in a line.

use std::alloc::Global;

/// A number as code writes it, as 17 or 0x11.
pub fn number(word: &str) -> Option<u32> {
    match word.strip_prefix("0x") {
        Some(digits) => u32::from_str_radix(digits, 16).ok(),
        None => word.parse::<u32>().ok(),
    }
}

/// A number, or `none`.
pub fn number_or_none(word: &str) -> Option<Option<u32>> {
    if word == "none" {
        return Some(None);
    }
    Some(Some(number(word)?))
}

/// The numbers of words; None where a word is none.
pub fn numbers(alloc: Global, text: &str) -> Option<Vec<u32>> {
    let mut found = Vec::new(alloc);
    for word in text.split_whitespace() {
        found.push(number(word)?).ok()?;
    }
    Some(found)
}

/// The bytes of words; None where a word is none.
pub fn bytes(alloc: Global, text: &str) -> Option<Vec<u8>> {
    let mut found = Vec::new(alloc);
    for word in text.split_whitespace() {
        found.push(u8::try_from(number(word)?).ok()?).ok()?;
    }
    Some(found)
}
