//! Bytes as text.

use std::alloc::Global;

/// Puts the bytes of a word behind the others, as often as the word says.
fn push_word(alloc: Global, bytes: &mut Vec<u8>, word: &str) -> Option<()> {
    let (digits, times) = match word.split_once('*') {
        Some((digits, times)) => (digits, times.parse::<u32>().ok()?),
        None => (word, 1),
    };
    let part = hex::decode(alloc, digits).ok()?;
    for _ in 0..times {
        bytes.extend_from_slice(&part).ok()?;
    }
    Some(())
}

/// The bytes of words of hex digits, as `02000000 e1*96`; None where these are none.
pub fn bytes_of(alloc: Global, text: &str) -> Option<Vec<u8>> {
    let mut bytes = Vec::new(alloc);
    for word in text.split_whitespace() {
        push_word(alloc, &mut bytes, word)?;
    }
    Some(bytes)
}
