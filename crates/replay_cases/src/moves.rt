//! Moves of a cursor.

use reverse_step::Cursor;
use std::alloc::Global;
use std::fmt::Write;

/// A move of a cursor.
#[derive(Clone, Copy, Debug, PartialEq, Eq)]
pub enum Move {
    Seek(u64),
    Back(u64),
    Forward(u64),
    /// To the last change of the byte at an address.
    Change(u32),
}

/// The move that two words say.
pub fn move_of(kind: &str, number: &str) -> Option<Move> {
    match kind {
        "seek" => Some(Move::Seek(number.parse().ok()?)),
        "back" => Some(Move::Back(number.parse().ok()?)),
        "forward" => Some(Move::Forward(number.parse().ok()?)),
        "change" => Some(Move::Change(u32::from_str_radix(number, 16).ok()?)),
        _ => None,
    }
}

/// Goes to the last change of a byte, and adds to the text where that is.
fn go_to_change(
    alloc: Global,
    cursor: &mut Cursor<'_>,
    address: u32,
    text: &mut String,
) -> Option<()> {
    match cursor.last_change(alloc, address).ok()? {
        Some(place) => write!(text, "{place}, ").ok(),
        None => text.push_str("unchanged, ").ok(),
    }
}

/// Moves a cursor, and adds to the text what it answers beside that it moved.
pub fn go(alloc: Global, cursor: &mut Cursor<'_>, step: Move, text: &mut String) -> Option<()> {
    let moved = match step {
        Move::Seek(place) => cursor.seek(alloc, place),
        Move::Back(count) => cursor.back(alloc, count),
        Move::Forward(count) => cursor.forward(alloc, count),
        Move::Change(address) => return go_to_change(alloc, cursor, address, text),
    };
    match moved {
        Ok(()) => Some(()),
        Err(fault) => write!(text, "{fault}, ").ok(),
    }
}
