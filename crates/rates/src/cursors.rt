//! The moves that a cursor is asked to make.

use replayer::Verified;
use reverse_step::Cursor;
use std::alloc::Global;

/// Where a cursor is asked to go.
#[derive(Clone, Copy, Debug)]
pub enum Moves {
    /// To go to one place so often.
    Seek { place: u64, count: u32 },
    /// To go to so many places at random.
    Places { seed: u64, count: u32 },
    /// To go from the end to the last change of a byte.
    Change { address: u32 },
}

/// What words ask; None where that is nothing.
pub fn moves_of(words: &[String]) -> Option<Moves> {
    let (kind, further) = words.split_first()?;
    match (kind.as_str(), further) {
        ("seek", [place, count]) => Some(Moves::Seek {
            place: place.parse().ok()?,
            count: count.parse().ok()?,
        }),
        ("places", [seed, count]) => Some(Moves::Places {
            seed: seed.parse().ok()?,
            count: count.parse().ok()?,
        }),
        ("change", [address]) => Some(Moves::Change {
            address: u32::from_str_radix(address, 16).ok()?,
        }),
        _ => None,
    }
}

/// The next number of a linear congruential generator (Knuth's MMIX).
fn next_number(number: u64) -> u64 {
    number
        .wrapping_mul(6_364_136_223_846_793_005)
        .wrapping_add(1_442_695_040_888_963_407)
}

/// Goes to a place so often, and answers how many instructions that executed.
fn seek_often(alloc: Global, cursor: &mut Cursor<'_>, place: u64, count: u32) -> Option<u64> {
    let mut executed = 0u64;
    for _ in 0..count {
        cursor.seek(alloc, place).ok()?;
        executed = executed.saturating_add(cursor.executed());
    }
    Some(executed)
}

/// Does what is asked. It answers how many instructions that executed, or where the byte last changed.
pub fn make_moves(alloc: Global, verified: &Verified, moves: Moves) -> Option<u64> {
    let mut cursor = Cursor::new(alloc, verified).ok()?;
    match moves {
        Moves::Seek { place, count } => seek_often(alloc, &mut cursor, place, count),
        Moves::Places { seed, count } => {
            let mut executed = 0u64;
            let mut number = seed;
            for _ in 0..count {
                number = next_number(number);
                let place = number.wrapping_shr(20) % verified.total().saturating_add(1).max(1);
                executed = executed.saturating_add(seek_often(alloc, &mut cursor, place, 1)?);
            }
            Some(executed)
        }
        Moves::Change { address } => {
            cursor.seek(alloc, verified.total()).ok()?;
            cursor.last_change(alloc, address).ok()?
        }
    }
}
