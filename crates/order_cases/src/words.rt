//! The words of a line: acts.

use order::{Act, Change, Deed};
use std::alloc::Global;

/// The value of a hex digit.
fn digit(byte: u8) -> Option<u32> {
    match byte {
        b'0'..=b'9' => Some(u32::from(byte.wrapping_sub(b'0'))),
        b'a'..=b'f' => Some(u32::from(byte.wrapping_sub(b'a')).wrapping_add(10)),
        _ => None,
    }
}

/// The number that three hex digits say.
fn address(digits: &[u8]) -> Option<u32> {
    let [first, second, third] = digits else {
        return None;
    };
    let high = digit(*first)?.wrapping_mul(256);
    let middle = digit(*second)?.wrapping_mul(16);
    Some(high.wrapping_add(middle).wrapping_add(digit(*third)?))
}

/// Flags, and the address behind them.
fn flags_and_address(text: &[u8]) -> Option<(&[u8], u32)> {
    let cut = text.len().checked_sub(3)?;
    let (flags, digits) = text.split_at(cut);
    Some((flags, address(digits)?))
}

/// An address, and how many bytes.
fn range(text: &[u8]) -> Option<(u32, u32)> {
    let [digits @ .., b':', count] = text else {
        return None;
    };
    Some((address(digits)?, digit(*count)?))
}

/// A change of the low byte of a word, unless it changes nothing.
fn change(text: &[u8]) -> Option<Deed> {
    let (flags, at) = flags_and_address(text)?;
    let acquires = flags.contains(&b'a');
    let releases = flags.contains(&b'l');
    let after = if flags.contains(&b'=') { 0 } else { 1 };
    Some(Deed::Changes(Change {
        at,
        before: 0,
        after,
        reads: !flags.contains(&b'0'),
        acquires,
        releases,
        full: acquires && releases,
    }))
}

fn reservation(text: &[u8]) -> Option<Deed> {
    let (flags, address) = flags_and_address(text)?;
    Some(Deed::Reserves {
        address,
        acquires: flags.contains(&b'a'),
        releases: flags.contains(&b'l'),
    })
}

/// A thread of one digit.
fn thread(text: &[u8]) -> Option<u32> {
    let [tid] = text else {
        return None;
    };
    digit(*tid)
}

/// What a letter and the rest of a word say.
fn deed(letter: u8, rest: &[u8]) -> Option<Deed> {
    match letter {
        b'r' => {
            let (address, count) = range(rest)?;
            Some(Deed::Reads { address, count })
        }
        b'w' => {
            let (address, count) = range(rest)?;
            Some(Deed::Writes { address, count })
        }
        b'n' => {
            let (address, count) = range(rest)?;
            Some(Deed::Renews { address, count })
        }
        b'x' => change(rest),
        b'l' => reservation(rest),
        b'f' => Some(Deed::Fences {
            acquires: rest.contains(&b'a'),
            releases: rest.contains(&b'r'),
        }),
        b't' => Some(Deed::SetsTid {
            address: address(rest)?,
        }),
        b'c' => Some(Deed::ClearsTid {
            address: address(rest)?,
        }),
        b's' => Some(Deed::Starts { tid: thread(rest)? }),
        b'k' => Some(Deed::Wakes { tid: thread(rest)? }),
        b'g' => Some(Deed::Leaves),
        _ => None,
    }
}

/// The act that a word says, at a place.
fn act(place: u64, word: &[u8]) -> Option<Act> {
    let [tid, letter, rest @ ..] = word else {
        return None;
    };
    Some(Act {
        place,
        tid: digit(*tid)?,
        deed: deed(*letter, rest)?,
    })
}

/// The acts that a line says; None where a word says none, or no memory is left.
pub fn acts_of(alloc: Global, line: &str) -> Option<Vec<Act>> {
    let mut acts = Vec::new(alloc);
    for word in line.split_whitespace() {
        let place = acts.len() as u64;
        acts.push(act(place, word.as_bytes())?).ok()?;
    }
    Some(acts)
}
