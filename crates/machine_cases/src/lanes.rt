//! Lines of pages by lanes: which of them differ, whether all bytes are zero, and lines that are merged.

use crate::answers::{listed, told};
use crate::lines::bytes;
use lane_pages::{changed, is_zero, merge};
use rrv_model::record::Line;
use std::alloc::Global;

/// A page of one byte, but for another one at a place: `BYTE`, or `BYTE/PLACE/OTHER`.
fn page_in(word: &str) -> Option<[u8; 4096]> {
    let Some((byte, rest)) = word.split_once('/') else {
        return Some([word.parse::<u8>().ok()?; 4096]);
    };
    let (place, other) = rest.split_once('/')?;
    let mut page = [byte.parse::<u8>().ok()?; 4096];
    *page.get_mut(place.parse::<usize>().ok()?)? = other.parse::<u8>().ok()?;
    Some(page)
}

/// The first and the last byte of the first line, of the second and of the last, where lines of these bytes are merged into zeros.
fn merged(alloc: Global, mask: u64, bytes: &[u8]) -> Option<String> {
    let mut lines = Vec::new(alloc);
    for byte in bytes {
        lines.push(Line { bytes: [*byte; 64] }).ok()?;
    }
    if lines.len() != mask.count_ones() as usize {
        return None;
    }
    let mut page = [0; 4096];
    merge(&mut page, &lines, mask);
    let found = [
        page[0], page[63], page[64], page[127], page[4032], page[4095],
    ];
    listed(alloc, &found)
}

/// What is found where words ask this.
pub fn answer(alloc: Global, asked: &str) -> Option<String> {
    let (name, rest) = asked.split_once(' ')?;
    let (first, second) = rest.split_once(' ').unwrap_or((rest, ""));
    match name {
        "zero" => told(alloc, &is_zero(&page_in(first)?)),
        "changed" => {
            let mask = changed(&page_in(first)?, &page_in(second)?);
            format!(in alloc; "{mask:#018x}").ok()
        }
        "merged" => {
            let mask = u64::from_str_radix(first.strip_prefix("0x")?, 16).ok()?;
            merged(alloc, mask, &bytes(alloc, second)?)
        }
        _ => None,
    }
}
