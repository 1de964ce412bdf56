//! Each pair of acts that race, as text.

use crate::deeds::touch_range;
use crate::plain::Plain;
use order::Act;
use std::alloc::Global;

/// Tests whether a path leads from one act to another, by the table of those before it.
fn leads_on(plain: &Plain, before: &[Vec<bool>], i: usize, j: usize) -> bool {
    for (k, row) in before.iter().enumerate() {
        let is_before = match row.get(i) {
            Some(is_before) => *is_before,
            None => false,
        };
        if is_before && plain.leads(k, j) {
            return true;
        }
    }
    false
}

/// Which acts come before an act.
fn row_of(alloc: Global, plain: &Plain, before: &[Vec<bool>], j: usize) -> Option<Vec<bool>> {
    let mut row = Vec::new(alloc);
    for i in 0..j {
        row.push(plain.leads(i, j) || leads_on(plain, before, i, j))
            .ok()?;
    }
    Some(row)
}

/// Which acts come before which.
fn table_of(alloc: Global, plain: &Plain, count: usize) -> Option<Vec<Vec<bool>>> {
    let mut before = Vec::new(alloc);
    for j in 0..count {
        let row = row_of(alloc, plain, &before, j)?;
        before.push(row).ok()?;
    }
    Some(before)
}

/// Puts a race behind others: two acts, the first byte and how many.
fn put_race(
    alloc: Global,
    text: &mut String,
    pair: (usize, usize),
    first: u32,
    count: u32,
) -> Option<()> {
    if count == 0 {
        return Some(());
    }
    if !text.is_empty() {
        text.push(' ').ok()?;
    }
    let race = format!(in alloc; "{}-{}@{first:x}:{count}", pair.0, pair.1).ok()?;
    text.push_str(race.as_str()).ok()
}

/// Puts the races of two acts that nothing orders behind others, each with as many bytes as stand in a row.
fn put_pair(
    alloc: Global,
    text: &mut String,
    plain: &Plain,
    pair: (usize, usize),
    range: (u32, u32),
) -> Option<()> {
    let mut first = range.0;
    let mut count = 0u32;
    for k in 0..range.1 {
        let byte = range.0.checked_add(k)?;
        if plain.conflict(pair.0, pair.1, byte) {
            if count == 0 {
                first = byte;
            }
            count = count.saturating_add(1);
        } else {
            put_race(alloc, text, pair, first, count)?;
            count = 0;
        }
    }
    put_race(alloc, text, pair, first, count)
}

/// Puts the races of which an act is the later one behind others.
fn put_races(
    alloc: Global,
    text: &mut String,
    plain: &Plain,
    row: &[bool],
    j: usize,
    range: (u32, u32),
) -> Option<()> {
    for (i, is_before) in row.iter().enumerate() {
        if !*is_before {
            put_pair(alloc, text, plain, (i, j), range)?;
        }
    }
    Some(())
}

/// The races of some acts; None where no memory is left.
pub fn races_text(alloc: Global, acts: &[Act]) -> Option<String> {
    let plain = Plain::new(alloc, acts)?;
    let before = table_of(alloc, &plain, acts.len())?;
    let mut text = String::new(alloc);
    for (j, act) in acts.iter().enumerate() {
        put_races(
            alloc,
            &mut text,
            &plain,
            before.get(j)?,
            j,
            touch_range(act.deed),
        )?;
    }
    if text.is_empty() {
        text.push_str("none").ok()?;
    }
    Some(text)
}
