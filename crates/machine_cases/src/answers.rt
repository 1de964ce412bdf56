//! What lines with an answer find, as text.

use std::alloc::Global;
use std::fmt::{Debug, Display, Write};

/// A value as text.
pub fn told<T: Display>(alloc: Global, value: &T) -> Option<String> {
    format!(in alloc; "{value}").ok()
}

/// A number, or `none`.
pub fn told_if_some(alloc: Global, number: Option<u32>) -> Option<String> {
    match number {
        Some(number) => format!(in alloc; "{number:#x}").ok(),
        None => "none".to_string(alloc).ok(),
    }
}

/// Nothing where it was done, else why not.
pub fn done<F: Display + Drop>(alloc: Global, outcome: Result<(), F>) -> Option<String> {
    match outcome {
        Ok(()) => Some(String::new(alloc)),
        Err(fault) => told(alloc, &fault),
    }
}

/// Values with blanks between them.
pub fn listed<T: Display>(alloc: Global, values: &[T]) -> Option<String> {
    let mut text = String::new(alloc);
    for value in values {
        if !text.is_empty() {
            text.push(' ').ok()?;
        }
        write!(text, "{value}").ok()?;
    }
    Some(text)
}

/// Refusals by their names, each with its text.
pub fn named<F: Debug + Display>(alloc: Global, faults: &[F]) -> Option<String> {
    let mut text = String::new(alloc);
    for fault in faults {
        if !text.is_empty() {
            text.push_str(", ").ok()?;
        }
        write!(text, "{fault:?}: {fault}").ok()?;
    }
    Some(text)
}

/// Puts what was found behind the rest, if that is something.
pub fn add(text: &mut String, found: &str) -> Option<()> {
    if found.is_empty() {
        return Some(());
    }
    if !text.is_empty() {
        text.push_str(", ").ok()?;
    }
    text.push_str(found).ok()
}
