//! What is told of a state.

use guest_calls::Guest;
use sha2::{Digest, Sha256};
use std::alloc::{AllocError, Global};
use std::fmt::Write;
use trace_text::StateLines;

/// What is told of a state.
#[derive(Clone, Copy, Debug, PartialEq, Eq)]
pub enum Told {
    Place,
    /// Its lines, with a bar between them.
    Lines,
    /// SHA-256 of its lines.
    Digest,
    /// Whether no more instructions ran for it.
    Within(u64),
}

/// What words ask.
pub fn told_of(words: &[&str]) -> Option<Told> {
    let (kind, rest) = words.split_first()?;
    match *kind {
        "place" => Some(Told::Place),
        "lines" => Some(Told::Lines),
        "digest" => Some(Told::Digest),
        "within" => Some(Told::Within(rest.first()?.parse().ok()?)),
        _ => None,
    }
}

/// A guest's state at a place of so many.
#[derive(Drop)]
pub struct State<'a> {
    pub guest: &'a Guest,
    pub place: u64,
    pub total: u64,
}

impl State<'_> {
    fn lines(&self, alloc: Global) -> Result<String, AllocError> {
        let lines = StateLines::new(self.guest, self.place, self.total);
        format!(in alloc; "{lines}")
    }

    fn digest(&self, alloc: Global) -> Result<String, AllocError> {
        let lines = self.lines(alloc)?;
        hex::encode(alloc, Sha256::digest(lines.as_str()))
    }

    /// Tells something of it.
    pub fn tell(&self, alloc: Global, told: Told, text: &mut String) -> Result<(), AllocError> {
        match told {
            Told::Place => write!(text, "at {}", self.place),
            Told::Lines => add_joined(text, self.lines(alloc)?.as_str()),
            Told::Digest => text.push_str(self.digest(alloc)?.as_str()),
            Told::Within(count) if self.guest.ran() <= count => text.push_str("yes"),
            Told::Within(_) => write!(text, "{}", self.guest.ran()),
        }
    }
}

/// Adds lines, with a bar between them.
fn add_joined(text: &mut String, lines: &str) -> Result<(), AllocError> {
    for (place, line) in lines.lines().enumerate() {
        if place != 0 {
            text.push_str(" | ")?;
        }
        text.push_str(line)?;
    }
    Ok(())
}
