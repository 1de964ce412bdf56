//! How far a command is.

use std::fmt;
use std::fmt::{Display, Formatter};

/// Records, and the instructions of their frames.
#[derive(Clone, Copy, Debug, PartialEq, Eq)]
pub struct Count {
    pub records: u64,
    pub instructions: u64,
}

/// How far a command is, and how far it goes, where that is known.
#[derive(Clone, Copy, Debug, PartialEq, Eq)]
pub struct Extent {
    pub done: Count,
    pub of: Option<Count>,
}

impl Display for Extent {
    fn fmt<W: fmt::Write>(&self, f: &mut Formatter<W>) -> fmt::Result {
        let Count {
            records,
            instructions,
        } = self.done;
        match self.of {
            Some(all) => write!(
                f,
                "{records} of {} records, {instructions} of {} instructions",
                all.records, all.instructions
            ),
            None => write!(f, "{records} records, {instructions} instructions"),
        }
    }
}
