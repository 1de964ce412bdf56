//! Whether a command shows how far it is.

use crate::terminals::Terminals;

/// Whether a command shows how far it is, on standard error, and whether its output may lead to where that goes.
#[derive(Clone, Copy, Debug, PartialEq, Eq)]
pub struct Shows {
    pub is_shown: bool,
    pub clears: bool,
}

impl Shows {
    /// It is shown if the line asks for it, and by itself on a terminal.
    pub fn new(is_asked: bool, terminals: Terminals) -> Self {
        Shows {
            is_shown: is_asked || terminals.err,
            clears: terminals.out,
        }
    }
}
