//! Where the standard streams lead.

/// Which of the standard streams are terminals.
#[derive(Clone, Copy, Debug, PartialEq, Eq)]
pub struct Terminals {
    pub input: bool,
    pub out: bool,
    pub err: bool,
}

impl Terminals {
    /// None is.
    pub fn none() -> Self {
        Terminals {
            input: false,
            out: false,
            err: false,
        }
    }

    /// Whether lines are typed, and what they ask is read, at a terminal.
    pub fn prompts(self) -> bool {
        self.input && self.out
    }
}
