//! The tokens of snapshots.

ghost use Rattle.std.specs.Prelude.{◌≡◌};

use std::marker::Model;

/// A token for the memory that a space had when it was made. The space keeps that memory until
/// [`crate::Space::drop_snapshot`] spends the token; where a token is let go unspent, as long as the space lives.
#[derive(Debug, Drop)]
pub struct Snapshot {
    number: usize,
}

impl Model for Snapshot {
    ghost use Rattle.std.specs.Prelude.{ℕ};

    ghost Value = { ℕ };

    ghost view = { λ s. s.number };
}

impl Snapshot {
    /// The token of a snapshot by its number.
    pub(crate) fn new(number: usize) -> Snapshot
        ensures { result ≡ number }
    {
        Snapshot { number }
    }

    /// The number of the snapshot that it stands for.
    pub(crate) fn number(&self) -> usize
        ensures { result ≡ self.now }
    {
        self.number
    }
}
