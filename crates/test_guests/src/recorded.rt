//! Guests that are recorded with checkpoints.

ghost use Rattle.std.specs.Prelude.{IsSome};
ghost use Rattle.guest_calls.specs.Snapshots.{guest_snapshots};

use crate::files::guest_of_version;
use checkpoint::make;
use guest_calls::Guest;
use guest_pages::Snapshot;
use rrv_model::machine::Version;
use rrv_model::record::{Item, Opening, Part};
use rrv_model::sequence::Sequence;
use std::alloc::Global;
use std::mem;

/// What a guest of a version and a file starts from, whose name is `a`, and whose random bytes are all 0.
pub fn opening_of(alloc: Global, version: Version, elf: &[u8]) -> Option<Item> {
    Some(Item::Opening(Opening {
        version,
        elf: Sequence::from_vec(elf.to_vec(alloc).ok()?),
        name: Sequence::from_vec(b"a".to_vec(alloc).ok()?),
        random: [0; 16],
    }))
}

/// A guest that is recorded, with its memory at the last checkpoint, or at the start.
#[derive(Drop)]
pub struct Recorded {
    pub guest: Guest,
    pub base: Snapshot,
    ghost keeps_base: { IsSome (guest_snapshots guest base) },
}

impl Recorded {
    /// One of a file, as `opening_of` says, at its start.
    pub fn start(alloc: Global, version: Version, elf: &[u8]) -> Option<Recorded> {
        let mut guest = guest_of_version(alloc, version, elf, 0)?;
        let base = guest.snapshot().ok()?;
        Some(Recorded { guest, base })
    }

    /// A checkpoint of the guest against the last one, or against the start.
    pub fn checkpoint(&mut self, alloc: Global) -> Option<Vec<Part>> {
        let parts = make(alloc, &self.guest, &self.base).ok()?;
        let next = self.guest.snapshot().ok()?;
        self.guest.drop_snapshot(mem::replace(&mut self.base, next));
        Some(parts)
    }
}
