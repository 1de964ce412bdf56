//! Words at several places.

ghost use Rattle.std.specs.Prelude.{◌≡◌, ◌+◌, ◌≤◌, OnOk, OnErr, IsTrue, length};
ghost use Rattle.rrv_model.specs.CallRows.{all_writable};
ghost use Rattle.guest_pages.specs.Live.{added_words, live_of};
ghost use Rattle.guest_pages.specs.Space.{memory_of, snapshots_of};
ghost use Rattle.guest_pages.specs.Stores.{AreOwnWords};

use crate::address_space::Space;
use crate::mapping::list_word_pages;
use rrv_model::refusal::Memory;

impl Space {
    /// Makes the pages of words that may be written the space's own, all or none.
    pub(crate) fn own_words(&mut self, places: &[u32]) -> Result<(), Memory>
        requires { IsTrue (all_writable (memory_of self.old) places.now) }
        ensures ready { OnOk result (AreOwnWords self.new places.now) }
        ensures memory { memory_of self.new ≡ memory_of self.old }
        ensures some { OnErr result (1 ≤ length places.now) }
        ensures err { OnErr result (self.new ≡ self.old) }
        ensures snapshots { snapshots_of self.new ≡ snapshots_of self.old }
        ensures live { OnOk result (live_of self.new ≡ live_of self.old + added_words self.old places.now) }
    {
        let numbers = list_word_pages(self.alloc, places)?;
        self.tables.own_each(numbers.as_slice())?;
        Ok(())
    }
}
