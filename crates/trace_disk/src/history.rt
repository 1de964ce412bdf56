//! What was done to a disk, for clauses alone.

ghost use Rattle.std.specs.Prelude.{◌≡◌};
ghost use Rattle.std.specs.Borrow.{ftrue};
ghost use Rattle.store_model.specs.CrashModel.{DiskState};
ghost use Rattle.store_model.specs.DiskCalls.{after_write, after_cut, after_sync};
ghost use Rattle.trace_disk.specs.Started.{started_with};

use std::marker::Model;

/// The state that the calls of a disk have made, with each moment since its start. It takes no bytes, and its methods do
/// nothing when they run: ghost fields of the disk tie it to what the disk keeps.
#[derive(Drop)]
pub(crate) struct History {
    pub ghost state: { DiskState },
}

impl Model for History {
    ghost also_owns = { λ _. ftrue };
}

// It owns nothing.
unsafe impl Send for History {}

unsafe impl Sync for History {}

impl History {
    /// That of a disk that was started with these bytes, all of them synced.
    pub(crate) fn started_with(_bytes: &[u8]) -> History
        ensures { result.state ≡ started_with _bytes.now }
    {
        History {}
    }

    pub(crate) fn wrote(&mut self, _at: usize, _bytes: &[u8])
        ensures { self.new.state ≡ after_write self.old.state _at _bytes.now }
    {}

    pub(crate) fn cut_to(&mut self, _len: usize)
        ensures { self.new.state ≡ after_cut self.old.state _len }
    {}

    pub(crate) fn synced(&mut self)
        ensures { self.new.state ≡ after_sync self.old.state }
    {}
}
