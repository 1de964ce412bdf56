//! Where the records of a guest come from, one at a time.

ghost use Rattle.std.specs.Prelude.{◌≡◌, ◌≢◌, ◌<◌, ◌↔◌, ◌||◌, ℕ, Bool, List, MatchResult, Some, ⊤, length, slice_get, true};
ghost use Rattle.rrv_model.specs.declared.record.Record.{Record};
ghost use Rattle.replayer.specs.Sourced.{withholds};

use recover::ReadFault;
use rrv_model::record::Record;
use std::alloc::Global;

/// The records of a guest, given one at a time. What is promised of them is promised of an honest source alone.
pub trait Source {
    /// What it gives is as the contracts say, and none of its records is damaged.
    ghost honest: { Self → Type 0 };

    /// The records that it stands for.
    ghost records: { Self → List Record };

    /// Whether it has withheld a record: one that was asked for was not given, though there was memory.
    ghost withheld: { Self → Bool };

    /// That it has withheld the record at this place. A source that doesn't keep the place says nothing.
    ghost withheld_at: { Self → ℕ → Type 0 } = { λ _ _. ⊤ };

    /// How many records there are.
    fn len(&self) -> usize
        ensures { result ≡ length (records self.now) };

    /// The record at this place.
    fn item(&mut self, alloc: Global, index: usize) -> Result<Record, ReadFault>
        requires { index < length (records self.old) }
        ensures record { honest self.old → MatchResult result
            (λ r. slice_get (records self.old) index ≡ Some r) (λ e. e ≢ ReadFault.Damaged) }
        ensures records { records self.new ≡ records self.old }
        ensures honest { honest self.new ↔ honest self.old }
        ensures withheld { withheld self.new ≡ (withholds result || withheld self.old) }
        ensures place { withholds result ≡ true → withheld_at self.new index };

    /// The record at this place, read before it is asked for. One that isn't given so is not withheld: it may be asked for yet.
    fn ahead(&mut self, alloc: Global, index: usize) -> Result<Record, ReadFault>
        requires { index < length (records self.old) }
        ensures record { honest self.old → MatchResult result
            (λ r. slice_get (records self.old) index ≡ Some r) (λ e. e ≢ ReadFault.Damaged) }
        ensures records { records self.new ≡ records self.old }
        ensures honest { honest self.new ↔ honest self.old }
        ensures withheld { withheld self.new ≡ withheld self.old };
}
