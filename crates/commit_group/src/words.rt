//! The words' rule: each word is what its writer last stored there, and what its readers loaded is no more.

ghost use Rattle.commit_group.specs.declared.words.WordView.TheVariants.{Spent};
ghost use Rattle.commit_group.specs.Words.{after_split, next_recorder, taken_in};

use atomic_table::{Join, Play, Seat, Split, Table, TableRule};
use std::alloc::Global;
use std::collections::LinkedList;

/// What a recorder knows: its guest, the durable count that it loaded last, whether it loaded a halt, its leave word, and how
/// often it loaded its count and the halt.
pub struct RecorderView {
    pub guest: u32,
    pub seen: u64,
    pub knows_halt: bool,
    pub left: u64,
    pub looks: u64,
    pub halt_looks: u64,
}

/// What the flusher knows: the durable counts that it stored, whether it halted, the leave words that it loaded, how many
/// recorders it made, and the recorder that it took in last.
pub struct FlusherView {
    pub told: LinkedList<u64>,
    pub halted: bool,
    pub totals: LinkedList<u64>,
    pub made: u32,
    pub last: Option<RecorderView>,
}

/// What a seat of the table knows. No value of it is made.
pub enum WordView {
    Recorder(RecorderView),
    Flusher(FlusherView),
    Spent,
}

/// The rule. Its key is the number of guests.
pub struct WordRule;

impl TableRule<u8, WordView, usize> for WordRule {
    ghost use Rattle.commit_group.specs.Words.{WordsHold, first_view};

    ghost holds = { WordsHold };

    ghost first = { first_view };
}

/// A recorder loads its durable count.
pub struct Looks;

impl Play<u8, WordView> for Looks {
    ghost use Rattle.std.specs.Prelude.{◌≡◌};
    ghost use Rattle.commit_group.specs.Words.{Looked};

    ghost then = { λ step old x new. (new.1 ≡ old.1) × Looked old.0 x new.0 };
}

/// A recorder loads the halt word.
pub struct LooksForHalt;

impl Play<u8, WordView> for LooksForHalt {
    ghost use Rattle.std.specs.Prelude.{◌≡◌};
    ghost use Rattle.commit_group.specs.Words.{LookedForHalt};

    ghost then = { λ step old x new. (new.1 ≡ old.1) × LookedForHalt old.0 x new.0 };
}

/// A recorder stores its leave word.
pub struct Leaves;

impl Play<u8, WordView> for Leaves {
    ghost use Rattle.std.specs.Prelude.{◌≡◌};
    ghost use Rattle.commit_group.specs.Words.{after_leave};

    ghost then = { λ step old x new. (new.1 ≡ old.1) × (new.0 ≡ after_leave old.0 x) };
}

/// The flusher stores a durable count.
pub struct Publishes;

impl Play<u8, WordView> for Publishes {
    ghost use Rattle.std.specs.Prelude.{◌≡◌};
    ghost use Rattle.commit_group.specs.Words.{after_publish};

    ghost then = { λ step old x new. (new.1 ≡ old.1) × (new.0 ≡ after_publish old.0 step.word x) };
}

/// The flusher stores the halt.
pub struct Halts;

impl Play<u8, WordView> for Halts {
    ghost use Rattle.std.specs.Prelude.{◌≡◌};
    ghost use Rattle.commit_group.specs.Words.{after_halt};

    ghost then = { λ step old x new. (new.1 ≡ old.1) × (new.0 ≡ after_halt old.0) };
}

/// The flusher loads a leave word.
pub struct LooksForLeft;

impl Play<u8, WordView> for LooksForLeft {
    ghost use Rattle.std.specs.Prelude.{◌≡◌};
    ghost use Rattle.commit_group.specs.Words.{LookedForLeft};

    ghost then = { λ step old x new. (new.1 ≡ old.1) × LookedForLeft old.0 step.word x new.0 };
}

/// The flusher compares the recorder that it took in last with what it knows.
pub struct Compares;

impl Play<u8, WordView> for Compares {
    ghost use Rattle.std.specs.Prelude.{◌≡◌};
    ghost use Rattle.commit_group.specs.Words.{Compared};

    ghost then = { λ step old x new. (new ≡ old) × Compared old.0 };
}

/// The flusher makes the seat of the next guest, and takes one in.
pub struct GuestSeat;

impl Split<WordView> for GuestSeat {
    ghost left = { after_split };

    ghost right = { next_recorder };
}

impl Join<WordView> for GuestSeat {
    ghost both = { taken_in };

    ghost spent = { Spent };
}

/// Words under this rule.
pub type WordTable = Table<u8, WordView, usize, WordRule, Global>;

/// What a thread loads and stores words with.
pub type WordSeat = Seat<u8, WordView>;
