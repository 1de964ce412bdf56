//! The acts of a run: what other threads may notice of it, one after another.

/// An atomic instruction that stores: an AMO, or an SC whose address is reserved.
#[derive(Clone, Copy, Debug, PartialEq, Eq)]
pub struct Change {
    /// The address of its word.
    pub at: u32,
    /// The word before it.
    pub before: u32,
    /// The word after it.
    pub after: u32,
    /// Whether the word before it goes anywhere.
    pub reads: bool,
    /// Whether what it reads is known at once.
    pub acquires: bool,
    /// Whether its message has all up to it.
    pub releases: bool,
    /// Whether the instruction has both bits, aq and rl.
    pub full: bool,
}

/// What an instruction or a call does that another thread may notice.
#[derive(Clone, Copy, Debug, PartialEq, Eq)]
pub enum Deed {
    /// It reads so many bytes from an address on.
    Reads {
        address: u32,
        count: u32,
    },
    /// It writes them.
    Writes {
        address: u32,
        count: u32,
    },
    /// An LR reserves a word, with the bits aq and rl.
    Reserves {
        address: u32,
        acquires: bool,
        releases: bool,
    },
    /// An atomic instruction changes a word.
    Changes(Change),
    /// A FENCE: whether it is an acquire fence, whether it is a release fence.
    Fences {
        acquires: bool,
        releases: bool,
    },
    /// A clone writes a tid to this address.
    SetsTid {
        address: u32,
    },
    /// An exit clears the word at this address.
    ClearsTid {
        address: u32,
    },
    /// A thread starts.
    Starts {
        tid: u32,
    },
    /// A thread that waited is woken.
    Wakes {
        tid: u32,
    },
    /// The act's thread is gone.
    Leaves,
    /// So many bytes from an address on are mapped or unmapped.
    Renews {
        address: u32,
        count: u32,
    },
}

/// One act of a run.
#[derive(Clone, Copy, Debug, PartialEq, Eq)]
pub struct Act {
    /// How many instructions ran before its own.
    pub place: u64,
    pub tid: u32,
    pub deed: Deed,
}
