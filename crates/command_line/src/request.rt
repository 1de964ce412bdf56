//! What a line of words asks for.

ghost use Rattle.std.specs.Prelude.{◌+◌, ◌≤◌};

use std::alloc::Global;

/// What a line asks for.
#[derive(Drop)]
pub enum Request<'a> {
    /// No word: the program records a small guest of its own.
    Demonstration,
    /// `help COMMAND`: prints the help of a command, or that of all.
    Help {
        command: Option<&'a str>,
    },
    /// `new STORE`: makes an empty store in a new file.
    New {
        store: &'a str,
    },
    /// `record STORE ELF..`: records programs.
    Record(Recording<'a>),
    /// `check ELF`: tells whether `record` takes a file as a program.
    Check {
        file: &'a str,
    },
    /// `list STORE`: a line for each guest. `replays`: each is replayed, and more is told of it.
    List {
        store: &'a str,
        replays: bool,
        progress: bool,
    },
    /// `elf STORE GUEST`: puts out the program that a guest was recorded from.
    Elf {
        guest: GuestOf<'a>,
    },
    /// `copy STORE GUEST TO`: appends a guest's records to another store.
    Copy {
        guest: GuestOf<'a>,
        to: &'a str,
    },
    /// `dump STORE GUEST`: prints the records of a guest.
    Dump {
        guest: GuestOf<'a>,
        form: DumpForm,
        progress: bool,
    },
    /// `verify STORE GUEST`: replays a guest's records and compares. `long`: it tells more of the guest's end.
    Verify {
        guest: GuestOf<'a>,
        long: bool,
        progress: bool,
    },
    /// Asks something of a guest's recording, whose records are verified first.
    Ask {
        guest: GuestOf<'a>,
        question: Question<'a>,
        progress: bool,
    },
}

/// What is asked of a guest's recording.
#[derive(Drop)]
pub enum Question<'a> {
    /// `replay STORE GUEST`: puts the output out again.
    Output,
    /// `replay STORE GUEST --at T`: prints the state at a place, with the bytes of `memory`.
    State {
        at: Place,
        memory: Vec<MemoryRange>,
    },
    /// `back STORE GUEST FROM N`: prints the state `count` instructions before `from`, with the bytes of `memory`.
    Back {
        from: Place,
        count: u64,
        memory: Vec<MemoryRange>,
    },
    /// `last STORE GUEST FROM ADDR`: prints the last changes, below `from`, of the watched bytes, the last first and `times` at most:
    /// of each the state before it or, if `short` says so, a line, with the bytes of `memory`.
    Last {
        from: Place,
        watched: Watched,
        times: u64,
        short: bool,
        memory: Vec<MemoryRange>,
    },
    /// `choices STORE GUEST`: prints the choices of the turns.
    Choices,
    /// `core STORE GUEST AT FILE`: writes an ELF core file of the state at a place.
    Core {
        at: Place,
        file: &'a str,
    },
    /// `ask STORE GUEST`: answers lines of standard input. `short`: at first, moves print the line of their place, not the state.
    Lines {
        short: bool,
    },
}

/// A place in a recording.
#[derive(Clone, Copy, Debug, PartialEq, Eq)]
pub enum Place {
    /// Behind so many instructions.
    At(u64),
    /// Behind the last instruction.
    End,
}

/// How the records of a guest are printed.
#[derive(Clone, Copy, Debug, PartialEq, Eq)]
pub enum DumpForm {
    /// A line for each.
    Lines,
    /// The same, and the places of each frame.
    Places,
    /// The frames, as trace events.
    TraceEvents,
}

/// Bytes of a guest's memory.
#[derive(Clone, Copy, Debug, PartialEq, Eq)]
pub struct MemoryRange {
    /// The first byte's address.
    pub address: u32,
    /// How many bytes, 1 to 65,536.
    pub length: u32,
}

/// Bytes of a guest's memory whose changes are looked for.
#[derive(Clone, Copy, Debug, PartialEq, Eq)]
pub struct Watched {
    /// The first byte's address.
    pub address: u32,
    /// How many bytes: 1, or the 4 of a word.
    pub count: u32,
    ghost within: { address + count ≤ 4294967296 },
}

/// What a recording does behind the last of its choices.
#[derive(Clone, Copy, Debug, PartialEq, Eq)]
pub enum Then {
    /// The threads take turns.
    Turns,
    /// Nothing: it ends.
    Nothing,
}

/// A guest of a store.
#[derive(Clone, Copy, Debug, PartialEq, Eq)]
pub struct GuestOf<'a> {
    pub store: &'a str,
    pub number: u64,
}

/// How far apart checkpoints are to be.
#[derive(Clone, Copy, Debug, PartialEq, Eq)]
pub enum Every {
    /// So many instructions. 0: there are none.
    Instructions(u32),
    /// As far as what they cost says.
    Auto,
}

/// What is to be recorded, and how.
#[derive(Drop)]
pub struct Recording<'a> {
    pub store: &'a str,
    /// The files of the programs, 1 to 16 of them.
    pub files: Vec<&'a str>,
    /// How many instructions a slice runs at most, 64 to 1,048,576.
    pub quantum: u32,
    pub every: Every,
    /// The file that each guest reads.
    pub input: Option<&'a str>,
    /// The seed of random bytes, as it was given.
    pub seed: Option<&'a str>,
    /// The guests' names: none, one for all programs, behind which their places are to stand, or one for each.
    pub names: Vec<&'a str>,
    /// The files of choices: none, one for all programs, or one for each.
    pub choices: Vec<&'a str>,
    pub then: Then,
    /// How many instructions of a guest are recorded, unless it ends before.
    pub limit: Option<u64>,
    /// Whether the status is to tell that a guest ended otherwise than by an exit with 0.
    pub fail: bool,
    /// Whether the store is to be marked first, so that its guests are of version 2.
    pub upgrade: bool,
    pub progress: bool,
}
