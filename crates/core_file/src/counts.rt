//! How many parts a core file has.

ghost use Rattle.std.specs.Prelude.{◌≤◌};

/// How many program headers a core file has, and how many notes, one for each thread.
#[derive(Clone, Copy)]
pub(crate) struct Counts {
    pub(crate) headers: u32,
    pub(crate) threads: u32,
    ghost few_headers: { headers ≤ 16385 },
    ghost few_threads: { threads ≤ 64 },
}
