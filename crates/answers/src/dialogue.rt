//! Where the lines of `ask` have come to.

ghost use Rattle.std.specs.Prelude.{◌≡◌, IfOk};

use replayer::Verified;
use reverse_step::Cursor;
use rrv_model::refusal::Memory;
use std::alloc::Global;

/// A cursor that lines ask about, and how moves of it are answered.
#[derive(Drop)]
pub(crate) struct Dialogue<'a> {
    pub(crate) cursor: Cursor<'a>,
    /// Whether moves print the line of their place, and not the state.
    pub(crate) is_quiet: bool,
}

impl<'a> Dialogue<'a> {
    /// A dialogue about a verified recording, at its start.
    pub(crate) fn new(
        alloc: Global,
        verified: &'a Verified,
        is_quiet: bool,
    ) -> Result<Dialogue<'a>, Memory>
        ensures verified { IfOk result (λ dialogue. dialogue.cursor.verified ≡ verified.now) }
        ensures at { IfOk result (λ dialogue. dialogue.cursor.place ≡ 0) }
        ensures form { IfOk result (λ dialogue. dialogue.is_quiet ≡ is_quiet) }
    {
        let cursor = Cursor::new(alloc, verified)?;
        Ok(Dialogue { cursor, is_quiet })
    }
}
