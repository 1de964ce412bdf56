//! Where an instruction stands in its page.

ghost use Rattle.std.specs.Prelude.{◌<◌};

/// The index of an instruction in its page.
#[derive(Clone, Copy, Debug, PartialEq, Eq)]
pub struct PageIndex {
    pub(crate) index: u16,
    ghost low: { index < 1024 },
}
