//! What may be done with the bytes of a page.

/// What may be done with the bytes of a page.
#[derive(Clone, Copy, Debug, PartialEq, Eq)]
pub struct Permissions {
    pub read: bool,
    pub write: bool,
    pub execute: bool,
}
