//! Why threads refuse.

use thiserror::Error;

/// Why a call on a guest's threads was refused. All is then as before.
#[derive(Clone, Copy, Debug, PartialEq, Eq, Error)]
pub enum ThreadFault {
    /// As many threads live as a guest may have, or no tid is left.
    #[error("too many threads")]
    TooMany,
    /// There is no such thread, or it doesn't run though it has to.
    #[error("no such thread")]
    NotThere,
    /// A growth was refused.
    #[error("out of memory")]
    Memory,
    /// The thread doesn't wait with a timeout.
    #[error("no timed wait")]
    NotTimed,
}

/// Why no threads were made of parts.
#[derive(Clone, Copy, Debug, PartialEq, Eq, Error)]
pub enum PartsFault {
    /// The parts break the rules of a state.
    #[error("no state has these threads")]
    NoState,
    /// A growth was refused.
    #[error("out of memory")]
    Memory,
}
