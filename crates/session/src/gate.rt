//! Who may step when.

/// A gate of the workers. It is shared by their threads. A guest is told by its place among the jobs, from 0.
pub trait Gate {
    /// Whether the guest may run its next slice. Its worker asks before each.
    fn may_step(&self, guest: u32) -> bool;

    /// The guest's worker has sent this many records after its opening, frames and parts. It reports this whenever it sent some.
    fn submitted(&self, guest: u32, frames: u32);

    /// The same count with the opening, one more, and how many instructions the guest has run. An impl that leaves it out does nothing.
    fn sent(&self, _guest: u32, _records: u32, _instructions: u64) {}
}

/// A gate that lets every step be made.
#[derive(Clone, Copy, Debug, Drop)]
pub struct OpenGate;

impl Gate for OpenGate {
    fn may_step(&self, _guest: u32) -> bool {
        true
    }

    fn submitted(&self, _guest: u32, _frames: u32) {}
}
