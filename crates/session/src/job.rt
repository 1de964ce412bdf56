//! What is to be recorded.

use guest_calls::Outside;
use recorder::Every;
use rrv_model::machine::Version;
use rrv_model::sink::Sink;
use serial_sched::Chooser;

/// A guest that is to be recorded: its version, from what it starts, how far apart its checkpoints are, who chooses its threads, its environment, and where its output goes.
#[derive(Drop)]
pub struct Job<C: Chooser + Drop, O: Outside + Drop, S: Sink + Drop> {
    pub version: Version,
    pub elf: Vec<u8>,
    pub name: Vec<u8>,
    pub random: [u8; 16],
    pub every: Every,
    pub chooser: C,
    pub outside: O,
    pub sink: S,
}
