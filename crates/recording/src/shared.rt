//! What the guests of a recording share.

ghost use Rattle.serial_sched.specs.Slices.{IsQuantum};

use crate::names::Names;
use command_line::Then;
use rrv_model::machine::Version;
use rrv_model::record::Choice;
use session::Every;
use std::alloc::Global;
use std::sync::atomic::AtomicU64;
use std::time::{Clock, Instant};

/// What the guests of a recording share, beside the streams.
#[derive(Drop)]
pub(crate) struct Shared<'a, R: Clock> {
    pub(crate) rt: &'a R,
    pub(crate) version: Version,
    pub(crate) start: Instant,
    pub(crate) input: &'a [u8],
    pub(crate) seed: [u8; 16],
    pub(crate) names: Names<'a>,
    pub(crate) quantum: u32,
    pub(crate) every: Every,
    /// The choices of all guests, or of each; none where there are no lists.
    pub(crate) choices: &'a [Vec<Choice>],
    pub(crate) then: Then,
    pub(crate) limit: Option<u64>,
    /// How many instructions each guest has run, by its place.
    pub(crate) counts: &'a [AtomicU64],
    /// Whether output and errors lead to one terminal.
    pub(crate) is_one_place: bool,
    ghost fits: { IsQuantum quantum },
}
