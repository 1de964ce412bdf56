//! A schedule that ends at a limit of instructions.

ghost use Rattle.std.specs.Prelude.{◌≡◌, ◌↔◌, ◌≤◌, IfOk, IfSome, Some, false, length, max, min, None};
ghost use Rattle.serial_sched.specs.Slices.{IsQuantum};
ghost use Rattle.recording.specs.Limits.{ChoosesWithin, IsAgain, IsOver, may_expire};

use choices::{Misfit, Schedule};
use rrv_model::limits::{MAX_GUESTS, MIN_QUANTUM};
use rrv_model::machine::Version;
use rrv_model::record::Choice;
use serial_sched::{Chooser, can_choose};
use session::Gate;
use std::alloc::{AllocError, Global};
use std::marker::Model;
use std::sync::atomic::{AtomicU64, Ordering};

/// The choices of a schedule, until the guest has run so many instructions. The last choice before that is for no more of them than are
/// left, but for the least quantum at least. A choice in whose place a wait ended is given again: a slice that doesn't end the guest runs an
/// instruction at least, so if none ran since, the choice wasn't taken. How many it has run is told beside the choices, by a [`CountingGate`].
#[derive(Drop)]
pub(crate) struct Limited<'a> {
    schedule: Schedule,
    limit: Option<u64>,
    ran: Option<&'a AtomicU64>,
    is_over: bool,
    /// Whether waits of the guest may end because their time is over.
    expires: bool,
    /// The choice that it gave last, and how many instructions had run then.
    given: Option<Choice>,
    given_at: u64,
}

/// Whether waits of a guest may end because their time is over.
fn may_expire(version: Version) -> bool
    ensures { result ≡ may_expire version }
{
    match version {
        Version::One => false,
        Version::Two => true,
    }
}

impl<'a> Model for Limited<'a> {
    ghost use Rattle.std.specs.Prelude.{◌≡◌, false, None};
    ghost use Rattle.recording.specs.Limits.{Limit};

    ghost Value = { Limit };

    ghost view = { λ l. record {
      plan = l.schedule;
      limit = l.limit;
      is_over = l.is_over;
      expires = l.expires;
      given = l.given;
    } };

    ghost invariant = { λ l. l.limit ≡ None → l.is_over ≡ false };
}

impl<'a> Limited<'a> {
    /// The choices of this schedule, until the guest, which is of this version, has run so many instructions, or all of them.
    pub(crate) fn new(
        schedule: Schedule,
        limit: Option<u64>,
        version: Version,
        ran: Option<&'a AtomicU64>,
    ) -> Self
        ensures { result ≡ record {
          plan = schedule;
          limit = limit;
          is_over = false;
          expires = may_expire version;
          given = None;
        } }
    {
        Limited {
            schedule,
            limit,
            ran,
            is_over: false,
            expires: may_expire(version),
            given: None,
            given_at: 0,
        }
    }

    /// The tid that it chose last; 0 before its first choice.
    pub(crate) fn last(&self) -> u32
        ensures { result ≡ self.now.plan.last }
    {
        self.schedule.last()
    }

    /// The first choice of the list that didn't fit; None where all that were asked for so far did.
    pub(crate) fn misfit(&self) -> Option<Misfit>
        ensures { result ≡ self.now.plan.misfit }
    {
        self.schedule.misfit()
    }

    /// How many instructions the guest has run.
    fn count(&self) -> u64 {
        match self.ran {
            Some(ran) => ran.load(Ordering::SeqCst),
            None => 0,
        }
    }

    /// How many instructions the guest may still run; None where there is no limit.
    fn left(&self) -> Option<u64>
        ensures { (result ≡ None) ↔ (self.now.limit ≡ None) }
    {
        match self.limit {
            Some(limit) => Some(limit.saturating_sub(self.count())),
            None => None,
        }
    }

    /// The choice that it gave last, if a wait ended in its place. Its thread runs still.
    fn again(&self, runnable: &[u32]) -> Option<Choice>
        ensures { IfSome result (IsAgain runnable.now self.now) }
    {
        let Some(choice) = self.given else {
            return None;
        };
        if !self.expires || self.schedule.done() || !can_choose(choice, runnable) {
            return None;
        }
        // Who isn't told how many instructions ran can't know.
        if self.ran.is_some() && self.count() == self.given_at {
            return Some(choice);
        }
        None
    }

    /// Notes a choice that it gives.
    fn note(&mut self, choice: Choice)
        ensures { self.new ≡ record self.old { given = Some choice } }
    {
        self.given = Some(choice);
        self.given_at = self.count();
    }
}

impl<'a> Chooser for Limited<'a> {
    ghost is_done = { IsOver };

    ghost chooses = { λ old runnable result new. ChoosesWithin runnable old result new };

    fn next(&mut self, runnable: &[u32]) -> Option<Choice> {
        if self.is_over {
            return None;
        }
        if let Some(choice) = self.again(runnable) {
            return Some(choice);
        }
        let Some(left) = self.left() else {
            let choice = self.schedule.next(runnable)?;
            self.note(choice);
            return Some(choice);
        };
        if left == 0 {
            self.is_over = true;
            return None;
        }
        let choice = shortened(self.schedule.next(runnable)?, left);
        self.note(choice);
        Some(choice)
    }

    fn done(&self) -> bool {
        self.is_over || self.schedule.done()
    }
}

/// A choice for no more instructions than are left, but for the least quantum at least.
fn shortened(choice: Choice, left: u64) -> Choice
    requires { IsQuantum choice.quantum }
    ensures tid { result.tid ≡ choice.tid }
    ensures quantum { result.quantum ≡ min choice.quantum (max left 64) }
{
    let most = left.max(u64::from(MIN_QUANTUM));
    let quantum = u64::from(choice.quantum).min(most);
    Choice {
        tid: choice.tid,
        quantum: quantum as u32,
    }
}

/// How many instructions each guest of a recording has run, by its place on the line.
pub(crate) fn counts(alloc: Global) -> Result<Vec<AtomicU64>, AllocError>
    ensures { IfOk result (λ counts. length counts.items ≡ MAX_GUESTS) }
{
    let mut counts = Vec::new(alloc);
    while counts.len() < MAX_GUESTS as usize {
        counts.push(AtomicU64::new(0))?;
    }
    Ok(counts)
}

/// A gate that keeps how many instructions each guest has run. A worker tells it that of all records that it made before it asks for a
/// choice, since it asks once all are sent.
#[derive(Drop)]
pub(crate) struct CountingGate<'a, G: Gate + Drop> {
    gate: G,
    counts: &'a [AtomicU64],
}

impl<'a, G: Gate + Drop> CountingGate<'a, G> {
    /// This gate, which keeps them so.
    pub(crate) fn new(gate: G, counts: &'a [AtomicU64]) -> Self {
        CountingGate { gate, counts }
    }
}

impl<G: Gate + Drop> Gate for CountingGate<'_, G> {
    fn may_step(&self, guest: u32) -> bool {
        self.gate.may_step(guest)
    }

    fn submitted(&self, guest: u32, frames: u32) {
        self.gate.submitted(guest, frames);
    }

    fn sent(&self, guest: u32, records: u32, instructions: u64) {
        if let Some(count) = self.counts.get(guest as usize) {
            count.store(instructions, Ordering::SeqCst);
        }
        self.gate.sent(guest, records, instructions);
    }
}
