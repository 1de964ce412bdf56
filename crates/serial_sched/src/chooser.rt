//! Who runs next.

ghost use Rattle.std.specs.Prelude.{◌≡◌, ◌≤◌, ◌↔◌, ◌⊎◌, ◌∷◌, length, Contains, EachIndex, IfSome, IsFalse, IsNone};
ghost use Rattle.std.specs.Prelude.{ℕ, List, Option, IsSome, IsTrue, false, slice_index};
ghost use Rattle.rrv_model.specs.declared.record.Choice.{Choice};
ghost use Rattle.serial_sched.specs.Slices.{IsQuantum};
ghost use Rattle.serial_sched.specs.Turns.{turn, CanChoose, ChoosesListed, GivesTurn, IsCutShort};

use rrv_model::limits::{MAX_QUANTUM, MIN_QUANTUM};
use rrv_model::record::Choice;
use std::marker::Model;

/// Something that chooses who runs next.
pub trait Chooser {
    /// It has no choice left.
    ghost is_done: { Self → Type 0 };

    /// What it chooses of these runnable threads, and what it becomes.
    ghost chooses: { Self → List ℕ → Option Choice → Self → Type 0 };

    /// Chooses among the runnable threads; None where it has no choice for them.
    fn next(&mut self, runnable: &[u32]) -> Option<Choice>
        requires { 1 ≤ length runnable.now }
        ensures fits { IfSome result (λ choice. Contains runnable.now choice.tid × IsQuantum choice.quantum) }
        ensures done { is_done self.new ↔ (is_done self.old ⊎ IsNone result) }
        ensures ended { is_done self.old → IsNone result }
        ensures chooses { chooses self.old runnable.now result self.new };

    /// Tests whether it has no choice left.
    fn done(&self) -> bool
        ensures { IsTrue result ↔ is_done self.now };
}

/// Each runnable thread in turn, by rising tid, always for the same quantum.
#[derive(Debug, Drop)]
pub struct RoundRobin {
    pub quantum: u32,
    /// The tid that was chosen last, or 0.
    pub last: u32,
    ghost fits: { IsQuantum quantum },
}

impl RoundRobin {
    /// Begins with the least runnable thread.
    pub fn new(quantum: u32) -> RoundRobin
        requires { IsQuantum quantum }
        ensures quantum { result.quantum ≡ quantum }
        ensures last { result.last ≡ 0 }
    {
        RoundRobin { quantum, last: 0 }
    }
}

impl Chooser for RoundRobin {
    ghost is_done = { λ _. ⊥ };

    ghost chooses = { λ old runnable result new.
        GivesTurn old.quantum old.last runnable result new.quantum new.last };

    fn next(&mut self, runnable: &[u32]) -> Option<Choice>
        requires { 1 ≤ length runnable.now }
        ensures fits { IfSome result (λ choice. Contains runnable.now choice.tid × IsQuantum choice.quantum) }
        ensures chooses { GivesTurn self.old.quantum self.old.last runnable.now result self.new.quantum self.new.last }
        ensures some { IsSome result }
        ensures least { IfSome result (λ choice. EachIndex runnable.now (λ k.
            turn self.old.last choice.tid ≤ turn self.old.last (slice_index runnable.now k))) }
        ensures quantum { IfSome result (λ choice. choice.quantum ≡ self.old.quantum) }
        ensures last { IfSome result (λ choice. self.new.last ≡ choice.tid) }
        ensures same { self.new.quantum ≡ self.old.quantum }
    {
        let tid = next_tid(runnable, self.last);
        self.last = tid;
        Some(Choice {
            tid,
            quantum: self.quantum,
        })
    }

    fn done(&self) -> bool {
        false
    }
}

/// The runnable thread whose turn comes first.
fn next_tid(runnable: &[u32], last: u32) -> u32
    requires { 1 ≤ length runnable.now }
    ensures runnable { Contains runnable.now result }
    ensures least { EachIndex runnable.now (λ k. turn last result ≤ turn last (slice_index runnable.now k)) }
{
    let mut next = runnable[0];
    for tid in runnable {
        if turn_of(*tid, last) < turn_of(next, last) {
            next = *tid;
        }
    }
    next
}

/// When a thread's turn comes: after the last one those above it, then the others.
fn turn_of(tid: u32, last: u32) -> u64
    ensures { result ≡ turn last tid }
{
    if last < tid {
        u64::from(tid)
    } else {
        u64::from(tid) + (1 << 32)
    }
}

/// The choices of a list, in order, up to the first that doesn't fit. Tests use it; the program's is `choices::Schedule`.
#[derive(Drop)]
pub struct Listed {
    choices: Vec<Choice>,
    taken: usize,
    done: bool,
}

impl Model for Listed {
    ghost use Rattle.std.specs.Prelude.{◌≤◌, drop, length};
    ghost use Rattle.serial_sched.specs.Turns.{Listing};

    ghost Value = { Listing };

    ghost view = { λ l. record { left = drop l.taken l.choices.items; done = l.done } };

    ghost invariant = { λ l. l.taken ≤ length l.choices.items };
}

impl Listed {
    /// All the choices of the list.
    pub fn new(choices: Vec<Choice>) -> Listed
        ensures left { result.left ≡ choices.items }
        ensures done { result.done ≡ false }
    {
        Listed {
            choices,
            taken: 0,
            done: false,
        }
    }
}

impl Chooser for Listed {
    ghost is_done = { λ l. IsTrue l.done };

    ghost chooses = { λ old runnable result new. ChoosesListed runnable old result new };

    fn next(&mut self, runnable: &[u32]) -> Option<Choice>
        requires { 1 ≤ length runnable.now }
        ensures fits { IfSome result (λ choice. Contains runnable.now choice.tid × IsQuantum choice.quantum) }
        ensures done { IsTrue self.new.done ↔ (IsTrue self.old.done ⊎ IsNone result) }
        ensures ended { IsTrue self.old.done → IsNone result }
        ensures chooses { ChoosesListed runnable.now self.old result self.new }
        ensures takes { IfSome result (λ choice. self.old.left ≡ choice ∷ self.new.left) }
        ensures stops { IsNone result → IsFalse self.old.done → IsCutShort runnable.now self.old.left }
        ensures left { IsNone result → self.new.left ≡ self.old.left }
    {
        if self.done {
            return None;
        }
        if self.taken < self.choices.len() {
            let choice = self.choices[self.taken];
            if can_choose(choice, runnable) {
                self.taken += 1;
                return Some(choice);
            }
        }
        self.done = true;
        None
    }

    fn done(&self) -> bool {
        self.done
    }
}

/// Tests whether a choice fits these runnable threads: its thread is one of them, and its quantum within the limits.
pub fn can_choose(choice: Choice, runnable: &[u32]) -> bool
    ensures { IsTrue result ↔ CanChoose runnable.now choice }
{
    runnable.contains(&choice.tid) && MIN_QUANTUM <= choice.quantum && choice.quantum <= MAX_QUANTUM
}
