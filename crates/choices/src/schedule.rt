//! Choices from a list, and turns behind it.

ghost use Rattle.std.specs.Prelude.{◌≡◌, ◌≤◌, length, IfSome, IsNone, IsSome, IsTrue, Some, None};
ghost use Rattle.serial_sched.specs.Slices.{IsQuantum};
ghost use Rattle.serial_sched.specs.Turns.{IsTurn};
ghost use Rattle.choices.specs.Schedule.{Chooses, IsOver, TakesListed, plan, refused};

use rrv_model::record::Choice;
use serial_sched::{Chooser, RoundRobin, can_choose};
use std::marker::Model;

/// A choice of a list that didn't fit.
#[derive(Clone, Copy, Debug, PartialEq, Eq)]
pub struct Misfit {
    /// Its place in the list, from 0.
    pub index: usize,
    /// The thread that it chose.
    pub tid: u32,
}

/// The choices of a list, in order, up to the first that doesn't fit: its thread isn't runnable, or its quantum is outside
/// the limits. From there on, or from the end of the list on, the threads have turns by rising tid, as `RoundRobin` gives
/// them, from the one behind the thread that was chosen last; or nothing is chosen.
#[derive(Drop)]
pub struct Schedule {
    choices: Vec<Choice>,
    taken: usize,
    misfit: Option<Misfit>,
    turns: Option<u32>,
    last: u32,
    done: bool,
}

impl Model for Schedule {
    ghost use Rattle.std.specs.Prelude.{drop};
    ghost use Rattle.choices.specs.Schedule.{Plan, IsPlan};

    ghost Value = { Plan };

    ghost view = { λ s. record {
      left = drop s.taken s.choices.items;
      taken = s.taken;
      misfit = s.misfit;
      turns = s.turns;
      last = s.last;
      done = s.done;
    } };

    ghost invariant = { λ s. IsPlan s.choices.items s.taken s.misfit s.turns s.done };
}

impl Schedule {
    /// The choices of the list, and then turns of this quantum.
    pub fn then_turns(choices: Vec<Choice>, quantum: u32) -> Schedule
        requires { IsQuantum quantum }
        ensures { result ≡ plan choices.items (Some quantum) }
    {
        Schedule {
            choices,
            taken: 0,
            misfit: None,
            turns: Some(quantum),
            last: 0,
            done: false,
        }
    }

    /// The choices of the list, and then nothing.
    pub fn then_nothing(choices: Vec<Choice>) -> Schedule
        ensures { result ≡ plan choices.items None }
    {
        Schedule {
            choices,
            taken: 0,
            misfit: None,
            turns: None,
            last: 0,
            done: false,
        }
    }

    /// The first choice of the list that didn't fit; None where all that were asked for so far did.
    pub fn misfit(&self) -> Option<Misfit>
        ensures { result ≡ self.now.misfit }
    {
        self.misfit
    }

    /// The tid that it chose last; 0 before its first choice.
    pub fn last(&self) -> u32
        ensures { result ≡ self.now.last }
    {
        self.last
    }

    /// The next choice of the list, where it goes on.
    fn next_listed(&mut self, runnable: &[u32]) -> Option<Choice>
        ensures some { IfSome result (λ choice. TakesListed runnable.now self.old choice self.new) }
        ensures over { IsNone result → IsOver runnable.now self.old.misfit self.old.left }
        ensures none { IsNone result → self.new ≡ refused self.old }
        ensures ended { IsTrue self.old.done → IsNone result × (self.old.turns ≡ None) }
        ensures quantum { IfSome self.old.turns IsQuantum }
    {
        if self.misfit.is_some() || self.taken == self.choices.len() {
            return None;
        }
        let choice = self.choices[self.taken];
        if !can_choose(choice, runnable) {
            self.misfit = Some(Misfit {
                index: self.taken,
                tid: choice.tid,
            });
            return None;
        }
        self.taken += 1;
        self.last = choice.tid;
        Some(choice)
    }
}

impl Chooser for Schedule {
    ghost is_done = { λ s. IsTrue s.done };

    ghost chooses = { λ old runnable result new. Chooses runnable old result new };

    fn next(&mut self, runnable: &[u32]) -> Option<Choice> {
        if let Some(choice) = self.next_listed(runnable) {
            return Some(choice);
        }
        match self.turns {
            Some(quantum) => {
                let choice = turn_of(quantum, self.last, runnable)?;
                self.last = choice.tid;
                Some(choice)
            }
            None => {
                self.done = true;
                None
            }
        }
    }

    fn done(&self) -> bool {
        self.done
    }
}

/// Whose turn comes behind the last one.
fn turn_of(quantum: u32, last: u32, runnable: &[u32]) -> Option<Choice>
    requires some { 1 ≤ length runnable.now }
    requires quantum { IsQuantum quantum }
    ensures some { IsSome result }
    ensures turn { IfSome result (IsTurn quantum last runnable.now) }
{
    let mut turns = RoundRobin::new(quantum);
    turns.last = last;
    turns.next(runnable)
}
