//! A guest's plain steps.

ghost use Rattle.std.specs.Prelude.{◌≡◌, ◌-◌, IfOk, OnOk, OnErr};
ghost use Rattle.rrv_model.specs.State.{thread_at, IsRunning};
ghost use Rattle.rrv_model.specs.Step.{ThreadMayStore};
ghost use Rattle.guest_calls.specs.Guest.{state_of, counted};
ghost use Rattle.guest_calls.specs.Carries.{KeepsOverSteps, KeepsRest};
ghost use Rattle.guest_calls.specs.Runs.{Runs, StepDoes, Watched, before_call};

use crate::guest::Guest;
use rrv_model::refusal::Memory;
use rv_machine::{Run, RunEnd, Stepped, WatchedRun, run_hart, run_watched};

impl Guest {
    /// Runs up to `limit` instructions of a running thread. It stops after a call's ECALL; at a fault, which is counted and where `pc`
    /// stays; and before an instruction that finds no memory, which isn't counted.
    pub fn run_thread(&mut self, tid: u32, limit: u32) -> Run
        requires { IsRunning (thread_at (state_of self.old) tid) }
        ensures runs { Runs limit tid (state_of self.old) result (state_of self.new) }
        ensures ran { self.new.ran ≡ counted self.old.ran result.count }
        ensures ran_before_call { result.end ≡ RunEnd.Call
            → self.new.ran_before_call ≡ counted self.old.ran (result.count - 1) }
        ensures keeps { KeepsOverSteps self.old self.new }
    {
        let run = self.run_uncounted(tid, limit);
        if let RunEnd::Call = run.end {
            self.ran_before_call = self.ran.saturating_add(u64::from(run.count) - 1);
        }
        self.ran = self.ran.saturating_add(u64::from(run.count));
        run
    }

    fn run_uncounted(&mut self, tid: u32, limit: u32) -> Run
        requires { IsRunning (thread_at (state_of self.old) tid) }
        ensures runs { Runs limit tid (state_of self.old) result (state_of self.new) }
        ensures keeps { KeepsRest self.old self.new }
        ensures put { self.new.put ≡ self.old.put }
    {
        let mut thread = self.running_thread(tid);
        let run = run_hart(
            &mut thread.regs,
            &mut self.space,
            &mut self.reservation,
            limit,
        );
        self.threads.set_regs(tid, thread.regs);
        run
    }

    /// Runs up to `limit` instructions of a running thread as [`Guest::run_thread`] does. If it gets to the limit, it returns how many
    /// plain steps there are up to the last that changes the byte at an address; 0 if none does.
    pub fn watch_thread(&mut self, tid: u32, limit: u32, address: u32) -> WatchedRun
        requires { IsRunning (thread_at (state_of self.old) tid) }
        ensures runs { Runs limit tid (state_of self.old) result.run (state_of self.new) }
        ensures watched { result.run.end ≡ RunEnd.Limit
            → Watched address limit tid (state_of self.old) result.changed (state_of self.new) }
        ensures ran { self.new.ran ≡ counted self.old.ran result.run.count }
        ensures keeps { KeepsOverSteps self.old self.new }
    {
        let mut thread = self.running_thread(tid);
        let watched = run_watched(
            &mut thread.regs,
            &mut self.space,
            &mut self.reservation,
            limit,
            address,
        );
        self.threads.set_regs(tid, thread.regs);
        self.ran = self.ran.saturating_add(u64::from(watched.run.count));
        watched
    }

    /// Runs one instruction of a running thread. Where it finds no memory, all is as before.
    pub fn step_thread(&mut self, tid: u32) -> Result<Stepped, Memory>
        requires { IsRunning (thread_at (state_of self.old) tid) }
        ensures step { IfOk result (λ stepped. StepDoes stepped tid (state_of self.old) (state_of self.new)) }
        ensures ran { OnOk result (self.new.ran ≡ counted self.old.ran 1) }
        ensures ran_before_call { IfOk result (λ stepped.
            stepped ≡ Stepped.Call → self.new.ran_before_call ≡ self.old.ran) }
        ensures refused { OnErr result (state_of self.new ≡ state_of self.old) }
        ensures refused_ran { OnErr result (self.new.ran ≡ self.old.ran) }
        ensures takes { OnErr result (ThreadMayStore (state_of self.old) tid) }
        ensures keeps { KeepsOverSteps self.old self.new }
    {
        // the proof opens the guest here: that the count lies below 2^64 is a rule of it
        let _ran = self.ran;
        let run = self.run_thread(tid, 1);
        match run.end {
            RunEnd::Limit => Ok(Stepped::Next),
            RunEnd::Call => Ok(Stepped::Call),
            RunEnd::Fault(kind) => Ok(Stepped::Fault(kind)),
            RunEnd::Memory => Err(Memory),
        }
    }

    /// Straight after a call that found no memory: the thread stands at its ECALL again, which is not counted.
    pub fn take_back(&mut self, tid: u32)
        requires { IsRunning (thread_at (state_of self.old) tid) }
        ensures state { state_of self.new ≡ before_call tid (state_of self.old) }
        ensures ran { self.new.ran ≡ self.old.ran_before_call }
        ensures keeps { KeepsOverSteps self.old self.new }
    {
        let mut regs = self.running_thread(tid).regs;
        regs.pc = regs.pc.wrapping_sub(4);
        self.threads.set_regs(tid, regs);
        self.ran = self.ran_before_call;
    }
}
