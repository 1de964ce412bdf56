//! A guest's snapshots, and the parts of a checkpoint that are put into it.

ghost use Rattle.std.specs.Prelude.{◌≡◌, ◌≢◌, ◌↔◌, ℕ, IsTrue, IsSome, IfOk, IfErr, OnOk, OnErr, Some, None};
ghost use Rattle.rrv_model.specs.CallRows.{with_memory};
ghost use Rattle.guest_pages.specs.WholePages.{with_page, MayHave};
ghost use Rattle.guest_calls.specs.Guest.{state_of};
ghost use Rattle.guest_calls.specs.Carries.{BecomesOrStays, KeepsAllButSnapshots};
ghost use Rattle.guest_calls.specs.Parts.{with_rest, MakesState, IsSetPageRefusal, IsSetRestRefusal};
ghost use Rattle.guest_calls.specs.Snapshots.{guest_snapshots};

use crate::fault::{SetPageFault, SetRestFault};
use crate::guest::Guest;
use guest_pages::{AddressSpace, PageFault, PageView, Snapshot};
use guest_threads::{PartsFault, Threads};
use rrv_model::record::CheckpointRest;
use rrv_model::refusal::Memory;
use std::alloc::Global;

/// The pages that may be mapped lie below this one.
const END_PAGE: u32 = 0x8_0000;
/// The program's data end here at the latest.
const HIGHEST_BREAK: u32 = 0x7000_0000;

impl Guest {
    /// Keeps the memory as it is, under the token that it gives. Refused where a growth is.
    pub fn snapshot(&mut self) -> Result<Snapshot, Memory>
        ensures kept { IfOk result (λ token. guest_snapshots self.new token ≡ Some (state_of self.old).memory) }
        ensures fresh { IfOk result (λ token. guest_snapshots self.old token ≡ None) }
        ensures others { IfOk result (λ token. (n : ℕ) → n ≢ token →
            guest_snapshots self.new n ≡ guest_snapshots self.old n) }
        ensures keeps { KeepsAllButSnapshots self.old self.new }
        ensures err { OnErr result (self.new ≡ self.old) }
    {
        self.space.snapshot()
    }

    /// Lets a snapshot go, whose token is then spent: that it is one of a live snapshot of this guest is the caller's
    /// condition. It takes no memory.
    pub fn drop_snapshot(&mut self, snapshot: Snapshot)
        requires { IsSome (guest_snapshots self.old snapshot) }
        ensures gone { guest_snapshots self.new snapshot ≡ None }
        ensures others { (n : ℕ) → n ≢ snapshot → guest_snapshots self.new n ≡ guest_snapshots self.old n }
        ensures keeps { KeepsAllButSnapshots self.old self.new }
    {
        self.space.drop_snapshot(snapshot);
    }

    /// Puts a page with its permissions and bytes in place of what was there; None unmaps it. Refused with NoState exactly
    /// where no state has such a page, else with TooManyPages exactly where more than 16,384 pages would be mapped, else with
    /// Memory where a growth is refused, which may be over a mapped page too. To unmap is never refused.
    pub fn set_page(&mut self, number: u32, page: Option<PageView<'_>>) -> Result<(), SetPageFault>
        ensures set { BecomesOrStays result
            (with_memory (with_page number page.entry (state_of self.old).memory) (state_of self.old)) self.old self.new }
        ensures possible { OnOk result (MayHave number page.entry) }
        ensures refused { IfErr result (λ fault. IsSetPageRefusal fault number page.entry (state_of self.old).memory) }
        ensures some { OnErr result (IsSome page.entry) }
    {
        if !may_have(number, page) {
            return Err(SetPageFault::NoState);
        }
        match self.space.set_page(number, page) {
            Ok(()) => Ok(()),
            Err(PageFault::TooManyPages) => Err(SetPageFault::TooManyPages),
            Err(_) => Err(SetPageFault::Memory),
        }
    }

    /// Takes the rest of a checkpoint in place of the threads, the waiting order, the next tid and the program break;
    /// the reservation and the end are gone. Refused with NoState exactly where its tids don't rise or it makes no
    /// state of the guest's memory and opening break, else with Memory where a growth is refused.
    pub fn set_rest(&mut self, alloc: Global, rest: &CheckpointRest) -> Result<(), SetRestFault>
        ensures set { BecomesOrStays result (with_rest rest.now (state_of self.old)) self.old self.new }
        ensures possible { OnOk result (MakesState rest.now (state_of self.old)) }
        ensures refused { IfErr result (λ fault. IsSetRestRefusal fault rest.now (state_of self.old)) }
    {
        if rest.program_break < self.opening_break || rest.program_break > HIGHEST_BREAK {
            return Err(SetRestFault::NoState);
        }
        // the proof opens the space here, for what holds of its pages
        let _pages = self.space.page_count();
        let (threads, waiting) = (rest.threads.as_slice(), rest.waiting.as_slice());
        let version = self.threads.version();
        match Threads::from_parts(alloc, version, threads, waiting, rest.next_tid) {
            Ok(threads) => {
                self.threads = threads;
                self.program_break = rest.program_break;
                self.reservation = None;
                self.ended = None;
                Ok(())
            }
            Err(PartsFault::NoState) => Err(SetRestFault::NoState),
            Err(PartsFault::Memory) => Err(SetRestFault::Memory),
        }
    }
}

/// Tests whether a guest may have this page at a number: pages lie from 0x1000 up to 0x7FFFFFFF, and one that may be
/// written may be read.
fn may_have(number: u32, page: Option<PageView<'_>>) -> bool
    ensures { IsTrue result ↔ MayHave number page.entry }
{
    match page {
        Some(page) => {
            1 <= number && number < END_PAGE && (page.permissions.read || !page.permissions.write)
        }
        None => true,
    }
}
