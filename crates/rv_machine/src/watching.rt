//! Instructions of a hart over which a byte is watched.

ghost use Rattle.std.specs.Prelude.{◌≡◌, ◌↔◌, ◌+◌, ◌<◌, ◌≤◌, ◌/◌, ◌%◌, ◌^◌, IsTrue, false};
ghost use Rattle.rrv_model.specs.Memory.{is_within};
ghost use Rattle.rrv_model.specs.State.{AreRegs};
ghost use Rattle.rrv_model.specs.Step.{Hart};
ghost use Rattle.guest_pages.specs.Space.{memory_of};
ghost use Rattle.rv_machine.specs.DecodedPages.{IsDecodedPage};
ghost use Rattle.rv_machine.specs.HartRuns.{Runs, RunsAtMost};
ghost use Rattle.rv_machine.specs.Outcome.{hart};
ghost use Rattle.rv_machine.specs.Watching.{HartWatched, IsWatched, Looks, byte_of};

use crate::code_space::CodeSpace;
use crate::decoded::perform;
use crate::decoded_pages::DecodedPage;
use crate::flow::{Flow, address_in};
use crate::hart::step;
use crate::page_decoding::PAGE_INSTRS;
use crate::run::{Run, RunEnd, leave, left_at, stopped};
use guest_pages::Space;
use rrv_model::machine::{Regs, Reservation};

/// The caller of `perform` that watches a byte.
const WATCHED: usize = 2;

/// The same, while as many instructions may run as a page has.
const WATCHED_PAGE: usize = 3;

/// A byte that is watched while instructions run.
#[derive(Clone, Copy, Debug)]
pub(crate) struct Watch {
    address: u32,
    byte: Option<u8>,
    /// How many had run up to the last that changed the byte; 0 if none did.
    changed: u32,
}

/// How many instructions ran, why they stopped, and how many of them ran up to the last that changed a byte. The last is 0 if none did,
/// and says nothing if they stopped before the limit.
#[derive(Clone, Copy, Debug, PartialEq, Eq)]
pub struct WatchedRun {
    pub run: Run,
    pub changed: u32,
}

#[inline(always)]
fn is_same(one: Option<u8>, other: Option<u8>) -> bool
    ensures { IsTrue result ↔ (one ≡ other) }
{
    one == other
}

/// Looks at the byte after count instructions.
// A call that is not inlined: few instructions store where the byte is, and the others would have to go around this.
#[cold]
#[inline(never)]
fn look(watch: &mut Watch, space: &Space, count: u32)
    ensures { Looks (memory_of space.now) count watch.old watch.new }
{
    let byte = space.byte(u64::from(watch.address));
    if !is_same(watch.byte, byte) {
        watch.byte = byte;
        watch.changed = count;
    }
}

/// Looks at the byte after count instructions, if the last of them, which stored at an address, may have changed it.
#[inline(always)]
fn look_after(watch: &mut Watch, space: &Space, stored: u32, count: u32)
    ensures address { watch.new.address ≡ watch.old.address }
    ensures looks { (is_within stored 4 watch.old.address ≡ false
        → watch.old.byte ≡ byte_of (memory_of space.now) watch.old.address)
        → Looks (memory_of space.now) count watch.old watch.new }
{
    if watch.address.wrapping_sub(stored) < 4 {
        look(watch, space, count);
    }
}

/// Some instructions, at least one, of a decoded page, after `done` others: as `run_page` does them, with a look at the byte after each
/// that may have changed memory.
#[inline(always)]
fn watch_page<const LEAST: usize, const CALLER: usize>(
    regs: &mut Regs,
    space: &mut Space,
    reservation: &mut Reservation,
    page: &DecodedPage,
    done: u32,
    limit: u32,
    watch: &mut Watch,
) -> Run
    requires regs { AreRegs regs.old }
    requires decoded { IsDecodedPage (memory_of space.old) page.now }
    requires place { regs.old.pc / 4096 ≡ page.now.number }
    requires aligned { regs.old.pc % 4 ≡ 0 }
    requires some { 1 ≤ LEAST }
    requires limit { LEAST ≤ limit }
    requires room { done + limit < 2 ^ 32 }
    ensures runs { RunsAtMost limit result (hart regs.old (memory_of space.old) reservation.old)
        (hart regs.new (memory_of space.new) reservation.new) space.old space.new }
    ensures address { watch.new.address ≡ watch.old.address }
    ensures watches { result.end ≡ RunEnd.Limit → (first : Hart)
        → IsWatched watch.old done first (hart regs.old (memory_of space.old) reservation.old)
        → IsWatched watch.new (done + result.count) first (hart regs.new (memory_of space.new) reservation.new) }
{
    let number = page.number;
    let base = number * 4096;
    let instrs = page.instrs.as_slice();
    let mut index = (regs.pc % 4096 / 4) as usize;
    // straight on, as many as may run would end here
    let mut until = index + limit as usize;
    let mut end = until.min(PAGE_INSTRS);
    while LEAST == PAGE_INSTRS || index < end {
        let flow = perform::<CALLER>(regs, space, reservation, &instrs[index], number, index);
        match flow {
            Ok(Flow::Next) => index += 1,
            Ok(Flow::Stored(stored)) => {
                let count = done + limit - left_at(until, index) as u32 + 1;
                look_after(watch, space, stored, count);
                index += 1;
            }
            Ok(Flow::In(to)) if LEAST < left_at(until, index) => {
                let entry = to.index as usize;
                let left = left_at(until, index) - 1;
                index = entry;
                until = entry + left;
                end = (entry + left).min(PAGE_INSTRS);
            }
            Ok(Flow::Jump(target))
                if target.wrapping_sub(base) < 4096 && LEAST < left_at(until, index) => {
                let first = (target.wrapping_sub(base) / 4) as usize;
                until = first + left_at(until, index) - 1;
                index = first;
                end = until.min(PAGE_INSTRS);
            }
            _ if index == PAGE_INSTRS => break,
            _ => {
                let count = limit - left_at(until, index) as u32;
                return leave(regs, address_in(number, index), count, flow);
            }
        }
    }
    regs.pc = base + index as u32 * 4;
    Run {
        count: limit - (until - index) as u32,
        end: RunEnd::Limit,
    }
}

/// One instruction, decoded where it stands, after `done` others.
fn watch_alone(
    regs: &mut Regs,
    space: &mut Space,
    reservation: &mut Reservation,
    done: u32,
    watch: &mut Watch,
) -> Run
    requires regs { AreRegs regs.old }
    requires room { done + 1 < 2 ^ 32 }
    ensures runs { RunsAtMost 1 result (hart regs.old (memory_of space.old) reservation.old)
        (hart regs.new (memory_of space.new) reservation.new) space.old space.new }
    ensures address { watch.new.address ≡ watch.old.address }
    ensures watches { result.end ≡ RunEnd.Limit → (first : Hart)
        → IsWatched watch.old done first (hart regs.old (memory_of space.old) reservation.old)
        → IsWatched watch.new (done + result.count) first (hart regs.new (memory_of space.new) reservation.new) }
{
    match stopped(0, step(regs, space, reservation)) {
        None => look(watch, space, done + 1),
        Some(ended) => return ended,
    }
    Run {
        count: 1,
        end: RunEnd::Limit,
    }
}

/// Some instructions, at least one, of a decoded page, after `done` others.
#[inline(always)]
fn watch_decoded(
    regs: &mut Regs,
    space: &mut Space,
    reservation: &mut Reservation,
    page: &DecodedPage,
    done: u32,
    limit: u32,
    watch: &mut Watch,
) -> Run
    requires regs { AreRegs regs.old }
    requires decoded { IsDecodedPage (memory_of space.old) page.now }
    requires place { regs.old.pc / 4096 ≡ page.now.number }
    requires aligned { regs.old.pc % 4 ≡ 0 }
    requires limit { 1 ≤ limit }
    requires room { done + limit < 2 ^ 32 }
    ensures runs { RunsAtMost limit result (hart regs.old (memory_of space.old) reservation.old)
        (hart regs.new (memory_of space.new) reservation.new) space.old space.new }
    ensures address { watch.new.address ≡ watch.old.address }
    ensures watches { result.end ≡ RunEnd.Limit → (first : Hart)
        → IsWatched watch.old done first (hart regs.old (memory_of space.old) reservation.old)
        → IsWatched watch.new (done + result.count) first (hart regs.new (memory_of space.new) reservation.new) }
{
    if limit as usize >= PAGE_INSTRS {
        return watch_page::<PAGE_INSTRS, WATCHED_PAGE>(
            regs,
            space,
            reservation,
            page,
            done,
            limit,
            watch,
        );
    }
    watch_page::<1, WATCHED>(regs, space, reservation, page, done, limit, watch)
}

/// Some instructions, at least one, after `done` others.
#[inline(always)]
fn watch_some(
    regs: &mut Regs,
    space: &mut CodeSpace,
    reservation: &mut Reservation,
    done: u32,
    limit: u32,
    watch: &mut Watch,
) -> Run
    requires regs { AreRegs regs.old }
    requires limit { 1 ≤ limit }
    requires room { done + limit < 2 ^ 32 }
    ensures runs { RunsAtMost limit result (hart regs.old (memory_of space.old) reservation.old)
        (hart regs.new (memory_of space.new) reservation.new) space.old space.new }
    ensures address { watch.new.address ≡ watch.old.address }
    ensures watches { result.end ≡ RunEnd.Limit → (first : Hart)
        → IsWatched watch.old done first (hart regs.old (memory_of space.old) reservation.old)
        → IsWatched watch.new (done + result.count) first (hart regs.new (memory_of space.new) reservation.new) }
{
    if regs.pc % 4 != 0 {
        return watch_alone(regs, &mut space.space, reservation, done, watch);
    }
    let number = regs.pc / 4096;
    space.pages.ready(&space.space, number);
    let Some(page) = space.pages.find(number) else {
        return watch_alone(regs, &mut space.space, reservation, done, watch);
    };
    watch_decoded(
        regs,
        &mut space.space,
        reservation,
        page,
        done,
        limit,
        watch,
    )
}

impl CodeSpace {
    /// A watch of the byte at an address, before any instruction.
    fn watch(&self, address: u32) -> Watch
        ensures { result ≡ record { address = address; byte = byte_of (memory_of self.now) address; changed = 0 } }
    {
        Watch {
            address,
            byte: self.space.byte(u64::from(address)),
            changed: 0,
        }
    }
}

/// Does up to `limit` instructions from `pc` on, as [`crate::run_hart`] does. If it gets to the limit, it returns how many ran up to the
/// last that changed the byte at an address; 0 if none did.
pub fn run_watched(
    regs: &mut Regs,
    space: &mut CodeSpace,
    reservation: &mut Reservation,
    limit: u32,
    address: u32,
) -> WatchedRun
    requires { AreRegs regs.old }
    ensures runs { Runs limit result.run (hart regs.old (memory_of space.old) reservation.old)
        (hart regs.new (memory_of space.new) reservation.new) space.old space.new }
    ensures watched { result.run.end ≡ RunEnd.Limit → HartWatched address limit
        (hart regs.old (memory_of space.old) reservation.old) result.changed
        (hart regs.new (memory_of space.new) reservation.new) }
{
    let mut watch = space.watch(address);
    let mut done = 0;
    while done < limit {
        let run = watch_some(regs, space, reservation, done, limit - done, &mut watch);
        done += run.count;
        match run.end {
            RunEnd::Limit => {}
            end => {
                return WatchedRun {
                    run: Run { count: done, end },
                    changed: 0,
                };
            }
        }
    }
    WatchedRun {
        run: Run {
            count: done,
            end: RunEnd::Limit,
        },
        changed: watch.changed,
    }
}
