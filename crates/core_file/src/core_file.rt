//! A core file of a guest.

ghost use Rattle.std.specs.Prelude.{◌≡◌, ◌+◌, ◌++◌, ◌≤◌, length, All, flat_map, IfOk, OnOk};
ghost use Rattle.std.specs.FinMap.{entries};
ghost use Rattle.std.specs.Io.KnownBytes.{Appends};
ghost use Rattle.rrv_model.specs.Memory.{page_bytes};
ghost use Rattle.guest_pages.specs.Space.{memory_of};
ghost use Rattle.guest_threads.specs.Threads.{thread_map};
ghost use Rattle.guest_calls.specs.Guest.{state_of};
ghost use Rattle.core_file.specs.Core.{core_of, head, run_bytes};
ghost use Rattle.core_file.specs.Runs.{AreAlike, Fits};

use crate::counts::Counts;
use crate::headers::{put_elf_header, put_headers, put_padding};
use crate::notes::put_notes;
use crate::runs::{Run, collect_runs};
use guest_calls::Guest;
use guest_pages::Space;
use guest_threads::Threads;
use rrv_model::refusal::Memory;
use std::alloc::Global;
use std::io::{self, Write};
use std::marker::Model;

/// A core file of a guest (System V ABI, class ELF32): a note for each thread, and its mapped pages. Contracts see its
/// bytes.
#[derive(Drop)]
pub struct CoreFile<'a> {
    guest: &'a Guest,
    /// What stands before the pages.
    head: Vec<u8>,
    runs: Vec<Run>,
}

impl<'a> Model for CoreFile<'a> {
    ghost use Rattle.std.specs.Prelude.{◌≡◌, ◌++◌, ℕ, List, flat_map};
    ghost use Rattle.guest_pages.specs.Space.{memory_of};
    ghost use Rattle.core_file.specs.Core.{run_bytes};
    ghost use Rattle.core_file.specs.Runs.{runs_of};

    ghost Value = { List ℕ };

    ghost view = { λ f. f.head.items ++ flat_map (run_bytes (memory_of f.guest.now.space)) f.runs.items };

    ghost invariant = { λ f. f.runs.items ≡ runs_of (memory_of f.guest.now.space) };
}

impl<'a> CoreFile<'a> {
    /// The core file of a guest's state. The thread of this tid comes first, if it is there, and the others by rising
    /// tid. `Memory` where a growth is refused.
    pub fn new(alloc: Global, guest: &'a Guest, first: u32) -> Result<CoreFile<'a>, Memory>
        ensures { IfOk result (λ file. file ≡ core_of first (state_of guest.now)) }
    {
        // the proof opens the guest here, for how many pages it has
        let _ = guest.page_count();
        let runs = collect_runs(alloc, guest.space())?;
        let head = head_of(alloc, guest.threads(), runs.as_slice(), first)?;
        Ok(CoreFile { guest, head, runs })
    }

    /// Writes the file. An error is the writer's; the file is then written in part.
    pub fn write_to<W: Write>(&self, out: &mut W) -> io::Result<()>
        ensures { OnOk result (Appends (W.contents out.old) (W.contents out.new) self.now) }
    {
        // the proof opens the guest here, for how many pages it has
        let _ = self.guest.page_count();
        out.write_all(self.head.as_slice())?;
        write_runs(out, self.guest.space(), self.runs.as_slice())
    }
}

/// What stands before the pages.
fn head_of(alloc: Global, threads: &Threads, runs: &[Run], first: u32) -> Result<Vec<u8>, Memory>
    requires few { length runs.now ≤ 16384 }
    requires fit { All Fits runs.now }
    ensures { IfOk result (λ bytes. bytes.items ≡ head first (entries (thread_map threads.now.threads)) runs.now) }
{
    let parts = threads.to_parts(alloc)?;
    let (headers, count) = (1 + runs.len() as u32, parts.len() as u32);
    let counts = Counts {
        headers,
        threads: count,
    };
    let mut out = Vec::new(alloc);
    put_elf_header(&mut out, headers as u16)?;
    put_headers(&mut out, counts, runs)?;
    put_notes(&mut out, parts.as_slice(), first)?;
    put_padding(&mut out, counts)?;
    Ok(out)
}

/// Writes the pages of runs.
fn write_runs<W: Write>(out: &mut W, space: &Space, runs: &[Run]) -> io::Result<()>
    requires fit { All Fits runs.now }
    requires there { All (AreAlike (memory_of space.now)) runs.now }
    ensures { OnOk result (Appends (W.contents out.old) (W.contents out.new)
        (flat_map (run_bytes (memory_of space.now)) runs.now)) }
{
    for run in runs {
        write_run(out, space, run)?;
    }
    Ok(())
}

/// Writes the pages of a run, but for the blank ones at its end.
fn write_run<W: Write>(out: &mut W, space: &Space, run: &Run) -> io::Result<()>
    requires fits { Fits run.now }
    requires there { AreAlike (memory_of space.now) run.now }
    ensures { OnOk result (Appends (W.contents out.old) (W.contents out.new)
        (run_bytes (memory_of space.now) run.now)) }
{
    for index in 0..run.filled {
        let Some(page) = space.page(run.first + index) else {
            unreachable!()
        };
        write_page(out, page.bytes)?;
    }
    Ok(())
}

/// Writes the 4,096 bytes of a page.
fn write_page<W: Write>(out: &mut W, bytes: &[u8; 4096]) -> io::Result<()>
    ensures written { OnOk result (Appends (W.contents out.old) (W.contents out.new) bytes.now) }
    ensures full { length bytes.now ≡ page_bytes }
{
    out.write_all(bytes)
}
