//! The notes of a core file: what a debugger reads of each thread.

ghost use Rattle.std.specs.Prelude.{◌≡◌, ◌++◌, flat_map, OnOk};
ghost use Rattle.guest_threads.specs.ThreadParts.{entries_of};
ghost use Rattle.core_file.specs.Notes.{first_note, note, notes, other_note, prstatus};

use crate::numbers::{put_number, put_numbers, put_zeros};
use rrv_model::machine::Thread;
use rrv_model::record::ThreadPart;
use std::alloc::AllocError;

/// The bytes of the name, with the zero that ends it, and of a prstatus.
const NAME_BYTES: u32 = 5;

const PRSTATUS_BYTES: u32 = 204;

const NT_PRSTATUS: u32 = 1;

/// The notes of threads, that of this tid first.
pub(crate) fn put_notes(
    out: &mut Vec<u8>,
    parts: &[ThreadPart],
    first: u32,
) -> Result<(), AllocError>
    ensures { OnOk result (out.new.items ≡ out.old.items ++ notes first (entries_of parts.now)) }
{
    put_first_note(out, parts, first)?;
    put_other_notes(out, parts, first)
}

/// The note of the thread of this tid, if it is there.
fn put_first_note(out: &mut Vec<u8>, parts: &[ThreadPart], first: u32) -> Result<(), AllocError>
    ensures { OnOk result (out.new.items ≡ out.old.items
        ++ flat_map (first_note first) (entries_of parts.now)) }
{
    for part in parts {
        if part.tid == first {
            put_note(out, part.tid, &part.thread)?;
        }
    }
    Ok(())
}

/// The notes of the threads of other tids.
fn put_other_notes(out: &mut Vec<u8>, parts: &[ThreadPart], first: u32) -> Result<(), AllocError>
    ensures { OnOk result (out.new.items ≡ out.old.items
        ++ flat_map (other_note first) (entries_of parts.now)) }
{
    for part in parts {
        if part.tid != first {
            put_note(out, part.tid, &part.thread)?;
        }
    }
    Ok(())
}

/// A thread's note.
#[tactic(auto, unfolding(crate::specs::Notes::note))]
fn put_note(out: &mut Vec<u8>, tid: u32, thread: &Thread) -> Result<(), AllocError>
    ensures { OnOk result (out.new.items ≡ out.old.items ++ note tid thread.now) }
{
    put_number(out, NAME_BYTES)?;
    put_number(out, PRSTATUS_BYTES)?;
    put_number(out, NT_PRSTATUS)?;
    out.extend_from_slice(b"CORE\0\0\0\0")?;
    put_prstatus(out, tid, thread)
}

/// A thread's prstatus: `pr_pid` at 24, and `pr_reg` from 72 on, which is pc and x1 to x31.
#[tactic(auto, unfolding(crate::specs::Notes::prstatus))]
fn put_prstatus(out: &mut Vec<u8>, tid: u32, thread: &Thread) -> Result<(), AllocError>
    ensures { OnOk result (out.new.items ≡ out.old.items ++ prstatus tid thread.now) }
{
    let regs = &thread.regs;
    let (_, others) = regs.registers.split_at(1);
    put_zeros(out, 24)?;
    put_number(out, tid)?;
    put_zeros(out, 44)?;
    put_number(out, regs.pc)?;
    put_numbers(out, others)?;
    put_zeros(out, 4)
}
