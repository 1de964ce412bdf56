//! The way to where a question leads.

ghost use Rattle.std.specs.Prelude.{◌≡◌, IfErr, IfOk, OnErr};
ghost use Rattle.rrv_model.specs.StateAt.{total};
ghost use Rattle.command_line.specs.declared.asked.Inquiry.TheVariants as inquiries;
ghost use Rattle.asking.specs.Answers.{Leads, Refuses};

use crate::places::place_in;
use command_line::Inquiry;
use reverse_step::{Cursor, SearchWatch, SeekFault};
use rrv_model::refusal::Memory;
use std::alloc::Global;
use std::thread::Threads;

/// Goes to the last change of a byte, and returns whether there is one.
fn go_last<R: Threads + Sync, V: SearchWatch>(
    rt: &R,
    alloc: Global,
    workers: usize,
    cursor: &mut Cursor<'_>,
    address: u32,
    watch: &mut V,
) -> Result<bool, Memory>
    ensures verified { cursor.new.verified ≡ cursor.old.verified }
    ensures leads { IfOk result (Leads (inquiries.Last address) cursor.old cursor.new) }
    ensures stays { OnErr result (cursor.new ≡ cursor.old) }
{
    match cursor.last_change_in_spans(rt, alloc, workers, address, watch)? {
        Some(_) => Ok(true),
        None => Ok(false),
    }
}

/// Goes to the next change of a byte, and returns whether there is one.
fn go_next<V: SearchWatch>(
    alloc: Global,
    cursor: &mut Cursor<'_>,
    address: u32,
    watch: &mut V,
) -> Result<bool, Memory>
    ensures verified { cursor.new.verified ≡ cursor.old.verified }
    ensures leads { IfOk result (Leads (inquiries.Next address) cursor.old cursor.new) }
    ensures stays { OnErr result (cursor.new ≡ cursor.old) }
{
    match cursor.next_change(alloc, address, watch)? {
        Some(_) => Ok(true),
        None => Ok(false),
    }
}

/// Goes where a question leads, and returns whether there is such a place. If there is none, and after a refusal, the cursor stays.
pub(crate) fn go<R: Threads + Sync, V: SearchWatch>(
    rt: &R,
    alloc: Global,
    workers: usize,
    cursor: &mut Cursor<'_>,
    inquiry: Inquiry,
    watch: &mut V,
) -> Result<bool, SeekFault>
    ensures verified { cursor.new.verified ≡ cursor.old.verified }
    ensures goes { IfOk result (Leads inquiry cursor.old cursor.new) }
    ensures refused { IfErr result (λ e. Refuses e inquiry (total cursor.old.verified.frames) cursor.old.place) }
    ensures stays { OnErr result (cursor.new ≡ cursor.old) }
{
    match inquiry {
        Inquiry::At(place) => {
            let t = place_in(place, cursor.verified());
            cursor.seek(alloc, t)?;
            Ok(true)
        }
        Inquiry::Back(count) => {
            cursor.back(alloc, count)?;
            Ok(true)
        }
        Inquiry::Forward(count) => {
            cursor.forward(alloc, count)?;
            Ok(true)
        }
        Inquiry::Last(address) => Ok(go_last(rt, alloc, workers, cursor, address, watch)?),
        Inquiry::Next(address) => Ok(go_next(alloc, cursor, address, watch)?),
        Inquiry::Memory(_) | Inquiry::Threads | Inquiry::Where => Ok(true),
    }
}
