//! The answer to a question.

ghost use Rattle.std.specs.Prelude.{◌≡◌, ◌≢◌, IfErr, OnOk};
ghost use Rattle.line_io.specs.declared.refusal.Refusal.{Refusal};
ghost use Rattle.asking.specs.Answers.{Answers, Stays};

use crate::going::go;
use crate::places::first_thread;
use crate::printing::{print_found, printed_for};
use command_line::Inquiry;
use line_io::Refusal;
use reverse_step::{Cursor, SearchWatch};
use std::io::Write;
use std::thread::Threads;

/// Goes where a question leads, with at most `workers` workers, and prints what it asks about there. A move prints the state or, if
/// `is_quiet` says so, the line of the place. If it leads to no place of the recording, or there is no memory, the cursor stays and
/// nothing is printed. If output fails, the cursor is where the question led. How far a search is goes to `watch`.
pub fn answer<R: AllocGlobal + Threads + Sync, V: SearchWatch, W: Write>(
    rt: &R,
    workers: usize,
    cursor: &mut Cursor<'_>,
    inquiry: Inquiry,
    is_quiet: bool,
    watch: &mut V,
    out: &mut W,
) -> Result<(), Refusal>
    ensures verified { cursor.new.verified ≡ cursor.old.verified }
    ensures answered { OnOk result
        (Answers is_quiet inquiry cursor.old cursor.new (W.contents out.old) (W.contents out.new)) }
    ensures stays { IfErr result (Stays inquiry cursor.old cursor.new) }
    ensures quiet { IfErr result (λ e. e ≢ Refusal.OutputFailed → out.new ≡ out.old) }
{
    let is_found = go(rt, rt.alloc(), workers, cursor, inquiry, watch)?;
    let tid = first_thread(cursor.verified(), cursor.place());
    let printed = printed_for(inquiry, is_quiet);
    print_found(cursor, tid, printed, is_found, out)?;
    Ok(())
}
