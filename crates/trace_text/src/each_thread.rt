//! What is printed of each thread of a guest.

ghost use Rattle.std.specs.Prelude.{List, flat_map, ℕ};
ghost use Rattle.std.specs.Fmt.{WritesOnOk};
ghost use Rattle.std.specs.FinMap.{entries};
ghost use Rattle.rrv_model.specs.declared.machine.Thread.{Thread};
ghost use Rattle.guest_threads.specs.Threads.{thread_map};

use guest_threads::Threads;
use rrv_model::machine::Thread;
use std::fmt;

/// A text of each thread.
pub trait ThreadText {
    /// The text of the thread of this tid.
    ghost text: { ℕ → Thread → List ℕ };

    /// Writes the text of a thread.
    fn write<W: fmt::Write>(f: &mut fmt::Formatter<W>, tid: u32, thread: &Thread) -> fmt::Result
        ensures { WritesOnOk W.write_str_gives f.old result (text tid thread.now) f.new };
}

/// Writes the texts of a guest's threads, by rising tid.
pub fn write_each<T: ThreadText, W: fmt::Write>(
    f: &mut fmt::Formatter<W>,
    threads: &Threads,
) -> fmt::Result
    ensures { WritesOnOk W.write_str_gives f.old result
        (flat_map (λ e. T.text e.0 e.1) (entries (thread_map threads.now.threads))) f.new }
{
    // the proof opens the threads here, for what holds of their tids
    let _ = threads.live();
    for tid in 1..threads.next_tid() {
        if let Some(thread) = threads.get(tid) {
            T::write(f, tid, &thread)?;
        }
    }
    Ok(())
}
