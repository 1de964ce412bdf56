//! The line of no words: what `record`, `dump` and `verify` do, over a disk in memory.

use answers::tell;
use line_io::{Refusal, Store};
use listings::dump;
use recording::record_example;
use replayer::VerifiedEnd;
use std::io::Write;
use std::sync::Wait;
use std::thread::Threads;
use std::time::Clock;
use stored_guests::verified_in;
use trace_disk::MemDisk;

/// Prints a guest's records, and how it ends once they are verified.
fn shown<R: AllocGlobal + Threads + Sync + Clock, O: Write, E: Write + Drop>(
    rt: &R,
    store: Store<MemDisk>,
    out: &mut O,
    err: &mut E,
) -> Result<(), Refusal> {
    let mut store = store;
    dump(rt.alloc(), &mut store, 0, out)?;
    let end: VerifiedEnd = verified_in(rt, rt.alloc(), store, 0, false, err)?;
    tell(rt.alloc(), &end, false, out)
}

/// Records a small program, and prints its output, its records and its end. The disk lies in memory, so it fails only for want of that.
pub(crate) fn demonstrate<
    R: AllocGlobal + Threads + Wait + Sync + Clock,
    O: Write + Drop + Send,
    E: Write + Drop + Send,
>(rt: &R, out: &mut O, err: &mut E) -> Result<(), Refusal> {
    let store = record_example(rt, &mut *out, &mut *err).map_err(|refusal| refusal.in_memory())?;
    shown(rt, store, out, err).map_err(|refusal| refusal.in_memory())
}
