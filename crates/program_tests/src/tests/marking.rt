//! Stores that are asked for the Mark though they are full: no file of that size is made.

ghost use Rattle.std.specs.Prelude.{◌≡◌, false, IfOk};

use super::{same, shows};
use line_io::marked;
use std::alloc::Global;
use std::test::Fail;
use trace_disk::{Disk, MemDisk};
use trace_log::Log;

/// An empty store whose log takes it to have as many segments as a store may have, with the Mark or without it.
fn full_log(alloc: Global, holds_mark: bool) -> Result<Log<MemDisk>, Fail>
    ensures { IfOk result (λ log. log.is_broken ≡ false) }
{
    let made = Log::create(MemDisk::new(alloc));
    let disk = made.ok().ok_or("not made")?.close();
    if disk.len() != 17 {
        return Err(Fail::new("no empty store"));
    }
    Ok(Log::adopt(disk, 16, u32::MAX, holds_mark))
}

#[test]
fn a_full_store_takes_no_mark(rt: HostRuntime) -> Result<(), Fail> {
    let alloc = rt.alloc();
    let log = full_log(alloc, false)?;
    let Err(refusal) = marked(alloc, log) else {
        return Err(Fail::new("marked"));
    };
    shows(&rt, &refusal, "store full")
}

#[test]
fn a_full_store_that_holds_it_wants_none(rt: HostRuntime) -> Result<(), Fail> {
    let alloc = rt.alloc();
    let log = marked(alloc, full_log(alloc, true)?)?;
    same(&rt, &"marked", log.marked(), true);
    Ok(())
}
