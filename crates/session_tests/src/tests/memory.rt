//! Sessions whose growths are refused. Their guests put nothing out, and their disk has room.

use super::listed::{SPIN, listed_jobs};
use super::same;
use session::{OpenGate, SessionFault, record_all};
use std::test::Fail;
use test_guests::files::EXIT_FIVE;
use trace_disk::MemDisk;
use trace_log::Log;

// It ends, also where each growth is refused from some one on.
#[test]
fn a_session_finds_no_memory(rt: HostRuntime) -> Result<(), Fail> {
    let alloc = rt.alloc();
    let disk = MemDisk::with_room(alloc, 10_000, 1_000)?;
    let log = Log::create(disk).ok().ok_or("not made")?;
    let jobs = listed_jobs(alloc, &[&EXIT_FIVE, &SPIN])?;
    let (_, _, result) = record_all(&rt, alloc, log, jobs, &OpenGate);
    let fault = result.err().unwrap_or(SessionFault::Memory);
    same(&rt, &"fault", fault, SessionFault::Memory);
    Ok(())
}
