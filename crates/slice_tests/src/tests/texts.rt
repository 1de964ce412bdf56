//! What the refusals say.

use super::trial::same;
use serial_sched::{FollowFault, SliceFault};
use std::alloc::{AllocError, Global};
use std::fmt::Display;
use std::process::Abort;
use std::test::Fail;

/// Ends the test where a value prints another text.
fn prints(
    rt: &impl Abort,
    alloc: Global,
    value: &impl Display,
    want: &str,
) -> Result<(), AllocError> {
    let text = format!(in alloc; "{value}")?;
    same(rt, &"a text", text.as_str(), want);
    Ok(())
}

#[test]
fn says_why_it_refuses(rt: HostRuntime) -> Result<(), Fail> {
    for (fault, text) in [
        (SliceFault::NotRunnable, "the thread is not runnable"),
        (SliceFault::BadQuantum, "the quantum is outside the limits"),
        (SliceFault::Ended, "the guest has ended"),
        (SliceFault::Memory, "out of memory"),
        (
            SliceFault::Waiting,
            "all threads wait, and a wait has a timeout",
        ),
        (SliceFault::NotTimed, "the thread has no timed wait"),
    ] {
        prints(&rt, rt.alloc(), &fault, text)?;
    }
    for (fault, text) in [
        (FollowFault::GoesNowhere, "the frame leads nowhere"),
        (FollowFault::Memory, "out of memory"),
    ] {
        prints(&rt, rt.alloc(), &fault, text)?;
    }
    Ok(())
}
