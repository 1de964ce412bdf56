//! What the refusals say.

use super::same;
use commit_group::{FlushFault, SubmitFault};
use std::test::Fail;

#[test]
fn says_why_an_item_is_not_sent(rt: HostRuntime) -> Result<(), Fail> {
    for (fault, text) in [
        (SubmitFault::Full, "queue is full"),
        (SubmitFault::Halted, "halted"),
        (SubmitFault::Left, "left"),
    ] {
        let told = format!(in rt.alloc(); "{fault}")?;
        same(&rt, &fault, told.as_str(), text);
    }
    Ok(())
}

#[test]
fn says_why_a_turn_is_refused(rt: HostRuntime) -> Result<(), Fail> {
    for (fault, text) in [
        (FlushFault::DeviceFailed, "device failed"),
        (FlushFault::Halted, "halted"),
        (FlushFault::TooLong, "too long"),
        (FlushFault::NeedsMark, "store needs the mark"),
        (FlushFault::Memory, "out of memory"),
    ] {
        let told = format!(in rt.alloc(); "{fault}")?;
        same(&rt, &fault, told.as_str(), text);
    }
    Ok(())
}
