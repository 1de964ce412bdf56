//! Two guests whose workers have to run at once. Workers that run one after the other pass none of these.

use super::gates::{Behind, Meeting};
use super::same;
use super::whole::whole_session;
use std::test::Fail;

// A session that ran the first guest to its end before the second would answer that the first is held, and so of the second.
#[test]
fn each_waits_for_the_other(rt: HostRuntime) -> Result<(), Fail> {
    for held in 0..2 {
        whole_session(&rt, 2, 20, &Behind::holding(held, 3))?;
    }
    Ok(())
}

// Each is inside its first question until the other asks too.
#[test]
fn both_are_in_the_gate_at_once(rt: HostRuntime) -> Result<(), Fail> {
    let gate = Meeting::new();
    whole_session(&rt, 2, 20, &gate)?;
    same(&rt, &"met", gate.was_held(), true);
    Ok(())
}
