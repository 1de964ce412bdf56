//! Many guests at once, and none.

use super::whole::whole_session;
use session::OpenGate;
use std::test::Fail;

/// How often they are recorded: their threads meet otherwise each time.
const RUNS: u32 = 10;

// The first sessions are of sixteen guests of a thousand records, and the last one of no guests.
#[test]
fn many_guests_are_recorded_at_once(rt: HostRuntime) -> Result<(), Fail> {
    for _ in 0..RUNS {
        whole_session(&rt, 16, 998, &OpenGate)?;
    }
    whole_session(&rt, 0, 1, &OpenGate)
}
