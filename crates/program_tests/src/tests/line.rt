//! Lines of the program, by the call that does one.

use super::same;
use commands::run;
use std::test::Fail;

/// What the line of no words prints.
const DEMONSTRATION: &str = "0 opening name=g0 elf=96
1 call tid=1 count=3 result=00000000 written=0
ok records=2 instructions=3 end exited 5
";

#[test]
fn the_line_of_no_words_records_and_replays(rt: HostRuntime) -> Result<(), Fail> {
    let (mut out, mut err) = (Vec::new(rt.alloc()), Vec::new(rt.alloc()));
    let words: [&str; 0] = [];
    same(&rt, &"status", run(&rt, &words, &mut out, &mut err), 0);
    same(&rt, &"output", out.as_slice(), DEMONSTRATION.as_bytes());
    same(&rt, &"errors", err.as_slice(), b"");
    Ok(())
}

#[test]
fn a_store_that_is_not_there_is_refused(rt: HostRuntime) -> Result<(), Fail> {
    let (mut out, mut err) = (Vec::new(rt.alloc()), Vec::new(rt.alloc()));
    let words = ["list", "no/such/store"];
    same(&rt, &"status", run(&rt, &words, &mut out, &mut err), 1);
    same(&rt, &"output", out.as_slice(), b"");
    same(&rt, &"errors", err.as_slice(), b"rrv: cannot open store\n");
    Ok(())
}

#[test]
fn a_bad_line_does_nothing(rt: HostRuntime) -> Result<(), Fail> {
    let (mut out, mut err) = (Vec::new(rt.alloc()), Vec::new(rt.alloc()));
    let words = ["verify", "store"];
    same(&rt, &"status", run(&rt, &words, &mut out, &mut err), 2);
    same(&rt, &"output", out.as_slice(), b"");
    same(&rt, &"has text", err.is_empty(), false);
    Ok(())
}
