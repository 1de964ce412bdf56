//! `rrv`: records RISC-V programs and replays them.
//!
//! Tests: none; `cases.lines` and other tools run it.
#![tactic(auto)]

use commands::{report_unread, run_on};
use host::Patient;
use line_io::Terminals;
use std::io::IsTerminal;
use std::process::ExitCode;
use std::{env, io};
use text_sum::TEXT_SUM;

mod text_sum;

/// The words after the program's name.
fn words_of(rt: &HostRuntime) -> io::Result<Vec<String>> {
    let words = env::args(rt)?.skip(1).collect(rt.alloc())?;
    Ok(words)
}

fn main(rt: HostRuntime) -> ExitCode {
    let terminals = Terminals {
        input: rt.stdin().is_terminal(),
        out: rt.stdout().is_terminal(),
        err: rt.stderr().is_terminal(),
    };
    let mut out = Patient::new(&rt, rt.stdout());
    let mut err = Patient::new(&rt, rt.stderr());
    let words = match words_of(&rt) {
        Ok(words) => words,
        Err(error) => return ExitCode::from(report_unread(rt.alloc(), &error, &mut err)),
    };
    let status = run_on(
        &rt,
        words.as_slice(),
        TEXT_SUM,
        terminals,
        &mut out,
        &mut err,
    );
    ExitCode::from(status)
}
