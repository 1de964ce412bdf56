//! What a guest does step by step, and with much input.

use crate::tests::rows::{Row, play, same, trial_of};
use guest_calls::{Run, RunEnd};
use std::test::Fail;
use test_guests::trial::Question;
use test_guests::words::{ECALL, a0, a7};

const READ: u32 = 63;

/// The first page of the stack.
const STACK: u32 = 0x7FF0_0000;

#[test]
fn steps_and_takes_a_call_back(rt: HostRuntime) -> Result<(), Fail> {
    let mut trial = trial_of(rt.alloc(), &[a0(5), a7(94), ECALL], &[])?;
    let up_to_the_call = Run {
        count: 2,
        end: RunEnd::Call,
    };
    let rows = [
        Row::Step(1),
        Row::Run(1, 2, up_to_the_call),
        Row::TakeBack(1),
        Row::Finds(Question::Ran, Some(2)),
        Row::Finds(Question::Pc(1), Some(0x1_005C)),
    ];
    play(&rt, rt.alloc(), &mut trial, &rows)
}

#[test]
fn tells_states_apart(rt: HostRuntime) -> Result<(), Fail> {
    let code = [a0(5), a7(94), ECALL];
    let one = trial_of(rt.alloc(), &code, &[])?;
    let mut other = trial_of(rt.alloc(), &code, &[])?;
    same(&rt, &"at the start", one.same(&other), true);
    play(&rt, rt.alloc(), &mut other, &[Row::Step(1)])?;
    same(&rt, &"behind a step", one.same(&other), false);
    Ok(())
}

#[test]
fn takes_at_most_65536_bytes(rt: HostRuntime) -> Result<(), Fail> {
    let input = vec![in rt.alloc(); 7u8; 70_000]?;
    let mut trial = trial_of(rt.alloc(), &[0], &input)?;
    let rows = [
        Row::Call(1, READ, [0, STACK + 1, 70_000, 0, 0], 0x1_0000),
        Row::Finds(Question::InputLeft, Some(70_000 - 0x1_0000)),
        Row::Finds(Question::Byte(STACK), Some(0)),
        Row::Finds(Question::Byte(STACK + 0x1_0000), Some(7)),
        Row::Finds(Question::Byte(STACK + 0x1_0001), Some(0)),
    ];
    play(&rt, rt.alloc(), &mut trial, &rows)
}
