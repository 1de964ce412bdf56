//! Calls of which a growth may be refused, as under `rt try --test --fail-alloc N -- a_refused`. Each test opens two guests first, so
//! the growths of its call are those behind these. Between them stand those for decoded pages, of which nothing tells.

use crate::tests::rows::{Row, play, same, trial_of};
use guest_calls::RunEnd;
use rrv_model::machine::GuestEnd;
use rrv_model::refusal::Memory;
use std::alloc::Global;
use std::process::Abort;
use std::test::Fail;
use test_guests::trial::{Question, ThreadCall, Trial};
use test_guests::words::{A1_FILE, ECALL, a0, a2, a7};

/// The first page of the stack.
const STACK: u32 = 0x7FF0_0000;
/// Two buffers, of three and of two bytes, and a word that an exit clears.
const ON_THE_STACK: [u32; 5] = [0x1_0001, 3, 0x1_0000, 2, 0xFFFF_FFFF];
/// `lui a1, 0x7ff00`: the first page of the stack.
const A1_STACK: u32 = 0x7FF0_05B7;
/// `lui a1, 2`: two pages.
const A1_PAGES: u32 = 0x0000_25B7;
/// `addi a1, a1, 1`
const A1_ONE_MORE: u32 = 0x0015_8593;
/// `lui a0, 0x10`: the image's page.
const A0_IMAGE: u32 = 0x0001_0537;
/// `lui a0, 0x13`: two pages behind the break.
const A0_BEHIND: u32 = 0x0001_3537;
/// `addi a0, a0, 1`
const A0_ONE_MORE: u32 = 0x0015_0513;
/// `lui a0, 0x7ff00`: the first page of the stack.
const A0_STACK: u32 = 0x7FF0_0537;
/// `addi a0, a0, 4`
const A0_NEXT_WORD: u32 = 0x0045_0513;
/// `lui a0, 0x1111`
const A0_FLAGS: u32 = 0x0111_1537;
/// `addi a0, a0, -256`: CLONE_VM, CLONE_FS, CLONE_FILES, CLONE_SIGHAND, CLONE_THREAD, CLONE_PARENT_SETTID and CLONE_CHILD_SETTID.
const A0_MORE_FLAGS: u32 = 0xF005_0513;
/// `lui a2, 0x7ff00`: the first page of the stack.
const A2_STACK: u32 = 0x7FF0_0637;
/// `lui a4, 0x7ff01`: its second page.
const A4_NEXT_PAGE: u32 = 0x7FF0_1737;
/// `li a3, 0x22`: PRIVATE and ANONYMOUS.
const A3_PLAIN: u32 = 0x0220_0693;
/// `li a3, 0x32`: PRIVATE, ANONYMOUS and FIXED.
const A3_FIXED: u32 = 0x0320_0693;

/// A guest before its code, whose clear address is that of the last word on its stack.
fn before_code(rt: &impl Abort, alloc: Global, code: &[u32]) -> Result<Trial<'static>, Fail> {
    let mut trial = trial_of(alloc, code, &[])?;
    let mut address = STACK;
    for word in ON_THE_STACK {
        same(rt, &"a word", trial.put_word(address, word), true);
        address = address.wrapping_add(4);
    }
    let rows = [Row::Call(1, 96, [STACK + 16, 0, 0, 0, 0], 1)];
    play(rt, alloc, &mut trial, &rows)?;
    Ok(trial)
}

/// Runs the code up to behind its ECALL.
fn run_code(rt: &impl Abort, trial: &mut Trial<'_>) {
    let end = trial.run(1, 64).map(|run| run.end);
    same(rt, &"up to the call", end, Some(RunEnd::Call));
}

/// Makes the call of thread 1, and gives its result. Where a growth is refused, the guest is as it was before and nothing was asked,
/// and the same call is made again.
fn call_again(
    rt: &impl Abort,
    alloc: Global,
    trial: &mut Trial<'_>,
    before: &Trial<'_>,
) -> Result<Option<u32>, Fail> {
    match trial.answer(alloc, 1) {
        Ok(answered) => Ok(answered),
        Err(Memory) => {
            same(rt, &"the guest is as it was", trial.same(before), true);
            same(rt, &"nothing is put out", trial.put_out(), None);
            same(rt, &"times asked", trial.find(Question::Asked), Some(0));
            Ok(trial.answer(alloc, 1)?)
        }
    }
}

/// Makes the call that instructions come to, and then takes rows.
fn check(
    rt: &impl Abort,
    alloc: Global,
    code: &[u32],
    want: u32,
    rows: &[Row],
) -> Result<(), Fail> {
    let mut before = before_code(rt, alloc, code)?;
    let mut trial = before_code(rt, alloc, code)?;
    run_code(rt, &mut before);
    run_code(rt, &mut trial);
    let answered = call_again(rt, alloc, &mut trial, &before)?;
    same(rt, &"the result", answered, Some(want));
    play(rt, alloc, &mut trial, rows)
}

/// A guest whose thread 1 is to make this call.
fn before_call<'a>(
    rt: &impl Abort,
    alloc: Global,
    number: u32,
    arguments: [u32; 5],
    input: &'a [u8],
) -> Result<Trial<'a>, Fail> {
    let mut trial = trial_of(alloc, &[0], input)?;
    let call = ThreadCall {
        tid: 1,
        number,
        arguments,
    };
    let is_ready = trial.prepare(alloc, 2, call)?;
    same(rt, &"the registers of the call", is_ready, true);
    same(rt, &"the stack", trial.find(Question::Word(STACK)), Some(0));
    Ok(trial)
}

/// Makes a call that asks an outside, and then takes rows.
fn check_asking(
    rt: &impl Abort,
    alloc: Global,
    number: u32,
    arguments: [u32; 5],
    want: u32,
    rows: &[Row],
) -> Result<(), Fail> {
    let before = before_call(rt, alloc, number, arguments, &[])?;
    let mut trial = before_call(rt, alloc, number, arguments, &[1, 2, 3, 4])?;
    let answered = call_again(rt, alloc, &mut trial, &before)?;
    same(rt, &"the result", answered, Some(want));
    let asked = trial.find(Question::Asked);
    same(rt, &"times asked", asked, Some(1));
    play(rt, alloc, &mut trial, rows)
}

#[test]
fn a_refused_write_is_made_again(rt: HostRuntime) -> Result<(), Fail> {
    let code = [a0(2), A1_FILE, a2(4), a7(64), ECALL];
    let rows = [Row::PutOut(Some((2, &[0x7F, 0x45, 0x4C, 0x46])))];
    check(&rt, rt.alloc(), &code, 4, &rows)
}

#[test]
fn a_refused_writev_is_made_again(rt: HostRuntime) -> Result<(), Fail> {
    let code = [a0(1), A1_STACK, a2(2), a7(66), ECALL];
    let rows = [Row::PutOut(Some((1, &[0x45, 0x4C, 0x46, 0x7F, 0x45])))];
    check(&rt, rt.alloc(), &code, 5, &rows)
}

#[test]
fn a_refused_exit_is_made_again(rt: HostRuntime) -> Result<(), Fail> {
    let code = [a0(5), a7(93), ECALL];
    let rows = [
        Row::Wrote(0, (STACK + 16, &[0; 4])),
        Row::Finds(Question::Word(STACK + 16), Some(0)),
        Row::Ended(Some(GuestEnd::Exited(5))),
    ];
    check(&rt, rt.alloc(), &code, 0, &rows)
}

#[test]
fn a_refused_brk_is_made_again(rt: HostRuntime) -> Result<(), Fail> {
    let code = [A0_BEHIND, A0_ONE_MORE, a7(214), ECALL];
    let rows = [
        Row::Finds(Question::Break, Some(0x1_3001)),
        Row::Finds(Question::Pages, Some(260)),
    ];
    check(&rt, rt.alloc(), &code, 0x1_3001, &rows)
}

#[test]
fn a_refused_mmap_is_made_again(rt: HostRuntime) -> Result<(), Fail> {
    let code = [
        a0(0),
        A1_PAGES,
        A1_ONE_MORE,
        a2(3),
        A3_PLAIN,
        a7(222),
        ECALL,
    ];
    let rows = [
        Row::Finds(Question::Pages, Some(260)),
        Row::Finds(Question::Writable(0x6FFF_D000, 12_288), Some(1)),
    ];
    check(&rt, rt.alloc(), &code, 0x6FFF_D000, &rows)
}

#[test]
fn a_refused_fixed_mmap_is_made_again(rt: HostRuntime) -> Result<(), Fail> {
    let code = [A0_IMAGE, A1_PAGES, a2(3), A3_FIXED, a7(222), ECALL];
    let rows = [
        Row::Finds(Question::Pages, Some(258)),
        Row::Finds(Question::Word(0x1_0000), Some(0)),
    ];
    check(&rt, rt.alloc(), &code, 0x1_0000, &rows)
}

#[test]
fn a_refused_wait_is_made_again(rt: HostRuntime) -> Result<(), Fail> {
    let code = [A0_STACK, A0_NEXT_WORD, a2(3), a7(98), ECALL];
    let rows = [
        Row::Waiting(&[1]),
        Row::Finds(Question::HasRunning, Some(0)),
    ];
    check(&rt, rt.alloc(), &code, 0, &rows)
}

#[test]
fn a_refused_clone_is_made_again(rt: HostRuntime) -> Result<(), Fail> {
    let code = [
        A0_FLAGS,
        A0_MORE_FLAGS,
        A2_STACK,
        A4_NEXT_PAGE,
        a7(220),
        ECALL,
    ];
    let rows = [
        Row::Finds(Question::Ranges, Some(2)),
        Row::Finds(Question::Word(STACK), Some(2)),
        Row::Finds(Question::Word(STACK + 4096), Some(2)),
        Row::Finds(Question::NextTid, Some(3)),
    ];
    check(&rt, rt.alloc(), &code, 2, &rows)
}

#[test]
fn a_refused_read_loses_no_input(rt: HostRuntime) -> Result<(), Fail> {
    let rows = [Row::Finds(Question::Word(STACK), Some(0x0403_0201))];
    check_asking(&rt, rt.alloc(), 63, [0, STACK, 10, 0, 0], 4, &rows)
}

#[test]
fn a_refused_clock_gettime_asks_nothing(rt: HostRuntime) -> Result<(), Fail> {
    let rows = [Row::Finds(Question::Word(STACK), Some(1))];
    check_asking(&rt, rt.alloc(), 403, [1, STACK, 0, 0, 0], 0, &rows)
}

#[test]
fn a_refused_getrandom_asks_nothing(rt: HostRuntime) -> Result<(), Fail> {
    check_asking(&rt, rt.alloc(), 278, [STACK, 16, 0, 0, 0], 16, &[])
}
