//! What a line asks, and what it has to find.

use crate::names::number;
use std::alloc::Global;
use test_guests::trial::{Question, ThreadCall};

/// What a line asks of a guest, or does with it. Each answer is a list of numbers, or none.
#[derive(Clone, Copy, Debug, PartialEq, Eq)]
pub enum Asked {
    /// A thread makes a call: its tid, the number, and a0 to a4. The answer is the result, and where the call wrote or put
    /// out something, how many ranges and how many bytes.
    Call(ThreadCall),
    /// The same where this tid is the next one.
    CallUnder(u32, ThreadCall),
    /// A thread makes the call that its instructions came to. The answer is as for the other calls.
    Answer(u32),
    /// A thread runs up to its call. The answer is how many instructions that took; none where it came to none.
    Run(u32, u32),
    /// A word is put into a page. The answer has no number.
    Put(u32, u32),
    /// The timed wait of a thread ends. The answer has no number; none where it has no such wait.
    Expire(u32),
    /// A slice ends. The answer has no number.
    CloseSlice,
    /// The bytes of the range at this place among those that the last call wrote.
    Written(u32),
    /// The descriptor and the bytes that the last call put out.
    Out,
    /// The waiting threads, in the waiting order.
    Waiting,
    /// The running threads.
    Running,
    /// The status with which the guest exited.
    Exited,
    /// Whether the guest ended.
    HasEnded,
    /// An answer of one number.
    Number(Question),
}

/// A line.
#[derive(Debug, Drop)]
pub struct Line {
    /// What it asks.
    pub asked: Asked,
    /// What it has to find.
    pub want: Option<Vec<u32>>,
}

/// What a name alone asks.
fn asked_alone(name: &str) -> Option<Asked> {
    match name {
        "close_slice" => Some(Asked::CloseSlice),
        "out" => Some(Asked::Out),
        "waiting" => Some(Asked::Waiting),
        "running" => Some(Asked::Running),
        "exited" => Some(Asked::Exited),
        "has_ended" => Some(Asked::HasEnded),
        "ranges" => Some(Asked::Number(Question::Ranges)),
        "asked" => Some(Asked::Number(Question::Asked)),
        "input_left" => Some(Asked::Number(Question::InputLeft)),
        "pages" => Some(Asked::Number(Question::Pages)),
        "break" => Some(Asked::Number(Question::Break)),
        "reservation" => Some(Asked::Number(Question::Reservation)),
        "next_tid" => Some(Asked::Number(Question::NextTid)),
        "live" => Some(Asked::Number(Question::Live)),
        "has_running" => Some(Asked::Number(Question::HasRunning)),
        "ran" => Some(Asked::Number(Question::Ran)),
        _ => None,
    }
}

/// What a name asks with one number.
fn asked_of_one(name: &str, number: u32) -> Option<Asked> {
    match name {
        "answer" => Some(Asked::Answer(number)),
        "written" => Some(Asked::Written(number)),
        "range" => Some(Asked::Number(Question::Range(number))),
        "length" => Some(Asked::Number(Question::Length(number))),
        "word" => Some(Asked::Number(Question::Word(number))),
        "byte" => Some(Asked::Number(Question::Byte(number))),
        "code" => Some(Asked::Number(Question::Code(number))),
        "pc" => Some(Asked::Number(Question::Pc(number))),
        "clear" => Some(Asked::Number(Question::Clear(number))),
        "runs" => Some(Asked::Number(Question::Runs(number))),
        "waits_at" => Some(Asked::Number(Question::WaitsAt(number))),
        "timed" => Some(Asked::Number(Question::Timed(number))),
        "expire" => Some(Asked::Expire(number)),
        _ => None,
    }
}

/// What a name asks with two numbers.
fn asked_of_two(name: &str, one: u32, two: u32) -> Option<Asked> {
    match name {
        "run" => Some(Asked::Run(one, two)),
        "put" => Some(Asked::Put(one, two)),
        "readable" => Some(Asked::Number(Question::Readable(one, two))),
        "writable" => Some(Asked::Number(Question::Writable(one, two))),
        "register" => Some(Asked::Number(Question::Register(one, two))),
        _ => None,
    }
}

/// The arguments of a call: numbers, and 0 for those that aren't given. None where there are more than five.
fn arguments(numbers: &[u32]) -> Option<[u32; 5]> {
    let mut all = [0; 5];
    if numbers.len() > 5 {
        return None;
    }
    all[..numbers.len()].copy_from_slice(numbers);
    Some(all)
}

/// The call of a tid, a number and arguments.
fn call_of(numbers: &[u32]) -> Option<ThreadCall> {
    let [tid, number, given @ ..] = numbers else {
        return None;
    };
    Some(ThreadCall {
        tid: *tid,
        number: *number,
        arguments: arguments(given)?,
    })
}

/// What a name asks with its numbers.
fn asked_of(name: &str, numbers: &[u32]) -> Option<Asked> {
    match (name, numbers) {
        ("call", given) => Some(Asked::Call(call_of(given)?)),
        ("call_under", [next, given @ ..]) => Some(Asked::CallUnder(*next, call_of(given)?)),
        (_, []) => asked_alone(name),
        (_, [one]) => asked_of_one(name, *one),
        (_, [one, two]) => asked_of_two(name, *one, *two),
        _ => None,
    }
}

/// The numbers of words. None where one of them is no number, or no memory is left.
fn numbers(alloc: Global, words: &str) -> Option<Vec<u32>> {
    let mut numbers = Vec::new(alloc);
    for word in words.split_whitespace() {
        numbers.push(number(word)?).ok()?;
    }
    Some(numbers)
}

/// What words say that a line has to find.
fn want_of(alloc: Global, words: &str) -> Option<Option<Vec<u32>>> {
    match words {
        "none" => Some(None),
        "nothing" => Some(Some(Vec::new(alloc))),
        "" => None,
        _ => Some(Some(numbers(alloc, words)?)),
    }
}

/// A line of the form `NAME NUMBERS = NUMBERS`, where `none` may stand for what isn't there, and `nothing` for no numbers. Without
/// ` = ` it has to find no numbers.
pub fn line_of(alloc: Global, text: &str) -> Option<Line> {
    let (asked, want) = text.split_once(" = ").unwrap_or((text, "nothing"));
    let (name, given) = asked.split_once(" ").unwrap_or((asked, ""));
    Some(Line {
        asked: asked_of(name, &numbers(alloc, given)?)?,
        want: want_of(alloc, want)?,
    })
}
