//! Records as text.

use frames::{Passed, RecordFault, pass_record, read_record, write_record};
use rrv_model::machine::{FutexWait, Permissions, Version};
use rrv_model::record::{
    CallRecord, CheckpointRest, Frame, Item, Opening, PagePart, Part, Record, ThreadPart,
};
use std::alloc::{AllocError, Global};
use std::fmt::Write;

fn write_bytes(alloc: Global, text: &mut String, bytes: &[u8]) -> Result<(), AllocError> {
    let digits = hex::encode(alloc, bytes)?;
    text.push_str(digits.as_str())
}

fn write_opening(alloc: Global, text: &mut String, opening: &Opening) -> Result<(), AllocError> {
    write!(text, " opening")?;
    if opening.version == Version::Two {
        write!(text, " of version 2")?;
    }
    write!(text, " elf ")?;
    write_bytes(alloc, text, opening.elf.as_slice())?;
    write!(text, " name ")?;
    for byte in opening.name.as_slice() {
        let letter = char::from(*byte);
        write!(text, "{letter}")?;
    }
    write!(text, " random ")?;
    write_bytes(alloc, text, &opening.random)
}

fn write_call(alloc: Global, text: &mut String, call: &CallRecord) -> Result<(), AllocError> {
    let result = call.result;
    write!(text, " result {result}")?;
    for written in call.written.as_slice() {
        let address = written.address;
        write!(text, " wrote {address:#x} ")?;
        write_bytes(alloc, text, written.bytes.as_slice())?;
    }
    Ok(())
}

fn write_frame(alloc: Global, text: &mut String, frame: &Frame) -> Result<(), AllocError> {
    let Frame { tid, count, end } = frame;
    let name = end.kind().name();
    write!(text, " {name}")?;
    if end.runs_thread() {
        write!(text, " tid {tid} count {count}")?;
    }
    if end.is_expiry() {
        write!(text, " tid {tid}")?;
    }
    if let Some(call) = end.call() {
        write_call(alloc, text, call)?;
    }
    match end.fault() {
        None => Ok(()),
        Some(kind) => write!(text, " {kind:?}"),
    }
}

fn letter(is_allowed: bool, letter: char) -> char {
    if is_allowed { letter } else { '-' }
}

fn write_permissions(text: &mut String, permissions: Permissions) -> Result<(), AllocError> {
    let read = letter(permissions.read, 'r');
    let write = letter(permissions.write, 'w');
    let execute = letter(permissions.execute, 'x');
    write!(text, " {read}{write}{execute}")
}

fn write_page(alloc: Global, text: &mut String, page: &PagePart) -> Result<(), AllocError> {
    let number = page.number;
    write!(text, " page {number}")?;
    match page.permissions {
        None => write!(text, " unmapped")?,
        Some(permissions) => write_permissions(text, permissions)?,
    }
    let mask = page.mask;
    write!(text, " mask {mask:#x}")?;
    for line in page.lines.as_slice() {
        write!(text, " line ")?;
        write_bytes(alloc, text, &line.bytes)?;
    }
    Ok(())
}

fn write_thread(text: &mut String, part: &ThreadPart) -> Result<(), AllocError> {
    let tid = part.tid;
    let pc = part.thread.regs.pc;
    let last = part.thread.regs.registers[31];
    write!(text, " thread {tid} pc {pc:#x} x31 {last:#x}")?;
    match part.thread.wait {
        None => Ok(()),
        Some(wait) => write_wait(text, wait),
    }
}

fn write_wait(text: &mut String, wait: FutexWait) -> Result<(), AllocError> {
    let address = wait.address;
    write!(text, " waits at {address:#x}")?;
    match wait.timeout {
        None => Ok(()),
        Some(timeout) => {
            let seconds = timeout.seconds;
            let nanoseconds = timeout.nanoseconds;
            write!(text, " for {seconds} s {nanoseconds} ns")
        }
    }
}

fn write_rest(text: &mut String, rest: &CheckpointRest) -> Result<(), AllocError> {
    let program_break = rest.program_break;
    let next_tid = rest.next_tid;
    write!(text, " break {program_break:#x} next tid {next_tid}")?;
    for part in rest.threads.as_slice() {
        write_thread(text, part)?;
    }
    for tid in rest.waiting.as_slice() {
        write!(text, " waiting {tid}")?;
    }
    Ok(())
}

fn write_part(alloc: Global, text: &mut String, part: &Part) -> Result<(), AllocError> {
    write!(text, " part")?;
    for page in part.pages.as_slice() {
        write_page(alloc, text, page)?;
    }
    match &part.rest {
        None => Ok(()),
        Some(rest) => write_rest(text, rest),
    }
}

/// What a record tells.
pub fn description(alloc: Global, record: &Record) -> Result<String, AllocError> {
    let Record { guest, index, item } = record;
    let mut text = format!(in alloc; "guest {guest} index {index}")?;
    match item {
        Item::Opening(opening) => write_opening(alloc, &mut text, opening)?,
        Item::Frame(frame) => write_frame(alloc, &mut text, frame)?,
        Item::Part(part) => write_part(alloc, &mut text, part)?,
    }
    Ok(text)
}

/// How many instructions the frame ran that an item is.
fn steps_of(item: &Item) -> Option<u32> {
    match item {
        Item::Frame(frame) => Some(frame.count),
        Item::Opening(_) | Item::Part(_) => None,
    }
}

/// Whether what is told of a record that was passed over is what it tells.
fn tells_the_same(passed: Passed, record: &Record) -> bool {
    passed.guest == record.guest
        && passed.index == record.index
        && passed.kind.number() == record.item.kind().number()
        && passed.steps == steps_of(&record.item)
}

/// Whether passing over the bytes finds what reading them does: the same of the record, and as many bytes after it, or the same
/// refusal.
fn passes_so(bytes: &[u8], read: &Result<(Record, &[u8]), RecordFault>) -> bool {
    match pass_record(bytes) {
        Ok((passed, behind)) => match read {
            Ok((record, rest)) => tells_the_same(passed, record) && behind.len() == rest.len(),
            Err(_) => false,
        },
        Err(fault) => match read {
            Ok(_) => false,
            Err(other) => fault == *other,
        },
    }
}

/// What the record tells whose text the bytes are, or why there is none. It is also passed over, and written, behind a byte.
pub fn record_text(alloc: Global, bytes: &[u8]) -> Option<String> {
    let read = read_record(alloc, bytes);
    if !passes_so(bytes, &read) {
        return format!(in alloc; "a record that is passed over otherwise").ok();
    }
    let (record, rest) = match read {
        Ok(found) => found,
        Err(fault) => return format!(in alloc; "{fault}").ok(),
    };
    if !rest.is_empty() {
        return format!(in alloc; "a record, and other bytes").ok();
    }
    let mut written = Vec::from_slice(alloc, &[9]).ok()?;
    write_record(&record, &mut written).ok()?;
    let (first, behind) = written.split_first()?;
    if *first != 9 || behind != bytes {
        return format!(in alloc; "a record that is written otherwise").ok();
    }
    description(alloc, &record).ok()
}

/// What is wanted where `record_text` finds it of each beginning of the bytes that isn't all of them; else what it finds first. None
/// where there are no bytes.
pub fn beginnings_text(alloc: Global, bytes: &[u8], want: &str) -> Option<String> {
    if bytes.is_empty() {
        return None;
    }
    for len in 0..bytes.len() {
        let found = record_text(alloc, &bytes[..len])?;
        if found.as_str() != want {
            return format!(in alloc; "{found} at {len}").ok();
        }
    }
    format!(in alloc; "{want}").ok()
}
