//! The parts of two checkpoints, compared field by field.

ghost use Rattle.std.specs.Prelude.{◌≡◌, ◌↔◌, IsTrue};

use rrv_model::record::{CheckpointRest, Line, PagePart, Part, ThreadPart};

/// Tests whether two checkpoints have the same parts.
pub fn are_same_parts(found: &[Part], told: &[Part]) -> bool
    ensures { IsTrue result ↔ (found.now ≡ told.now) }
{
    if found.len() != told.len() {
        return false;
    }
    for i in 0..found.len() {
        if !is_same_part(&found[i], &told[i]) {
            return false;
        }
    }
    true
}

fn is_same_part(found: &Part, told: &Part) -> bool
    ensures { IsTrue result ↔ (found.now ≡ told.now) }
{
    are_same_pages(found.pages.as_slice(), told.pages.as_slice())
        && are_same_rests(&found.rest, &told.rest)
}

fn are_same_pages(found: &[PagePart], told: &[PagePart]) -> bool
    ensures { IsTrue result ↔ (found.now ≡ told.now) }
{
    if found.len() != told.len() {
        return false;
    }
    for i in 0..found.len() {
        if !is_same_page(&found[i], &told[i]) {
            return false;
        }
    }
    true
}

fn is_same_page(found: &PagePart, told: &PagePart) -> bool
    ensures { IsTrue result ↔ (found.now ≡ told.now) }
{
    found.number == told.number
        && found.mask == told.mask
        && found.permissions == told.permissions
        && are_same_lines(found.lines.as_slice(), told.lines.as_slice())
}

fn are_same_lines(found: &[Line], told: &[Line]) -> bool
    ensures { IsTrue result ↔ (found.now ≡ told.now) }
{
    found == told
}

fn are_same_rests(found: &Option<CheckpointRest>, told: &Option<CheckpointRest>) -> bool
    ensures { IsTrue result ↔ (found.now ≡ told.now) }
{
    let Some(found) = found else {
        return told.is_none();
    };
    let Some(told) = told else {
        return false;
    };
    is_same_rest(found, told)
}

fn is_same_rest(found: &CheckpointRest, told: &CheckpointRest) -> bool
    ensures { IsTrue result ↔ (found.now ≡ told.now) }
{
    found.program_break == told.program_break
        && found.next_tid == told.next_tid
        && are_same_threads(found.threads.as_slice(), told.threads.as_slice())
        && found.waiting.as_slice() == told.waiting.as_slice()
}

fn are_same_threads(found: &[ThreadPart], told: &[ThreadPart]) -> bool
    ensures { IsTrue result ↔ (found.now ≡ told.now) }
{
    if found.len() != told.len() {
        return false;
    }
    for i in 0..found.len() {
        if !is_same_thread(&found[i], &told[i]) {
            return false;
        }
    }
    true
}

fn is_same_thread(found: &ThreadPart, told: &ThreadPart) -> bool
    ensures { IsTrue result ↔ (found.now ≡ told.now) }
{
    found.tid == told.tid
        && found.thread.regs.pc == told.thread.regs.pc
        && found.thread.regs.registers.as_slice() == told.thread.regs.registers.as_slice()
        && found.thread.wait == told.thread.wait
        && found.thread.clear == told.thread.clear
}
