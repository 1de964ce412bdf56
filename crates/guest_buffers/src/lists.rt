//! Buffers that are listed, counted and joined.

ghost use Rattle.std.specs.Prelude.{◌≡◌, ◌+◌, ◌*◌, ◌++◌, ◌≤◌, true, false, min, length, vec_len, IsTrue, IfOk, OnErr, MatchOption};
ghost use Rattle.rrv_model.specs.declared.limits.TheConstants.{MAX_TRANSFER};
ghost use Rattle.rrv_model.specs.Memory.{readable, bytes_at};
ghost use Rattle.rrv_model.specs.Step.{word_at};
ghost use Rattle.rrv_model.specs.CallRows.{all_readable, buffers_at, clipped, total_len};
ghost use Rattle.guest_pages.specs.Space.{memory_of};
ghost use Rattle.guest_buffers.specs.Buffers.{joined};

use guest_pages::Space;
use rrv_model::limits::MAX_TRANSFER;
use rrv_model::refusal::Memory;
use std::alloc::Global;

/// The bytes of a buffer's base and length.
const BUFFER_BYTES: u32 = 8;

/// The bytes of all buffers.
pub fn total_len(buffers: &[(u32, u32)]) -> u64
    requires { length buffers.now ≤ 1024 }
    ensures { result ≡ total_len buffers.now }
{
    let mut total = 0;
    for buffer in buffers {
        total += u64::from(buffer.1);
    }
    total
}

/// A word that can be read.
fn word(space: &Space, address: u32) -> u32
    requires { readable (memory_of space.now) address 4 ≡ true }
    ensures { result ≡ word_at (memory_of space.now) address }
{
    space.load_word(address).unwrap()
}

/// The buffers of a list that can be read. Refused only for want of memory.
pub fn list_buffers(
    alloc: Global,
    space: &Space,
    address: u32,
    count: u32,
) -> Result<Vec<(u32, u32)>, Memory>
    requires few { count ≤ 1024 }
    requires readable { readable (memory_of space.now) address (8 * count) ≡ true }
    ensures buffers { IfOk result (λ buffers. buffers.items ≡ buffers_at (memory_of space.now) address count) }
    ensures count { IfOk result (λ buffers. vec_len buffers ≡ count) }
    ensures some { OnErr result (1 ≤ count) }
{
    let mut buffers = Vec::new(alloc);
    // what holds of a guest's memory, which the count of its pages tells
    let _memory = space.page_count();
    for place in 0..count {
        let at = address + BUFFER_BYTES * place;
        let buffer = (word(space, at), word(space, at + 4));
        match buffers.push(buffer) {
            Ok(()) => {}
            Err(_) => return Err(Memory),
        }
    }
    Ok(buffers)
}

/// Appends bytes of the memory, unless they can't be read: false.
fn append(
    alloc: Global,
    space: &Space,
    base: u32,
    count: usize,
    bytes: &mut Vec<u8>,
) -> Result<bool, Memory>
    requires { count ≤ MAX_TRANSFER }
    ensures readable { IfOk result (λ appended. appended ≡ readable (memory_of space.now) base count) }
    ensures bytes { IfOk result (λ appended. IsTrue appended
        → bytes.new.items ≡ bytes.old.items ++ bytes_at (memory_of space.now) base count) }
    ensures count { IfOk result (λ appended. IsTrue appended → vec_len bytes.new ≡ vec_len bytes.old + count) }
{
    let mut part = vec![in alloc; 0u8; count]?;
    if space.load(base, part.as_mut_slice()).is_err() {
        return Ok(false);
    }
    bytes.extend_from_slice(&part)?;
    Ok(true)
}

/// The first 65,536 bytes of the buffers, one behind another; None where one of them can't be read. Refused only for want
/// of memory.
pub fn join_buffers(
    alloc: Global,
    space: &Space,
    buffers: &[(u32, u32)],
) -> Result<Option<Vec<u8>>, Memory>
    ensures some { OnErr result (1 ≤ length buffers.now) }
    ensures bytes { IfOk result (λ found. MatchOption found
        (all_readable (memory_of space.now) (clipped MAX_TRANSFER buffers.now) ≡ false)
        (λ bytes. (all_readable (memory_of space.now) (clipped MAX_TRANSFER buffers.now) ≡ true)
        × (bytes.items ≡ joined (memory_of space.now) (clipped MAX_TRANSFER buffers.now))
        × (vec_len bytes ≡ min (total_len buffers.now) MAX_TRANSFER))) }
{
    let mut bytes = Vec::new(alloc);
    for buffer in buffers {
        let room = MAX_TRANSFER as usize - bytes.len();
        let count = (buffer.1 as usize).min(room);
        let appended = append(alloc, space, buffer.0, count, &mut bytes)?;
        if !appended {
            return Ok(None);
        }
    }
    Ok(Some(bytes))
}
