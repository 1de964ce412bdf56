//! The jobs that are recorded, and what their guests put out.

use super::same;
use guest_calls::Put;
use recorder::MemSink;
use rrv_model::machine::Version;
use serial_sched::RoundRobin;
use session::{Every, Job};
use std::alloc::Global;
use std::process::Abort;
use std::test::Fail;
use test_guests::files::file_of;
use test_guests::outsides::Nothing;
use test_guests::words::{ECALL, a0, a2, a7};

/// A job whose sink lies in memory.
pub(super) type MemJob = Job<RoundRobin, Nothing, MemSink>;

/// A guest that puts a letter out so often, below 2,048 times, and exits with 5. It counts down, and takes the letter of the sum
/// of its count and its place, below 2,048, modulo 16.
fn putting(place: u32, times: u32) -> [u32; 19] {
    [
        times.wrapping_shl(20) | 0x413, // li s0, times
        a0(1),
        place.wrapping_shl(20) | 0x0004_0593, // addi a1, s0, place
        0x00F5_F593, // andi a1, a1, 15
        0x0001_02B7, // lui t0, 0x10
        0x0055_85B3, // add a1, a1, t0
        0x0905_8593, // addi a1, a1, 0x90: the letters stand at 0x10090
        a2(1),
        a7(64),
        ECALL,
        0xFFF4_0413, // addi s0, s0, -1
        0xFC04_1CE3, // bnez s0, to the second
        a0(5),
        a7(93),
        ECALL,
        0x6463_6261, // abcd
        0x6867_6665, // efgh
        0x6C6B_6A69, // ijkl
        0x706F_6E6D, // mnop
    ]
}

/// The letter that a guest at this place puts out when it has counted down to so many.
fn letter(place: u32, count: u32) -> u8 {
    let number = count.wrapping_add(place) % 16;
    b'a' + number as u8
}

/// So many jobs, each of a guest that puts a letter out so often.
pub(super) fn jobs(alloc: Global, count: u32, times: u32) -> Result<Vec<MemJob>, Fail> {
    let mut jobs = Vec::new(alloc);
    for place in 0..count {
        jobs.push(Job {
            version: Version::One,
            elf: file_of(alloc, &putting(place, times))?,
            name: Vec::from_slice(alloc, b"putting")?,
            random: [7; 16],
            every: Every::Instructions(0),
            chooser: RoundRobin::new(1000),
            outside: Nothing,
            sink: MemSink::new(alloc),
        })?;
    }
    Ok(jobs)
}

/// These puts are the first of what a guest at this place puts out in so many times.
pub(super) fn begin_output(rt: &impl Abort, puts: &[Put], place: u32, times: u32) {
    same(rt, &"few", puts.len() <= times as usize, true);
    let mut count = times;
    for put in puts {
        same(
            rt,
            &(place, count),
            (put.descriptor, put.bytes.as_slice()),
            (1, &[letter(place, count)] as &[u8]),
        );
        count = count.wrapping_sub(1);
    }
}
