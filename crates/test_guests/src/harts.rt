//! Registers and threads that tests start from.

ghost use Rattle.rrv_model.specs.State.{AreRegs};

use rrv_model::machine::{FutexWait, Regs, Thread, Timeout};
use rrv_model::record::ThreadPart;

/// Puts a word into a register that isn't x0.
fn put(regs: &mut Regs, number: usize, word: u32)
    requires { AreRegs regs.old }
    ensures { AreRegs regs.new }
{
    if number != 0 && number < 32 {
        regs.registers[number] = word;
    }
}

/// The registers at a place, all of them 0.
fn regs_at(pc: u32) -> Regs
    ensures { AreRegs result }
{
    Regs {
        pc,
        registers: [0; 32],
    }
}

/// The same with these words in a0 to a3.
pub fn regs_with(pc: u32, arguments: [u32; 4]) -> Regs
    ensures { AreRegs result }
{
    let [a0, a1, a2, a3] = arguments;
    let mut regs = regs_at(pc);
    put(&mut regs, 10, a0);
    put(&mut regs, 11, a1);
    put(&mut regs, 12, a2);
    put(&mut regs, 13, a3);
    regs
}

/// A thread with its tid in x1, which stands at 0x10000 and waits so, if it waits.
fn part_that_waits(tid: u32, wait: Option<FutexWait>) -> ThreadPart {
    let mut registers = [0; 32];
    registers[1] = tid;
    let regs = Regs {
        pc: 0x1_0000,
        registers,
    };
    let thread = Thread {
        regs,
        wait,
        clear: 0,
    };
    ThreadPart { tid, thread }
}

/// A thread with its tid in x1, which stands at 0x10000 and runs or waits at an address.
pub fn part_of(tid: u32, waits_at: Option<u32>) -> ThreadPart {
    let Some(address) = waits_at else {
        return part_that_waits(tid, None);
    };
    let wait = FutexWait {
        address,
        timeout: None,
    };
    part_that_waits(tid, Some(wait))
}

/// The same of one that waits at an address for a time.
pub fn timed_part_of(tid: u32, address: u32, timeout: Timeout) -> ThreadPart {
    let wait = FutexWait {
        address,
        timeout: Some(timeout),
    };
    part_that_waits(tid, Some(wait))
}
