//! writev: the buffers of a list, put out one behind another.
ghost use Rattle.rrv_model.specs.declared.syscall.Syscall.TheVariants.{Writev};
ghost use Rattle.rrv_model.specs.CallRows.{writev_row};
ghost use Rattle.rrv_model.specs.Output.{puts};
ghost use Rattle.guest_calls.specs.Guest.{state_of};
ghost use Rattle.guest_calls.specs.Carries.{MakesOrStays};
ghost use Rattle.guest_calls.specs.Growth.{ReadsBuffers};

use crate::calls::{BAD_ADDRESS, BAD_DESCRIPTOR, CallResult, INVALID, failure, is_output, put_of};
use crate::guest::Guest;
use guest_buffers::{join_buffers, list_buffers, total_len};
use rrv_model::machine::Thread;
use std::alloc::Global;

/// The most buffers of one call.
const MAX_BUFFERS: u32 = 1024;
/// The bytes of a buffer's base and length.
const BUFFER_BYTES: u32 = 8;
/// The most bytes of all buffers.
const MAX_TOTAL: u64 = 0x7FFF_FFFF;

impl Guest {
    /// writev(fd, iov, cnt)
    pub(crate) fn writev(&mut self, alloc: Global, tid: u32, thread: &Thread) -> CallResult
        ensures { MakesOrStays (writev_row (state_of self.old) thread.now)
            (puts Writev (state_of self.old).memory thread.now)
            (ReadsBuffers (state_of self.old) thread.now) tid self.old result self.new }
    {
        let descriptor = thread.regs.registers[10];
        let address = thread.regs.registers[11];
        let count = thread.regs.registers[12];
        if !is_output(descriptor) {
            return Ok(self.answer(alloc, tid, failure(BAD_DESCRIPTOR)));
        }
        if MAX_BUFFERS < count {
            return Ok(self.answer(alloc, tid, failure(INVALID)));
        }
        if !self.space.is_readable(address, BUFFER_BYTES * count) {
            return Ok(self.answer(alloc, tid, failure(BAD_ADDRESS)));
        }
        let buffers = list_buffers(alloc, self.space.space(), address, count)?;
        if MAX_TOTAL < total_len(&buffers) {
            return Ok(self.answer(alloc, tid, failure(INVALID)));
        }
        let Some(bytes) = join_buffers(alloc, self.space.space(), &buffers)? else {
            return Ok(self.answer(alloc, tid, failure(BAD_ADDRESS)));
        };
        let record = self.answer(alloc, tid, bytes.len() as u32);
        self.put = put_of(descriptor, bytes);
        Ok(record)
    }
}
