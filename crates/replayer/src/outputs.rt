//! The output along a track.

ghost use Rattle.std.specs.Prelude.{◌≡◌, ◌↔◌, ◌++◌, ℕ, OnErr, OnOk, take};
ghost use Rattle.outcomes.specs.Failures.{IsCounted};
ghost use Rattle.rrv_model.specs.Output.{spread, to_descriptor};
ghost use Rattle.guest_calls.specs.Guest.{chunks_of};
ghost use Rattle.replayer.specs.Puts.{PutsOut, chunks_by};
ghost use Rattle.replayer.specs.Kept.{AreKept};

use crate::fault::OutputFault;
use crate::forward::follow_whole;
use crate::recording::Track;
use guest_calls::Guest;
use rrv_model::record::{End, Frame};
use rrv_model::sink::{Sink, SinkError};
use std::alloc::Global;
use std::sync::Wait;

/// Puts bytes out, or a beginning of them.
fn put_bytes<S: Sink, R: Wait>(
    rt: &R,
    sink: &mut S,
    descriptor: u32,
    bytes: &[u8],
) -> Result<(), SinkError>
    ensures all { OnOk result (S.tells sink.old
        → S.taken sink.new ≡ S.taken sink.old ++ to_descriptor descriptor bytes.now) }
    ensures part { OnErr result (S.tells sink.old → (count : ℕ)
        × (S.taken sink.new ≡ S.taken sink.old ++ to_descriptor descriptor (take count bytes.now))) }
    ensures counted { IsCounted result (S.faults sink.old) (S.faults sink.new) }
    ensures tells { S.tells sink.new ↔ S.tells sink.old }
{
    let mut at = 0;
    while at < bytes.len() {
        at += sink.put(rt, descriptor, &bytes[at..])?;
    }
    Ok(())
}

/// Puts out what a frame put out that the guest has followed.
fn put_frame<S: Sink, R: Wait>(
    rt: &R,
    sink: &mut S,
    guest: &Guest,
    frame: &Frame,
) -> Result<(), SinkError>
    ensures all { OnOk result (S.tells sink.old → S.taken sink.new
        ≡ S.taken sink.old ++ spread (chunks_by frame.now.end (chunks_of guest.now.put))) }
    ensures part { OnErr result (S.tells sink.old → (count : ℕ) × (S.taken sink.new
        ≡ S.taken sink.old ++ take count (spread (chunks_by frame.now.end (chunks_of guest.now.put))))) }
    ensures counted { IsCounted result (S.faults sink.old) (S.faults sink.new) }
    ensures tells { S.tells sink.new ↔ S.tells sink.old }
{
    let End::Call(_) = &frame.end else {
        return Ok(());
    };
    match guest.put_out() {
        Some((descriptor, bytes)) => put_bytes(rt, sink, descriptor, bytes),
        None => Ok(()),
    }
}

impl Track {
    /// Puts out what its frames put out. A refusal leaves a beginning of it.
    pub(crate) fn output<S: Sink, R: Wait>(
        &self,
        alloc: Global,
        rt: &R,
        sink: &mut S,
    ) -> Result<(), OutputFault>
        requires { AreKept self.now.opening self.now.frames self.now.marks }
        ensures { PutsOut S.Sink result self.now.opening self.now.frames sink.old sink.new }
    {
        let mut guest = self.start(alloc)?.into_guest();
        let mut left = self.frames.as_slice();
        while let [frame, after @ ..] = left {
            follow_whole(alloc, &mut guest, frame)?;
            let Ok(()) = put_frame(rt, sink, &guest, frame) else {
                return Err(OutputFault::SinkFailed);
            };
            left = after;
        }
        Ok(())
    }
}
