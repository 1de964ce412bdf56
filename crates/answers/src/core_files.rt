//! Core files of the state at a place.

ghost use Rattle.std.specs.Prelude.{◌≡◌, ◌<◌, IfErr, OnOk, ℕ};
ghost use Rattle.std.specs.Io.KnownBytes.{Appends};
ghost use Rattle.rrv_model.specs.State.{State};
ghost use Rattle.rrv_model.specs.StateAt.{StateAt, total};
ghost use Rattle.core_file.specs.Core.{core_of};
ghost use Rattle.asking.specs.Places.{RunsNext, shown_place};
ghost use Rattle.answers.specs.Refused.{RefusesCore, RefusesCoreFile};

use crate::part_files::PartFile;
use crate::states::cursor_at;
use asking::{first_thread, place_in};
use command_line::Place;
use core_file::CoreFile;
use line_io::{Refusal, in_blocks};
use replayer::Verified;
use reverse_step::Cursor;
use std::alloc::Global;
use std::fs::File;
use std::io::Write;
use std::rt::Files;

/// Writes a core file of the state at a cursor's place.
fn put_core<W: Write>(
    alloc: Global,
    verified: &Verified,
    cursor: &Cursor<'_>,
    out: &mut W,
) -> Result<(), Refusal>
    requires { cursor.now.verified ≡ verified.now }
    ensures written { OnOk result ((first : ℕ) × (state : State)
        × (0 < total verified.now.frames
        → RunsNext verified.now.frames (shown_place (total verified.now.frames) cursor.now.place) first)
        × StateAt verified.now.opening verified.now.frames cursor.now.place state
        × Appends (W.contents out.old) (W.contents out.new) (core_of first state)) }
    ensures refused { IfErr result RefusesCore }
{
    let first = first_thread(verified, cursor.place());
    let core = CoreFile::new(alloc, cursor.guest(), first)?;
    let Ok(()) = core.write_to(out) else {
        return Err(Refusal::CannotWriteCore);
    };
    let Ok(()) = out.flush() else {
        return Err(Refusal::CannotWriteCore);
    };
    Ok(())
}

/// Makes a core file of the state at a place.
pub(crate) fn write_core<R: Files<File = File> + AllocGlobal>(
    rt: &R,
    verified: &Verified,
    at: Place,
    path: &str,
) -> Result<(), Refusal> {
    let cursor = cursor_at(rt.alloc(), verified, place_in(at, verified))?;
    write_core_of(rt, &cursor, path)
}

/// Makes a core file of the state at a cursor's place. It gets its name once it is whole, so nothing is there before, nor if it fails.
pub(crate) fn write_core_of<R: Files<File = File> + AllocGlobal>(
    rt: &R,
    cursor: &Cursor<'_>,
    path: &str,
) -> Result<(), Refusal>
    ensures refused { IfErr result RefusesCoreFile }
{
    let part = PartFile::create(rt, path)?;
    let result = put_core_at(rt, cursor, &part, path);
    part.remove(rt);
    result
}

/// Writes a core file of the state at a cursor's place to a part, and gives that its name.
fn put_core_at<R: Files<File = File> + AllocGlobal>(
    rt: &R,
    cursor: &Cursor<'_>,
    part: &PartFile,
    path: &str,
) -> Result<(), Refusal>
    ensures refused { IfErr result RefusesCoreFile }
{
    let Ok(mut out) = in_blocks(rt.alloc(), part.file()) else {
        return Err(Refusal::Memory);
    };
    put_core(rt.alloc(), cursor.verified(), cursor, &mut out)?;
    part.put(rt, path)
}
