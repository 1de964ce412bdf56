//! Keeps what leads to each state of a recording, of records that are verified elsewhere.

ghost use Rattle.std.specs.Prelude.{◌≡◌, ◌+◌, ◌++◌, ◌∷◌, [], List, IfErr, IfOk, OnOk};
ghost use Rattle.rrv_model.specs.declared.record.Record.{Record};
ghost use Rattle.rrv_model.specs.Recording.{IsRecording};
ghost use Rattle.replayer.specs.Keepers.{ComesNext, IsKept, KeepsPart};
ghost use Rattle.replayer.specs.Refusals.{TakesMemory};
ghost use Rattle.replayer.specs.Verified.{Keeps};

use crate::fault::VerifyFault;
use crate::recording::{Keeper, Mark, Track};
use crate::verified::Verified;
use crate::walk::{copied_frame, copied_part, opening_of};
use rrv_model::record::{Item, Part, Record};
use rrv_model::sequence::Sequence;
use std::alloc::Global;
use std::mem::replace;

impl Keeper {
    /// What is kept of an opening alone. `Memory` if a growth is refused.
    pub fn begin(alloc: Global, first: &Record) -> Result<Keeper, VerifyFault>
        requires { TakesMemory first.now }
        ensures kept { IfOk result (λ keeper. IsKept keeper (first.now ∷ [])) }
        ensures memory { IfErr result (λ e. e ≡ VerifyFault.Memory) }
    {
        Ok(Keeper {
            opening: opening_of(first)?,
            frames: Vec::new(alloc),
            marks: Vec::new(alloc),
            row: Vec::new(alloc),
            steps: 0,
            len: 1,
        })
    }

    /// Keeps the next record. `Memory` if a growth is refused; it is then fit only to be dropped.
    pub fn keep(&mut self, alloc: Global, entry: &Record) -> Result<(), VerifyFault>
        requires { ComesNext self.old.len entry.now }
        ensures kept { OnOk result ((records : List Record)
            → IsKept self.old records → IsKept self.new (records ++ entry.now ∷ [])) }
        ensures len { OnOk result (self.new.len ≡ self.old.len + 1) }
        ensures memory { IfErr result (λ e. e ≡ VerifyFault.Memory) }
    {
        match &entry.item {
            Item::Opening(_) => Ok(()),
            Item::Frame(frame) => {
                self.frames.push(copied_frame(frame)?)?;
                self.row.clear();
                self.len = entry.index as usize + 1;
                self.steps += u64::from(frame.count);
                Ok(())
            }
            Item::Part(part) => {
                self.keep_part(alloc, part)?;
                self.len = entry.index as usize + 1;
                Ok(())
            }
        }
    }

    /// Keeps a part in the row, and at the last part of a checkpoint the row.
    fn keep_part(&mut self, alloc: Global, part: &Part) -> Result<(), VerifyFault>
        ensures kept { OnOk result (KeepsPart part.now self.old self.new) }
        ensures memory { IfErr result (λ e. e ≡ VerifyFault.Memory) }
    {
        let copy = copied_part(part)?;
        self.row.push(copy)?;
        if part.rest.is_some() {
            let parts = replace(&mut self.row, Vec::new(alloc));
            self.marks.push(Mark {
                frames: self.frames.len(),
                at: self.steps,
                parts: Sequence::from_vec(parts),
            })?;
        }
        Ok(())
    }

    /// What was kept, as a recording that is verified.
    pub fn finish(self) -> Verified
        requires { (records : List Record) × IsRecording records × IsKept self records }
        ensures { (records : List Record) → IsRecording records → IsKept self records → Keeps result records }
    {
        let (opening, frames, marks, steps, len) = self.into_parts();
        let track = Track {
            opening,
            frames: Sequence::from_vec(frames),
            marks: Sequence::from_vec(marks),
            steps,
        };
        Verified { track, len }
    }
}
