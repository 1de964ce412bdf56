//! Runs of pages.

ghost use Rattle.std.specs.Prelude.{◌≡◌, ◌+◌, ◌<◌, ◌^◌, ◌==◌, Some, length, reverse, IfOk, OnOk, All, ◌≤◌};
ghost use Rattle.std.specs.List.{list_all};
ghost use Rattle.rrv_model.specs.RecordText.{permissions_byte};
ghost use Rattle.rrv_model.specs.Memory.{page_bytes};
ghost use Rattle.guest_pages.specs.Space.{memory_of};
ghost use Rattle.core_file.specs.Runs.{begun, continues, longer, runs_of, with_page, Fits};

use guest_pages::{Space, permissions_byte};
use lane_pages::is_zero;
use rrv_model::machine::Permissions;
use rrv_model::refusal::Memory;
use std::alloc::{AllocError, Global};

/// Adjacent pages with the same permissions.
#[derive(Clone, Copy)]
pub(crate) struct Run {
    /// The number of its first page.
    pub(crate) first: u32,
    /// How many pages it has.
    pub(crate) pages: u32,
    /// How many of them stand in the file: those up to and with the last that isn't all zeros.
    pub(crate) filled: u32,
    /// How many pages of the runs before it stand in the file.
    pub(crate) before: u32,
    /// `p_flags`: PF_X 1, PF_W 2 and PF_R 4 as a sum.
    pub(crate) flags: u32,
}

impl Run {
    /// A run that a page begins, with so many filled pages in the runs before.
    fn begun(number: u32, flags: u32, is_blank: bool, before: u32) -> Run
        ensures { result ≡ begun number flags is_blank before }
    {
        Run {
            first: number,
            pages: 1,
            filled: if is_blank { 0 } else { 1 },
            before,
            flags,
        }
    }

    /// The run with one more page.
    fn longer(self, is_blank: bool) -> Run
        requires { self.pages + 1 < 2 ^ 32 }
        ensures { result ≡ longer is_blank self }
    {
        let pages = self.pages + 1;
        let filled = if is_blank { self.filled } else { pages };
        Run {
            pages,
            filled,
            ..self
        }
    }

    /// Tests whether a page lies next to the run and has its flags.
    fn continues(self, number: u32, flags: u32) -> bool
        requires { self.first + self.pages < 2 ^ 32 }
        ensures { result ≡ continues number flags self }
    {
        number == self.first + self.pages && flags == self.flags
    }
}

/// The runs of a memory, by rising address. `Memory` where a growth is refused.
pub(crate) fn collect_runs(alloc: Global, space: &Space) -> Result<Vec<Run>, Memory>
    ensures { IfOk result (λ runs. runs.items ≡ runs_of (memory_of space.now)) }
{
    // the proof opens the space here, for how many pages it has
    let _ = space.page_count();
    let mut runs = Vec::new(alloc);
    let mut least = 0;
    while let Some((number, page)) = space.page_from(least) {
        let (flags, is_blank) = (flags_of(page.permissions), is_blank(page.bytes));
        add_page(&mut runs, number, flags, is_blank)?;
        least = number + 1;
    }
    Ok(runs)
}

/// Adds a page behind the last run, to it or as a run of its own.
fn add_page(runs: &mut Vec<Run>, number: u32, flags: u32, is_blank: bool) -> Result<(), AllocError>
    requires { All Fits runs.old.items }
    ensures { OnOk result (runs.new.items ≡ reverse (with_page number flags is_blank (reverse runs.old.items))) }
{
    match runs.pop() {
        None => runs.push(Run::begun(number, flags, is_blank, 0))?,
        Some(last) if last.continues(number, flags) => runs.push(last.longer(is_blank))?,
        Some(last) => {
            let before = last.before + last.filled;
            runs.push(last)?;
            runs.push(Run::begun(number, flags, is_blank, before))?;
        }
    }
    Ok(())
}

/// Tests whether all bytes of a page are zero.
fn is_blank(bytes: &[u8; 4096]) -> bool
    ensures blank { result ≡ list_all (λ b. b == 0) bytes.now }
    ensures full { length bytes.now ≡ page_bytes }
{
    is_zero(bytes)
}

/// The flags of a program header for these permissions.
fn flags_of(permissions: Permissions) -> u32
    ensures { result ≡ permissions_byte (Some permissions) }
{
    u32::from(permissions_byte(permissions))
}
