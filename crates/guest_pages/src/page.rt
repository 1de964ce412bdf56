//! Pages as they are read, and the numbers in their bytes.

ghost use Rattle.std.specs.Prelude.{◌≡◌, ℕ, ◌+◌, ◌<◌, ◌≤◌, Some, length, slice_index};
ghost use Rattle.std.specs.Int.{w16, w32, from_le_bytes};
ghost use Rattle.rrv_model.specs.RecordText.{bit, permissions_byte};
ghost use Rattle.page_tables.specs.Contents.{FillPage};
ghost use Rattle.page_tables.specs.Changes.{shown};
ghost use Rattle.guest_pages.specs.Pages.{run};
ghost use Rattle.guest_pages.specs.Space.{page_passes, test_of};

use rrv_model::machine::Permissions;

/// A page as a reader sees it.
#[derive(Clone, Copy)]
pub struct PageView<'a> {
    /// What may be done with its bytes.
    pub permissions: Permissions,
    /// Its bytes, by their place in the page.
    pub bytes: &'a [u8; 4096],
}

/// What is asked of a page.
#[derive(Clone, Copy)]
pub enum Access {
    /// Nothing but that it is there.
    Presence,
    /// That it may be read.
    Read,
    /// That it may be written.
    Write,
    /// That it may be executed.
    Execute,
}

/// Whether the permissions of a page grant what is asked.
#[inline(always)]
pub(crate) fn allows(page: page_tables::PageView<'_>, access: Access) -> bool
    ensures { result ≡ page_passes (test_of access) (shown (Some page.entry)) }
{
    match access {
        Access::Presence => true,
        Access::Read => page.permissions.read,
        Access::Write => page.permissions.write,
        Access::Execute => page.permissions.execute,
    }
}

/// A law: a page has 4,096 bytes, each below 256.
pub(crate) fn has_page_bytes(bytes: &[u8; 4096])
    ensures { FillPage bytes.now }
{
    let _first = bytes[0];
}

/// The half-word at a place, its low byte first.
#[inline(always)]
pub(crate) fn half_at(bytes: &[u8; 4096], at: usize) -> u16
    requires { at + 2 ≤ 4096 }
    ensures { result ≡ from_le_bytes w16 (run 2 at bytes.now) }
{
    u16::from_le_bytes([bytes[at], bytes[at + 1]])
}

/// The word at a place, its low byte first.
#[inline(always)]
pub(crate) fn word_at(bytes: &[u8; 4096], at: usize) -> u32
    requires { at + 4 ≤ 4096 }
    ensures { result ≡ from_le_bytes w32 (run 4 at bytes.now) }
{
    u32::from_le_bytes([bytes[at], bytes[at + 1], bytes[at + 2], bytes[at + 3]])
}

/// Reads bytes from a place on.
pub(crate) fn copy_bytes(bytes: &[u8; 4096], at: usize, into: &mut [u8])
    requires { at + length into.old ≤ 4096 }
    ensures { (k : ℕ) → k < length into.old → slice_index into.new k ≡ slice_index bytes.now (at + k) }
{
    into.copy_from_slice(&bytes[at..at + into.len()]);
}

/// Permissions in a byte: X 1, W 2, R 4 as a sum.
pub fn permissions_byte(permissions: Permissions) -> u8
    ensures { result ≡ permissions_byte (Some permissions) }
{
    bit(permissions.execute, 1) + bit(permissions.write, 2) + bit(permissions.read, 4)
}

/// A number where a bit is set, else 0.
fn bit(is_set: bool, value: u8) -> u8
    ensures { result ≡ bit is_set value }
{
    if is_set { value } else { 0 }
}
