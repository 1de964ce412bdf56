//! What may be done with an address space, whatever else is kept beside it.

ghost use Rattle.std.specs.Prelude.{◌≡◌, ◌≢◌, ℕ, ◌+◌, ◌<◌, ◌≤◌, ◌^◌, ◌*◌, OnOk, OnErr, IfErr, IfOk, IsTrue, IsSome, Some, None, false, length, if◌then◌else◌};
ghost use Rattle.std.specs.Result.{IsErrOf};
ghost use Rattle.std.specs.Int.{w32, to_le_bytes};
ghost use Rattle.rrv_model.specs.Memory.{all_mapped, mapped, page_bytes, protected, unmapped, writable, stored, page_count, is_mapped};
ghost use Rattle.rrv_model.specs.CallRows.{all_writable};
ghost use Rattle.guest_pages.specs.Live.{Fills, HasNoSnapshot, Prepares, SetsLive, added_across, added_in, added_words, freed_in, live_of};
ghost use Rattle.guest_pages.specs.Space.{SpaceValue, memory_of, snapshots_of, Becomes, BecomesOrStays, CanFill, IsStoreRefusal};
ghost use Rattle.guest_pages.specs.Mapping.{AreOwnIn, IsMapRefusal, covered};
ghost use Rattle.guest_pages.specs.Stores.{stored_at_each};
ghost use Rattle.guest_pages.specs.WholePages.{with_page, MayHave};

use crate::fault::PageFault;
use crate::page::PageView;
use crate::snapshot::Snapshot;
use rrv_model::machine::Permissions;
use rrv_model::refusal::Memory;

/// An address space that can be changed. Contracts see it as a [`crate::Space`].
pub trait AddressSpace {
    /// The space that it stands for.
    ghost space: { Self → SpaceValue };

    /// Maps count pages of zeros from a page on, each of its own, in place of what was there. They lie from 0x1000 up to
    /// 0x7FFFFFFF. Refused with TooManyPages where more than 16,384 pages would be mapped, else with Memory where a growth is
    /// refused. Where all of them are the space's own already it takes no memory, and is not refused.
    fn map(&mut self, page: u32, count: u32, permissions: Permissions) -> Result<(), PageFault>
        requires low { 1 ≤ page }
        requires high { page + count ≤ 0x80000 }
        requires readable { IsTrue permissions.write → IsTrue permissions.read }
        ensures mapped { BecomesOrStays result
            (mapped (page * page_bytes) (count * page_bytes) permissions (memory_of (space self.old)))
            (space self.old) (space self.new) }
        ensures refused { IfErr result (IsMapRefusal
            (mapped (page * page_bytes) (count * page_bytes) permissions (memory_of (space self.old)))) }
        ensures grows { OnErr result (AreOwnIn (space self.old) page count → ⊥) }
        ensures live { OnOk result (live_of (space self.new)
            ≡ live_of (space self.old) + added_in (space self.old) page count) };

    /// Takes count pages away from a page on; where there is none, nothing happens. It takes no memory.
    fn unmap(&mut self, page: u32, count: u32)
        requires { page + count < 2 ^ 32 }
        ensures unmapped { Becomes
            (unmapped (page * page_bytes) (count * page_bytes) (memory_of (space self.old)))
            (space self.old) (space self.new) }
        ensures live { live_of (space self.new) + freed_in (space self.old) page count ≡ live_of (space self.old) };

    /// Sets the permissions of all pages of a range. Refused with NotMapped where any isn't there. It takes no memory.
    fn protect(&mut self, page: u32, count: u32, permissions: Permissions) -> Result<(), PageFault>
        requires low { page + count < 2 ^ 32 }
        requires readable { IsTrue permissions.write → IsTrue permissions.read }
        ensures allowed { OnOk result (IsTrue (all_mapped (memory_of (space self.old)) page count)) }
        ensures protected { BecomesOrStays result
            (protected (page * page_bytes) (count * page_bytes) permissions (memory_of (space self.old)))
            (space self.old) (space self.new) }
        ensures refused { IfErr result (λ fault. (fault ≡ PageFault.NotMapped)
            × (all_mapped (memory_of (space self.old)) page count ≡ false)) }
        ensures live { live_of (space self.new) ≡ live_of (space self.old) };

    /// Adds permissions to a page, which is mapped with zeros where it wasn't there, as a loader does. Refused as
    /// [`AddressSpace::map`] is.
    fn cover(&mut self, page: u32, permissions: Permissions) -> Result<(), PageFault>
        requires low { 1 ≤ page }
        requires high { page < 0x80000 }
        requires readable { IsTrue permissions.write → IsTrue permissions.read }
        ensures covered { BecomesOrStays result (covered page permissions (memory_of (space self.old)))
            (space self.old) (space self.new) }
        ensures refused { IfErr result (IsMapRefusal (covered page permissions (memory_of (space self.old)))) }
        ensures grows { OnErr result (is_mapped (memory_of (space self.old)) page ≡ false) }
        ensures live { OnOk result (live_of (space self.new)
            ≡ live_of (space self.old) + (if is_mapped (memory_of (space self.old)) page then 0 else 1)) };

    /// Puts a page with its permissions and bytes, as [`crate::Space::page`] reads one, in place of what was there; None unmaps
    /// it. Refused with TooManyPages where more than 16,384 pages would be mapped, which is only where the page wasn't mapped;
    /// else with Memory where a growth is refused, which may be over a mapped page too. To unmap is never refused.
    fn set_page(&mut self, number: u32, page: Option<PageView<'_>>) -> Result<(), PageFault>
        requires { MayHave number page }
        ensures set { BecomesOrStays result (with_page number page.entry (memory_of (space self.old)))
            (space self.old) (space self.new) }
        ensures refused { IfErr result (IsMapRefusal (with_page number page.entry (memory_of (space self.old)))) }
        ensures some { OnErr result (IsSome page.entry) }
        ensures too_many { IsErrOf result PageFault.TooManyPages
            → is_mapped (memory_of (space self.old)) number ≡ false }
        ensures live { OnOk result (SetsLive number page.entry (space self.old) (space self.new)) };

    /// Stores a word, its low byte first: all bytes or none, refused as [`crate::Space::store`] is.
    fn store_word(&mut self, address: u32, value: u32) -> Result<(), PageFault>
        ensures allowed { OnOk result (IsTrue (writable (memory_of (space self.old)) address 4)) }
        ensures stored { BecomesOrStays result
            (stored address (to_le_bytes w32 value) (memory_of (space self.old))) (space self.old) (space self.new) }
        ensures refused { IfErr result (IsStoreRefusal (memory_of (space self.old)) address 4) }
        ensures live { OnOk result (live_of (space self.new)
            ≡ live_of (space self.old) + added_across (space self.old) address 4) };

    /// Stores a word, its low byte first, at each of some places that may be written, one after another: at all of
    /// them, or where a growth is refused at none. To store at no place is never refused.
    fn store_words(&mut self, places: &[u32], word: u32) -> Result<(), Memory>
        requires { IsTrue (all_writable (memory_of (space self.old)) places.now) }
        ensures stored { BecomesOrStays result
            (stored_at_each places.now (to_le_bytes w32 word) (memory_of (space self.old)))
            (space self.old) (space self.new) }
        ensures some { OnErr result (1 ≤ length places.now) }
        ensures live { OnOk result (live_of (space self.new)
            ≡ live_of (space self.old) + added_words (space self.old) places.now) };

    /// Tests whether so many bytes can be stored, and makes ready for them, which changes no memory: an [`AddressSpace::fill`]
    /// of them then takes none. Pages that snapshots share are copied, all or none. Refused as [`crate::Space::store`] is, so
    /// that memory is wanted here and not at the fill.
    fn prepare(&mut self, address: u32, count: usize) -> Result<(), PageFault>
        ensures allowed { OnOk result (IsTrue (writable (memory_of (space self.old)) address count)) }
        ensures prepared { Prepares result address count (space self.old) (space self.new) }
        ensures refused { IfErr result (IsStoreRefusal (memory_of (space self.old)) address count) }
        ensures some { OnErr result (1 ≤ count) };

    /// Writes bytes that are there in pages that no snapshot shares, whatever their permissions, as a loader does. It takes no
    /// memory.
    fn fill(&mut self, address: u32, bytes: &[u8])
        requires { CanFill (space self.old) address (length bytes.now) }
        ensures { Fills address bytes.now (space self.old) (space self.new) };

    /// Keeps the memory as it is, under the token that it gives, and adds no page. Refused where a growth is.
    fn snapshot(&mut self) -> Result<Snapshot, Memory>
        ensures kept { IfOk result (λ token. snapshots_of (space self.new) token ≡ Some (memory_of (space self.old))) }
        ensures fresh { IfOk result (λ token. snapshots_of (space self.old) token ≡ None) }
        ensures others { IfOk result (λ token. (n : ℕ) → n ≢ token →
            snapshots_of (space self.new) n ≡ snapshots_of (space self.old) n) }
        ensures memory { memory_of (space self.new) ≡ memory_of (space self.old) }
        ensures live { live_of (space self.new) ≡ live_of (space self.old) }
        ensures err { OnErr result (space self.new ≡ space self.old) };

    /// Lets a snapshot go, whose token is then spent. Once none is left, the pages that there are are those that are mapped. It
    /// takes no memory.
    fn drop_snapshot(&mut self, snapshot: Snapshot)
        requires { IsSome (snapshots_of (space self.old) snapshot) }
        ensures gone { snapshots_of (space self.new) snapshot ≡ None }
        ensures others { (n : ℕ) → n ≢ snapshot →
            snapshots_of (space self.new) n ≡ snapshots_of (space self.old) n }
        ensures memory { memory_of (space self.new) ≡ memory_of (space self.old) }
        ensures fewer { live_of (space self.new) ≤ live_of (space self.old) }
        ensures least { page_count (memory_of (space self.new)) ≤ live_of (space self.new) }
        ensures last { HasNoSnapshot (space self.new)
            → live_of (space self.new) ≡ page_count (memory_of (space self.new)) };
}
