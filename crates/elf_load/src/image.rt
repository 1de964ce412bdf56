//! The image of a guest: an accepted ELF file.

ghost use Rattle.std.specs.Prelude.{◌≡◌, ◌≢◌, true, false, None, Some, Err, IfOk, IfErr, OnOk};
ghost use Rattle.std.specs.List.{list_any};
ghost use Rattle.rrv_model.specs.Elf.{refusal, loads, elf_entry, elf_phnum, crosses_sizes, leaves_range};
ghost use Rattle.rrv_model.specs.Opening.{headers_address, image_break};
ghost use Rattle.elf_load.specs.Fault.{refusal_number};
ghost use Rattle.elf_load.specs.Refusals.{has_memory, IsPastRefusal};

use crate::elf_file::ElfFile;
use crate::fault::ElfFault;
use crate::header::{LoadTest, ProgramHeader};
use crate::limits::{check_limits, refusal_without_memory};
use crate::loads::highest_end;
use rrv_model::limits::PAGE_BYTES;
use std::alloc::{AllocError, Global};
use std::marker::Model;

/// An accepted ELF file, with what a guest's opening needs of it. Contracts see the bytes of the file.
#[derive(Debug, Drop)]
pub struct Image {
    elf: Vec<u8>,
    loads: Vec<ProgramHeader>,
    entry: u32,
    headers_address: u32,
    header_count: u16,
    end: u32,
}

impl Model for Image {
    ghost use Rattle.std.specs.Prelude.{List, ℕ};
    ghost use Rattle.elf_load.specs.Image.{IsImage};

    ghost Value = { List ℕ };

    ghost view = { λ i. i.elf.items };

    ghost invariant = { λ i.
        IsImage i.elf.items i.loads.items i.entry i.headers_address i.header_count i.end };
}

impl Image {
    /// Keeps an accepted file and its PT_LOADs.
    fn keep(alloc: Global, file: &ElfFile, found: Vec<ProgramHeader>) -> Result<Self, AllocError>
        requires accepted { refusal file.now ≡ None }
        requires loads_are { found.items ≡ loads file.now }
        requires sizes { list_any crosses_sizes found.items ≡ false }
        requires in_range { list_any leaves_range found.items ≡ false }
        ensures { IfOk result (λ image. image ≡ file.now) }
    {
        let page_bytes = u64::from(PAGE_BYTES);
        let end = highest_end(&found).div_ceil(page_bytes) * page_bytes;
        Ok(Image {
            elf: file.bytes().to_vec(alloc)?,
            entry: file.entry(),
            headers_address: file.headers_address(&found),
            header_count: file.header_count(),
            end: end as u32,
            loads: found,
        })
    }

    /// The bytes of the file.
    pub fn elf(&self) -> &[u8]
        ensures value { result.now ≡ self.now }
        ensures accepted { refusal self.now ≡ None }
    {
        &self.elf
    }

    /// The bytes of the file, which are handed on and not copied.
    pub fn into_file(self) -> Vec<u8>
        ensures value { result.items ≡ self }
        ensures accepted { refusal self ≡ None }
    {
        self.elf
    }

    /// The PT_LOAD headers, in the order of the file.
    pub fn loads(&self) -> &[ProgramHeader]
        ensures value { result.now ≡ loads self.now }
        ensures accepted { refusal self.now ≡ None }
    {
        &self.loads
    }

    /// `e_entry`: the address of the first instruction.
    pub fn entry(&self) -> u32
        ensures { result ≡ elf_entry self.now }
    {
        self.entry
    }

    /// The address at which the first PT_LOAD that holds all program headers puts them, or 0.
    pub fn headers_address(&self) -> u32
        ensures { result ≡ headers_address self.now (loads self.now) }
    {
        self.headers_address
    }

    /// `e_phnum`: how many program headers the file has.
    pub fn header_count(&self) -> u16
        ensures { result ≡ elf_phnum self.now }
    {
        self.header_count
    }

    /// The opening break: the highest end of a PT_LOAD, rounded up to a page.
    pub fn end(&self) -> u32
        ensures { result ≡ image_break self.now }
    {
        self.end
    }
}

/// Reads a static executable for RV32 (System V ABI, "Object Files"; RISC-V ELF psABI). A file that is none is refused
/// by the lowest fault that applies to it. `Memory` comes only where a growth was refused, and only for a file with a
/// PT_LOAD that has memory, to which none of the refusals 1 to 12 applies.
pub fn parse(alloc: Global, elf: &[u8]) -> Result<Image, ElfFault>
    ensures image { IfOk result (λ image. image ≡ elf.now) }
    ensures accepted { OnOk result (refusal elf.now ≡ None) }
    ensures refused { IfErr result (λ fault. fault ≢ ElfFault.Memory
        → refusal elf.now ≡ Some (refusal_number fault)) }
    ensures memory { result ≡ Err ElfFault.Memory → IsPastRefusal 12 elf.now }
    ensures grows { result ≡ Err ElfFault.Memory → list_any has_memory (loads elf.now) ≡ true }
{
    let file = ElfFile::read(elf)?;
    if file.has_interp() {
        return Err(ElfFault::Interp);
    }
    file.check_loads()?;
    if !file.any_load(LoadTest::HasMemory) {
        return Err(refusal_without_memory(elf));
    }
    let loads = file.loads(alloc)?;
    check_limits(alloc, elf, &loads)?;
    Ok(Image::keep(alloc, &file, loads)?)
}
