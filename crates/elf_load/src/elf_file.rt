//! A file whose ELF header is right.

ghost use Rattle.std.specs.Prelude.{◌≡◌, ◌≢◌, ◌≤◌, ◌+◌, ◌*◌, ◌<◌, false, None, Some, IfOk, IfErr, OnOk, length};
ghost use Rattle.std.specs.List.{list_any};
ghost use Rattle.rrv_model.specs.Elf.{bad_table, elf_entry, elf_phnum, headers, loads, is_interp, crosses_sizes, leaves_range};
ghost use Rattle.rrv_model.specs.Opening.{headers_address};
ghost use Rattle.elf_load.specs.Fault.{refusal_number};
ghost use Rattle.elf_load.specs.Refusals.{has_magic, header_refusal, load_refusal, load_test, holds_headers};

use crate::fault::ElfFault;
use crate::header::{HEADER_BYTES, LoadTest, ProgramHeader};
use crate::numbers::{half_at, number_at};
use std::alloc::{AllocError, Global};
use std::marker::Model;

/// Bytes of an ELF header, and the places of its fields.
const FILE_HEADER_BYTES: usize = 52;

const EI_CLASS: usize = 4;

const EI_DATA: usize = 5;

const E_TYPE: usize = 16;

const E_MACHINE: usize = 18;

const E_ENTRY: usize = 24;

const E_PHOFF: usize = 28;

const E_FLAGS: usize = 36;

const E_PHENTSIZE: usize = 42;

const E_PHNUM: usize = 44;

const ELF_MAGIC: [u8; 4] = [0x7F, b'E', b'L', b'F'];

const ELFCLASS32: u8 = 1;

const ELFDATA2LSB: u8 = 1;

const ET_EXEC: u16 = 2;

const EM_RISCV: u16 = 243;

/// A file that passes the tests of its ELF header (System V ABI, "ELF Header"). Contracts see its bytes.
#[derive(Drop)]
pub(crate) struct ElfFile<'a> {
    bytes: &'a [u8],
    entry: u32,
    table_offset: u32,
    header_count: u16,
}

impl<'a> Model for ElfFile<'a> {
    ghost use Rattle.std.specs.Prelude.{List, ℕ};
    ghost use Rattle.elf_load.specs.Refusals.{IsHeader};

    ghost Value = { List ℕ };

    ghost view = { λ f. f.bytes.now };

    ghost invariant = { λ f. IsHeader f.bytes.now f.entry f.table_offset f.header_count };
}

impl<'a> ElfFile<'a> {
    /// Reads a file's header and tests it: refusals 1 to 8.
    #[tactic(auto, unfolding(crate::specs::Refusals::header_refusal))]
    pub(crate) fn read(elf: &'a [u8]) -> Result<Self, ElfFault>
        ensures file { IfOk result (λ file. file ≡ elf.now) }
        ensures passes { OnOk result (header_refusal elf.now ≡ None) }
        ensures refused { IfErr result (λ fault. header_refusal elf.now ≡ Some (refusal_number fault)) }
        ensures no_growth { IfErr result (λ fault. fault ≢ ElfFault.Memory) }
    {
        if elf.len() < FILE_HEADER_BYTES {
            return Err(ElfFault::TooShort);
        }
        if !has_magic(elf) {
            return Err(ElfFault::NotElf);
        }
        if elf[EI_CLASS] != ELFCLASS32 {
            return Err(ElfFault::NotClass32);
        }
        if elf[EI_DATA] != ELFDATA2LSB {
            return Err(ElfFault::NotLittle);
        }
        if half_at(elf, E_TYPE) != ET_EXEC {
            return Err(ElfFault::NotExec);
        }
        if half_at(elf, E_MACHINE) != EM_RISCV {
            return Err(ElfFault::NotRiscV);
        }
        // EF_RISCV_RVC
        if number_at(elf, E_FLAGS) % 2 == 1 {
            return Err(ElfFault::Compressed);
        }
        if bad_table(elf) {
            return Err(ElfFault::BadTable);
        }
        Ok(ElfFile {
            bytes: elf,
            entry: number_at(elf, E_ENTRY),
            table_offset: number_at(elf, E_PHOFF),
            header_count: half_at(elf, E_PHNUM),
        })
    }

    /// The bytes of the file.
    pub(crate) fn bytes(&self) -> &'a [u8]
        ensures { result.now ≡ self.now }
    {
        self.bytes
    }

    /// `e_entry`
    pub(crate) fn entry(&self) -> u32
        ensures { result ≡ elf_entry self.now }
    {
        self.entry
    }

    /// `e_phnum`
    pub(crate) fn header_count(&self) -> u16
        ensures { result ≡ elf_phnum self.now }
    {
        self.header_count
    }

    /// Some program header is a PT_INTERP.
    pub(crate) fn has_interp(&self) -> bool
        ensures { result ≡ list_any is_interp (headers self.now) }
    {
        for index in 0..u64::from(self.header_count) {
            let place = u64::from(self.table_offset) + HEADER_BYTES * index;
            if ProgramHeader::read(self.bytes, place as usize).is_interp() {
                return true;
            }
        }
        false
    }

    /// Tests each PT_LOAD by itself: refusals 10 to 12.
    #[tactic(auto, unfolding(crate::specs::Refusals::load_refusal))]
    pub(crate) fn check_loads(&self) -> Result<(), ElfFault>
        ensures passes { OnOk result (load_refusal self.now ≡ None) }
        ensures sizes { OnOk result (list_any crosses_sizes (loads self.now) ≡ false) }
        ensures in_range { OnOk result (list_any leaves_range (loads self.now) ≡ false) }
        ensures refused { IfErr result (λ fault. load_refusal self.now ≡ Some (refusal_number fault)) }
        ensures no_growth { IfErr result (λ fault. fault ≢ ElfFault.Memory) }
    {
        if self.any_load(LoadTest::PassesFile) {
            return Err(ElfFault::OutsideFile);
        }
        if self.any_load(LoadTest::CrossesSizes) {
            return Err(ElfFault::SizesCrossed);
        }
        if self.any_load(LoadTest::LeavesRange) {
            return Err(ElfFault::AddressRange);
        }
        Ok(())
    }

    /// Some PT_LOAD passes the test.
    pub(crate) fn any_load(&self, test: LoadTest) -> bool
        ensures { result ≡ list_any (load_test test self.now) (loads self.now) }
    {
        for index in 0..u64::from(self.header_count) {
            let place = u64::from(self.table_offset) + HEADER_BYTES * index;
            if ProgramHeader::read(self.bytes, place as usize).is_load_with(test, self.bytes) {
                return true;
            }
        }
        false
    }

    /// The PT_LOADs, in the order of the file.
    pub(crate) fn loads(&self, alloc: Global) -> Result<Vec<ProgramHeader>, AllocError>
        ensures { IfOk result (λ found. found.items ≡ loads self.now) }
    {
        let mut found = Vec::new(alloc);
        for index in 0..u64::from(self.header_count) {
            let place = u64::from(self.table_offset) + HEADER_BYTES * index;
            let load = ProgramHeader::read(self.bytes, place as usize);
            if load.is_load() {
                found.push(load)?;
            }
        }
        Ok(found)
    }

    /// The address at which the first of the PT_LOADs that holds all program headers puts them, or 0.
    pub(crate) fn headers_address(&self, found: &[ProgramHeader]) -> u32
        requires sizes { list_any crosses_sizes found.now ≡ false }
        requires in_range { list_any leaves_range found.now ≡ false }
        ensures { result ≡ headers_address self.now found.now }
    {
        for load in found {
            if self.is_held_by(load) {
                return load.address() + (self.table_offset - load.offset());
            }
        }
        0
    }

    /// The bytes of all program headers are within those of the load.
    fn is_held_by(&self, load: &ProgramHeader) -> bool
        ensures { result ≡ holds_headers self.now load.now }
    {
        let table_end = u64::from(self.table_offset) + HEADER_BYTES * u64::from(self.header_count);
        let load_end = u64::from(load.offset()) + u64::from(load.file_len());
        load.offset() <= self.table_offset && table_end <= load_end
    }
}

fn has_magic(elf: &[u8]) -> bool
    requires { 52 ≤ length elf.now }
    ensures { result ≡ has_magic elf.now }
{
    elf[0] == ELF_MAGIC[0]
        && elf[1] == ELF_MAGIC[1]
        && elf[2] == ELF_MAGIC[2]
        && elf[3] == ELF_MAGIC[3]
}

/// There are program headers, and they have another size or pass the end of the file.
fn bad_table(elf: &[u8]) -> bool
    requires { 52 ≤ length elf.now }
    ensures { result ≡ bad_table elf.now }
{
    let count = half_at(elf, E_PHNUM);
    let end = u64::from(number_at(elf, E_PHOFF)) + HEADER_BYTES * u64::from(count);
    count != 0 && (u64::from(half_at(elf, E_PHENTSIZE)) != HEADER_BYTES || end > elf.len() as u64)
}
