//! Program headers.

ghost use Rattle.std.specs.Prelude.{◌≡◌, ◌≤◌, ◌+◌, ◌&&◌, length};
ghost use Rattle.rrv_model.specs.Elf.{Header, header_at, is_load, is_interp, load_end, passes_file, crosses_sizes, leaves_range, share, is_empty_load};
ghost use Rattle.elf_load.specs.Refusals.{load_test};

use crate::numbers::number_at;
use std::marker::Model;

/// Bytes of a program header.
pub(crate) const HEADER_BYTES: u64 = 32;

const PT_LOAD: u32 = 1;

const PT_INTERP: u32 = 3;

/// The least address that a PT_LOAD may have.
const LEAST_ADDRESS: u32 = 0x1000;
/// The least address above all that it may have.
const END_OF_ADDRESSES: u64 = 0x7000_0000;

/// A program header (System V ABI, "Program Header"), without its physical address and its alignment.
#[derive(Clone, Copy, Debug, PartialEq, Eq)]
pub struct ProgramHeader {
    kind: u32,
    offset: u32,
    address: u32,
    file_len: u32,
    memory_len: u32,
    flags: u32,
}

impl Model for ProgramHeader {
    ghost use Rattle.rrv_model.specs.Elf.{Header};

    ghost Value = { Header };

    ghost view = { λ p. record {
      kind = p.kind;
      offset = p.offset;
      address = p.address;
      file_len = p.file_len;
      memory_len = p.memory_len;
      flags = p.flags;
    } };

    ghost inverse = { λ h. record {
      kind = h.kind;
      offset = h.offset;
      address = h.address;
      file_len = h.file_len;
      memory_len = h.memory_len;
      flags = h.flags;
    } };
}

/// A test of a PT_LOAD by itself.
#[derive(Clone, Copy)]
pub(crate) enum LoadTest {
    /// Its bytes pass the end of the file.
    PassesFile,
    /// It has more bytes in the file than in memory.
    CrossesSizes,
    /// It has memory at addresses that are no program's.
    LeavesRange,
    /// It has a byte of memory.
    HasMemory,
}

impl ProgramHeader {
    /// `p_type`; 1 is PT_LOAD.
    pub fn kind(&self) -> u32
        ensures { result ≡ self.now.kind }
    {
        self.kind
    }

    /// `p_offset`: where its bytes begin in the file.
    pub fn offset(&self) -> u32
        ensures { result ≡ self.now.offset }
    {
        self.offset
    }

    /// `p_vaddr`: the address of its first byte in memory.
    pub fn address(&self) -> u32
        ensures { result ≡ self.now.address }
    {
        self.address
    }

    /// `p_filesz`: how many bytes it has in the file.
    pub fn file_len(&self) -> u32
        ensures { result ≡ self.now.file_len }
    {
        self.file_len
    }

    /// `p_memsz`: how many bytes it has in memory; those behind the bytes of the file are zero.
    pub fn memory_len(&self) -> u32
        ensures { result ≡ self.now.memory_len }
    {
        self.memory_len
    }

    /// `p_flags`: the sum of X 1, W 2 and R 4; other bits are ignored.
    pub fn flags(&self) -> u32
        ensures { result ≡ self.now.flags }
    {
        self.flags
    }

    /// Reads the program header that stands at a place of the file.
    pub(crate) fn read(file: &[u8], place: usize) -> Self
        requires { place + 32 ≤ length file.now }
        ensures { result ≡ header_at file.now place }
    {
        ProgramHeader {
            kind: number_at(file, place),
            offset: number_at(file, place + 4),
            address: number_at(file, place + 8),
            file_len: number_at(file, place + 16),
            memory_len: number_at(file, place + 20),
            flags: number_at(file, place + 24),
        }
    }

    /// It is a PT_LOAD.
    pub(crate) fn is_load(&self) -> bool
        ensures { result ≡ is_load self.now }
    {
        self.kind == PT_LOAD
    }

    /// It is a PT_INTERP.
    pub(crate) fn is_interp(&self) -> bool
        ensures { result ≡ is_interp self.now }
    {
        self.kind == PT_INTERP
    }

    /// It has no byte of memory.
    pub(crate) fn is_empty(&self) -> bool
        ensures { result ≡ is_empty_load self.now }
    {
        self.memory_len == 0
    }

    /// The address behind its memory.
    pub(crate) fn end(&self) -> u64
        ensures { result ≡ load_end self.now }
    {
        u64::from(self.address) + u64::from(self.memory_len)
    }

    /// It is a PT_LOAD and passes the test.
    pub(crate) fn is_load_with(&self, test: LoadTest, file: &[u8]) -> bool
        ensures { result ≡ (is_load self.now && load_test test file.now self.now) }
    {
        self.is_load() && self.passes(test, file)
    }

    fn passes(&self, test: LoadTest, file: &[u8]) -> bool
        ensures { result ≡ load_test test file.now self.now }
    {
        match test {
            LoadTest::PassesFile => self.passes_file(file),
            LoadTest::CrossesSizes => self.crosses_sizes(),
            LoadTest::LeavesRange => self.leaves_range(),
            LoadTest::HasMemory => !self.is_empty(),
        }
    }

    /// Its bytes pass the end of the file.
    fn passes_file(&self, file: &[u8]) -> bool
        ensures { result ≡ passes_file file.now self.now }
    {
        let end = u64::from(self.offset) + u64::from(self.file_len);
        0 < self.file_len && (file.len() as u64) < end
    }

    /// It has more bytes in the file than in memory.
    fn crosses_sizes(&self) -> bool
        ensures { result ≡ crosses_sizes self.now }
    {
        self.memory_len < self.file_len
    }

    /// It has memory at addresses that are no program's.
    fn leaves_range(&self) -> bool
        ensures { result ≡ leaves_range self.now }
    {
        0 < self.memory_len && (self.address < LEAST_ADDRESS || END_OF_ADDRESSES < self.end())
    }

    /// The two share a byte of memory.
    pub(crate) fn shares(&self, other: &ProgramHeader) -> bool
        ensures { result ≡ share self.now other.now }
    {
        u64::from(self.address.max(other.address)) < self.end().min(other.end())
    }
}
