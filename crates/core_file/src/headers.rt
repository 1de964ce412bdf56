//! The headers of a core file (System V ABI, "ELF Header" and "Program Header").

ghost use Rattle.std.specs.Prelude.{◌≡◌, ◌++◌, ◌<◌, ◌≤◌, ◌^◌, ◌+◌, ◌-◌, ◌*◌, flat_map, OnOk, All};
ghost use Rattle.core_file.specs.Headers.{elf_header, file_fields, header_text, identification, table_fields, zeros};
ghost use Rattle.core_file.specs.Core.{headers_text, load_header, note_header, notes_end, notes_offset, pages_offset};
ghost use Rattle.core_file.specs.Runs.{Fits};

use crate::counts::Counts;
use crate::numbers::{put_half, put_numbers, put_zeros};
use crate::runs::Run;
use rrv_model::limits::PAGE_BYTES;
use std::alloc::AllocError;

/// The bytes of the ELF header and of a program header.
const FILE_HEADER_BYTES: u32 = 52;

const PROGRAM_HEADER_BYTES: u32 = 32;

/// The bytes of a note with a prstatus.
const NOTE_BYTES: u32 = 224;

const ET_CORE: u16 = 4;

const EM_RISCV: u16 = 243;

const EV_CURRENT: u32 = 1;

const PT_LOAD: u32 = 1;

const PT_NOTE: u32 = 4;

/// A program header; its `p_paddr` is 0.
#[derive(Clone, Copy)]
pub(crate) struct ProgramHeader {
    /// `p_type`
    pub(crate) kind: u32,
    /// `p_offset`, in bytes
    pub(crate) offset: u32,
    /// `p_vaddr`
    pub(crate) address: u32,
    /// `p_filesz`, in bytes
    pub(crate) file_len: u32,
    /// `p_memsz`, in bytes
    pub(crate) memory_len: u32,
    /// `p_flags`
    pub(crate) flags: u32,
    /// `p_align`
    pub(crate) align: u32,
}

/// The ELF header of a core file with so many program headers.
#[tactic(auto, unfolding(crate::specs::Headers::elf_header))]
pub(crate) fn put_elf_header(out: &mut Vec<u8>, headers: u16) -> Result<(), AllocError>
    ensures { OnOk result (out.new.items ≡ out.old.items ++ elf_header headers) }
{
    put_identification(out)?;
    put_file_fields(out)?;
    put_table_fields(out, headers)
}

/// `e_ident`: the magic number, ELFCLASS32, ELFDATA2LSB and EV_CURRENT.
fn put_identification(out: &mut Vec<u8>) -> Result<(), AllocError>
    ensures { OnOk result (out.new.items ≡ out.old.items ++ identification) }
{
    out.extend_from_slice(&[0x7F, b'E', b'L', b'F', 1, 1, 1])?;
    put_zeros(out, 9)
}

/// From `e_type` to `e_flags`.
fn put_file_fields(out: &mut Vec<u8>) -> Result<(), AllocError>
    ensures { OnOk result (out.new.items ≡ out.old.items ++ file_fields) }
{
    put_half(out, ET_CORE)?;
    put_half(out, EM_RISCV)?;
    put_numbers(out, &[EV_CURRENT, 0, FILE_HEADER_BYTES, 0, 0])
}

/// From `e_ehsize` to `e_shstrndx`.
fn put_table_fields(out: &mut Vec<u8>, headers: u16) -> Result<(), AllocError>
    ensures { OnOk result (out.new.items ≡ out.old.items ++ table_fields headers) }
{
    put_half(out, FILE_HEADER_BYTES as u16)?;
    put_half(out, PROGRAM_HEADER_BYTES as u16)?;
    put_half(out, headers)?;
    put_half(out, 0)?;
    put_half(out, 0)?;
    put_half(out, 0)
}

/// A program header.
#[tactic(auto, unfolding(crate::specs::Headers::header_text))]
fn put_header(out: &mut Vec<u8>, header: &ProgramHeader) -> Result<(), AllocError>
    ensures { OnOk result (out.new.items ≡ out.old.items ++ header_text header.now) }
{
    put_numbers(
        out,
        &[
            header.kind,
            header.offset,
            header.address,
            0,
            header.file_len,
            header.memory_len,
            header.flags,
            header.align,
        ],
    )
}

/// Where the notes begin, in bytes.
fn notes_offset(headers: u32) -> u32
    requires { headers ≤ 16385 }
    ensures { result ≡ notes_offset headers }
{
    FILE_HEADER_BYTES + PROGRAM_HEADER_BYTES * headers
}

/// Where the notes end, in bytes.
fn notes_end(counts: Counts) -> u32
    ensures { result ≡ notes_end counts.headers counts.threads }
{
    notes_offset(counts.headers) + NOTE_BYTES * counts.threads
}

/// Where the pages begin, in bytes.
fn pages_offset(counts: Counts) -> u32
    ensures { result ≡ pages_offset counts.headers counts.threads }
{
    (notes_end(counts) + (PAGE_BYTES - 1)) / PAGE_BYTES * PAGE_BYTES
}

/// The header of the notes.
fn note_header(counts: Counts) -> ProgramHeader
    ensures { result ≡ note_header counts.headers counts.threads }
{
    ProgramHeader {
        kind: PT_NOTE,
        offset: notes_offset(counts.headers),
        address: 0,
        file_len: NOTE_BYTES * counts.threads,
        memory_len: 0,
        flags: 0,
        align: 4,
    }
}

/// The header of a run, where the pages begin here.
fn load_header(pages_at: u32, run: &Run) -> ProgramHeader
    requires begin { pages_at ≤ 2 ^ 20 }
    requires fits { Fits run.now }
    ensures { result ≡ load_header pages_at run.now }
{
    ProgramHeader {
        kind: PT_LOAD,
        offset: pages_at + run.before * PAGE_BYTES,
        address: run.first * PAGE_BYTES,
        file_len: run.filled * PAGE_BYTES,
        memory_len: run.pages * PAGE_BYTES,
        flags: run.flags,
        align: PAGE_BYTES,
    }
}

/// The header of the notes, and those of the runs.
pub(crate) fn put_headers(out: &mut Vec<u8>, counts: Counts, runs: &[Run]) -> Result<(), AllocError>
    requires { All Fits runs.now }
    ensures { OnOk result (out.new.items ≡ out.old.items ++ headers_text counts.headers counts.threads runs.now) }
{
    put_header(out, &note_header(counts))?;
    put_loads(out, pages_offset(counts), runs)
}

/// The headers of the runs, where the pages begin here.
fn put_loads(out: &mut Vec<u8>, pages_at: u32, runs: &[Run]) -> Result<(), AllocError>
    requires begin { pages_at ≤ 2 ^ 20 }
    requires fit { All Fits runs.now }
    ensures { OnOk result (out.new.items ≡ out.old.items
        ++ flat_map (λ r. header_text (load_header pages_at r)) runs.now) }
{
    for run in runs {
        put_header(out, &load_header(pages_at, run))?;
    }
    Ok(())
}

/// Zeros from the end of the notes to the first page.
pub(crate) fn put_padding(out: &mut Vec<u8>, counts: Counts) -> Result<(), AllocError>
    ensures { OnOk result (out.new.items ≡ out.old.items
        ++ zeros (pages_offset counts.headers counts.threads - notes_end counts.headers counts.threads)) }
{
    put_zeros(out, pages_offset(counts) - notes_end(counts))
}
