//! The files that a line reads: the programs, and the input of the guests.

ghost use Rattle.std.specs.Prelude.{◌≡◌, IfErr, IfOk};
ghost use Rattle.rrv_model.specs.declared.limits.TheConstants.{MAX_ELF};
ghost use Rattle.line_io.specs.Files.{IsNoProgram, ReadsWhole};

use crate::elf_target::ElfTarget;
use crate::file_fault::FileFault;
use crate::refusal::Refusal;
use elf_load::{ElfFault, Image, parse};
use rrv_model::limits::MAX_ELF;
use std::alloc::Global;
use std::fs;
use std::io::Read;
use std::rt::Files;

/// Bytes of the input of a recording's guests.
const MAX_INPUT: u32 = 1_048_576;

/// All bytes that a reader has, where they are no more than so many, and no read fails.
fn read_whole<F: Read + Drop>(alloc: Global, file: F, most: u32) -> Result<Vec<u8>, FileFault>
    ensures { ReadsWhole (F.remaining file) most result }
{
    let mut bytes = Vec::new(alloc);
    let read = file.take(u64::from(most) + 1).read_to_end(&mut bytes);
    if let Err(error) = read {
        return Err(FileFault::of_read(&error));
    }
    if bytes.len() > most as usize {
        return Err(FileFault::TooLong { most });
    }
    Ok(bytes)
}

/// All bytes that a reader has, where they are no more than a program's file may have, and no read fails.
pub fn read_program<F: Read + Drop>(alloc: Global, file: F) -> Result<Vec<u8>, FileFault>
    ensures { ReadsWhole (F.remaining file) MAX_ELF result }
{
    read_whole(alloc, file, MAX_ELF)
}

/// The image of a program.
pub fn image_of(alloc: Global, program: &[u8]) -> Result<Image, FileFault>
    ensures image { IfOk result (λ image. image ≡ program.now) }
    ensures refused { IfErr result (IsNoProgram program.now) }
{
    match parse(alloc, program) {
        Ok(image) => Ok(image),
        Err(ElfFault::Memory) => Err(FileFault::Memory),
        Err(fault) => Err(FileFault::NoProgram {
            fault,
            target: ElfTarget::of(program),
        }),
    }
}

/// The image of the program in a file. The bytes that were read of the file are let go.
pub fn image_in<R: Files + AllocGlobal>(rt: &R, path: &str) -> Result<Image, FileFault> {
    let file = fs::open(rt, path).map_err(|error| FileFault::of_read(&error))?;
    let program = read_program(rt.alloc(), file)?;
    image_of(rt.alloc(), &program)
}

/// The images of the programs in files, each read and parsed before the next is read. A refusal is told in words too where `in_words`
/// says so.
pub fn images_in<R: Files + AllocGlobal>(
    rt: &R,
    paths: &[&str],
    in_words: bool,
) -> Result<Vec<Image>, Refusal> {
    let mut images = Vec::new(rt.alloc());
    for path in paths {
        let guest = u32::try_from(images.len()).unwrap_or(u32::MAX);
        match image_in(rt, path) {
            Ok(image) => images.push(image)?,
            Err(fault) => {
                return Err(Refusal::of_file_at(rt.alloc(), guest, path, fault, in_words));
            }
        }
    }
    Ok(images)
}

/// The bytes of a file, where they are no more than so many; `-` is standard input.
fn bytes_in<R: Files + Input + AllocGlobal>(
    rt: &R,
    path: &str,
    most: u32,
) -> Result<Vec<u8>, FileFault> {
    if path == "-" {
        return read_whole(rt.alloc(), rt.reader(), most);
    }
    let file = fs::open(rt, path).map_err(|error| FileFault::of_read(&error))?;
    read_whole(rt.alloc(), file, most)
}

/// The bytes of a file that isn't a program, where they are no more than so many. A refusal is told in words too where `in_words` says so.
pub fn read_file<R: Files + Input + AllocGlobal>(
    rt: &R,
    path: &str,
    most: u32,
    in_words: bool,
) -> Result<Vec<u8>, Refusal> {
    bytes_in(rt, path, most).map_err(|fault| Refusal::of_file_at(
        rt.alloc(),
        0,
        path,
        fault,
        in_words,
    ))
}

/// The input of a recording's guests: the bytes of a file, or none.
pub fn input_in<R: Files + Input + AllocGlobal>(
    rt: &R,
    path: Option<&str>,
    in_words: bool,
) -> Result<Vec<u8>, Refusal> {
    match path {
        Some(path) => read_file(rt, path, MAX_INPUT, in_words),
        None => Ok(Vec::new(rt.alloc())),
    }
}
