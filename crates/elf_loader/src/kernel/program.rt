//! A program and its interpreter, in the order in which the kernel looks at them.
ghost use Rattle.std.specs.Prelude.{◌≡◌};
ghost use Rattle.std.specs.Option.{option_map};
ghost use Rattle.elf_records.specs.Number.{ok_map};
ghost use Rattle.elf.specs.LoadedRanges.{parts_in, ranges_in};
ghost use Rattle.elf_loader.specs.kernel.Memory.{image_view};
ghost use Rattle.elf_loader.specs.kernel.Program.{c_string, image_in, interpreter_in, memory_of, path_in, path_of};
ghost use Rattle.elf_loader.specs.kernel.Program.{path_segment, program_in, program_view, read};

use super::header::{
    Header, HeaderFault, header_in, header_size, interpreter_fault, program_fault, table_size,
    zero_filled,
};
use super::memory::{Image, interpreter_memory, program_memory};
use super::platform::Platform;
use super::refusal::{Part, PathFault, Refusal};
use elf::{LoadedParts, ReadError, abi};
use elf_records::segment::{ProgramHeader, SegmentTable};
use elf_records::string_table::StringTable;
use std::cmp::min;
use std::fmt;
use thiserror::Error;

/// A program that the kernel begins to start.
#[derive(Debug, Clone, Copy)]
pub struct Program<'data> {
    pub image: Image<'data>,
    /// The path of its interpreter, up to the first 0 byte, if it has one. A relative path begins at the current
    /// folder, and the empty one is that folder, which is no file (`EACCES`).
    pub interpreter: Option<&'data [u8]>,
}

/// Why it is not known that the kernel starts a program.
#[derive(Debug, Clone, Copy, PartialEq, Eq, Error)]
pub enum ExecError {
    /// The bytes from a start to an end, which lie in the file, are not loaded.
    Missing((u64, u64)),
    /// The kernel refuses it.
    Refused(Refusal),
}

impl fmt::Display for ExecError {
    ghost use Rattle.elf_loader.specs.kernel.Texts.{error_text};

    ghost output = { error_text };

    fn fmt<W: fmt::Write>(&self, f: &mut fmt::Formatter<W>) -> fmt::Result {
        match self {
            ExecError::Missing((start, end)) => {
                write!(f, "Bytes in range [0x{start:X}, 0x{end:X}) are not loaded")
            }
            ExecError::Refused(refusal) => write!(f, "{refusal}"),
        }
    }
}

// The bytes of a range, or what is refused if it does not lie in the file.
fn read<'data>(
    file: &LoadedParts<'data>,
    start: u64,
    count: u64,
    refusal: Refusal,
) -> Result<&'data [u8], ExecError>
    ensures { ok_map (λ bytes. bytes.now) result
        ≡ read (ranges_in file.now.size (parts_in file.now.front.now file.now.ranges.now)) start count refusal }
{
    match file.range(start, count) {
        Ok(bytes) => Ok(bytes),
        Err(ReadError::Parse(_)) => Err(ExecError::Refused(refusal)),
        Err(ReadError::NotLoaded(range)) => Err(ExecError::Missing(range)),
    }
}

// A file with this header, where it is known what is wrong with the header.
fn image<'data>(
    platform: &Platform,
    file: &LoadedParts<'data>,
    part: Part,
    header: Header,
    fault: Option<HeaderFault>,
) -> Result<Image<'data>, ExecError>
    ensures { ok_map image_view result
        ≡ image_in platform.now file.now.size
        (ranges_in file.now.size (parts_in file.now.front.now file.now.ranges.now)) part header fault }
{
    if let Some(fault) = fault {
        return Err(ExecError::Refused(Refusal::Header { part, fault }));
    }
    let outside = Refusal::Header {
        part,
        fault: HeaderFault::TableOutsideFile,
    };
    let bytes = read(file, header.e_phoff, table_size(platform, &header), outside)?;
    Ok(Image {
        header,
        segments: SegmentTable::new(platform.endian, platform.class, bytes),
        size: file.size,
    })
}

// The first segment that names an interpreter.
fn path_segment(image: &Image<'_>) -> Option<ProgramHeader>
    ensures { result ≡ path_segment (image_view image.now) }
{
    image
        .segments
        .iter()
        .find(|segment| segment.p_type == abi::PT_INTERP)
}

// The bytes up to the first 0.
fn c_string(bytes: &[u8]) -> &[u8]
    ensures { result.now ≡ c_string bytes.now }
{
    match StringTable::new(bytes).get_raw(0) {
        Ok(string) => string,
        Err(_) => &[],
    }
}

// The path that a segment names.
fn path<'data>(file: &LoadedParts<'data>, segment: &ProgramHeader) -> Result<&'data [u8], ExecError>
    ensures { ok_map (λ bytes. bytes.now) result
        ≡ path_in (ranges_in file.now.size (parts_in file.now.front.now file.now.ranges.now)) segment.now }
{
    let size = segment.p_filesz;
    if size < 2 || size > 4096 {
        return Err(ExecError::Refused(Refusal::Path(PathFault::Size(size))));
    }
    if segment.p_offset as u128 + size as u128 >= 1 << 63 {
        return Err(ExecError::Refused(Refusal::Path(PathFault::PastOffsets)));
    }
    let outside = Refusal::Path(PathFault::OutsideFile);
    let bytes = read(file, segment.p_offset, size, outside)?;
    match bytes.last() {
        Some(0) => Ok(c_string(bytes)),
        _ => Err(ExecError::Refused(Refusal::Path(PathFault::Unterminated))),
    }
}

// The path that a segment names, if there is one.
fn path_of<'data>(
    file: &LoadedParts<'data>,
    segment: Option<ProgramHeader>,
) -> Result<Option<&'data [u8]>, ExecError>
    ensures { ok_map (option_map (λ path. path.now)) result
        ≡ path_of (ranges_in file.now.size (parts_in file.now.front.now file.now.ranges.now)) segment }
{
    match segment {
        Some(segment) => Ok(Some(path(file, &segment)?)),
        None => Ok(None),
    }
}

/// Reads a program up to the path of its interpreter.
///
/// Errors, in order: `Refused` of a script; of the header, and of a table of program headers that does not lie in the
/// file; of the first segment of type `PT_INTERP`. `Missing` comes where the range is read: the first 64 bytes, the
/// table, the path.
///
/// ```rust
/// let file = LoadedParts {
///     size: bytes.len() as u64,
///     front: bytes,
///     ranges: &[],
/// };
/// let Some(platform) = Platform::named(bytes) else {
///     return Ok(());
/// };
/// match read_program(&platform, &file) {
///     Ok(program) => println!(rt; "its interpreter: {:?}", program.interpreter)?,
///     Err(error) => println!(rt; "it does not start: {error}")?,
/// }
/// ```
pub fn read_program<'data>(
    platform: &Platform,
    file: &LoadedParts<'data>,
) -> Result<Program<'data>, ExecError>
    ensures { ok_map program_view result
        ≡ program_in platform.now file.now.size
        (ranges_in file.now.size (parts_in file.now.front.now file.now.ranges.now)) }
{
    let no_front = Refusal::Header {
        part: Part::Program,
        fault: HeaderFault::Magic,
    };
    let front = read(file, 0, min(64, file.size), no_front)?;
    if front.starts_with(b"#!") {
        return Err(ExecError::Refused(Refusal::Script));
    }
    let header = header_in(platform, &zero_filled(front));
    let fault = program_fault(platform, &header);
    let image = image(platform, file, Part::Program, header, fault)?;
    let interpreter = path_of(file, path_segment(&image))?;
    Ok(Program { image, interpreter })
}

/// Reads the interpreter of a program.
///
/// Errors, in order: `Refused` of a file that is shorter than a header; of the header; of a table of program headers
/// that does not lie in the file. `Missing` comes where the range is read: the header, the table.
pub fn read_interpreter<'data>(
    platform: &Platform,
    file: &LoadedParts<'data>,
) -> Result<Image<'data>, ExecError>
    ensures { ok_map image_view result
        ≡ interpreter_in platform.now file.now.size
        (ranges_in file.now.size (parts_in file.now.front.now file.now.ranges.now)) }
{
    let size = header_size(platform.class);
    let front = read(file, 0, size, Refusal::ShortInterpreter)?;
    let header = header_in(platform, front);
    let fault = interpreter_fault(platform, &header);
    image(platform, file, Part::Interpreter, header, fault)
}

/// Loads a program and its interpreter into memory, and returns what is refused first: each segment of the program in
/// the order of the file, then the interpreter, or else the program's entry. Give the interpreter of a program that has
/// one.
pub fn load(
    platform: &Platform,
    program: &Image<'_>,
    interpreter: Option<&Image<'_>>,
) -> Result<(), Refusal>
    ensures { result ≡ memory_of platform.now (image_view program.now)
        (option_map (λ image. image_view image.now) interpreter.entry) }
{
    if let Some(fault) = program_memory(platform, program, interpreter.is_none()) {
        return Err(Refusal::Memory {
            part: Part::Program,
            fault,
        });
    }
    let Some(image) = interpreter else {
        return Ok(());
    };
    match interpreter_memory(platform, image) {
        Some(fault) => Err(Refusal::Memory {
            part: Part::Interpreter,
            fault,
        }),
        None => Ok(()),
    }
}
