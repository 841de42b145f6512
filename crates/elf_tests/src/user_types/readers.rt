//! What callers of both readers can prove: of a file in memory, and of bytes that are copied out of a stream.
ghost use Rattle.std.specs.Prelude.{◌≡◌, ◌≢◌, IfErr, IfOk, is_some};
ghost use Rattle.elf_records.specs.Number.{ok_map};
ghost use Rattle.elf.specs.Answers.{section_header_by_name};
ghost use Rattle.elf.specs.ElfBytes.{view};
ghost use Rattle.elf_reading.specs.Refusals.{Kind, kind};
ghost use Rattle.elf.specs.ObjectFile.{object_file};
ghost use Rattle.elf_tests.specs.Copies.{IsSectionOf};

use elf::endian::EndianParse;
use elf::readers::stream_answers_as_bytes;
use elf::section::SectionHeader;
use elf::{ElfBytes, ElfStream, MemSource, ParseError};
use std::alloc::Global;

/// Whether the file has a section of this name.
pub fn has_section<E: EndianParse>(file: &ElfBytes<'_, E>, name: &str) -> Result<bool, ParseError>
    ensures { result ≡ ok_map is_some (section_header_by_name (object_file E.little (view file.now)) name.now) }
{
    Ok(file.section_header_by_name(name)?.is_some())
}

/// A copy of the bytes of a section, which a stream reads from a file in memory. They are the bytes that `ElfBytes`
/// gives of that section. Returns an error where the file does not open, where the bytes of the section cannot be
/// read, and with `OutOfMemory`; a source in memory gives no I/O error.
pub fn section_copy<E: EndianParse>(
    alloc: Global,
    file: &[u8],
    shdr: &SectionHeader,
) -> Result<Vec<u8>, ParseError>
    ensures same { IfOk result (λ copy. IsSectionOf E.little E.of_byte file.now shdr.now copy.items) }
    ensures cause { IfErr result (λ e. kind e ≢ Kind.SourceFailure) }
{
    let source = MemSource::new(file);
    let opened = ElfStream::<E, MemSource<'_>, Global>::open_stream(alloc, source);
    let mut stream = match opened {
        Ok(stream) => stream,
        Err(error) => return Err(error),
    };
    stream_answers_as_bytes(&stream);
    match stream.section_data(shdr) {
        Ok((bytes, _)) => match Vec::from_slice(alloc, bytes) {
            Ok(copy) => Ok(copy),
            Err(_) => Err(ParseError::OutOfMemory),
        },
        Err(error) => Err(error),
    }
}
