//! A file in memory, which is listed without a source.
ghost use Rattle.std.specs.Prelude.{◌≡◌, IfOk};
ghost use Rattle.elf.specs.ElfBytes.{view};
ghost use Rattle.elf_reading.specs.Opening.{headers_of};
ghost use Rattle.nugwier_report.specs.Whole.{headers_view};

use crate::listed::ListedFile;
use elf::endian::EndianParse;
use elf::file::FileHeader;
use elf::headers::{FileHeaders, HeaderList, Headers};
use elf::reader::Reader;
use elf::section::SectionHeader;
use elf::segment::ProgramHeader;
use elf::{ElfBytes, ReadError};
use elf_records::parse::get_bytes;
use std::alloc::{AllocError, Global};

/// A file in memory: its headers, in lists, and its bytes.
#[derive(Drop)]
pub struct FileInMemory<'data, E: EndianParse> {
    ehdr: FileHeader<E>,
    declares_sections: bool,
    sections: Vec<SectionHeader>,
    segments: Vec<ProgramHeader>,
    bytes: &'data [u8],
}

impl<'data, E: EndianParse> FileInMemory<'data, E> {
    /// The file that was opened over these bytes. The only error is a failed allocation.
    pub fn new(
        alloc: Global,
        bytes: &'data [u8],
        file: &ElfBytes<'_, E>,
    ) -> Result<Self, AllocError>
        ensures headers { IfOk result (λ made. headers_view made ≡ headers_of (view file.now)) }
        ensures bytes { IfOk result (λ made. made.bytes.now ≡ bytes.now) }
    {
        Ok(FileInMemory {
            ehdr: file.ehdr,
            declares_sections: file.declares_sections(),
            sections: file.each_section().collect(alloc)?,
            segments: file.each_segment().collect(alloc)?,
            bytes,
        })
    }
}

impl<'data, E: EndianParse> Headers<E> for FileInMemory<'data, E> {
    ghost use Rattle.nugwier_report.specs.Whole.{memory_file};

    ghost file = { memory_file E.little };

    fn headers(&self) -> FileHeaders<'_, E> {
        FileHeaders {
            endianness: self.ehdr.endianness,
            class: self.ehdr.class,
            e_shstrndx: self.ehdr.e_shstrndx,
            size: self.bytes.len() as u64,
            declares_sections: self.declares_sections,
            sections: HeaderList::List(self.sections.as_slice()),
            segments: HeaderList::List(self.segments.as_slice()),
        }
    }
}

impl<'data, E: EndianParse> Reader<E> for FileInMemory<'data, E> {
    ghost use Rattle.elf.specs.Parts.{all_ranges};
    ghost use Rattle.nugwier_report.specs.Whole.{memory_file};

    ghost ranges = { λ f. all_ranges (memory_file E.little f) };

    fn range(&self, start: u64, size: u64) -> Result<&[u8], ReadError> {
        Ok(get_bytes(self.bytes, start as usize, size as usize)?)
    }
}

impl<'data, E: EndianParse> ListedFile<E> for FileInMemory<'data, E> {
    ghost use Rattle.nugwier_report.specs.Whole.{memory_range};

    ghost header = { λ f. f.ehdr };

    ghost bytes = { memory_range };

    fn file_header(&self) -> FileHeader<E> {
        self.ehdr
    }

    fn section_list(&self) -> &[SectionHeader] {
        self.sections.as_slice()
    }

    fn segment_list(&self) -> &[ProgramHeader] {
        self.segments.as_slice()
    }

    fn is_part_of_whole(&self) {}
}
