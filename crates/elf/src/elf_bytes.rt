//! The reader over a slice of a file's bytes.
ghost use Rattle.std.specs.Prelude.{◌≡◌};
ghost use Rattle.std.specs.Option.{option_map};
ghost use Rattle.elf_records.specs.Number.{ok_map};
ghost use Rattle.elf_records.specs.Table.{table_view};
ghost use Rattle.elf_reading.specs.Opening.{opened_by_segments, opened_file};
ghost use Rattle.elf.specs.ElfBytes.{view};

use elf_parts::endian::EndianParse;
use elf_parts::file::FileHeader;
use elf_parts::parse::ParseError;
use elf_parts::section::SectionHeaderTable;
use elf_parts::segment::SegmentTable;
use elf_reading::opening::{open, open_by_segments};

mod common;
mod data;
mod dynamic;
mod headers;
mod names;
mod segments;
mod symbols;
mod versions;

pub use common::CommonElfData;

/// An ELF file in a slice of bytes, with its header and its two tables of headers. It borrows from the slice, copies
/// none of it and allocates no memory.
///
/// `ehdr` may be changed: the methods use its current class, byte order and `e_shstrndx`. The two tables remain those
/// that were found when the file was opened. A method that takes a section header or a program header reads the range
/// that this header states. The header usually comes from one of the two tables, but one that the caller made is read
/// in the same way.
#[derive(Debug, Drop)]
pub struct ElfBytes<'data, E: EndianParse> {
    pub ehdr: FileHeader<E>,
    data: &'data [u8],
    shdrs: Option<SectionHeaderTable<'data, E>>,
    phdrs: Option<SegmentTable<'data, E>>,
}

impl<'data, E: EndianParse> ElfBytes<'data, E> {
    /// Opens a file, given all of its bytes: reads its header and finds its two tables (gABI, chapters "ELF Header",
    /// "Sections" and "Program Header"). A table whose offset is 0 is not declared.
    ///
    /// The error is that of the first step that fails. The steps are the identification, the tail of the file header,
    /// the section headers and the program headers.
    ///
    /// Errors of the header, in order: `SliceReadError((0, 16))` if the data are shorter; those of `parse_ident`;
    /// `SliceReadError((16, end))` if the tail does not lie in the data.
    ///
    /// Errors of a table, in order: that of the first section header at `e_shoff`, if it holds the count (`e_shnum` is
    /// 0, `e_phnum` is `PN_XNUM`); `BadEntsize((found, expected))`; `IntegerOverflow` if the end of the table does not
    /// fit 64 bits; `SliceReadError((start, end))` if the table does not lie in the data.
    ///
    /// ```rust
    /// let file = ElfBytes::<AnyEndian>::minimal_parse(bytes)?;
    /// println!(rt; "machine {}", file.ehdr.e_machine)?;
    /// ```
    pub fn minimal_parse(data: &'data [u8]) -> Result<Self, ParseError>
        ensures { ok_map view result ≡ opened_file E.little E.of_byte «data».now }
    {
        let found = open(data)?;
        Ok(ElfBytes {
            ehdr: found.ehdr,
            data,
            shdrs: found.shdrs,
            phdrs: found.phdrs,
        })
    }

    /// Opens a file through its header and its program headers alone, as the dynamic linker does (gABI, chapter "Program
    /// Header"): the file declares no section headers. So the segments of a file whose section headers cannot be read
    /// are read, for example of one that was cut short.
    ///
    /// The errors of the header are those of `minimal_parse`, and so are those of the program headers.
    ///
    /// ```rust
    /// let file = match ElfBytes::<AnyEndian>::minimal_parse(bytes) {
    ///     Ok(file) => file,
    ///     Err(_) => ElfBytes::parse_by_segments(bytes)?,
    /// };
    /// ```
    pub fn parse_by_segments(data: &'data [u8]) -> Result<Self, ParseError>
        ensures { ok_map view result ≡ opened_by_segments E.little E.of_byte «data».now }
    {
        let found = open_by_segments(data)?;
        Ok(ElfBytes {
            ehdr: found.ehdr,
            data,
            shdrs: found.shdrs,
            phdrs: found.phdrs,
        })
    }

    /// Returns the file with these parts: its header, its bytes and the two tables that it declares. So a file that
    /// was opened elsewhere is not opened again. Nothing is checked: with the parts of an opened file it is that file,
    /// and with any others each method answers by what they say.
    pub fn from_parts(
        ehdr: FileHeader<E>,
        data: &'data [u8],
        sections: Option<SectionHeaderTable<'data, E>>,
        segments: Option<SegmentTable<'data, E>>,
    ) -> Self
        ensures { view result ≡ record {
          ehdr = ehdr;
          bytes = «data».now;
          sections = option_map table_view sections.entry;
          segments = option_map table_view segments.entry;
        } }
    {
        ElfBytes {
            ehdr,
            data,
            shdrs: sections,
            phdrs: segments,
        }
    }

    /// Returns the bytes of the whole file.
    pub fn data(&self) -> &'data [u8]
        ensures { result.now ≡ (view self.now).bytes }
    {
        self.data
    }

    /// Returns the program headers, or `None` if the file declares none.
    ///
    /// ```rust
    /// if let Some(segments) = file.segments() {
    ///     for segment in segments {
    ///         println!(rt; "{} bytes at {:#x}", segment.p_memsz, segment.p_vaddr)?;
    ///     }
    /// }
    /// ```
    pub fn segments(&self) -> Option<SegmentTable<'data, E>>
        ensures { option_map table_view result ≡ (view self.now).segments }
    {
        self.phdrs
    }

    /// Returns the section headers, or `None` if the file declares none.
    ///
    /// ```rust
    /// if let Some(sections) = file.section_headers() {
    ///     for section in sections {
    ///         println!(rt; "type {}, {} bytes", section.sh_type, section.sh_size)?;
    ///     }
    /// }
    /// ```
    pub fn section_headers(&self) -> Option<SectionHeaderTable<'data, E>>
        ensures { option_map table_view result ≡ (view self.now).sections }
    {
        self.shdrs
    }
}
