//! A file that is listed: its headers, in lists, and what is loaded of it.
ghost use Rattle.std.specs.Prelude.{◌≡◌, ℕ, true, List, Result};
ghost use Rattle.elf.specs.Parts.{ArePartOf};
ghost use Rattle.elf_records.specs.declared.file.FileHeader.{FileHeader as HeaderOf};
ghost use Rattle.elf_records.specs.declared.parse.ParseError.{ParseError};
ghost use Rattle.nugwier_report.specs.Whole.{file_of};

use elf::endian::EndianParse;
use elf::file::FileHeader;
use elf::reader::Reader;
use elf::section::SectionHeader;
use elf::segment::ProgramHeader;
use elf::{ElfStream, StreamSource};
use std::alloc::Global;

/// A file that is listed. Its headers are lists, and what is loaded of it is a part of the whole file.
pub trait ListedFile<E: EndianParse>: Reader<E> {
    // The file header.
    ghost header: { Self → HeaderOf E };

    // The bytes of each range of the whole file, or why they cannot be read.
    ghost bytes: { Self → ℕ → ℕ → Result (List ℕ) ParseError };

    /// Returns the file header.
    fn file_header(&self) -> FileHeader<E>
        ensures { result ≡ header self.now };

    /// Returns the section headers. There are none if the file declares none.
    fn section_list(&self) -> &[SectionHeader]
        ensures { result.now ≡ (Self.Headers.file self.now).sections };

    /// Returns the program headers. There are none if the file declares none.
    fn segment_list(&self) -> &[ProgramHeader]
        ensures { result.now ≡ (Self.Headers.file self.now).segments };

    /// States that the ranges that are loaded are those of the whole file: each is read as the file has it, or is
    /// missing.
    fn is_part_of_whole(&self)
        ensures { ArePartOf (file_of (Self.Headers.file self.now) (bytes self.now)) (λ _. true)
            (Self.Reader.ranges self.now) };
}

impl<E: EndianParse, S: StreamSource> ListedFile<E> for ElfStream<E, S, Global> {
    ghost use Rattle.nugwier_report.specs.Whole.{stream_range};

    ghost header = { λ s. s.headers.ehdr };

    ghost bytes = { stream_range };

    fn file_header(&self) -> FileHeader<E> {
        self.ehdr
    }

    fn section_list(&self) -> &[SectionHeader] {
        self.section_headers().as_slice()
    }

    fn segment_list(&self) -> &[ProgramHeader] {
        self.segments().as_slice()
    }

    #[tactic(auto, using(crate::proofs::Follows::part_of_whole))]
    fn is_part_of_whole(&self) {
        self.is_part_of_file();
    }
}
