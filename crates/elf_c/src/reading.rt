//! A file is read as far as it is loaded.
ghost use Rattle.std.specs.Prelude.{◌≡◌};

use crate::file::{NugwierFile, file_in};
use elf::headers::{FileHeaders, Headers, sections_of, segments_of};
use elf::reader::Reader;
use elf::{LoadedParts, ReadError};
use elf_parts::endian::AnyEndian;

// What is loaded of a file.
#[inline(always)]
pub(crate) fn loaded_in<'data>(file: &NugwierFile<'data>) -> LoadedParts<'data>
    ensures size { result.size ≡ file.now.size }
    ensures front { result.front ≡ file.now.bytes }
    ensures ranges { result.ranges ≡ file.now.ranges }
{
    LoadedParts {
        size: file.size,
        front: file.bytes,
        ranges: file.ranges,
    }
}

impl<'data> Headers<AnyEndian> for NugwierFile<'data> {
    ghost use Rattle.elf_c.specs.Loaded.{headers_of_c};

    ghost file = { headers_of_c };

    #[inline(always)]
    fn headers(&self) -> FileHeaders<'_, AnyEndian> {
        let file = file_in(self);
        let sections = file.section_headers();
        FileHeaders {
            endianness: file.ehdr.endianness,
            class: file.ehdr.class,
            e_shstrndx: file.ehdr.e_shstrndx,
            size: self.size,
            declares_sections: sections.is_some(),
            sections: sections_of(sections),
            segments: segments_of(file.segments()),
        }
    }
}

impl<'data> Reader<AnyEndian> for NugwierFile<'data> {
    ghost use Rattle.elf_c.specs.Loaded.{ranges_of_c};

    ghost ranges = { ranges_of_c };

    fn range(&self, start: u64, size: u64) -> Result<&[u8], ReadError> {
        loaded_in(self).range(start, size)
    }
}
