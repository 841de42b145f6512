//! The headers of a file in memory, and its ranges.
ghost use Rattle.std.specs.Prelude.{◌≡◌};

use super::ElfBytes;
use crate::headers::{FileHeaders, Headers, sections_of, segments_of};
use crate::read_error::ReadError;
use crate::reader::Reader;
use elf_parts::endian::EndianParse;
use elf_records::parse::get_bytes;

impl<'data, E: EndianParse> Headers<E> for ElfBytes<'data, E> {
    ghost use Rattle.elf.specs.ElfBytes.{view};
    ghost use Rattle.elf.specs.ObjectFile.{object_file};

    ghost file = { λ s. object_file E.little (view s) };

    #[inline(always)]
    fn headers(&self) -> FileHeaders<'_, E> {
        FileHeaders {
            endianness: self.ehdr.endianness,
            class: self.ehdr.class,
            e_shstrndx: self.ehdr.e_shstrndx,
            size: self.data.len() as u64,
            declares_sections: self.shdrs.is_some(),
            sections: sections_of(self.shdrs),
            segments: segments_of(self.phdrs),
        }
    }
}

impl<'data, E: EndianParse> Reader<E> for ElfBytes<'data, E> {
    ghost use Rattle.elf.specs.ElfBytes.{view};
    ghost use Rattle.elf.specs.ObjectFile.{object_file};
    ghost use Rattle.elf.specs.Parts.{all_ranges};

    ghost ranges = { λ s. all_ranges (object_file E.little (view s)) };

    fn range(&self, start: u64, size: u64) -> Result<&[u8], ReadError> {
        Ok(get_bytes(self.data, start as usize, size as usize)?)
    }
}
