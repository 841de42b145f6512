//! The headers of a stream, and the ranges that it has loaded.
use super::ElfStream;
use super::loaded::cached_range;
use crate::headers::{FileHeaders, HeaderList, Headers};
use crate::read_error::ReadError;
use crate::reader::Reader;
use elf_parts::endian::EndianParse;
use elf_reading::source::StreamSource;
use std::alloc::Allocator;

impl<E: EndianParse, S: StreamSource, A: Allocator + Copy> Headers<E> for ElfStream<E, S, A> {
    ghost use Rattle.elf.specs.Loaded.{streamed_file};

    ghost file = { streamed_file E.little };

    #[inline(always)]
    fn headers(&self) -> FileHeaders<'_, E> {
        FileHeaders {
            endianness: self.ehdr.endianness,
            class: self.ehdr.class,
            e_shstrndx: self.ehdr.e_shstrndx,
            size: self.len,
            declares_sections: self.declares_sections,
            sections: HeaderList::List(self.shdrs.as_slice()),
            segments: HeaderList::List(self.phdrs.as_slice()),
        }
    }
}

impl<E: EndianParse, S: StreamSource, A: Allocator + Copy> Reader<E> for ElfStream<E, S, A> {
    ghost use Rattle.elf.specs.Loaded.{loaded_ranges};

    ghost ranges = { loaded_ranges };

    fn range(&self, start: u64, size: u64) -> Result<&[u8], ReadError> {
        cached_range(&self.cache, self.len, start, size)
    }
}
